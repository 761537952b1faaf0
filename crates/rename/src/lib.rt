// Rename: the last name of a path becomes the one given. All checks stand before the first changed byte; a refusal has the number of document 01.
#![tactic(auto)]

ghost use Rattle.std.specs.Prelude.{◌≡◌, ◌+◌, ◌≤◌, length};
ghost use Rattle.model.specs.Bytes.{view};
ghost use Rattle.model.specs.Rename.{named, rename as renameCall};
ghost use Rattle.model.specs.Answers.{Does};
ghost use Rattle.rename.specs.Renamed.{is_other_place, named_in, Header, Held, volume_renamed, entry_renamed};

use directory::Home;
use model::{Entry, Kind, Place, Refusal};
use opening::Opened;

// Where the volume's header begins: slot 1 of block 2.
const VOLUME_HEADER: usize = 1028;

// Where a slot has its access.
const ACCESS: usize = 0x1E;

// Whether an entry was found that stands elsewhere.
fn is_other(found: Option<(Place, Entry)>, place: Place) -> bool
    ensures { result ≡ is_other_place found place }
{
    match found {
        Some((at, _)) => at != place,
        None => false,
    }
}

// A name with the kind that stands there.
fn put_new_name(img: &mut [u8], at: usize, name: &[u8])
    requires { (at + 16 ≤ length img.old) × (length name.now ≤ 15) }
    ensures { view img.new ≡ named (view img.old) at (view name.now) (length name.now) }
{
    let kind = (img[at] / 16) as usize;
    entries::put_name(img, at, kind, name);
}

// The name in the entry that begins at `start`, and in its header where it is a directory.
fn put_names(img: &mut [u8], start: usize, kind: Kind, name: &[u8])
    requires { (start + 39 ≤ length img.old) × (length name.now ≤ 15) × Header kind (length img.old) }
    ensures { view img.new ≡ named_in kind (named (view img.old) start (view name.now) (length name.now)) (view name.now) (length name.now) }
{
    put_new_name(img, start, name);
    if let Kind::Directory(key) = kind {
        let header = key as usize * 512 + 4;
        put_new_name(img, header, name);
    }
}

// $4E; then the volume's new name.
fn rename_volume(img: &mut [u8], name: &[u8]) -> Result<(), Refusal>
    requires { (1536 ≤ length img.old) × (length name.now ≤ 15) }
    ensures { Does (volume_renamed (view img.old) (view name.now) (length name.now)) (length img.old) result img.new }
{
    if !model::allows(img[VOLUME_HEADER + ACCESS], model::RENAME) {
        return Err(Refusal::Locked);
    }
    put_new_name(img, VOLUME_HEADER, name);
    Ok(())
}

// $47 and $4E; then the entry's new name, and its backup bit.
fn rename_entry(
    img: &mut [u8],
    n: usize,
    home: Home,
    place: Place,
    entry: Entry,
    name: &[u8],
) -> Result<(), Refusal>
    requires { (length name.now ≤ 15) × Held n (length img.old) (view img.old) home place entry }
    ensures { Does (entry_renamed (view img.old) home place entry (view name.now) (length name.now)) (length img.old) result img.new }
{
    let found = directory::find_in(img, n, home.key as usize, home.used as usize, name);
    if is_other(found, place) {
        return Err(Refusal::Duplicate);
    }
    if !model::allows(entry.access, model::RENAME) {
        return Err(Refusal::Locked);
    }
    let start = directory::slot_at(place);
    put_names(img, start, entry.kind, name);
    store::put_byte(img, start + ACCESS, entries::backed_up(entry.access));
    Ok(())
}

// Rename: the last name of a path becomes the one given.
pub fn rename(img: &mut [u8], path: &[u8], name: &[u8]) -> Result<(), Refusal>
    ensures { Does (renameCall (length img.old) (view img.old) (view path.now) (length path.now) (view name.now) (length name.now)) (length img.old) result img.new }
{
    let fit = names::is_proper_name(name);
    match opening::opened_if(img, path, fit, Refusal::BadPath)? {
        Opened::Volume(_) => rename_volume(img, name),
        Opened::Entry {
            blocks,
            home,
            place,
            entry,
        } => rename_entry(img, blocks, home, place, entry, name),
    }
}
