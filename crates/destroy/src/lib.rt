// Destroy: a file, or a directory with no entries, leaves its directory, and its blocks are given back.
// It answers for every image and every path; a refusal has the number of document 01 and changes no byte.
#![tactic(auto)]

ghost use Rattle.std.specs.Prelude.{◌≡◌, ◌<◌, length};
ghost use Rattle.model.specs.Bytes.{view};
ghost use Rattle.model.specs.Kinds.{key_of};
ghost use Rattle.model.specs.Directory.{map_place, at};
ghost use Rattle.model.specs.Calls.{given_all};
ghost use Rattle.model.specs.Destroy.{destroy as destroyCall};
ghost use Rattle.model.specs.Answers.{Does};
ghost use Rattle.directory.specs.Slots.{place_number};
ghost use Rattle.release.specs.Loose.{Whole, Loose};
ghost use Rattle.destroy.specs.Gone.{may_go, entry_blocks, entry_destroy, Goes};

use directory::Home;
use model::{Entry, Kind, Place, Refusal};
use opening::Opened;

const BLOCK: usize = 512;

// Where a header counts its active entries.
const COUNT: usize = 0x25;

// $4E of an entry: the destroy bit, and no directory with entries.
fn may_destroy(img: &[u8], n: usize, entry: Entry) -> bool
    requires { Whole n img.now × (key_of entry.kind < n) }
    ensures { result ≡ may_go (view img.now) entry }
{
    if !model::allows(entry.access, model::DESTROY) {
        return false;
    }
    match entry.kind {
        Kind::Directory(key) => store::get_word(img, key as usize * BLOCK + COUNT) == 0,
        Kind::Seedling(_) | Kind::Sapling(_) | Kind::Tree(_) => true,
    }
}

// Gives back all blocks of an entry.
fn give_blocks(img: &mut [u8], n: usize, entry: Entry)
    requires { Whole n img.old × Loose n (entry_blocks (view img.old) entry) }
    ensures { view img.new ≡ given_all map_place (view img.old) (entry_blocks (view img.old) entry) }
{
    let key = model::key_of(entry.kind) as usize;
    let Some(height) = opening::height_of(entry.kind) else {
        release::give_chain(img, n, key, entry.used as usize);
        return;
    };
    release::give_tree(img, n, height, key);
}

// The work on an entry of a directory: its blocks, the directory's count, and the first byte of its slot.
fn destroy_entry(
    img: &mut [u8],
    n: usize,
    home: Home,
    place: Place,
    entry: Entry,
) -> Result<(), Refusal>
    requires { Whole n img.old × Goes n (view img.old) home place entry }
    ensures { Does (entry_destroy (view img.old) home.key (at (place_number place)) entry) (length img.old) result img.new }
{
    if !may_destroy(img, n, entry) {
        return Err(Refusal::Locked);
    }
    let counted = home.key as usize * BLOCK + COUNT;
    let count = store::get_word(img, counted);
    give_blocks(img, n, entry);
    store::put_word(img, counted, count - 1);
    store::put_byte(img, directory::slot_at(place), 0);
    Ok(())
}

// Destroy: the entry that a path leads to.
pub fn destroy(img: &mut [u8], path: &[u8]) -> Result<(), Refusal>
    ensures { Does (destroyCall (length img.old) (view img.old) (view path.now) (length path.now)) (length img.old) result img.new }
{
    match opening::opened_by(img, path)? {
        Opened::Volume(_) => Err(Refusal::Locked),
        Opened::Entry {
            blocks,
            home,
            place,
            entry,
        } => destroy_entry(img, blocks, home, place, entry),
    }
}
