// Create: a new file or directory with its entry and its block; a full subdirectory first gains a block. All checks stand before the first
// changed byte; a refusal has the number of document 01. The outcome is the one of the definition in model.
#![tactic(auto)]

ghost use Rattle.std.specs.Prelude.{◌≡◌, true, ◌+◌, ◌*◌, ◌≤◌, ◌<◌, length, eqb};
ghost use Rattle.model.specs.Bytes.{view, put_word, ◌or◌};
ghost use Rattle.model.specs.Names.{part, proper_path};
ghost use Rattle.model.specs.Map.{taken};
ghost use Rattle.model.specs.Directory.{map_place, chain};
ghost use Rattle.model.specs.Sound.{sound};
ghost use Rattle.model.specs.Calls.{target};
ghost use Rattle.model.specs.Create.{directory_kind, last_block, create as createCall};
ghost use Rattle.model.specs.Answers.{Does};
ghost use Rattle.directory.specs.Search.{Each};
ghost use Rattle.directory.specs.Slots.{place_number, Counted};
ghost use Rattle.release.specs.Loose.{Whole};
ghost use Rattle.create.specs.Housed.{wrong_for, housed_at, housed_by};
ghost use Rattle.create.specs.Entered.{asked, fresh_block, entered_in, gained_at, create_in, Houses, Vacant, Packed};

use directory::{Home, Looked};
use model::{Place, Refusal, Stamp};

const BLOCK: usize = 512;

const SLOT_SIZE: usize = 39;

// The volume's map begins at block 6, its directory at block 2.
const MAP_PLACE: usize = 6;

const VOLUME_BLOCK: u16 = 2;

// Where a header counts its active entries.
const COUNT: usize = 0x25;

const FILE: u8 = 1;

const DIRECTORY: u8 = 0xD;

const DIRECTORY_TYPE: u8 = 0x0F;

// What is to be created. The kind is the caller's byte: any may come, and all but 1 and $D are $4B.
#[derive(Clone, Copy)]
struct Wanted {
    kind: u8,
    ftype: u8,
    aux: u16,
    stamp: Stamp,
}

// $4B.
#[tactic(auto, using(crate::proofs::HousedLaws::kind_file, crate::proofs::HousedLaws::kind_other))]
fn is_kind(kind: u8) -> bool
    ensures { result ≡ (eqb kind 1 or eqb kind directory_kind) }
{
    kind == FILE || kind == DIRECTORY
}

// $53.
#[tactic(auto, unfolding(crate::specs::Housed::wrong_for))]
fn is_wrong_type(kind: u8, ftype: u8) -> bool
    ensures { result ≡ wrong_for kind ftype }
{
    (kind == DIRECTORY) != (ftype == DIRECTORY_TYPE)
}

// $45, $44 and $47: the directory of the last name of a proper path, where no entry has it, with the number of blocks of its volume.
#[tactic(auto, using(opening::proofs::SaneLaws::sane))]
fn housed_at(img: &[u8], n: usize, path: &[u8]) -> Result<(usize, Home), Refusal>
    requires n_bound { (n ≤ 65535) × (length img.now ≡ n * 512) × (sound n (view img.now) ≡ true) }
    requires path_value { proper_path (view path.now) (length path.now) ≡ true }
    ensures { result ≡ housed_at n (view img.now) (target (view img.now) (view path.now) (length path.now)) }
{
    match directory::lookup(img, n, path)? {
        Looked::Missing(home) => Ok((n, home)),
        Looked::There { .. } | Looked::Volume => Err(Refusal::Duplicate),
    }
}

// The rows up to $47, in their order.
fn housed_by(img: &[u8], path: &[u8], kind: u8, ftype: u8) -> Result<(usize, Home), Refusal>
    ensures { result ≡ housed_by (length img.now) (view img.now) (view path.now) (length path.now) kind ftype }
{
    let n = opening::volume_in(img)?;
    if !names::is_proper_path(path) {
        return Err(Refusal::BadPath);
    }
    if !is_kind(kind) {
        return Err(Refusal::BadKind);
    }
    if is_wrong_type(kind, ftype) {
        return Err(Refusal::BadType);
    }
    housed_at(img, n, path)
}

// The new file's block: taken, and with a header where it is a directory.
#[tactic(auto, unfolding(model::specs::Map::map_at, crate::specs::Entered::fresh_block))]
fn open_block(img: &mut [u8], z: usize, place: Place, name: &[u8], wanted: Wanted)
    requires { (4096 ≤ length img.old) × (z < 65536) × (z * 512 + 512 ≤ length img.old) × (length name.now ≤ 15) × Counted place }
    ensures { view img.new ≡ fresh_block (view img.old) z (place_number place) (view name.now) (part 0 (length name.now)) (asked wanted) }
{
    map::take(img, MAP_PLACE, z);
    if wanted.kind == DIRECTORY {
        let start = z * BLOCK + 4;
        let header = &mut img[start..start + SLOT_SIZE];
        let parent = place.block as usize;
        entries::write_subdirectory_header(header, name, wanted.stamp, parent, place.slot);
    }
}

// The new entry at a place of the directory that begins at `key`, with the free block z.
#[tactic(auto, using(directory::proofs::SlotLaws::at_place))]
fn enter(img: &mut [u8], key: usize, place: Place, z: usize, name: &[u8], wanted: Wanted)
    requires in_bounds { (4096 ≤ length img.old) × (z < 65536) × (z * 512 + 512 ≤ length img.old) × (length name.now ≤ 15) × Counted place }
    requires key_in_bounds { (key * 512 + 512 ≤ length img.old) × (place.block * 512 + 512 ≤ length img.old) × (wanted.kind < 16) }
    ensures { view img.new ≡ entered_in (view img.old) key (place_number place) z (view name.now) (part 0 (length name.now)) (asked wanted) }
{
    let counted = key * BLOCK + COUNT;
    let count = store::get_word(img, counted);
    open_block(img, z, place, name, wanted);
    store::put_word(img, counted, count + 1);
    let start = directory::slot_at(place);
    entries::write_entry(
        &mut img[start..start + SLOT_SIZE],
        name,
        wanted.kind as usize,
        wanted.ftype,
        wanted.aux,
        wanted.stamp,
        z,
        key,
    );
}

// The last block of a directory's chain.
fn last_block(img: &[u8], n: usize, key: usize, used: usize) -> usize
    requires { Whole n img.now × Each (λ b. b < n) (chain (view img.now) key used) }
    ensures { result ≡ last_block (view img.now) 0 key used }
{
    let mut last = 0;
    let mut block = key;
    for _ in 0..used {
        last = block;
        block = store::get_word(img, block * BLOCK + 2);
    }
    last
}

// Takes block `more` and links it behind the block `last`.
#[tactic(auto, unfolding(model::specs::Map::map_at))]
fn link(img: &mut [u8], last: usize, more: usize)
    requires { (4096 ≤ length img.old) × (more < 65536) × (more * 512 + 512 ≤ length img.old) × (last * 512 + 512 ≤ length img.old) }
    ensures { view img.new ≡ put_word (put_word (taken map_place (view img.old) more) (more * 512) last) (last * 512 + 2) more }
{
    map::take(img, MAP_PLACE, more);
    store::put_word(img, more * BLOCK, last);
    store::put_word(img, last * BLOCK + 2, more);
}

// The directory whose entry begins at `start`, with `used` blocks, gains block z at its end.
#[tactic(auto, unfolding(crate::specs::Entered::gained_at))]
fn gain(img: &mut [u8], start: usize, used: usize, last: usize, z: usize)
    requires in_bounds { (4096 ≤ length img.old) × (z < 65536) × (z * 512 + 512 ≤ length img.old) × (last * 512 + 512 ≤ length img.old) }
    requires start_in_bounds { (start + 39 ≤ length img.old) × (used < 65536) }
    ensures { view img.new ≡ gained_at (view img.old) start used last z }
{
    let eof = store::get_long(img, start + 0x15);
    link(img, last, z);
    store::put_word(img, start + 0x13, used + 1);
    store::put_long(img, start + 0x15, eof + BLOCK);
}

// $48; then the entry, in an inactive slot of its directory.
// The image that changes stays beside its number of blocks: in a struct each contract would have to say that it is the same image still.
fn create_at(
    img: &mut [u8],
    n: usize,
    home: Home,
    place: Place,
    name: &[u8],
    wanted: Wanted,
) -> Result<(), Refusal>
    requires whole { Whole n img.old × (length name.now ≤ 15) × (wanted.kind < 16) × Houses n (view img.old) home (place_number home.place) }
    requires vacant { Vacant (view img.old) home place }
    ensures { Does (create_in n (view img.old) (place_number home.place) (view name.now) (part 0 (length name.now)) (asked wanted)) (length img.old) result img.new }
{
    if map::free_blocks(img, MAP_PLACE, n) < 1 {
        return Err(Refusal::NoRoom);
    }
    let z = map::first_free(img, MAP_PLACE, n, 0);
    enter(img, home.key as usize, place, z, name, wanted);
    Ok(())
}

// $49 and $48; then a block for the full directory, and the entry in its first slot.
fn create_behind(
    img: &mut [u8],
    n: usize,
    home: Home,
    name: &[u8],
    wanted: Wanted,
) -> Result<(), Refusal>
    requires whole { Whole n img.old × (length name.now ≤ 15) × (wanted.kind < 16) × Houses n (view img.old) home (place_number home.place) }
    requires packed { Packed (view img.old) home }
    ensures { Does (create_in n (view img.old) (place_number home.place) (view name.now) (part 0 (length name.now)) (asked wanted)) (length img.old) result img.new }
{
    if home.key == VOLUME_BLOCK {
        return Err(Refusal::DirectoryFull);
    }
    if map::free_blocks(img, MAP_PLACE, n) < 2 {
        return Err(Refusal::NoRoom);
    }
    let key = home.key as usize;
    let used = home.used as usize;
    let last = last_block(img, n, key, used);
    let more = map::first_free(img, MAP_PLACE, n, 0);
    gain(img, directory::slot_at(home.place), used, last, more);
    let z = map::first_free(img, MAP_PLACE, n, 0);
    let place = Place {
        block: more as u16,
        slot: 1,
    };
    enter(img, key, place, z, name, wanted);
    Ok(())
}

// $49 and $48; then the work.
fn create_in(
    img: &mut [u8],
    n: usize,
    home: Home,
    name: &[u8],
    wanted: Wanted,
) -> Result<(), Refusal>
    requires { Whole n img.old × (length name.now ≤ 15) × (wanted.kind < 16) × Houses n (view img.old) home (place_number home.place) }
    ensures { Does (create_in n (view img.old) (place_number home.place) (view name.now) (part 0 (length name.now)) (asked wanted)) (length img.old) result img.new }
{
    match directory::vacant_in(img, n, home.key as usize, home.used as usize) {
        Some(place) => create_at(img, n, home, place, name, wanted),
        None => create_behind(img, n, home, name, wanted),
    }
}

// Create: a file (kind 1) or a directory (kind $D) with the last name of a path.
pub fn create(
    img: &mut [u8],
    path: &[u8],
    kind: u8,
    ftype: u8,
    aux: u16,
    stamp: Stamp,
) -> Result<(), Refusal>
    ensures { Does (createCall (length img.old) (view img.old) (view path.now) (length path.now) (record { kind = kind; ftype = ftype; aux = aux; stamp = stamp })) (length img.old) result img.new }
{
    let (n, home) = housed_by(img, path, kind, ftype)?;
    let wanted = Wanted {
        kind,
        ftype,
        aux,
        stamp,
    };
    create_in(img, n, home, names::last_name(path), wanted)
}
