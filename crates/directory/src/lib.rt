// Directories: the kind that follows from EOF, what a slot says, searches in a directory, and the lookup of a path.
// A slot is always lent as its 39 bytes, from the middle of the image.
#![tactic(auto)]

ghost use Rattle.std.specs.Prelude.{◌≡◌, true, [], ◌∷◌, ◌+◌, ◌*◌, ◌≤◌, ◌<◌, length};
ghost use Rattle.model.specs.Bytes.{view, word, long};
ghost use Rattle.model.specs.Names.{proper_parts, proper_path};
ghost use Rattle.model.specs.File.{height_for};
ghost use Rattle.model.specs.Kinds.{kind_for};
ghost use Rattle.model.specs.Directory.{at, volume, sort, vacant, along};
ghost use Rattle.model.specs.Calls.{target};
ghost use Rattle.model.specs.Info.{stamp_at};
ghost use Rattle.directory.specs.Slots.{place_number, Counted, entry_with, entry_of, slot_says, decoded};
ghost use Rattle.directory.specs.Search.{Readable, Searchable, slots_from, listed, LooksAt, FirstAnswer, found_in, vacancy_at};
ghost use Rattle.directory.specs.Lookup.{Sane, looked_as, inner_of, last_of};
ghost use Rattle.names.specs.Steps.{parts_left};

use model::{Entry, Kind, Place, Refusal, Stamp};
use names::{Cursor, Step};

const BLOCK: usize = 512;

const SLOT_SIZE: usize = 39;

const SLOTS: usize = 13;

// The volume directory is blocks 2, 3, 4, 5. Its header is slot 1 of block 2.
const VOLUME_BLOCK: u16 = 2;

const VOLUME_LENGTH: u16 = 4;

const VOLUME_HEADER: usize = 1028;

// What the bytes of a slot say.
// An enum of its own, since the cases are three.
#[derive(Clone, Copy)]
pub enum Slot {
    Inactive,
    // A kind that is none of the four.
    Improper,
    Active(Entry),
}

// A directory: its own place, and where its chain begins and how long it is.
#[derive(Clone, Copy)]
pub struct Home {
    pub place: Place,
    pub key: u16,
    pub used: u16,
}

// What a path leads to, where it names the volume and goes through directories.
#[derive(Clone, Copy)]
pub enum Looked {
    Missing(Home),
    There {
        home: Home,
        place: Place,
        entry: Entry,
    },
    Volume,
}

// Document 01: one match with ranges picks the kind of a data file.
#[tactic(auto, unfolding(model::specs::Kinds::kind_for))]
pub fn kind_for(eof: usize, key: u16) -> Kind
    ensures { result ≡ kind_for eof key }
{
    match eof {
        0..=512 => Kind::Seedling(key),
        513..=131072 => Kind::Sapling(key),
        _ => Kind::Tree(key),
    }
}

// The height of a data file with this EOF: 0 seedling, 1 sapling, 2 tree.
// A height is a number, as in `file`.
#[tactic(auto, using(crate::proofs::KindLaws::kind_least, model::proofs::Laws::Entry::height_most), unfolding(model::specs::File::height_for))]
pub fn height_for(eof: usize) -> usize
    ensures { (result ≡ height_for eof) × (result ≤ 2) }
{
    u8::from(kind_for(eof, 0)) as usize - 1
}

// The width of an entry's field: `get_word` and `get_long` answer numbers as addresses are.
fn word_at(slot: &[u8], at: usize) -> u16
    requires { at + 1 < length slot.now }
    ensures { result ≡ word (view slot.now) at }
{
    store::get_word(slot, at) as u16
}

fn long_at(slot: &[u8], at: usize) -> u32
    requires { at + 2 < length slot.now }
    ensures { result ≡ long (view slot.now) at }
{
    store::get_long(slot, at) as u32
}

// The stamp that is stored at `at`: its date, then its time.
#[tactic(auto, unfolding(model::specs::Info::stamp_at))]
pub fn stamp_at(slot: &[u8], at: usize) -> Stamp
    requires { at + 3 < length slot.now }
    ensures { result ≡ stamp_at (view slot.now) at }
{
    Stamp {
        date: word_at(slot, at),
        time: word_at(slot, at + 2),
    }
}

#[tactic(auto, unfolding(crate::specs::Slots::entry_with))]
fn entry_with(slot: &[u8], kind: Kind) -> Entry
    requires { length slot.now ≡ 39 }
    ensures { result ≡ entry_with (view slot.now) 0 kind }
{
    Entry {
        kind,
        ftype: slot[0x10],
        access: slot[0x1E],
        aux: word_at(slot, 0x1F),
        used: word_at(slot, 0x13),
        eof: long_at(slot, 0x15),
        created: stamp_at(slot, 0x18),
        modified: stamp_at(slot, 0x21),
    }
}

// The decoder of one slot.
#[tactic(auto, using(crate::proofs::SlotLaws::sort_improper), unfolding(crate::specs::Slots::decoded, crate::specs::Slots::entry_of, model::specs::Directory::sort_of))]
pub fn decode(slot: &[u8]) -> Slot
    requires { length slot.now ≡ 39 }
    ensures { result ≡ decoded (view slot.now) }
{
    let key = word_at(slot, 0x11);
    match slot[0] / 16 {
        0 => Slot::Inactive,
        1 => Slot::Active(entry_with(slot, Kind::Seedling(key))),
        2 => Slot::Active(entry_with(slot, Kind::Sapling(key))),
        3 => Slot::Active(entry_with(slot, Kind::Tree(key))),
        13 => Slot::Active(entry_with(slot, Kind::Directory(key))),
        _ => Slot::Improper,
    }
}

// The address of a place.
#[tactic(auto, unfolding(model::specs::Directory::at, model::specs::Directory::place))]
pub fn slot_at(place: Place) -> usize
    requires { Counted place }
    ensures { result ≡ at (place_number place) }
{
    place.block as usize * BLOCK + 4 + SLOT_SIZE * (place.slot as usize - 1)
}

// What stands at a place.
#[tactic(auto, using(crate::proofs::SlotLaws::at_place, crate::proofs::SlotLaws::slot_decoded))]
pub fn entry_at(img: &[u8], place: Place) -> Slot
    requires { (Counted place) × (place.block * 512 + 512 ≤ length img.now) × (place_number place ≡ volume → ⊥) }
    ensures { result ≡ slot_says (sort (view img.now) (place_number place)) (entry_of (view img.now) (at (place_number place))) }
{
    let start = slot_at(place);
    decode(&img[start..start + SLOT_SIZE])
}

// The entry at a place, where it is active and has the name.
fn named_at(img: &[u8], place: Place, name: &[u8]) -> Option<(Place, Entry)>
    requires { (Counted place) × (place.block * 512 + 512 ≤ length img.now) × Readable (view img.now) (place_number place) }
    ensures { result ≡ found_in (view img.now) name.now (place_number place ∷ []) }
{
    match entry_at(img, place) {
        Slot::Active(entry) => {
            let start = slot_at(place);
            if names::same_name(&img[start..start + SLOT_SIZE], name) {
                Some((place, entry))
            } else {
                None
            }
        }
        Slot::Inactive | Slot::Improper => None,
    }
}

// A place, where its slot is inactive.
fn vacant_at(img: &[u8], place: Place) -> Option<Place>
    requires { (Counted place) × (place.block * 512 + 512 ≤ length img.now) × Readable (view img.now) (place_number place) }
    ensures { result ≡ vacancy_at (vacant (view img.now) (place_number place ∷ [])) }
{
    match entry_at(img, place) {
        Slot::Inactive => Some(place),
        Slot::Improper | Slot::Active(_) => None,
    }
}

// The first answer of `look` at the slots of a block, from `first` on.
fn first_in_block<T: Copy, F: Fn(Place) -> Option<T>>(
    block: usize,
    first: usize,
    look: &F,
) -> Option<T>
    requires block_bound { (block < 65536) × (1 ≤ first) }
    requires callable { LooksAt (F.pre look.now) (slots_from block first) }
    ensures { FirstAnswer (F.post look.now) (slots_from block first) result }
{
    for slot in first..=SLOTS {
        let answer = look(Place {
            block: block as u16,
            slot: slot as u8,
        });
        if answer.is_some() {
            return answer;
        }
    }
    None
}

// The first answer of `look` at the slots of a directory: slot 1 of its key block is the header.
fn first_in<T: Copy, F: Fn(Place) -> Option<T>>(
    img: &[u8],
    n: usize,
    key: usize,
    used: usize,
    look: F,
) -> Option<T>
    requires bounds { (n ≤ 65535) × (length img.now ≡ n * 512) × Searchable n (view img.now) key used }
    requires callable { LooksAt (F.pre look) (listed (view img.now) key used) }
    ensures { FirstAnswer (F.post look) (listed (view img.now) key used) result }
{
    let mut block = key;
    let mut first: usize = 2;
    for _ in 0..used {
        let answer = first_in_block(block, first, &look);
        if answer.is_some() {
            return answer;
        }
        block = store::get_word(img, block * BLOCK + 2);
        first = 1;
    }
    None
}

// The first entry with the name in a directory.
// The image is lent with its number of blocks: a struct of both would be two, one for `&` and one for `&mut`.
pub fn find_in(img: &[u8], n: usize, key: usize, used: usize, name: &[u8]) -> Option<(Place, Entry)>
    requires { (n ≤ 65535) × (length img.now ≡ n * 512) × Searchable n (view img.now) key used }
    ensures { result ≡ found_in (view img.now) name.now (listed (view img.now) key used) }
{
    first_in(img, n, key, used, |place| named_at(img, place, name))
}

// The first inactive slot of a directory.
pub fn vacant_in(img: &[u8], n: usize, key: usize, used: usize) -> Option<Place>
    requires { (n ≤ 65535) × (length img.now ≡ n * 512) × Searchable n (view img.now) key used }
    ensures { result ≡ vacancy_at (vacant (view img.now) (listed (view img.now) key used)) }
{
    first_in(img, n, key, used, |place| vacant_at(img, place))
}

// What was found, as the home of what is below it.
fn inner_of(found: Option<(Place, Entry)>) -> Option<Home>
    ensures { result ≡ inner_of found }
{
    let (place, entry) = found?;
    match entry.kind {
        Kind::Directory(key) => Some(Home {
            place,
            key,
            used: entry.used,
        }),
        Kind::Seedling(_) | Kind::Sapling(_) | Kind::Tree(_) => None,
    }
}

// What was found for the last name of a path.
fn last_of(home: Home, found: Option<(Place, Entry)>) -> Looked
    ensures { result ≡ last_of home found }
{
    match found {
        Some((place, entry)) => Looked::There { home, place, entry },
        None => Looked::Missing(home),
    }
}

// The names from a cursor on, of which there is one at least, from the volume directory on.
fn follow(img: &[u8], n: usize, path: &[u8], from: Cursor) -> Result<Looked, Refusal>
    requires n_bound { (n ≤ 65535) × (length img.now ≡ n * 512) × Sane n (view img.now) }
    requires at_in_bounds { from.at < length path.now }
    requires at_value { proper_parts (view path.now) (parts_left (view path.now) (length path.now) from.at) ≡ true }
    ensures { result ≡ looked_as (view img.now) (along (view img.now) (view path.now) volume (parts_left (view path.now) (length path.now) from.at)) }
{
    let mut home = Home {
        place: Place {
            block: VOLUME_BLOCK,
            slot: 1,
        },
        key: VOLUME_BLOCK,
        used: VOLUME_LENGTH,
    };
    let mut cursor = from;
    // A `loop`: how many names there are is known at the last one.
    loop {
        match cursor.step(path) {
            Step::Name { start, end, next } => {
                let name = names::name_at(path, start, end);
                let found = find_in(img, n, home.key as usize, home.used as usize, name);
                if end == path.len() {
                    return Ok(last_of(home, found));
                }
                let Some(inner) = inner_of(found) else {
                    return Err(Refusal::NoDirectory);
                };
                home = inner;
                cursor = next;
            }
            // A proper path has its names up to its end.
            Step::End | Step::Bad => return Err(Refusal::NoDirectory),
        }
    }
}

// What a proper path leads to.
pub fn lookup(img: &[u8], n: usize, path: &[u8]) -> Result<Looked, Refusal>
    requires n_bound { (n ≤ 65535) × (length img.now ≡ n * 512) × Sane n (view img.now) }
    requires path_value { proper_path (view path.now) (length path.now) ≡ true }
    ensures { result ≡ looked_as (view img.now) (target (view img.now) (view path.now) (length path.now)) }
{
    match Cursor::new().step(path) {
        Step::Name { start, end, next } => {
            let name = names::name_at(path, start, end);
            if !names::same_name(&img[VOLUME_HEADER..VOLUME_HEADER + SLOT_SIZE], name) {
                return Err(Refusal::NoVolume);
            }
            if end == path.len() {
                return Ok(Looked::Volume);
            }
            follow(img, n, path, next)
        }
        // A proper path begins with a name.
        Step::End | Step::Bad => Err(Refusal::NoVolume),
    }
}
