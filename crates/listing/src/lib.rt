// What `catalog` prints, a page at a time: a page shows the bytes of the text from an offset on.
// The text is never held as a whole: the walk emits it (`ink`), and a page keeps what falls on it.
#![tactic(auto)]

ghost use Rattle.std.specs.Prelude.{◌≡◌, true, List, ℕ, [], ◌∷◌, ◌++◌, ◌+◌, ◌*◌, ◌/◌, ◌≤◌, ◌<◌, length, take};
ghost use Rattle.model.specs.Bytes.{view};
ghost use Rattle.model.specs.Names.{slash, name_size};
ghost use Rattle.model.specs.Directory.{at};
ghost use Rattle.model.specs.Catalog.{text, first_line, listing, refused_line, too_large_line};
ghost use Rattle.model.specs.Sound.{sound};
ghost use Rattle.directory.specs.Search.{Each, slots_from, listed};
ghost use Rattle.ink.specs.Ink.{sheet, Prints, Shows};
ghost use Rattle.listing.specs.Walked.{line_of, walked, block_count, Whole, Listed, Chained};

use ink::Ink;
use std::marker::Model;

const BLOCK: usize = 512;

const SLOT_SIZE: usize = 39;

const SLOTS: usize = 13;

// The kind of a subdirectory's entry.
const DIRECTORY: u8 = 13;

// The volume directory: its key block, the blocks of its chain, and the levels that can be below it.
const VOLUME_BLOCK: usize = 2;

const VOLUME_LENGTH: usize = 4;

const LEVEL_MOST: usize = 31;

// Where the volume's header stands, and in it the number of the map's first block.
const VOLUME_HEADER: usize = 1028;

const MAP_FIELD: usize = 1063;

// The longest path: the volume, a directory on each level and a file, each a slash and 15 bytes.
const PATH_ROOM: usize = 528;

const SPACE: u8 = b' ';

const NEWLINE: u8 = b'\n';

const SLASH: u8 = b'/';

// The path that the walk is at: the volume's name and that of each directory down to it, each behind a slash.
// Bytes with a length, since there is no heap for a `String`.
#[derive(Drop)]
struct Path {
    bytes: [u8; PATH_ROOM],
    len: usize,
}

// Clauses see the path's text.
impl Model for Path {
    ghost Value = { List ℕ };

    ghost view = { λ p. take p.len p.bytes };

    ghost invariant = { λ p. p.len ≤ 528 };
}

impl Path {
    fn new() -> Path
        ensures { result ≡ [] }
    {
        Path {
            bytes: [0; PATH_ROOM],
            len: 0,
        }
    }

    fn len(&self) -> usize
        ensures { result ≡ length self.now }
    {
        self.len
    }

    fn text(&self) -> &[u8]
        ensures { result.now ≡ self.now }
    {
        &self.bytes[..self.len]
    }

    // Puts a slash and the name that is stored at an address behind the path.
    fn push(&mut self, img: &[u8], at: usize)
        requires { (at + 16 ≤ length img.now) × (length self.old + 16 ≤ 528) }
        ensures longer { self.new ≡ self.old ++ (slash ∷ text (view img.now) (at + 1) (name_size (view img.now) at)) }
        ensures within { length self.new ≤ length self.old + 16 }
    {
        let size = (img[at] % 16) as usize;
        let end = self.len + 1 + size;
        self.bytes[self.len] = SLASH;
        self.bytes[self.len + 1..end].copy_from_slice(&img[at + 1..at + 1 + size]);
        self.len = end;
    }

    fn truncate(&mut self, len: usize)
        requires { len ≤ length self.old }
        ensures { self.new ≡ take len self.old }
    {
        self.len = len;
    }
}

// Where a slot stands, slots being counted from block 0 on.
// Not `checks::address`, which says nothing of the end of the slot.
#[tactic(auto, unfolding(model::specs::Directory::at))]
fn address_of(slot: usize) -> usize
    requires { slot / 13 < 65536 }
    ensures value { result ≡ at slot }
    ensures inside { result + 39 ≤ slot / 13 * 512 + 512 }
{
    slot / SLOTS * BLOCK + 4 + SLOT_SIZE * (slot % SLOTS)
}

// A walk over the volume: the ink of the page that it prints on, and the path that it is at.
#[derive(Drop)]
struct Walk {
    ink: Ink,
    path: Path,
}

impl Walk {
    // The line of an entry.
    // The digit of the kind is printed as it is stored, so it stays a number.
    #[tactic(auto, using(ink::proofs::InkLaws::emit_append), unfolding(ink::specs::Ink::emit))]
    fn line(&mut self, slot: &[u8], page: &mut [u8])
        requires { length slot.now ≡ 39 }
        ensures prints { Prints (line_of (view slot.now) self.old.path) (sheet self.old.ink page.old) (sheet self.new.ink page.new) }
        ensures path_kept { self.new.path ≡ self.old.path }
    {
        self.ink.byte(page, ink::hex_digit(slot[0] / 16));
        self.ink.byte(page, SPACE);
        self.ink.hex_byte(page, slot[0x10]);
        self.ink.decimal(page, store::get_word(slot, 0x13));
        self.ink.decimal(page, store::get_long(slot, 0x15));
        self.ink.byte(page, SPACE);
        self.ink.run(page, self.path.text());
        self.ink.byte(page, NEWLINE);
    }

    // The line of a slot's entry, and what is below it.
    #[cycle(block_directory_entry)]
    #[tactic(auto, using(crate::proofs::WalkLaws::slot_few, crate::proofs::WalkLaws::slot_quiet), unfolding(ink::specs::Ink::emit))]
    fn entry(&mut self, img: &[u8], slot: usize, levels: usize, page: &mut [u8])
        requires { (Whole img.now) × (slot / 13 < block_count img.now) × (length self.old.path + 16 * (levels + 1) ≤ 528) × Listed (view img.now) levels slot }
        ensures prints { Prints (walked (view img.now) levels self.old.path (slot ∷ [])) (sheet self.old.ink page.old) (sheet self.new.ink page.new) }
        ensures path_kept { self.new.path ≡ self.old.path }
    {
        let at = address_of(slot);
        let kind = img[at] / 16;
        if kind == 0 {
            return;
        }
        let len = self.path.len();
        self.path.push(img, at);
        self.line(&img[at..at + SLOT_SIZE], page);
        if kind == DIRECTORY {
            let key = store::get_word(img, at + 0x11);
            let used = store::get_word(img, at + 0x13);
            self.directory(img, key, used, levels - 1, page);
        }
        self.path.truncate(len);
    }

    // The slots of a block, from `first` on.
    #[cycle(block_directory_entry)]
    fn block(&mut self, img: &[u8], block: usize, first: usize, levels: usize, page: &mut [u8])
        requires whole { (Whole img.now) × (block < block_count img.now) × (1 ≤ first) × (length self.old.path + 16 * (levels + 1) ≤ 528) }
        requires each { Each (Listed (view img.now) levels) (slots_from block first) }
        ensures prints { Prints (walked (view img.now) levels self.old.path (slots_from block first)) (sheet self.old.ink page.old) (sheet self.new.ink page.new) }
        ensures path_kept { self.new.path ≡ self.old.path }
    {
        for slot in first..=SLOTS {
            self.entry(img, block * SLOTS + slot - 1, levels, page);
        }
    }

    // The slots of a directory: slot 1 of its key block is the header.
    #[cycle(block_directory_entry)]
    fn directory(&mut self, img: &[u8], key: usize, used: usize, levels: usize, page: &mut [u8])
        requires { (Whole img.now) × (length self.old.path + 16 * (levels + 1) ≤ 528) × Chained (block_count img.now) (view img.now) levels key used }
        ensures prints { Prints (walked (view img.now) levels self.old.path (listed (view img.now) key used)) (sheet self.old.ink page.old) (sheet self.new.ink page.new) }
        ensures path_kept { self.new.path ≡ self.old.path }
    {
        let mut block = key;
        let mut first = 2;
        for _ in 0..used {
            self.block(img, block, first, levels, page);
            block = store::get_word(img, block * BLOCK + 2);
            first = 1;
        }
    }

    // The whole listing.
    #[tactic(auto, using(crate::proofs::WalkLaws::whole, crate::proofs::WalkLaws::volume_large, crate::proofs::WalkLaws::volume_chained))]
    fn volume(&mut self, img: &[u8], n: usize, page: &mut [u8])
        requires { (length img.now ≡ n * 512) × (sound n (view img.now) ≡ true) × (self.old.path ≡ []) }
        ensures { Prints (listing n (view img.now)) (sheet self.old.ink page.old) (sheet self.new.ink page.new) }
    {
        emit_first_line(img, n, page, &mut self.ink);
        self.path.push(img, VOLUME_HEADER);
        self.directory(img, VOLUME_BLOCK, VOLUME_LENGTH, LEVEL_MOST, page);
    }
}

// Name, total, free.
#[tactic(auto, using(crate::proofs::WalkLaws::volume_large))]
fn emit_first_line(img: &[u8], n: usize, page: &mut [u8], ink: &mut Ink)
    requires { (length img.now ≡ n * 512) × (sound n (view img.now) ≡ true) }
    ensures { Prints (first_line n (view img.now)) (sheet ink.old page.old) (sheet ink.new page.new) }
{
    let name = VOLUME_HEADER + 1;
    let size = (img[VOLUME_HEADER] % 16) as usize;
    ink.run(page, &img[name..name + size]);
    ink.decimal(page, n);
    let free = map::free_blocks(img, store::get_word(img, MAP_FIELD), n);
    ink.decimal(page, free);
    ink.byte(page, NEWLINE);
}

// The ink of a page that nothing is on yet, and that shows the text from an offset on.
fn blank(offset: usize) -> Ink
    ensures { result ≡ record { skip = offset; at = 0 } }
{
    Ink {
        skip: offset,
        at: 0,
    }
}

// The page of a sound volume's listing from an offset on: how many bytes it has.
pub fn page_of_volume(img: &[u8], n: usize, offset: usize, page: &mut [u8]) -> usize
    requires { (length img.now ≡ n * 512) × (sound n (view img.now) ≡ true) }
    ensures { Shows (listing n (view img.now)) offset page.old result page.new }
{
    let mut walk = Walk {
        ink: blank(offset),
        path: Path::new(),
    };
    walk.volume(img, n, page);
    walk.ink.at
}

// The page of the line for a refused image.
// The refusal comes as its number, since the line is defined for any.
pub fn page_of_refusal(number: u8, offset: usize, page: &mut [u8]) -> usize
    ensures { Shows (refused_line number) offset page.old result page.new }
{
    let mut ink = blank(offset);
    ink.run(page, b"REFUSED ");
    ink.hex_byte(page, number);
    ink.byte(page, NEWLINE);
    ink.at
}

// The page of the line for an image that is too large.
pub fn page_of_too_large(offset: usize, page: &mut [u8]) -> usize
    ensures { Shows too_large_line offset page.old result page.new }
{
    let mut ink = blank(offset);
    ink.run(page, b"TOO LARGE\n");
    ink.at
}
