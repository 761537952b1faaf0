// What write and set EOF share: a file's end zeroed, new key blocks, and the entry written anew.
// A file has a height (0 seedling, 1 sapling, 2 tree), a number since code and definitions count by it, and a key. Document 01, "Growing".
#![tactic(auto)]

ghost use Rattle.std.specs.Prelude.{◌≡◌, not, ◌+◌, ◌-◌, ◌*◌, ◌%◌, ◌≤◌, ◌<◌, length, ltb};
ghost use Rattle.model.specs.Bytes.{view, put, put_word, put_long};
ghost use Rattle.model.specs.Map.{room, lowest};
ghost use Rattle.model.specs.Directory.{map_place};
ghost use Rattle.model.specs.File.{height_for, span, put_pointer};
ghost use Rattle.model.specs.Grow.{zeroed_from, topped, raised, raised_key};
ghost use Rattle.model.specs.Calls.{backed_up, put_stamp};
ghost use Rattle.model.proofs.Laws.Move.{Fit};
ghost use Rattle.facts.specs.Reached.{Deep};
ghost use Rattle.growth.specs.Growth.{noted_as, grown_from, grown_key_from};

use model::Stamp;

const MAP_BLOCK: usize = 6;

// Pointer i of an index block becomes p.
// By division, as the definition: of the eight bytes of a number a pointer has two, which lie apart.
#[tactic(auto, unfolding(model::specs::File::put_pointer))]
pub fn put_pointer(img: &mut [u8], block: usize, i: usize, p: usize)
    requires { (i < 256) × (block * 512 + 512 ≤ length img.old) }
    ensures { view img.new ≡ put_pointer (view img.old) block i p }
{
    store::put_byte(img, block * 512 + i, (p % 256) as u8);
    store::put_byte(img, block * 512 + 256 + i, (p / 256 % 256) as u8);
}

// Whether a file's last block is full: no block has bytes at EOF and after.
#[tactic(auto, unfolding(model::specs::File::span))]
fn ends_full(eof: usize) -> bool
    requires { eof < 16777216 }
    ensures { result ≡ not (ltb eof (span eof * 512)) }
{
    eof != 0 && eof % 512 == 0
}

// Every byte the file owns at EOF and after becomes 0.
// The image that changes stays beside its number of blocks: in a struct each contract would have to say that it is the same image still.
#[tactic(auto, unfolding(model::specs::Grow::zeroed_from))]
pub fn zero_tail(img: &mut [u8], n: usize, height: usize, key: usize, eof: usize)
    requires { (n ≤ 65535) × (length img.old ≡ n * 512) × (height < 3) × (eof < 16777216) × Deep n (view img.old) height key }
    ensures { view img.new ≡ zeroed_from (view img.old) height key eof }
{
    if ends_full(eof) {
        return;
    }
    let block = file::data_block(img, n, height, key, eof / 512);
    if block == 0 {
        return;
    }
    let offset = eof % 512;
    store::clear_run(img, block * 512 + offset, 512 - offset);
}

// A new key block over a key: the lowest free block, with the old key as its pointer 0.
#[tactic(auto, using(crate::proofs::Laws::map_fits, crate::proofs::Laws::first_lowest))]
fn top(img: &mut [u8], n: usize, key: usize) -> usize
    requires { (16 ≤ n) × (n ≤ 65535) × (length img.old ≡ n * 512) × (lowest map_place (view img.old) n < n) }
    ensures value { result ≡ lowest map_place (view img.old) n }
    ensures img_after { view img.new ≡ topped map_place (view img.old) key result }
{
    let block = map::first_free(img, MAP_BLOCK, n, 0);
    map::take(img, MAP_BLOCK, block);
    put_pointer(img, block, 0, key);
    block
}

// New key blocks over a key, from a height up to another.
pub fn raise(img: &mut [u8], n: usize, height: usize, goal: usize, key: usize) -> usize
    requires { (length img.old ≡ n * 512) × Fit n (view img.old) height 0 key × (goal - height ≤ room map_place (view img.old) n) }
    ensures img_after { view img.new ≡ raised map_place n (view img.old) key (goal - height) }
    ensures value { result ≡ raised_key map_place n (view img.old) key (goal - height) }
{
    let mut above = key;
    for _ in height..goal {
        above = top(img, n, above);
    }
    above
}

// EOF grows to an end: the bytes at EOF and after are zeroed, then new keys are taken. Gives the key.
#[tactic(auto, unfolding(crate::specs::Growth::grown_from, crate::specs::Growth::grown_key_from))]
pub fn grow(img: &mut [u8], n: usize, height: usize, key: usize, eof: usize, end: usize) -> usize
    requires img_len { (length img.old ≡ n * 512) × (height ≡ height_for eof) × (eof < 16777216) × Fit n (view img.old) height 0 key }
    requires height_bound { height_for end - height ≤ room map_place (view img.old) n }
    ensures img_after { view img.new ≡ grown_from map_place n (view img.old) height key eof end }
    ensures value { result ≡ grown_key_from map_place n (view img.old) height key eof end }
{
    if end <= eof {
        return key;
    }
    zero_tail(img, n, height, key, eof);
    raise(img, n, height, directory::height_for(end), key)
}

// The first byte of an entry: the kind of a height, and the name's length as it was.
fn first_byte(height: usize, old: u8) -> u8
    requires { height ≤ 2 }
    ensures { result ≡ (height + 1) * 16 + old % 16 }
{
    ((height + 1) * 16) as u8 + old % 16
}

// Kind, key, blocks used and EOF of the entry at an address.
fn note_file(img: &mut [u8], at: usize, height: usize, key: usize, used: usize, eof: usize)
    requires { (at + 39 ≤ length img.old) × (height ≤ 2) }
    ensures { view img.new ≡ put_long (put_word (put_word (put (view img.old) at ((height + 1) * 16 + view img.old at % 16)) (at + 0x11) key) (at + 0x13) used) (at + 0x15) eof }
{
    let first = first_byte(height, img[at]);
    store::put_byte(img, at, first);
    store::put_word(img, at + 0x11, key);
    store::put_word(img, at + 0x13, used);
    store::put_long(img, at + 0x15, eof);
}

// Access and stamp of the entry at an address.
fn note_change(img: &mut [u8], at: usize, access: u8, stamp: Stamp)
    requires { at + 39 ≤ length img.old }
    ensures { view img.new ≡ put_stamp (put (view img.old) (at + 0x1E) (backed_up access)) (at + 0x21) stamp }
{
    store::put_byte(img, at + 0x1E, entries::backed_up(access));
    entries::put_stamp(img, at + 0x21, stamp);
}

// The entry at an address, written anew. The file's blocks and the free ones were so many together: what is not free now is used.
// Eight parameters: a caller has each from a step of its own, so a struct would be filled at the call only to be taken apart here.
#[tactic(auto, using(crate::proofs::Laws::map_fits), unfolding(crate::specs::Growth::noted_as))]
pub fn note(
    img: &mut [u8],
    n: usize,
    at: usize,
    height: usize,
    key: usize,
    together: usize,
    eof: usize,
    stamp: Stamp,
)
    requires le_n { (16 ≤ n) × (n ≤ 65535) × (length img.old ≡ n * 512) × (at + 39 ≤ length img.old) × (height ≤ 2) }
    requires n_bound { room map_place (view img.old) n ≤ together }
    ensures { view img.new ≡ noted_as (view img.old) at height key (together - room map_place (view img.old) n) eof stamp }
{
    let used = together - map::free_blocks(img, MAP_BLOCK, n);
    let access = img[at + 0x1E];
    note_file(img, at, height, key, used, eof);
    note_change(img, at, access, stamp);
}
