// Format: a fresh volume on every byte of the image. The outcome is the one of the definition in model.
#![tactic(auto)]

ghost use Rattle.std.specs.Prelude.{◌≡◌, ◌+◌, ◌*◌, ◌≤◌, ◌<◌, length, leb, ltb};
ghost use Rattle.model.specs.Bytes.{view, paste, put_word, one_if, ◌and◌};
ghost use Rattle.model.specs.Names.{part};
ghost use Rattle.model.specs.Map.{weight, map_blocks, fresh_bits, fresh_map};
ghost use Rattle.model.specs.Directory.{volume_chain, map_place};
ghost use Rattle.model.specs.Sound.{whole_blocks};
ghost use Rattle.model.specs.Format.{linked, volume_header, formatted, format as formatCall};
ghost use Rattle.model.specs.Answers.{Does};

use model::{Refusal, Stamp};

const BLOCK: usize = 512;

// Where the volume's header begins: slot 1 of block 2.
const VOLUME_HEADER: usize = 1028;

const SLOT_SIZE: usize = 39;

const MAP_BLOCK: usize = 6;

// Where the map begins.
const MAP_START: usize = 3072;

// $52: whether so many bytes are 16 to 65,535 whole blocks.
#[tactic(auto, using(crate::proofs::Laws::whole_part, crate::proofs::Laws::whole_few, crate::proofs::Laws::whole_most))]
fn is_whole(size: usize) -> bool
    ensures { result ≡ whole_blocks size }
{
    let n = size / BLOCK;
    size % BLOCK == 0 && 16 <= n && n <= 65535
}

// A block's links to those before and after it.
fn put_link(img: &mut [u8], block: usize, previous: usize, next: usize)
    requires { block * 512 + 512 ≤ length img.old }
    ensures { view img.new ≡ put_word (put_word (view img.old) (block * 512) previous) (block * 512 + 2) next }
{
    store::put_word(img, block * BLOCK, previous);
    store::put_word(img, block * BLOCK + 2, next);
}

// The volume directory is blocks 2, 3, 4, 5.
#[tactic(auto, unfolding(model::specs::Format::linked))]
fn put_links(img: &mut [u8])
    requires { 3072 ≤ length img.old }
    ensures { view img.new ≡ linked (view img.old) 0 volume_chain }
{
    put_link(img, 2, 0, 3);
    put_link(img, 3, 2, 4);
    put_link(img, 4, 3, 5);
    store::put_word(img, 5 * BLOCK, 4);
}

// The volume's header, in the slot that is lent from the image.
#[tactic(auto, using(entries::proofs::Laws::slot_back, model::proofs::ByteLaws::length_part))]
fn put_header(img: &mut [u8], n: usize, name: &[u8], stamp: Stamp)
    requires { (3072 ≤ length img.old) × (length name.now ≤ 15) }
    ensures { view img.new ≡ paste (view img.old) 1028 39 (volume_header n (view name.now) (part 0 (length name.now)) stamp) }
{
    let slot = &mut img[VOLUME_HEADER..VOLUME_HEADER + SLOT_SIZE];
    entries::write_volume_header(slot, n, name, stamp);
}

// What the bit of a block counts, where the blocks from `free` up to n are free.
#[tactic(auto, using(crate::proofs::Laws::bit_none, crate::proofs::Laws::bit_one))]
fn bit_of(free: usize, n: usize, block: usize, i: usize) -> usize
    requires { i < 8 }
    ensures { (result ≡ one_if (leb free block and ltb block n) * weight i) × (result ≤ 128) }
{
    if free <= block && block < n {
        0x80 >> i
    } else {
        0
    }
}

// A map byte, bit by bit.
#[tactic(auto, using(crate::proofs::Laws::fresh_none, crate::proofs::Laws::fresh_next))]
fn mixed_byte(free: usize, n: usize, block: usize) -> usize
    requires { block ≤ 65536 }
    ensures { result ≡ fresh_bits free n block 8 }
{
    let mut byte = 0;
    for i in 0..8 {
        byte += bit_of(free, n, block + i, i);
    }
    byte
}

// The map byte of the eight blocks from `block` on: where all are free, at once.
#[tactic(auto, using(crate::proofs::Laws::fresh_whole))]
fn map_byte(free: usize, n: usize, block: usize) -> usize
    requires { block ≤ 65536 }
    ensures { result ≡ fresh_bits free n block 8 }
{
    if free <= block && block + 8 <= n {
        0xFF
    } else {
        mixed_byte(free, n, block)
    }
}

// The map: free are the blocks behind it.
#[tactic(auto, unfolding(model::specs::Map::map_blocks))]
fn put_map(img: &mut [u8], n: usize)
    requires { (n ≤ 65535) × (3072 + map_blocks n * 512 ≤ length img.old) }
    ensures { view img.new ≡ paste (view img.old) 3072 (map_blocks n * 512) (fresh_map (map_place + map_blocks n) n) }
{
    let blocks = map::map_blocks(n);
    let free = MAP_BLOCK + blocks;
    let size = blocks * BLOCK;
    let map = &mut img[MAP_START..MAP_START + size];
    for (j, byte) in map.iter_mut().enumerate() {
        *byte = map_byte(free, n, j * 8) as u8;
    }
}

// A fresh volume of n blocks: all 0, then the links, the header and the map.
#[tactic(auto, using(entries::proofs::Laws::all_cleared), unfolding(model::specs::Format::formatted, model::specs::Directory::at, model::specs::Map::map_blocks))]
fn format_blocks(img: &mut [u8], n: usize, name: &[u8], stamp: Stamp)
    requires { (16 ≤ n) × (n ≤ 65535) × (length img.old ≡ n * 512) × (length name.now ≤ 15) }
    ensures { view img.new ≡ formatted n (view name.now) (length name.now) stamp }
{
    let size = img.len();
    store::clear_run(img, 0, size);
    put_links(img);
    put_header(img, n, name, stamp);
    put_map(img, n);
}

// Format: whatever the image was, a volume with the name and no file.
#[tactic(auto, using(crate::proofs::Laws::whole_facts, crate::proofs::Laws::format_size, crate::proofs::Laws::format_name, crate::proofs::Laws::format_done, names::proofs::CursorLaws::name_size_law))]
pub fn format(img: &mut [u8], name: &[u8], stamp: Stamp) -> Result<(), Refusal>
    ensures { Does (formatCall (length img.old) (view img.old) (view name.now) (length name.now) stamp) (length img.old) result img.new }
{
    let size = img.len();
    if !is_whole(size) {
        return Err(Refusal::NotProdos);
    }
    if !names::is_proper_name(name) {
        return Err(Refusal::BadPath);
    }
    format_blocks(img, size / BLOCK, name, stamp);
    Ok(())
}
