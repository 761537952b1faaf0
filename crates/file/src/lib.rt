// The blocks and bytes of a data file: the data block of a file block, and a run of bytes read with holes as zero.
// A file has a height (0 seedling, 1 sapling, 2 tree), a number since code and definitions count by it, and a key. Document 01, "The volume on disk".
#![tactic(auto)]

ghost use Rattle.std.specs.Prelude.{◌≡◌, ℕ, ◌+◌, ◌*◌, ◌%◌, ◌≤◌, ◌<◌, length};
ghost use Rattle.model.specs.Bytes.{view, paste, from};
ghost use Rattle.model.specs.File.{pointer, data_block, file_byte};
ghost use Rattle.facts.specs.Reached.{Deep};
ghost use Rattle.file.specs.Runs.{run_in};

// The data block of file block p below an index, 0 for a hole.
// The image is lent with its number of blocks: a struct of both would be two, one for `&` and one for `&mut`.
// A hole is 0, as in the definition and on the disk. Not one function with the next: one pointer is followed here and two there.
#[tactic(auto, using(crate::proofs::Laws::in_index, crate::proofs::Laws::index_inside))]
fn block_in_index(img: &[u8], n: usize, key: usize, p: usize) -> usize
    requires { (n ≤ 65535) × (length img.now ≡ n * 512) × Deep n (view img.now) 1 key }
    ensures { (result ≡ data_block (view img.now) 1 key p) × (result < n) }
{
    store::get_pointer(img, key, p % 256)
}

// The data block of file block p below a master index, 0 for a hole.
#[tactic(auto, using(crate::proofs::Laws::master_hole, crate::proofs::Laws::in_master))]
fn block_in_master(img: &[u8], n: usize, key: usize, p: usize) -> usize
    requires { (n ≤ 65535) × (length img.now ≡ n * 512) × Deep n (view img.now) 2 key }
    ensures { (result ≡ data_block (view img.now) 2 key p) × (result < n) }
{
    let index = store::get_pointer(img, key, p / 256 % 256);
    if index == 0 {
        0
    } else {
        block_in_index(img, n, index, p)
    }
}

// The data block of file block p, 0 for a hole.
#[tactic(auto, unfolding(model::specs::File::data_block))]
pub fn data_block(img: &[u8], n: usize, height: usize, key: usize, p: usize) -> usize
    requires { (n ≤ 65535) × (length img.now ≡ n * 512) × (height < 3) × Deep n (view img.now) height key }
    ensures { (result ≡ data_block (view img.now) height key p) × (result < n) }
{
    match height {
        0 => key,
        1 => block_in_index(img, n, key, p),
        _ => block_in_master(img, n, key, p),
    }
}

// A run of bytes inside one block, which is a hole where the block is 0, to a place of the buffer.
#[tactic(auto, using(crate::proofs::Laws::hole_run, crate::proofs::Laws::block_run))]
fn read_run(buffer: &mut [u8], to: usize, img: &[u8], block: usize, offset: usize, k: usize)
    requires { (to + k ≤ length buffer.old) × (offset + k ≤ 512) × (block * 512 + 512 ≤ length img.now) }
    ensures { view buffer.new ≡ paste (view buffer.old) to k (run_in (view img.now) block offset) }
{
    if block == 0 {
        store::clear_run(buffer, to, k);
    } else {
        store::copy_run(buffer, to, img, block * 512 + offset, k);
    }
}

// How many of the bytes that are left lie in the block of a position.
fn run_length(position: usize, left: usize) -> usize
    ensures { (result ≤ left) × (position % 512 + result ≤ 512) × (0 < left → 0 < result) }
{
    left.min(512 - position % 512)
}

// The next count bytes of a file from a position on, to the front of the buffer.
// Seven parameters: what is read, from where, and where to.
#[tactic(auto, using(model::proofs::ByteLaws::paste_none, crate::proofs::Laws::run_on))]
pub fn read_bytes(
    img: &[u8],
    n: usize,
    height: usize,
    key: usize,
    position: usize,
    buffer: &mut [u8],
    count: usize,
)
    requires n_bound { (n ≤ 65535) × (length img.now ≡ n * 512) × (height < 3) × Deep n (view img.now) height key }
    requires count_in_bounds { (count ≤ length buffer.old) × (position + count ≤ 4294967295) }
    ensures { view buffer.new ≡ paste (view buffer.old) 0 count (from (file_byte (view img.now) height key) position) }
{
    // A `while`: the step is what is left of a block.
    let mut done = 0;
    while done < count {
        let at = position + done;
        let block = data_block(img, n, height, key, at / 512);
        let k = run_length(at, count - done);
        read_run(buffer, done, img, block, at % 512, k);
        done += k;
    }
}
