// Data laid in a file, file block by file block: what is missing is counted first, then taken, and the data are copied.
// A file has a height (0 seedling, 1 sapling, 2 tree), a number since code and definitions count by it, and a key. Document 01, "Growing".
#![tactic(auto)]

ghost use Rattle.std.specs.Prelude.{◌≡◌, ◌+◌, ◌-◌, ◌*◌, ◌/◌, ◌%◌, ◌^◌, ◌≤◌, ◌<◌, length};
ghost use Rattle.model.specs.Bytes.{view, sum, run, one_if};
ghost use Rattle.model.specs.Map.{lowest};
ghost use Rattle.model.specs.Directory.{map_place};
ghost use Rattle.model.specs.File.{pointer};
ghost use Rattle.model.specs.Grow.{lacks_block, lacks_index, need as needs};
ghost use Rattle.model.specs.Write.{poured, touched};
ghost use Rattle.facts.specs.Reached.{Deep};
ghost use Rattle.pour.specs.Pouring.{Hinted, reached, reached_by, Roomy, Backed, laid_in, Pourable};

const MAP_BLOCK: usize = 6;

// The block that was asked for, and a block below which none is free.
#[derive(Clone, Copy)]
pub struct Reached {
    pub block: usize,
    pub hint: usize,
}

// The file blocks that a height reaches.
fn breadth(height: usize) -> usize
    requires { height < 3 }
    ensures { result ≡ 256 ^ height }
{
    match height {
        0 => 1,
        1 => 256,
        _ => 65536,
    }
}

// Whether file block p is missing.
// The image is lent with its number of blocks: a struct of both would be two, one for `&` and one for `&mut`.
#[tactic(auto, unfolding(model::specs::Grow::lacks_block))]
fn lacks_block(img: &[u8], n: usize, height: usize, key: usize, p: usize) -> bool
    requires { (n ≤ 65535) × (length img.now ≡ n * 512) × (height < 3) × Deep n (view img.now) height key }
    ensures { one_if result ≡ lacks_block (view img.now) height key p }
{
    breadth(height) <= p || file::data_block(img, n, height, key, p) == 0
}

// Whether index i of a file that becomes a tree is missing.
#[tactic(auto, unfolding(model::specs::Grow::lacks_index))]
fn lacks_index(img: &[u8], height: usize, key: usize, i: usize) -> bool
    requires { (i < 256) × (key * 512 + 512 ≤ length img.now) }
    ensures { one_if result ≡ lacks_index (view img.now) height key i }
{
    if height == 2 {
        store::get_pointer(img, key, i) == 0
    } else {
        i != 0
    }
}

// How many of the file blocks from p to the end are missing.
fn lacks_blocks(img: &[u8], n: usize, height: usize, key: usize, p: usize, end: usize) -> usize
    requires { (n ≤ 65535) × (length img.now ≡ n * 512) × (height < 3) × Deep n (view img.now) height key × (end ≤ 65536) }
    ensures { (result ≡ sum (lacks_block (view img.now) height key) (run p (end - p))) × (result ≤ 65536) }
{
    (p..end)
        .filter(|q| lacks_block(img, n, height, key, *q))
        .count()
}

// How many of the indexes from i to the end are missing.
// Not one function with lacks_blocks: what they share is the library's filter and count.
fn lacks_indexes(img: &[u8], height: usize, key: usize, i: usize, end: usize) -> usize
    requires { (end ≤ 256) × (key * 512 + 512 ≤ length img.now) }
    ensures { (result ≡ sum (lacks_index (view img.now) height key) (run i (end - i))) × (result ≤ 256) }
{
    (i..end)
        .filter(|j| lacks_index(img, height, key, *j))
        .count()
}

// The blocks that a file whose height becomes the goal needs for its file blocks from p to the end.
// Seven parameters: the height and the key of a file and its image stay apart, as in the contracts of `file`.
#[tactic(auto, unfolding(model::specs::Grow::need))]
pub fn need(
    img: &[u8],
    n: usize,
    height: usize,
    key: usize,
    goal: usize,
    p: usize,
    end: usize,
) -> usize
    requires n_bound { (n ≤ 65535) × (length img.now ≡ n * 512) × (height ≤ goal) × (goal < 3) × Deep n (view img.now) height key }
    requires p_lt_end { (p < end) × (end ≤ 65536) }
    ensures { result ≡ needs (view img.now) height key goal p (end - p) }
{
    let keys = goal - height;
    let indexes = if goal == 2 {
        lacks_indexes(img, height, key, p / 256, (end - 1) / 256 + 1)
    } else {
        0
    };
    keys + indexes + lacks_blocks(img, n, height, key, p, end)
}

// The block that pointer i of a block leads to: where it is a hole, the lowest free block is taken for it.
#[tactic(auto, using(growth::proofs::Laws::map_fits, crate::proofs::Laws::low_is), unfolding(crate::specs::Pouring::reached, crate::specs::Pouring::reached_by))]
fn reach(img: &mut [u8], n: usize, key: usize, i: usize, hint: usize) -> Reached
    requires le_n { (16 ≤ n) × (n ≤ 65535) × (length img.old ≡ n * 512) × (key < n) × (i < 256) × Hinted n (view img.old) hint }
    requires n_bound { pointer (view img.old) key i ≡ 0 → lowest map_place (view img.old) n < n }
    ensures img_after { view img.new ≡ reached n (view img.old) key i }
    ensures value { result ≡ reached_by n (view img.old) key i hint }
{
    let there = store::get_pointer(img, key, i);
    if there != 0 {
        return Reached { block: there, hint };
    }
    let block = map::first_free(img, MAP_BLOCK, n, hint);
    map::take(img, MAP_BLOCK, block);
    growth::put_pointer(img, key, i, block);
    Reached {
        block,
        hint: block + 1,
    }
}

// What file block p misses below an index is taken.
#[tactic(auto, using(crate::proofs::Laws::gap_found, model::proofs::Laws::Move::fit_key), unfolding(model::specs::File::above))]
fn back_index(img: &mut [u8], n: usize, key: usize, p: usize, hint: usize) -> Reached
    requires { (length img.old ≡ n * 512) × Roomy n (view img.old) 1 key p × Hinted n (view img.old) hint }
    ensures { Backed n (view img.old) 1 key p (view img.new) result }
{
    reach(img, n, key, p % 256, hint)
}

// What file block p misses below a master index is taken, the index before the data block.
// No generic with back_index: one pointer is followed there and two here, so nothing but the number of steps is shared.
#[tactic(auto, using(crate::proofs::Laws::gap_found, model::proofs::Laws::Move::fit_key), unfolding(model::specs::File::above))]
fn back_master(img: &mut [u8], n: usize, key: usize, p: usize, hint: usize) -> Reached
    requires { (length img.old ≡ n * 512) × Roomy n (view img.old) 2 key p × Hinted n (view img.old) hint }
    ensures { Backed n (view img.old) 2 key p (view img.new) result }
{
    let index = reach(img, n, key, p / 256 % 256, hint);
    back_index(img, n, index.block, p, index.hint)
}

// What file block p misses is taken.
fn back(img: &mut [u8], n: usize, height: usize, key: usize, p: usize, hint: usize) -> Reached
    requires { (length img.old ≡ n * 512) × (height < 3) × Roomy n (view img.old) height key p × Hinted n (view img.old) hint }
    ensures { Backed n (view img.old) height key p (view img.new) result }
{
    match height {
        0 => Reached { block: key, hint },
        1 => back_index(img, n, key, p, hint),
        _ => back_master(img, n, key, p, hint),
    }
}

// Of the data at a position, what falls into file block p is laid in a block.
#[tactic(auto, unfolding(crate::specs::Pouring::laid_in))]
fn lay(img: &mut [u8], block: usize, p: usize, position: usize, buffer: &[u8])
    requires block_in_bounds { (block * 512 + 512 ≤ length img.old) × (position + length buffer.now < 16777216) }
    requires position_bound { (position < p * 512 + 512) × (p * 512 < position + length buffer.now) × (0 < length buffer.now) }
    ensures { view img.new ≡ laid_in (view img.old) block p position (view buffer.now) (length buffer.now) }
{
    let first = p * 512;
    let start = position.max(first);
    let end = (position + buffer.len()).min(first + 512);
    store::copy_run(
        img,
        block * 512 + (start - first),
        buffer,
        start - position,
        end - start,
    );
}

// The data at a position: block by block, what is missing is taken and the data are laid.
pub fn pour(img: &mut [u8], n: usize, height: usize, key: usize, position: usize, buffer: &[u8])
    requires img_len { (length img.old ≡ n * 512) × (0 < length buffer.now) × (position + length buffer.now < 16777216) }
    requires pourable { Pourable n (view img.old) height key (position / 512) (touched position (length buffer.now)) }
    ensures { view img.new ≡ poured map_place n (view img.old) height key (position / 512) (touched position (length buffer.now)) position (view buffer.now) (length buffer.now) }
{
    let end = (position + buffer.len() - 1) / 512 + 1;
    let mut hint = 0;
    for p in position / 512..end {
        let found = back(img, n, height, key, p, hint);
        lay(img, found.block, p, position, buffer);
        hint = found.hint;
    }
}
