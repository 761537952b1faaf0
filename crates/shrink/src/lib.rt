// Shrinking a data file: keys give way to the block below them, what lies past the end is given back, and pointers to it become 0.
// A file has a height (0 seedling, 1 sapling, 2 tree), a number since code and definitions count by it, and a key. Document 01, "Shrinking".
#![tactic(auto)]

ghost use Rattle.std.specs.Prelude.{◌≡◌, suc, ◌+◌, ◌-◌, ◌*◌, ◌≤◌, ◌<◌, length};
ghost use Rattle.model.specs.Bytes.{view};
ghost use Rattle.model.specs.Directory.{map_place};
ghost use Rattle.model.specs.File.{first_below};
ghost use Rattle.model.specs.SetEof.{lowered, heir, sunk, sunk_key, pruned};
ghost use Rattle.model.proofs.Laws.Move.{Fit};

const MAP_BLOCK: usize = 6;

// A key with blocks of the height `below` under it gives way: the block under its pointer 0 is the new key, or, where that is a hole, the key
// itself, zeroed. Answers the new key.
// The image that changes stays beside its number of blocks: in a struct each contract would have to say that it is the same image still.
#[tactic(auto, using(model::proofs::Laws::Move::fit_key), unfolding(model::specs::Map::map_at))]
fn lower(img: &mut [u8], n: usize, below: usize, key: usize) -> usize
    requires { (length img.old ≡ n * 512) × (below < 2) × Fit n (view img.old) (suc below) 0 key }
    ensures img_after { view img.new ≡ lowered map_place (view img.old) below key }
    ensures value { result ≡ heir (view img.old) key }
{
    let first = store::get_pointer(img, key, 0);
    release::give_limbs(img, n, below, key, 1);
    if first == 0 {
        store::clear_run(img, key * 512, 512);
        return key;
    }
    map::give(img, MAP_BLOCK, key);
    first
}

// `count` keys give way, one after the other, down to the height `to`. Answers the new key.
fn sink(img: &mut [u8], n: usize, to: usize, key: usize, count: usize) -> usize
    requires { (length img.old ≡ n * 512) × (count + to < 3) × Fit n (view img.old) (count + to) 0 key }
    ensures img_after { view img.new ≡ sunk map_place (view img.old) to key count }
    ensures value { result ≡ sunk_key map_place (view img.old) to key count }
{
    let mut heir = key;
    for below in (to..to + count).rev() {
        heir = lower(img, n, below, heir);
    }
    heir
}

// Below a block of a height, whose number among those of its height is given, the file blocks from the end on are freed: a block with nothing
// before the end goes with all below it, another is gone through.
#[tactic(auto, using(model::proofs::Laws::FirstBlock::number_small))]
fn prune_part(img: &mut [u8], n: usize, end: usize, height: usize, number: usize, block: usize)
    requires { (length img.old ≡ n * 512) × (height < 3) × (first_below height number < 65536) × Fit n (view img.old) height number block }
    ensures { view img.new ≡ pruned map_place end (view img.old) height number block }
{
    if height == 0 {
        return;
    }
    let below = height - 1;
    for i in 0..256 {
        let child = store::get_pointer(img, block, i);
        if child == 0 {
            continue;
        }
        let part = number * 256 + i;
        if end <= part << (8 * below) {
            release::give_tree(img, n, below, child);
            growth::put_pointer(img, block, i, 0);
        } else {
            prune_part(img, n, end, below, part, child);
        }
    }
}

// The file blocks from the end on are freed.
#[tactic(auto, using(model::proofs::Laws::Room::first_zero))]
fn prune(img: &mut [u8], n: usize, end: usize, height: usize, key: usize)
    requires { (length img.old ≡ n * 512) × (height < 3) × Fit n (view img.old) height 0 key }
    ensures { view img.new ≡ pruned map_place end (view img.old) height 0 key }
{
    prune_part(img, n, end, height, 0, key);
}

// A file of a height and a key becomes one of the height `to` with nothing from file block `end` on. Answers its key.
pub fn shrink(img: &mut [u8], n: usize, height: usize, key: usize, to: usize, end: usize) -> usize
    requires { (length img.old ≡ n * 512) × (height < 3) × (to ≤ height) × Fit n (view img.old) height 0 key }
    ensures img_after { view img.new ≡ pruned map_place end (sunk map_place (view img.old) to key (height - to)) to 0 (sunk_key map_place (view img.old) to key (height - to)) }
    ensures value { result ≡ sunk_key map_place (view img.old) to key (height - to) }
{
    let heir = sink(img, n, to, key, height - to);
    prune(img, n, end, to, heir);
    heir
}
