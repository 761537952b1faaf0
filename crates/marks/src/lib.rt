// Claims blocks: each must be on the volume and not be claimed before. The claimed blocks are the set bits of a lent slice, laid out as a
// map that starts at block 0, so that `map` reads and sets them. Each contract says what a list of claims comes to (crate claims).
#![tactic(auto)]

ghost use Rattle.std.specs.Prelude.{◌≡◌, true, [], ◌∷◌, ◌+◌, ◌*◌, ◌≤◌, ◌<◌, length, ltb};
ghost use Rattle.model.specs.Bytes.{view};
ghost use Rattle.model.specs.File.{first_below, nodes};
ghost use Rattle.claims.specs.Claims.{block, must, claim, outcome, chain_claims, tree_claims, reserved, map_right};
ghost use Rattle.marks.specs.Marks.{marks, nothing, took_all, took_count};

const MAP_PLACE: usize = 6;

// Claims block b. Callers lend the marks: a type of their own in place of the slice and its length would ask more of them.
#[tactic(auto, unfolding(model::specs::Map::map_at))]
pub fn claim_block(seen: &mut [u8], b: usize, n: usize) -> bool
    requires { (n ≤ 65535) × (length seen.old ≡ 8192) }
    ensures { outcome result (marks seen.new) ≡ claim n (block b ∷ []) (marks seen.old) }
{
    if b >= n || map::is_free(seen, 0, b) {
        return false;
    }
    map::give(seen, 0, b);
    true
}

// Claims the boot blocks and the map's, before any other claim.
#[tactic(auto, unfolding(model::specs::Map::map_at, model::specs::Map::map_blocks))]
pub fn reserve(seen: &mut [u8], n: usize)
    requires { (n ≤ 65535) × (length seen.old ≡ 8192) × (marks seen.old ≡ nothing) }
    ensures { marks seen.new ≡ reserved n }
{
    map::give(seen, 0, 0);
    map::give(seen, 0, 1);
    for b in MAP_PLACE..MAP_PLACE + map::map_blocks(n) {
        map::give(seen, 0, b);
    }
}

// Claims the chain of `used` blocks from `key` on: each names the one before it, and the last has none after it.
#[tactic(auto, using(crate::proofs::Laws::on_volume))]
pub fn claim_chain(img: &[u8], seen: &mut [u8], key: usize, used: usize, n: usize) -> bool
    requires { (n ≤ 65535) × (length seen.old ≡ 8192) × (length img.now ≡ n * 512) }
    ensures { outcome result (marks seen.new) ≡ claim n (chain_claims (view img.now) 0 key used) (marks seen.old) }
{
    let mut previous = 0;
    let mut b = key;
    for _ in 0..used {
        if !claim_block(seen, b, n) || store::get_word(img, b * 512) != previous {
            return false;
        }
        previous = b;
        b = store::get_word(img, b * 512 + 2);
    }
    b == 0
}

// Claims block b of a file that ends before file block `end`; `first` is the first file block below b.
fn claim_node(seen: &mut [u8], first: usize, end: usize, b: usize, n: usize) -> bool
    requires { (n ≤ 65535) × (length seen.old ≡ 8192) }
    ensures { outcome result (marks seen.new) ≡ claim n (must (ltb first end) ∷ block b ∷ []) (marks seen.old) }
{
    first < end && claim_block(seen, b, n)
}

// Claims the block `key` of a file, which has a height and a number among those of its height, and what lies below it. Apart from `claim_index`,
// into which it is inlined: so a call is made for each index, and none for a data block, of which there are most.
// A height is a number, as in `file`.
// Seven parameters: those of `claim_tree`, and the number of the part.
#[cycle(claim_index_claim_part)]
#[inline(always)]
fn claim_part(
    img: &[u8],
    seen: &mut [u8],
    height: usize,
    number: usize,
    key: usize,
    end: usize,
    n: usize,
) -> Option<usize>
    requires { (n ≤ 65535) × (length seen.old ≡ 8192) × (length img.now ≡ n * 512) × (height < 3) × (first_below height number < 65536) }
    ensures seen_after { outcome (took_all result) (marks seen.new) ≡ claim n (tree_claims (view img.now) end height number key) (marks seen.old) }
    ensures result_value { took_all result ≡ true → took_count result ≡ length (nodes (view img.now) height number key) }
{
    if height != 0 {
        return claim_index(img, seen, height, number, key, end, n);
    }
    if !claim_node(seen, number, end, key, n) {
        return None;
    }
    Some(1)
}

// The same for a block that has a height above 0: an index, or a master index.
#[cycle(claim_index_claim_part)]
#[tactic(auto, using(crate::proofs::Laws::node_on_volume, model::proofs::Laws::FirstBlock::number_small))]
#[inline(never)]
fn claim_index(
    img: &[u8],
    seen: &mut [u8],
    height: usize,
    number: usize,
    key: usize,
    end: usize,
    n: usize,
) -> Option<usize>
    requires { (n ≤ 65535) × (length seen.old ≡ 8192) × (length img.now ≡ n * 512) × (height < 3) × (first_below height number < 65536) × (0 < height) }
    ensures seen_after { outcome (took_all result) (marks seen.new) ≡ claim n (tree_claims (view img.now) end height number key) (marks seen.old) }
    ensures result_value { took_all result ≡ true → took_count result ≡ length (nodes (view img.now) height number key) }
{
    if !claim_node(seen, number << (8 * height), end, key, n) {
        return None;
    }
    let mut count = 1;
    for i in 0..256 {
        let child = store::get_pointer(img, key, i);
        if child != 0 {
            count += claim_part(img, seen, height - 1, number * 256 + i, child, end, n)?;
        }
    }
    Some(count)
}

// Claims the blocks of a file of a height that ends before file block `end`, and counts them.
#[tactic(auto, using(model::proofs::Laws::Room::first_zero))]
pub fn claim_tree(
    img: &[u8],
    seen: &mut [u8],
    height: usize,
    key: usize,
    end: usize,
    n: usize,
) -> Option<usize>
    requires { (n ≤ 65535) × (length seen.old ≡ 8192) × (length img.now ≡ n * 512) × (height < 3) }
    ensures seen_after { outcome (took_all result) (marks seen.new) ≡ claim n (tree_claims (view img.now) end height 0 key) (marks seen.old) }
    ensures result_value { (took_all result ≡ true → took_count result ≡ length (nodes (view img.now) height 0 key)) × (took_count result ≤ 65793) }
{
    claim_part(img, seen, height, 0, key, end, n)
}

// Whether the map calls free just what is not claimed.
#[tactic(auto, unfolding(model::specs::Map::map_at))]
pub fn map_right(img: &[u8], seen: &[u8], n: usize) -> bool
    requires { (16 ≤ n) × (n ≤ 65535) × (length seen.now ≡ 8192) × (length img.now ≡ n * 512) }
    ensures { result ≡ map_right (view img.now) (marks seen.now) n }
{
    (0..n).all(|b| map::is_free(img, MAP_PLACE, b) != map::is_free(seen, 0, b))
}
