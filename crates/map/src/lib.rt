// The volume's map: which blocks are free, how many are, the first free one; blocks taken and given back.
// A volume of n blocks has its map from block m on. Document 01, "The map".
#![tactic(auto)]

ghost use Rattle.std.specs.Prelude.{◌≡◌, ℕ, ◌+◌, ◌-◌, ◌*◌, ◌/◌, ◌%◌, ◌^◌, ◌≤◌, ◌<◌, length, eqb, sum_by};
ghost use Rattle.std.specs.Int.Count.{ones};
ghost use Rattle.model.specs.Bytes.{view, ◌or◌};
ghost use Rattle.model.specs.Map.{map_blocks, weight, bit, set_bit, clear_bit, map_at, free, room, first_free, given, taken, rest_clear};

// How many blocks the map takes.
#[tactic(auto, unfolding(model::specs::Map::map_blocks))]
pub fn map_blocks(n: usize) -> usize
    requires { n ≤ 65535 }
    ensures { result ≡ map_blocks n }
{
    n.div_ceil(4096)
}

// What bit i of a byte counts, bit 0 being the highest.
fn weight_of(i: usize) -> u8
    requires { i < 8 }
    ensures { (result ≡ weight i) × (0 < result) }
{
    0x80 >> i
}

fn has_bit(x: u8, i: usize) -> bool
    requires { i < 8 }
    ensures { result ≡ eqb (bit x i) 1 }
{
    x & weight_of(i) != 0
}

fn set_bit(x: u8, i: usize) -> u8
    requires { i < 8 }
    ensures { result ≡ set_bit x i }
{
    x | weight_of(i)
}

fn clear_bit(x: u8, i: usize) -> u8
    requires { i < 8 }
    ensures { result ≡ clear_bit x i }
{
    x & !weight_of(i)
}

// Whether the map calls block b free.
#[tactic(auto, unfolding(model::specs::Map::map_at, model::specs::Map::free))]
pub fn is_free(img: &[u8], m: usize, b: usize) -> bool
    requires { map_at m b < length img.now }
    ensures { result ≡ eqb (free m (view img.now) b) 1 }
{
    has_bit(img[m * 512 + b / 8], b % 8)
}

// How many bits of some bytes are set.
fn ones_in(bytes: &[u8]) -> u32
    requires { length bytes.now ≤ 8191 }
    ensures { result ≡ sum_by ones bytes.now }
{
    bytes.iter().map(|x| x.count_ones()).sum()
}

// The number of free blocks: whole bytes are counted at once.
#[tactic(auto, unfolding(model::specs::Map::map_blocks))]
pub fn free_blocks(img: &[u8], m: usize, n: usize) -> usize
    requires { (n ≤ 65535) × (m * 512 + map_blocks n * 512 ≤ length img.now) }
    ensures { (result ≡ room m (view img.now) n) × (result ≤ n) }
{
    let whole = n / 8;
    let rest = (whole * 8..n).filter(|b| is_free(img, m, *b)).count();
    ones_in(&img[m * 512..m * 512 + whole]) as usize + rest
}

// The block to look at after b, which is not free: a map byte of 0 is passed whole.
#[tactic(auto, unfolding(model::specs::Map::map_at))]
fn block_after(img: &[u8], m: usize, b: usize) -> usize
    requires { (b ≤ 65535) × (map_at m b < length img.now) × (free m (view img.now) b ≡ 0) }
    ensures lower_bound { (b < result) × (result ≤ b + 8) }
    ensures by_index { (c : ℕ) → b ≤ c → c < result → free m (view img.now) c ≡ 0 }
{
    if img[m * 512 + b / 8] == 0 {
        b + (8 - b % 8)
    } else {
        b + 1
    }
}

// The first free block from a hint on, n where there is none.
// It answers n for none, as the definition does: there is no failure to answer.
pub fn first_free(img: &[u8], m: usize, n: usize, hint: usize) -> usize
    requires { (n ≤ 65535) × (hint ≤ n) × (m * 512 + map_blocks n * 512 ≤ length img.now) }
    ensures { (result ≡ first_free m (view img.now) hint (n - hint)) × (result ≤ n) }
{
    // A `while`: the step is a whole byte of the map where that is 0.
    let mut block = hint;
    while block < n {
        if is_free(img, m, block) {
            return block;
        }
        block = block_after(img, m, block);
    }
    n
}

// Gives block b back. Its bytes stay.
#[tactic(auto, unfolding(model::specs::Map::map_at))]
pub fn give(img: &mut [u8], m: usize, b: usize)
    requires { map_at m b < length img.old }
    ensures { view img.new ≡ given m (view img.old) b }
{
    let at = m * 512 + b / 8;
    img[at] = set_bit(img[at], b % 8);
}

// Takes block b: its bit is cleared and its bytes zeroed.
#[tactic(auto, unfolding(model::specs::Map::map_at))]
pub fn take(img: &mut [u8], m: usize, b: usize)
    requires { (map_at m b < length img.old) × (b * 512 + 512 ≤ length img.old) }
    ensures { view img.new ≡ taken m (view img.old) b }
{
    let at = m * 512 + b / 8;
    img[at] = clear_bit(img[at], b % 8);
    store::clear_run(img, b * 512, 512);
}

// Whether the byte of the last block has no bit past it.
#[tactic(auto, unfolding(model::specs::Map::map_blocks))]
fn last_byte_clear(img: &[u8], m: usize, n: usize) -> bool
    requires { (n ≤ 65535) × (m * 512 + map_blocks n * 512 ≤ length img.now) }
    ensures { result ≡ (eqb (n % 8) 0 or eqb (view img.now (map_at m n) % 2 ^ (8 - n % 8)) 0) }
{
    n % 8 == 0 || img[m * 512 + n / 8] % weight_of(n % 8 - 1) == 0
}

// Whether the map has no bit for a number that is not on the volume.
#[tactic(auto, unfolding(model::specs::Map::map_blocks))]
pub fn rest_clear(img: &[u8], m: usize, n: usize) -> bool
    requires { (n ≤ 65535) × (m * 512 + map_blocks n * 512 ≤ length img.now) }
    ensures { result ≡ rest_clear m (view img.now) n }
{
    let used = n.div_ceil(8);
    last_byte_clear(img, m, n) && store::all_zero(img, m * 512 + used, map_blocks(n) * 512 - used)
}
