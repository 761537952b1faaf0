// Bytes, numbers and runs in a slice, read and written: what every other crate does to an image.
// Each contract says the whole slice afterwards, as bytes by address (specs/Bytes.antt of model).
#![tactic(auto)]

ghost use Rattle.std.specs.Prelude.{◌≡◌, ◌+◌, ◌-◌, ◌*◌, ◌≤◌, ◌<◌, min, max, length};
ghost use Rattle.model.specs.Bytes.{view, put, paste, from, same, clear, put_word, put_long, word, long, equal_bytes, place_of};
ghost use Rattle.model.specs.Map.{all_zero};
ghost use Rattle.model.specs.File.{pointer};

// These two are public: docs/STATEMENTS.md names them.
pub fn least(a: usize, b: usize) -> usize
    ensures { result ≡ min a b }
{
    a.min(b)
}

pub fn largest(a: usize, b: usize) -> usize
    ensures { result ≡ max a b }
{
    a.max(b)
}

// Words and longs are two, as their definitions are: each is one line of the library.
#[tactic(auto, unfolding(model::specs::Bytes::word))]
pub fn get_word(img: &[u8], at: usize) -> usize
    requires { at + 1 < length img.now }
    ensures value { result ≡ word (view img.now) at }
    ensures upper_bound { result < 65536 }
{
    usize::from(u16::from_le_bytes([img[at], img[at + 1]]))
}

#[tactic(auto, unfolding(model::specs::Bytes::long))]
pub fn get_long(img: &[u8], at: usize) -> usize
    requires { at + 2 < length img.now }
    ensures value { result ≡ long (view img.now) at }
    ensures upper_bound { result < 16777216 }
{
    u32::from_le_bytes([img[at], img[at + 1], img[at + 2], 0]) as usize
}

// Pointer i of the index block b: low bytes in the block's first half, high bytes in its second.
#[tactic(auto, unfolding(model::specs::File::pointer))]
pub fn get_pointer(img: &[u8], b: usize, i: usize) -> usize
    requires { (i < 256) × (b * 512 + 512 ≤ length img.now) }
    ensures value { result ≡ pointer (view img.now) b i }
    ensures upper_bound { result < 65536 }
{
    usize::from(u16::from_le_bytes([img[b * 512 + i], img[b * 512 + 256 + i]]))
}

#[tactic(auto, using(model::proofs::ByteLaws::view_set))]
pub fn put_byte(img: &mut [u8], at: usize, v: u8)
    requires { at < length img.old }
    ensures { view img.new ≡ put (view img.old) at v }
{
    img[at] = v;
}

// The low two bytes of a number: callers keep it below 65,536.
// Words and longs are two here too.
pub fn put_word(img: &mut [u8], at: usize, v: usize)
    requires { at + 1 < length img.old }
    ensures { view img.new ≡ put_word (view img.old) at v }
{
    img[at..at + 2].copy_from_slice(&v.to_le_bytes()[..2]);
}

// The low three bytes of a number.
pub fn put_long(img: &mut [u8], at: usize, v: usize)
    requires { at + 2 < length img.old }
    ensures { view img.new ≡ put_long (view img.old) at v }
{
    img[at..at + 3].copy_from_slice(&v.to_le_bytes()[..3]);
}

// k bytes of src, from `at` on, become those of dst from `to` on.
// A slice with an address and a length here and below, since the clauses say the whole slice by address.
pub fn copy_run(dst: &mut [u8], to: usize, src: &[u8], at: usize, k: usize)
    requires { (to + k ≤ length dst.old) × (at + k ≤ length src.now) }
    ensures { view dst.new ≡ paste (view dst.old) to k (from (view src.now) at) }
{
    dst[to..to + k].copy_from_slice(&src[at..at + k]);
}

// k equal bytes.
pub fn fill_run(dst: &mut [u8], to: usize, k: usize, byte: u8)
    requires { to + k ≤ length dst.old }
    ensures { view dst.new ≡ paste (view dst.old) to k (same byte) }
{
    dst[to..to + k].fill(byte);
}

#[tactic(auto, unfolding(model::specs::Bytes::clear))]
pub fn clear_run(dst: &mut [u8], to: usize, k: usize)
    requires { to + k ≤ length dst.old }
    ensures { view dst.new ≡ clear (view dst.old) to k }
{
    fill_run(dst, to, k, 0);
}

// Are the k bytes of f from a on those of g from b on?
pub fn same_bytes(f: &[u8], a: usize, g: &[u8], b: usize, k: usize) -> bool
    requires { (a + k ≤ length f.now) × (b + k ≤ length g.now) }
    ensures { result ≡ equal_bytes (view f.now) a (view g.now) b k }
{
    f[a..a + k] == g[b..b + k]
}

pub fn all_zero(s: &[u8], at: usize, k: usize) -> bool
    requires { at + k ≤ length s.now }
    ensures { result ≡ all_zero (view s.now) at k }
{
    s[at..at + k].iter().all(|byte| *byte == 0)
}

// The first place from `start` on that has a byte, or the end.
pub fn place_of(s: &[u8], start: usize, byte: u8) -> usize
    requires { start ≤ length s.now }
    ensures value { result ≡ place_of (view s.now) byte start (length s.now - start) }
    ensures lower_bound { (start ≤ result) × (result ≤ length s.now) }
{
    match s[start..].iter().position(|x| *x == byte) {
        Some(i) => start + i,
        None => s.len(),
    }
}
