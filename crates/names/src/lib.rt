// Names and paths: which are proper, stored names compared, a cursor over a path's names, and the last name as a part of the path.
#![tactic(auto)]

ghost use Rattle.std.specs.Prelude.{◌≡◌, ◌+◌, ◌-◌, ◌≤◌, ◌<◌, length, take, drop};
ghost use Rattle.model.specs.Bytes.{view, equal_bytes};
ghost use Rattle.model.specs.Names.{capital, letter, name_byte, name_bytes, proper_name, capitals, part, proper_path, capital_name, same_name};
ghost use Rattle.names.specs.Steps.{step_at, last_start, alike_names};

const SLASH: u8 = b'/';

const NAME_MOST: usize = 15;

const PATH_MOST: usize = 64;

// A place in a path. It is handed on by value: a step gives the cursor behind the name.
#[derive(Clone, Copy)]
pub struct Cursor {
    pub at: usize,
}

// What a step over a path finds.
// An enum of its own, since the cases are three.
#[derive(Clone, Copy)]
pub enum Step {
    // A proper name from start up to end, and the cursor behind it.
    Name {
        start: usize,
        end: usize,
        next: Cursor,
    },
    // Nothing is left.
    End,
    // No slash, or no proper name behind it.
    Bad,
}

// Small letters are read as capitals.
pub fn capital_of(c: u8) -> u8
    ensures { result ≡ capital c }
{
    c.to_ascii_uppercase()
}

pub fn is_letter(c: u8) -> bool
    ensures { result ≡ letter c }
{
    c.is_ascii_alphabetic()
}

pub fn is_name_byte(c: u8) -> bool
    ensures { result ≡ name_byte c }
{
    is_letter(c) || c.is_ascii_digit() || c == b'.'
}

// Every byte from start up to end is a letter, a digit or a dot.
fn are_name_bytes(s: &[u8], start: usize, end: usize) -> bool
    requires { (start ≤ end) × (end ≤ length s.now) }
    ensures { result ≡ name_bytes (view s.now) start (end - start) }
{
    s[start..end].iter().all(|c| is_name_byte(*c))
}

// The size is tested first, so that no more bytes are looked at than a name can have.
// From start up to end of the path: a step gives both.
pub fn is_proper_between(s: &[u8], start: usize, end: usize) -> bool
    requires { (start ≤ end) × (end ≤ length s.now) }
    ensures { result ≡ proper_name (view s.now) start (end - start) }
{
    let size = end - start;
    1 <= size && size <= NAME_MOST && is_letter(s[start]) && are_name_bytes(s, start, end)
}

pub fn is_proper_name(name: &[u8]) -> bool
    ensures { result ≡ proper_name (view name.now) 0 (length name.now) }
{
    is_proper_between(name, 0, name.len())
}

// The n bytes stored from byte 1 on are the capitals of those of s from start on.
fn are_capitals(slot: &[u8], s: &[u8], start: usize, n: usize) -> bool
    requires { (1 + n ≤ length slot.now) × (start + n ≤ length s.now) }
    ensures { result ≡ equal_bytes (view slot.now) 1 (capitals (view s.now)) start n }
{
    let stored = &slot[1..1 + n];
    let named = &s[start..start + n];
    stored.iter().zip(named).all(|(a, b)| *a == capital_of(*b))
}

// The name stored in a slot is proper and in capitals.
pub fn is_capital_name(slot: &[u8]) -> bool
    requires { length slot.now ≡ 39 }
    ensures { result ≡ capital_name (view slot.now) 0 }
{
    let n = usize::from(slot[0] % 16);
    is_proper_between(slot, 1, 1 + n) && are_capitals(slot, slot, 1, n)
}

// The name stored in a slot is the caller's, read as capitals.
pub fn same_name(slot: &[u8], name: &[u8]) -> bool
    requires { length slot.now ≡ 39 }
    ensures { result ≡ same_name (view slot.now) 0 (view name.now) (part 0 (length name.now)) }
{
    let n = name.len();
    usize::from(slot[0] % 16) == n && are_capitals(slot, name, 0, n)
}

// Two slots store the same name.
pub fn alike(a: &[u8], b: &[u8]) -> bool
    requires { (length a.now ≡ 39) × (length b.now ≡ 39) }
    ensures { result ≡ alike_names (view a.now) (view b.now) }
{
    let n = a[0] % 16;
    n == b[0] % 16 && store::same_bytes(a, 1, b, 1, usize::from(n))
}

impl Cursor {
    pub fn new() -> Self
        ensures { result ≡ record { at = 0 } }
    {
        Cursor { at: 0 }
    }

    pub fn step(self, path: &[u8]) -> Step
        ensures { result ≡ step_at (view path.now) (length path.now) self.at }
    {
        if path.len() <= self.at {
            return Step::End;
        }
        if path[self.at] == SLASH {
            let start = self.at + 1;
            let end = store::place_of(path, start, SLASH);
            if is_proper_between(path, start, end) {
                return Step::Name {
                    start,
                    end,
                    next: Cursor { at: end },
                };
            }
        }
        Step::Bad
    }
}

// A path that is too long is refused before any of its bytes is read.
pub fn is_proper_path(path: &[u8]) -> bool
    ensures { result ≡ proper_path (view path.now) (length path.now) }
{
    if path.is_empty() || PATH_MOST < path.len() {
        return false;
    }
    let mut cursor = Cursor::new();
    // A `loop`: how many names there are is known at the last one.
    loop {
        match cursor.step(path) {
            Step::Name { next, .. } => cursor = next,
            Step::End => return true,
            Step::Bad => return false,
        }
    }
}

// Where the last name begins: behind the last slash.
fn last_start(path: &[u8]) -> usize
    ensures { (result ≡ last_start (view path.now) (length path.now)) × (result ≤ length path.now) }
{
    match path.iter().rposition(|c| *c == SLASH) {
        Some(at) => at + 1,
        None => 0,
    }
}

// The last name, as a part of the caller's path.
pub fn last_name<'a>(path: &'a [u8]) -> &'a [u8]
    ensures { result.now ≡ drop (last_start (view path.now) (length path.now)) path.now }
{
    let start = last_start(path);
    &path[start..]
}

// A name that a step has found, as a part of the caller's path.
pub fn name_at<'a>(path: &'a [u8], start: usize, end: usize) -> &'a [u8]
    requires { (start ≤ end) × (end ≤ length path.now) }
    ensures { result.now ≡ take (end - start) (drop start path.now) }
{
    &path[start..end]
}
