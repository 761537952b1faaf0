// A line of a script taken apart: its word, and its fields in the forms of docs/REPLAY.md.
// A field that is bad leaves what was lent as it is, and leads nowhere: no field follows, and no line is done there.
#![tactic(auto)]

ghost use Rattle.std.specs.Prelude.{◌≡◌, true, ℕ, ◌+◌, ◌-◌, ◌/◌, ◌%◌, ◌≤◌, ◌<◌, eqb, length};
ghost use Rattle.model.specs.Bytes.{Bytes, view, paste};
ghost use Rattle.model.specs.Catalog.{newline, space'};
ghost use Rattle.script.specs.Fields.{text_most, end_at, is_word, number_value, half_value, pair_value, byte_value, all_digits, pairs, pairs_size, all_plain, plain_size, data_size, text_size, sized, put_text, put_data, field_value, field_room, field_buffer, found, Fields, read_field, read_fields, Takes, Fits};

const SPACE: u8 = b' ';

const NEWLINE: u8 = b'\n';

// A field for no bytes.
const DASH: &[u8] = b"-";

// The most bytes of a text, and the room for two of them.
pub const TEXT: usize = 128;

pub const ROOM: usize = 256;

// The most fields of a line.
pub const FIELDS: usize = 8;

// No number in a script is larger, and none has more digits.
const LARGEST: usize = u32::MAX as usize;

const MOST_DIGITS: usize = 10;

// Where the line that starts at a place ends.
pub fn line_end(script: &[u8], start: usize) -> usize
    requires { start ≤ length script.now }
    ensures value { result ≡ end_at (view script.now) (length script.now) newline start }
    ensures lower_bound { (start ≤ result) × (result ≤ length script.now) }
{
    store::place_of(script, start, NEWLINE)
}

// Where a line's word, which names the command, ends.
pub fn word_end(line: &[u8]) -> usize
    ensures { result ≡ end_at (view line.now) (length line.now) space' 0 }
{
    store::place_of(line, 0, SPACE)
}

// Is the line's word, which ends at `end`, this one?
pub fn is_word(line: &[u8], end: usize, word: &[u8]) -> bool
    ensures { result ≡ is_word (view line.now) (length line.now) end (view word.now) (length word.now) }
{
    end <= line.len() && &line[..end] == word
}

// The number that 1 to 10 decimal digits say.
fn number_value(field: &[u8]) -> Option<usize>
    ensures { result ≡ number_value field.now }
{
    if field.is_empty() || MOST_DIGITS < field.len() {
        return None;
    }
    let mut value = 0;
    for c in field {
        value = 10 * value + char::from(*c).to_digit(10)? as usize;
    }
    Some(value).filter(|value| *value <= LARGEST)
}

// A number below 65,536.
#[tactic(auto, unfolding(crate::specs::Fields::half_value, crate::specs::Fields::at_most))]
fn half_value(field: &[u8]) -> Option<usize>
    ensures { result ≡ half_value field.now }
{
    number_value(field).filter(|value| *value <= 65535)
}

// The byte that two hex digits say.
#[tactic(auto, using(crate::proofs::FieldLaws::digit_by), unfolding(crate::specs::Fields::pair_value))]
fn pair_value(high: u8, low: u8) -> Option<u8>
    ensures { result ≡ pair_value high low }
{
    let high = char::from(high).to_digit(16)?;
    let low = char::from(low).to_digit(16)?;
    Some((16 * high + low) as u8)
}

// Exactly two hex digits.
#[tactic(auto, unfolding(crate::specs::Fields::byte_value))]
fn byte_value(field: &[u8]) -> Option<usize>
    ensures { result ≡ byte_value field.now }
{
    match field {
        [high, low] => pair_value(*high, *low).map(usize::from),
        _ => None,
    }
}

// Are there hex digits alone?
fn all_digits(field: &[u8]) -> bool
    ensures { result ≡ all_digits field.now }
{
    field.iter().all(|c| c.is_ascii_hexdigit())
}

// Puts the bytes that pairs of hex digits say into a room.
fn put_pairs(digits: &[u8], room: &mut [u8])
    requires { (length digits.now % 2 ≡ 0) × (length digits.now / 2 ≤ length room.old) × (all_digits digits.now ≡ true) }
    ensures { view room.new ≡ paste (view room.old) 0 (length digits.now / 2) (pairs digits.now) }
{
    for (i, pair) in digits.chunks_exact(2).enumerate() {
        room[i] = pair_value(pair[0], pair[1]).unwrap();
    }
}

// Pairs of hex digits, none included: puts the bytes they say into a room; how many.
fn take_pairs(digits: &[u8], room: &mut [u8]) -> Option<usize>
    requires { length digits.now ≤ 4096 }
    ensures value { result ≡ pairs_size digits.now (length room.old) }
    ensures room_after { view room.new ≡ paste (view room.old) 0 (sized result) (pairs digits.now) }
{
    let count = digits.len() / 2;
    if digits.len() % 2 != 0 || room.len() < count || !all_digits(digits) {
        return None;
    }
    put_pairs(digits, room);
    Some(count)
}

// Is each of the bytes $21 to $7E?
fn all_plain(field: &[u8]) -> bool
    ensures { result ≡ all_plain field.now }
{
    field.iter().all(|c| c.is_ascii_graphic())
}

// The bytes of a field themselves.
fn take_plain(field: &[u8], room: &mut [u8]) -> Option<usize>
    requires { length room.old ≡ text_most }
    ensures value { result ≡ plain_size field.now }
    ensures room_after { view room.new ≡ paste (view room.old) 0 (sized result) (view field.now) }
{
    if room.len() < field.len() || !all_plain(field) {
        return None;
    }
    room[..field.len()].copy_from_slice(field);
    Some(field.len())
}

// DATA: pairs of hex digits, or a dash for no bytes.
#[tactic(auto, using(crate::proofs::FieldLaws::dash_by, crate::proofs::FieldLaws::paste_bad), unfolding(crate::specs::Fields::data_size))]
fn take_data(field: &[u8], buffer: &mut [u8]) -> Option<usize>
    requires { length field.now ≤ 4096 }
    ensures value { result ≡ data_size field.now (length buffer.old) }
    ensures buffer_after { view buffer.new ≡ put_data field.now (length buffer.old) (view buffer.old) }
{
    if field.is_empty() {
        return None;
    }
    if field == DASH {
        return Some(0);
    }
    take_pairs(field, buffer)
}

// A PATH or a NAME: itself, an equals sign and pairs of hex digits, or a dash for no bytes.
#[tactic(auto, using(crate::proofs::FieldLaws::dash_by, crate::proofs::FieldLaws::rest_is, crate::proofs::FieldLaws::paste_bad), unfolding(crate::specs::Fields::text_size, crate::specs::Fields::text_bytes))]
fn take_text(field: &[u8], room: &mut [u8]) -> Option<usize>
    requires field_size { length field.now ≤ 4096 }
    requires room_size { length room.old ≡ text_most }
    ensures value { result ≡ text_size field.now }
    ensures room_after { view room.new ≡ put_text field.now (view room.old) 0 }
{
    if field.is_empty() {
        return None;
    }
    if field == DASH {
        return Some(0);
    }
    if field[0] == b'=' {
        return take_pairs(&field[1..], room);
    }
    take_plain(field, room)
}

// A field of a form: its value, which for data and text is how many bytes it puts into the buffer or the room. A second text goes behind the first.
// A form is a byte and no enum: the tables of the forms of each command, in lines, are byte strings as b"TNN".
#[tactic(auto, unfolding(crate::specs::Fields::field_value, crate::specs::Fields::field_room, crate::specs::Fields::field_buffer))]
fn take_field(field: &[u8], form: u8, room: &mut [u8], buffer: &mut [u8]) -> Option<usize>
    requires { (length field.now ≤ 4096) × (length room.old ≡ 256) }
    ensures value { result ≡ field_value field.now (length buffer.old) form }
    ensures room_after { view room.new ≡ field_room field.now form (view room.old) }
    ensures buffer_after { view buffer.new ≡ field_buffer field.now (length buffer.old) form (view buffer.old) }
{
    match form {
        b'N' => number_value(field),
        b'H' => half_value(field),
        b'B' => byte_value(field),
        b'D' => take_data(field, buffer),
        b'T' => take_text(field, &mut room[..TEXT]),
        b'S' => take_text(field, &mut room[TEXT..]),
        _ => None,
    }
}

// The field behind a place: its value, and where it ends.
fn read_field(
    line: &[u8],
    at: usize,
    form: u8,
    room: &mut [u8],
    buffer: &mut [u8],
) -> Option<(usize, usize)>
    requires { (length line.now ≤ 4096) × (length room.old ≡ 256) }
    ensures { (i : ℕ) → (values : Bytes) → found i values result (view room.new) (view buffer.new) ≡ read_field (view line.now) (length line.now) (length buffer.old) form i (record { at = at; values = values; room = view room.old; buffer = view buffer.old }) }
{
    if line.len() <= at {
        return None;
    }
    let end = store::place_of(line, at + 1, SPACE);
    let value = take_field(&line[at + 1..end], form, room, buffer)?;
    Some((value, end))
}

// Reads the fields behind a place, one for each form, to the end of the line: are they good, and is none left?
pub fn read_fields(
    line: &[u8],
    at: usize,
    forms: &[u8],
    values: &mut [usize],
    room: &mut [u8],
    buffer: &mut [u8],
) -> bool
    requires { (length line.now ≤ 4096) × (length forms.now ≤ length values.old) × (length room.old ≡ 256) }
    ensures takes { Takes (read_fields (view line.now) (length line.now) (length buffer.old) (view forms.now) 0 (length forms.now) (record { at = at; values = view values.old; room = view room.old; buffer = view buffer.old })) (length line.now) result values.new room.new buffer.new }
    ensures fits { result ≡ true → Fits (length buffer.old) (view forms.now) (length forms.now) (view values.new) }
{
    let mut now = at;
    // By index, and not over a zip with iter_mut(): of what that writes the proof knows the length alone.
    for (i, form) in forms.iter().enumerate() {
        let Some((value, end)) = read_field(line, now, *form, room, buffer) else {
            return false;
        };
        values[i] = value;
        now = end;
    }
    now == line.len()
}
