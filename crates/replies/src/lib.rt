// The line that a command of a script prints, for each answer that a call can give (docs/REPLAY.md).
#![tactic(auto)]

ghost use Rattle.std.specs.Prelude.{◌≡◌, [], ◌∷◌, ◌≤◌, length};
ghost use Rattle.model.specs.Bytes.{view};
ghost use Rattle.model.specs.Catalog.{refused_line};
ghost use Rattle.model.specs.Refusals.{refusal_number};
ghost use Rattle.model.specs.Answers.{answer_number, transferred, info_told, space_told};
ghost use Rattle.ink.specs.Ink.{sheet, Prints};
ghost use Rattle.replies.specs.Lines.{field_text, fields_text, ok_line, bad_line, reply, info_forms, info_values, hex_text, digest_text, buffer_text, read_line, digest_line, bytes_line};
ghost use Rattle.replies.specs.Lines.{mixed as Lines·mixed, digest as Lines·digest, number as Lines·number};

use ink::Ink;
use model::{Info, Refusal, Space};

const NEWLINE: u8 = b'\n';

const SPACE: u8 = b' ';

// A read of more bytes prints a digest in place of the bytes.
const MOST_SHOWN: usize = 1024;

// A space, and a value in its form: B for two hex digits, any other for a number in decimal.
// A form is a byte, as in script.
#[tactic(auto, using(ink::proofs::InkLaws::emit_append, crate::proofs::LineLaws::field_byte, crate::proofs::LineLaws::field_number), unfolding(ink::specs::Ink::emit))]
fn put_field(page: &mut [u8], ink: &mut Ink, form: u8, value: usize)
    ensures { Prints (field_text form value) (sheet ink.old page.old) (sheet ink.new page.new) }
{
    if form == b'B' {
        ink.byte(page, SPACE);
        ink.hex_byte(page, (value % 256) as u8);
    } else {
        ink.decimal(page, value);
    }
}

// A value for each form.
fn put_fields(page: &mut [u8], ink: &mut Ink, forms: &[u8], values: &[usize])
    requires { length forms.now ≤ length values.now }
    ensures { Prints (fields_text (view forms.now) (view values.now) 0 (length forms.now)) (sheet ink.old page.old) (sheet ink.new page.new) }
{
    for (form, value) in forms.iter().zip(values) {
        put_field(page, ink, *form, *value);
    }
}

// The hex digits of each byte of a run.
#[tactic(auto, using(ink::proofs::InkLaws::emit_append, crate::proofs::LineLaws::hex_next, crate::proofs::LineLaws::hex_end), unfolding(ink::specs::Ink::emit))]
fn put_hex(page: &mut [u8], ink: &mut Ink, run: &[u8])
    ensures { Prints (hex_text (view run.now) 0 (length run.now)) (sheet ink.old page.old) (sheet ink.new page.new) }
{
    for byte in run {
        ink.hex_byte(page, *byte);
    }
}

// One byte more of a digest: exclusive or, then a multiplication modulo 2^32.
#[tactic(auto, unfolding(crate::specs::Lines::mixed))]
fn mixed(hash: u32, byte: u8) -> u32
    ensures { result ≡ Lines·mixed hash byte }
{
    (hash ^ u32::from(byte)).wrapping_mul(16777619)
}

// FNV-1a of 32 bits.
#[tactic(auto, using(crate::proofs::LineLaws::digest_next, crate::proofs::LineLaws::digest_end))]
fn digest(run: &[u8]) -> u32
    ensures { result ≡ Lines·digest (view run.now) (length run.now) }
{
    let mut hash = 2166136261;
    for byte in run {
        hash = mixed(hash, *byte);
    }
    hash
}

// The digest of a run in eight hex digits.
#[tactic(auto, using(crate::proofs::LineLaws::digest_hex))]
fn put_digest(page: &mut [u8], ink: &mut Ink, run: &[u8])
    ensures { Prints (digest_text (Lines·digest (view run.now) (length run.now))) (sheet ink.old page.old) (sheet ink.new page.new) }
{
    put_hex(page, ink, &digest(run).to_be_bytes());
}

// `OK`, a value for each form, and the end of the line.
#[tactic(auto, using(ink::proofs::InkLaws::emit_append), unfolding(ink::specs::Ink::emit, crate::specs::Lines::ok_line))]
pub fn say_ok(page: &mut [u8], ink: &mut Ink, forms: &[u8], values: &[usize])
    requires { length forms.now ≤ length values.now }
    ensures { Prints (ok_line forms.now values.now) (sheet ink.old page.old) (sheet ink.new page.new) }
{
    ink.run(page, b"OK");
    put_fields(page, ink, forms, values);
    ink.byte(page, NEWLINE);
}

#[tactic(auto, using(ink::proofs::InkLaws::emit_append), unfolding(ink::specs::Ink::emit, model::specs::Catalog::refused_line))]
pub fn say_refused(page: &mut [u8], ink: &mut Ink, why: Refusal)
    ensures { Prints (refused_line (refusal_number why)) (sheet ink.old page.old) (sheet ink.new page.new) }
{
    ink.run(page, b"REFUSED ");
    ink.hex_byte(page, u8::from(why));
    ink.byte(page, NEWLINE);
}

#[tactic(auto, using(ink::proofs::InkLaws::emit_append), unfolding(ink::specs::Ink::emit, crate::specs::Lines::bad_line))]
pub fn say_bad_line(page: &mut [u8], ink: &mut Ink, number: usize)
    ensures { Prints (bad_line number) (sheet ink.old page.old) (sheet ink.new page.new) }
{
    ink.run(page, b"BAD LINE");
    ink.decimal(page, number);
    ink.byte(page, NEWLINE);
}

// This and the four below match for themselves: a closure for the first arm would be longer than the arm.
#[tactic(auto, using(crate::proofs::LineLaws::reply_done, crate::proofs::LineLaws::reply_refused))]
pub fn say_answer(page: &mut [u8], ink: &mut Ink, answer: Result<(), Refusal>)
    ensures { Prints (reply (answer_number answer) (ok_line [] [])) (sheet ink.old page.old) (sheet ink.new page.new) }
{
    match answer {
        Ok(()) => say_ok(page, ink, b"", &[]),
        Err(why) => say_refused(page, ink, why),
    }
}

// The answer of write.
#[tactic(auto, using(crate::proofs::LineLaws::reply_done, crate::proofs::LineLaws::reply_refused))]
pub fn say_transfer(page: &mut [u8], ink: &mut Ink, answer: Result<usize, Refusal>)
    ensures { Prints (reply (answer_number answer) (ok_line (Lines·number ∷ []) (transferred answer ∷ []))) (sheet ink.old page.old) (sheet ink.new page.new) }
{
    match answer {
        Ok(count) => say_ok(page, ink, b"N", &[count]),
        Err(why) => say_refused(page, ink, why),
    }
}

#[tactic(auto, using(crate::proofs::LineLaws::reply_done, crate::proofs::LineLaws::reply_refused))]
pub fn say_space(page: &mut [u8], ink: &mut Ink, answer: Result<Space, Refusal>)
    ensures { Prints (reply (answer_number answer) (ok_line (Lines·number ∷ Lines·number ∷ []) ((space_told answer).total ∷ (space_told answer).unused ∷ []))) (sheet ink.old page.old) (sheet ink.new page.new) }
{
    match answer {
        Ok(Space { total, free }) => say_ok(page, ink, b"NN", &[total as usize, free as usize]),
        Err(why) => say_refused(page, ink, why),
    }
}

// Kind, type, access, aux, blocks used, EOF, and both stamps.
fn say_told(page: &mut [u8], ink: &mut Ink, info: Info)
    ensures { Prints (ok_line info_forms (info_values info)) (sheet ink.old page.old) (sheet ink.new page.new) }
{
    let values = [
        info.kind as usize,
        info.ftype as usize,
        info.access as usize,
        info.aux as usize,
        info.used as usize,
        info.eof as usize,
        info.created.date as usize,
        info.created.time as usize,
        info.modified.date as usize,
        info.modified.time as usize,
    ];
    say_ok(page, ink, b"BBBNNNNNNN", &values);
}

#[tactic(auto, using(crate::proofs::LineLaws::reply_done, crate::proofs::LineLaws::reply_refused))]
pub fn say_info(page: &mut [u8], ink: &mut Ink, answer: Result<Info, Refusal>)
    ensures { Prints (reply (answer_number answer) (ok_line info_forms (info_values (info_told answer)))) (sheet ink.old page.old) (sheet ink.new page.new) }
{
    match answer {
        Ok(info) => say_told(page, ink, info),
        Err(why) => say_refused(page, ink, why),
    }
}

// A buffer whole: a dash where it has no bytes, hex digits, or its digest.
#[tactic(auto, using(ink::proofs::InkLaws::emit_append, crate::proofs::LineLaws::buffer_none, crate::proofs::LineLaws::buffer_shown, crate::proofs::LineLaws::buffer_digest), unfolding(ink::specs::Ink::emit))]
fn put_buffer(page: &mut [u8], ink: &mut Ink, buffer: &[u8])
    ensures { Prints (buffer_text (view buffer.now) (length buffer.now)) (sheet ink.old page.old) (sheet ink.new page.new) }
{
    if buffer.is_empty() {
        ink.byte(page, b'-');
    } else if buffer.len() <= MOST_SHOWN {
        put_hex(page, ink, buffer);
    } else {
        ink.byte(page, b'#');
        put_digest(page, ink, buffer);
    }
}

#[tactic(auto, using(ink::proofs::InkLaws::emit_append), unfolding(ink::specs::Ink::emit, crate::specs::Lines::read_line))]
fn say_moved(page: &mut [u8], ink: &mut Ink, count: usize, buffer: &[u8])
    ensures { Prints (read_line count (view buffer.now) (length buffer.now)) (sheet ink.old page.old) (sheet ink.new page.new) }
{
    ink.run(page, b"OK");
    ink.decimal(page, count);
    ink.byte(page, SPACE);
    put_buffer(page, ink, buffer);
    ink.byte(page, NEWLINE);
}

// The answer of read, and the buffer.
#[tactic(auto, using(crate::proofs::LineLaws::reply_done, crate::proofs::LineLaws::reply_refused))]
pub fn say_read(page: &mut [u8], ink: &mut Ink, answer: Result<usize, Refusal>, buffer: &[u8])
    ensures { Prints (reply (answer_number answer) (read_line (transferred answer) (view buffer.now) (length buffer.now))) (sheet ink.old page.old) (sheet ink.new page.new) }
{
    match answer {
        Ok(count) => say_moved(page, ink, count, buffer),
        Err(why) => say_refused(page, ink, why),
    }
}

// The length of an image and its digest.
#[tactic(auto, using(ink::proofs::InkLaws::emit_append), unfolding(ink::specs::Ink::emit, crate::specs::Lines::digest_line))]
pub fn say_digest(page: &mut [u8], ink: &mut Ink, img: &[u8])
    ensures { Prints (digest_line (view img.now) (length img.now)) (sheet ink.old page.old) (sheet ink.new page.new) }
{
    ink.run(page, b"OK");
    ink.decimal(page, img.len());
    ink.byte(page, SPACE);
    put_digest(page, ink, img);
    ink.byte(page, NEWLINE);
}

#[tactic(auto, using(ink::proofs::InkLaws::emit_append), unfolding(ink::specs::Ink::emit, crate::specs::Lines::bytes_line))]
pub fn say_bytes(page: &mut [u8], ink: &mut Ink, run: &[u8])
    ensures { Prints (bytes_line (view run.now) (length run.now)) (sheet ink.old page.old) (sheet ink.new page.new) }
{
    ink.run(page, b"OK ");
    put_hex(page, ink, run);
    ink.byte(page, NEWLINE);
}
