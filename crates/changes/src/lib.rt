// The commands of a script that change the image: the calls that change the volume, and raw bytes. Their fields have been read.
#![tactic(auto)]

ghost use Rattle.std.specs.Prelude.{◌≡◌, List, [], ℕ, ◌+◌, ◌≤◌, ◌<◌, length};
ghost use Rattle.model.specs.Bytes.{view, same};
ghost use Rattle.model.specs.Answers.{Does, Writes};
ghost use Rattle.ink.specs.Ink.{sheet};
ghost use Rattle.lines.specs.declared.Call.TheVariants as call;
ghost use Rattle.lines.specs.declared.Change.TheVariants as change;
ghost use Rattle.lines.specs.declared.Command.TheVariants as command;
ghost use Rattle.lines.specs.Commands.{Fitting, held};
ghost use Rattle.lines.specs.Left.{Leaves};
ghost use Rattle.changes.specs.Changes.{Asks, formatted, created, destroyed, renamed, informed, ended, called, written, filled, laid_in, changed};

use ink::Ink;
use lines::{BadLine, Call, Change};
use model::{Refusal, Stamp};
use script::{FIELDS, TEXT};

// The stamp of two fields.
fn stamp_of(values: &[usize; FIELDS], i: usize) -> Stamp
    requires { (i + 1 < 8) × ((view values.now i ≤ 65535) × (view values.now (i + 1) ≤ 65535)) }
    ensures { result ≡ record { date = view values.now i; time = view values.now (i + 1) } }
{
    Stamp {
        date: values[i] as u16,
        time: values[i + 1] as u16,
    }
}

// Each call with its fields.
fn format(img: &mut [u8], values: &[usize; FIELDS], room: &[u8]) -> Result<(), Refusal>
    requires { Asks call.Format values.now room.now }
    ensures { Does (formatted (length img.old) (view img.old) (held values.now room.now [])) (length img.old) result img.new }
{
    format::format(img, &room[0..values[0]], stamp_of(values, 1))
}

fn create(img: &mut [u8], values: &[usize; FIELDS], room: &[u8]) -> Result<(), Refusal>
    requires { Asks call.Create values.now room.now }
    ensures { Does (created (length img.old) (view img.old) (held values.now room.now [])) (length img.old) result img.new }
{
    let kind = values[1] as u8;
    let ftype = values[2] as u8;
    let aux = values[3] as u16;
    let stamp = stamp_of(values, 4);
    create::create(img, &room[0..values[0]], kind, ftype, aux, stamp)
}

fn destroy(img: &mut [u8], values: &[usize; FIELDS], room: &[u8]) -> Result<(), Refusal>
    requires { Asks call.Destroy values.now room.now }
    ensures { Does (destroyed (length img.old) (view img.old) (held values.now room.now [])) (length img.old) result img.new }
{
    destroy::destroy(img, &room[0..values[0]])
}

fn rename(img: &mut [u8], values: &[usize; FIELDS], room: &[u8]) -> Result<(), Refusal>
    requires { Asks call.Rename values.now room.now }
    ensures { Does (renamed (length img.old) (view img.old) (held values.now room.now [])) (length img.old) result img.new }
{
    let end = TEXT + values[1];
    rename::rename(img, &room[0..values[0]], &room[TEXT..end])
}

fn set_info(img: &mut [u8], values: &[usize; FIELDS], room: &[u8]) -> Result<(), Refusal>
    requires { Asks call.SetInfo values.now room.now }
    ensures { Does (informed (length img.old) (view img.old) (held values.now room.now [])) (length img.old) result img.new }
{
    let access = values[1] as u8;
    let aux = values[2] as u16;
    let stamp = stamp_of(values, 3);
    set_info::set_info(img, &room[0..values[0]], access, aux, stamp)
}

fn set_eof(img: &mut [u8], values: &[usize; FIELDS], room: &[u8]) -> Result<(), Refusal>
    requires { Asks call.SetEof values.now room.now }
    ensures { Does (ended (length img.old) (view img.old) (held values.now room.now [])) (length img.old) result img.new }
{
    let stamp = stamp_of(values, 2);
    resize::set_eof(img, &room[0..values[0]], values[1], stamp)
}

// The call write, with the first bytes of the buffer. Its bounds are written out, since its fields come in the forms of `write` and of `fill`.
fn write(
    img: &mut [u8],
    values: &[usize; FIELDS],
    room: &[u8],
    buffer: &[u8],
) -> Result<usize, Refusal>
    requires { (length room.now ≡ 256) × (view values.now 0 ≤ 128) × (view values.now 2 ≤ 65535) × (view values.now 3 ≤ 65535) × (view values.now 4 ≤ length buffer.now) }
    ensures { Writes (written (length img.old) (view img.old) (held values.now room.now []) (view buffer.now)) (length img.old) result img.new }
{
    let bytes = &buffer[0..values[4]];
    let stamp = stamp_of(values, 2);
    write::write(img, &room[0..values[0]], values[1], bytes, stamp)
}

// A match: each call takes other fields.
#[tactic(auto, unfolding(crate::specs::Changes::called))]
fn call(call: Call, img: &mut [u8], values: &[usize; FIELDS], room: &[u8]) -> Result<(), Refusal>
    requires { Asks call values.now room.now }
    ensures { (bs : List ℕ) → Does (called call (length img.old) (view img.old) (held values.now room.now bs)) (length img.old) result img.new }
{
    match call {
        Call::Format => format(img, values, room),
        Call::Create => create(img, values, room),
        Call::Destroy => destroy(img, values, room),
        Call::Rename => rename(img, values, room),
        Call::SetInfo => set_info(img, values, room),
        Call::SetEof => set_eof(img, values, room),
    }
}

// The call write with equal bytes; a line that asks for more than the buffer holds is bad.
fn fill(
    img: &mut [u8],
    values: &[usize; FIELDS],
    room: &[u8],
    buffer: &mut [u8],
    page: &mut [u8],
    ink: &mut Ink,
) -> Result<(), BadLine>
    requires { (Fitting (command.Change change.Fill) (length buffer.old) values.now) × (length room.now ≡ 256) }
    ensures { Leaves (filled (length img.old) (view img.old) (length buffer.old) (held values.now room.now buffer.old)) (sheet ink.old page.old) result ink.new img.new buffer.new page.new }
{
    let count = values[4];
    if buffer.len() < count {
        return Err(BadLine);
    }
    let byte = values[5] as u8;
    store::fill_run(buffer, 0, count, byte);
    replies::say_transfer(page, ink, write(img, values, room, buffer));
    Ok(())
}

// Bytes of the buffer, at an address of the image; a line that leaves the image is bad.
fn set(
    img: &mut [u8],
    values: &[usize; FIELDS],
    buffer: &[u8],
    page: &mut [u8],
    ink: &mut Ink,
) -> Result<(), BadLine>
    requires { Fitting (command.Change change.Set) (length buffer.now) values.now }
    ensures { Leaves (laid_in (length img.old) (view img.old) (held values.now [] buffer.now) (view buffer.now)) (sheet ink.old page.old) result ink.new img.new buffer.now page.new }
{
    let address = values[0];
    let count = values[1];
    if img.len() < address + count {
        return Err(BadLine);
    }
    store::copy_run(img, address, buffer, 0, count);
    replies::say_answer(page, ink, Ok(()));
    Ok(())
}

// Equal bytes there. It is no one function with `set`: a closure for the bytes that are put down would be longer than what both share.
fn set_run(
    img: &mut [u8],
    values: &[usize; FIELDS],
    page: &mut [u8],
    ink: &mut Ink,
) -> Result<(), BadLine>
    requires { (view values.now 0 ≤ 4294967295) × (view values.now 1 ≤ 4294967295) × (view values.now 2 ≤ 255) }
    ensures { (bs : List ℕ) → Leaves (laid_in (length img.old) (view img.old) (held values.now [] bs) (same (view values.now 2))) (sheet ink.old page.old) result ink.new img.new bs page.new }
{
    let address = values[0];
    let count = values[1];
    if img.len() < address + count {
        return Err(BadLine);
    }
    store::fill_run(img, address, count, values[2] as u8);
    replies::say_answer(page, ink, Ok(()));
    Ok(())
}

// A command whose fields are good.
// A match: each command takes other fields and lends other parts.
#[tactic(auto, unfolding(crate::specs::Changes::changed, crate::specs::Changes::laid_in))]
pub fn run(
    change: Change,
    img: &mut [u8],
    values: &[usize; FIELDS],
    room: &[u8],
    buffer: &mut [u8],
    page: &mut [u8],
    ink: &mut Ink,
) -> Result<(), BadLine>
    requires { (Fitting (command.Change change) (length buffer.old) values.now) × (length room.now ≡ 256) }
    ensures { Leaves (changed change (length img.old) (view img.old) (length buffer.old) (held values.now room.now buffer.old)) (sheet ink.old page.old) result ink.new img.new buffer.new page.new }
{
    match change {
        Change::Call(asked) => replies::say_answer(page, ink, call(asked, img, values, room)),
        Change::Write => replies::say_transfer(page, ink, write(img, values, room, buffer)),
        Change::Fill => fill(img, values, room, buffer, page, ink)?,
        Change::Set => set(img, values, buffer, page, ink)?,
        Change::SetRun => set_run(img, values, page, ink)?,
    }
    Ok(())
}
