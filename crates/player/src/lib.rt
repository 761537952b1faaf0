// Plays a script of docs/REPLAY.md on one image, and prints a line for each command.
// What is printed gathers on a page and is written out in large pieces.
#![tactic(auto)]

ghost use Rattle.std.specs.Prelude.{◌≡◌, ◌≤◌, length};
ghost use Rattle.model.specs.Bytes.{view};
ghost use Rattle.ink.specs.Ink.{sheet};
ghost use Rattle.lines.specs.declared.Command.TheVariants as command;
ghost use Rattle.lines.specs.Commands.{Fitting, held};
ghost use Rattle.player.specs.Played.{rooms, stage, Renews, obeyed, commanded, is_silent, ready as readyAt, played, played_all, staged, size_left, Leaves, Holds};

use ink::Ink;
use lines::{BadLine, Change, Command, Look};
use script::{FIELDS, ROOM};
use std::io;
use std::io::Write;

// One byte more than the largest script, so that a larger one is seen to be one.
pub const SCRIPT: usize = 1048577;

// The largest image.
pub const IMAGE: usize = 4194304;

// The longest buffer of a read or a write.
pub const BUFFER: usize = 262144;

pub const PAGE: usize = 65536;

const BLOCK: usize = 512;

// No line is longer, of a script or printed.
const LONGEST_LINE: usize = 4096;

// Where the lines are printed. After a write that fails the rest is played and written all the same; the outcome keeps the first error.
#[derive(Drop)]
pub struct Output<W> {
    pub to: W,
    pub outcome: io::Result<()>,
}

// The image's length, and the bytes of the page in use.
// The image and the page are rooms of a fixed size: there is no heap, and the image grows within its room.
#[derive(Clone, Copy)]
struct State {
    size: usize,
    used: usize,
}

// A new image of so many zeros, where its room has them. This and what follows answers the image's length after a command; a bad line leaves it.
fn renew(
    wanted: usize,
    image: &mut [u8],
    page: &mut [u8],
    ink: &mut Ink,
    size: usize,
) -> Result<usize, BadLine>
    requires { size ≤ length image.old }
    ensures renews { Renews (length image.old) wanted size (view image.old) (sheet ink.old page.old) result ink.new image.new page.new }
    ensures size_in_bounds { size_left size result ≤ length image.old }
{
    if image.len() < wanted {
        return Err(BadLine);
    }
    store::clear_run(image, 0, wanted);
    replies::say_ok(page, ink, b"", &[]);
    Ok(wanted)
}

// Not one function with the next: here the image is lent to be read, there to be changed.
fn look(
    look: Look,
    image: &[u8],
    values: &[usize; FIELDS],
    room: &[u8],
    buffer: &mut [u8],
    page: &mut [u8],
    ink: &mut Ink,
    size: usize,
) -> Result<usize, BadLine>
    requires { (Fitting (command.Look look) (length buffer.old) values.now) × (length room.now ≡ 256) × (size ≤ length image.now) }
    ensures leaves { Leaves (obeyed (rooms image.now buffer.old page.old) (command.Look look) (stage size ink.old.at image.now buffer.old page.old) (held values.now room.now buffer.old)) size (sheet ink.old page.old) result ink.new image.now buffer.new page.new }
    ensures size_value { size_left size result ≡ size }
{
    looks::run(look, &image[0..size], values, room, buffer, page, ink)?;
    Ok(size)
}

fn change(
    change: Change,
    image: &mut [u8],
    values: &[usize; FIELDS],
    room: &[u8],
    buffer: &mut [u8],
    page: &mut [u8],
    ink: &mut Ink,
    size: usize,
) -> Result<usize, BadLine>
    requires { (Fitting (command.Change change) (length buffer.old) values.now) × (length room.now ≡ 256) × (size ≤ length image.old) }
    ensures leaves { Leaves (obeyed (rooms image.old buffer.old page.old) (command.Change change) (stage size ink.old.at image.old buffer.old page.old) (held values.now room.now buffer.old)) size (sheet ink.old page.old) result ink.new image.new buffer.new page.new }
    ensures size_value { size_left size result ≡ size }
{
    changes::run(change, &mut image[0..size], values, room, buffer, page, ink)?;
    Ok(size)
}

// Does a command whose fields are good.
// A match: each command lends other parts.
fn obey(
    command: Command,
    image: &mut [u8],
    values: &[usize; FIELDS],
    room: &[u8],
    buffer: &mut [u8],
    page: &mut [u8],
    ink: &mut Ink,
    size: usize,
) -> Result<usize, BadLine>
    requires { (Fitting command (length buffer.old) values.now) × (length room.now ≡ 256) × (size ≤ length image.old) }
    ensures leaves { Leaves (obeyed (rooms image.old buffer.old page.old) command (stage size ink.old.at image.old buffer.old page.old) (held values.now room.now buffer.old)) size (sheet ink.old page.old) result ink.new image.new buffer.new page.new }
    ensures size_in_bounds { size_left size result ≤ length image.old }
{
    match command {
        Command::Blocks => renew(values[0] * BLOCK, image, page, ink, size),
        Command::Bytes => renew(values[0], image, page, ink, size),
        Command::Look(asked) => look(asked, image, values, room, buffer, page, ink, size),
        Command::Change(asked) => change(asked, image, values, room, buffer, page, ink, size),
        Command::Unknown => Err(BadLine),
    }
}

fn command(
    line: &[u8],
    image: &mut [u8],
    buffer: &mut [u8],
    page: &mut [u8],
    ink: &mut Ink,
    size: usize,
) -> Result<usize, BadLine>
    requires { size ≤ length image.old }
    ensures leaves { Leaves (commanded (rooms image.old buffer.old page.old) (view line.now) (length line.now) (stage size ink.old.at image.old buffer.old page.old)) size (sheet ink.old page.old) result ink.new image.new buffer.new page.new }
    ensures size_in_bounds { size_left size result ≤ length image.old }
{
    let mut values = [0usize; FIELDS];
    let mut room = [0u8; ROOM];
    if LONGEST_LINE < line.len() {
        return Err(BadLine);
    }
    let Ok(asked) = lines::read_line(line, &mut values, &mut room, buffer) else {
        return Err(BadLine);
    };
    obey(asked, image, &values, &room, buffer, page, ink, size)
}

// Does a line print nothing: is it empty, or a comment?
#[tactic(auto, using(crate::proofs::PlayedLaws::silent_empty, crate::proofs::PlayedLaws::silent_long, crate::proofs::PlayedLaws::silent_byte))]
fn is_silent(line: &[u8]) -> bool
    ensures { result ≡ is_silent (view line.now) (length line.now) }
{
    line.is_empty() || (line.len() <= LONGEST_LINE && line[0] == b'#')
}

fn print<W: Write>(bytes: &[u8], output: &mut Output<W>) {
    let written = output.to.write_all(bytes);
    if output.outcome.is_ok() {
        output.outcome = written;
    }
}

// Writes out what is on the page.
fn flush<W: Write>(page: &[u8], used: usize, output: &mut Output<W>) {
    if used <= page.len() {
        print(&page[0..used], output);
    }
}

// A page with room for a line: the one in use, or the same written out.
#[tactic(auto, using(crate::proofs::PlayedLaws::ready_same, crate::proofs::PlayedLaws::ready_empty))]
fn ready<W: Write>(page: &[u8], used: usize, output: &mut Output<W>) -> Ink
    ensures { result ≡ record { skip = 0; at = readyAt used } }
{
    if used <= PAGE - LONGEST_LINE {
        return Ink { skip: 0, at: used };
    }
    flush(page, used, output);
    Ink { skip: 0, at: 0 }
}

fn play_line<W: Write>(
    line: &[u8],
    number: usize,
    image: &mut [u8],
    buffer: &mut [u8],
    page: &mut [u8],
    state: State,
    output: &mut Output<W>,
) -> State
    requires { state.size ≤ length image.old }
    ensures page_after { stage result.size result.used image.new buffer.new page.new ≡ played (rooms image.old buffer.old page.old) (view line.now) (length line.now) number (stage state.size state.used image.old buffer.old page.old) }
    ensures size_in_bounds { result.size ≤ length image.old }
{
    if is_silent(line) {
        return state;
    }
    let mut ink = ready(page, state.used, output);
    match command(line, image, buffer, page, &mut ink, state.size) {
        Ok(size) => State { size, used: ink.at },
        Err(BadLine) => {
            replies::say_bad_line(page, &mut ink, number);
            State {
                size: state.size,
                used: ink.at,
            }
        }
    }
}

// Plays each line; the bytes of the page in use at the end.
fn play_lines<W: Write>(
    text: &[u8],
    image: &mut [u8],
    buffer: &mut [u8],
    page: &mut [u8],
    output: &mut Output<W>,
) -> usize
    ensures holds { Holds (played_all (rooms image.old buffer.old page.old) (view text.now) (length text.now) (view image.old) (view buffer.old) (view page.old)) image.new buffer.new page.new }
    ensures value { result ≡ (played_all (rooms image.old buffer.old page.old) (view text.now) (length text.now) (view image.old) (view buffer.old) (view page.old)).used }
{
    let mut state = State { size: 0, used: 0 };
    let mut at = 0;
    let mut number = 0;
    // A `while`: a step is a whole line.
    while at < text.len() {
        let end = script::line_end(text, at);
        number += 1;
        state = play_line(&text[at..end], number, image, buffer, page, state, output);
        if end == text.len() {
            return state.used;
        }
        at = end + 1;
    }
    state.used
}

// Plays a script on an image of its own, which is empty at the start; a script that is too large does nothing. The rooms end as is said here whether
// or not a write failed.
#[tactic(auto, using(crate::proofs::PlayedLaws::staged_large, crate::proofs::PlayedLaws::staged_played))]
pub fn play<W: Write>(
    text: &[u8],
    image: &mut [u8],
    buffer: &mut [u8],
    page: &mut [u8],
    output: &mut Output<W>,
)
    ensures { Holds (staged (rooms image.old buffer.old page.old) (view text.now) (length text.now) (view image.old) (view buffer.old) (view page.old)) image.new buffer.new page.new }
{
    if SCRIPT <= text.len() {
        print(b"SCRIPT TOO LARGE\n", output);
        return;
    }
    let used = play_lines(text, image, buffer, page, output);
    flush(page, used, output);
}
