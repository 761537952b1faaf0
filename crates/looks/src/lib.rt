// The commands of a script that only look: no byte of the image changes. Their fields have been read.
#![tactic(auto)]

ghost use Rattle.std.specs.Prelude.{◌≡◌, [], ◌∷◌, ◌≤◌, length};
ghost use Rattle.model.specs.Bytes.{view};
ghost use Rattle.model.specs.Read.{read as readCall};
ghost use Rattle.ink.specs.Ink.{sheet, Prints};
ghost use Rattle.opening.specs.Opened.{opened_by};
ghost use Rattle.replies.specs.Lines.{ok_line};
ghost use Rattle.lines.specs.declared.Command.TheVariants as command;
ghost use Rattle.lines.specs.Commands.{Fitting, held};
ghost use Rattle.lines.specs.Left.{Leaves, Says};
ghost use Rattle.looks.specs.Looks.{equals, has_block, block_line, info_line, ReadsInto, read_look, blocks_read, place_forms, found_line, looked};

use directory::Home;
use ink::Ink;
use lines::{BadLine, Look};
use model::Place;
use opening::Opened;
use script::FIELDS;

const BLOCK: usize = 512;

// What a buffer holds before a read, so that bytes left alone are seen.
const BEFORE: u8 = 0xA5;

fn block(img: &[u8], number: usize, page: &mut [u8], ink: &mut Ink) -> Result<(), BadLine>
    requires { number ≤ 4294967295 }
    ensures { Says (has_block (length img.now) number) (block_line (length img.now) (view img.now) number) (sheet ink.old page.old) result ink.new page.new }
{
    let start = number * BLOCK;
    let end = start + BLOCK;
    if img.len() < end {
        return Err(BadLine);
    }
    replies::say_bytes(page, ink, &img[start..end]);
    Ok(())
}

#[tactic(auto, unfolding(crate::specs::Looks::info_line))]
fn get_info(img: &[u8], path: &[u8], page: &mut [u8], ink: &mut Ink)
    ensures { Prints (info_line (length img.now) (view img.now) (view path.now) (length path.now)) (sheet ink.old page.old) (sheet ink.new page.new) }
{
    replies::say_info(page, ink, info::get_info(img, path));
}

// The call read, with a buffer of its own.
fn read_into(
    img: &[u8],
    path: &[u8],
    position: usize,
    buffer: &mut [u8],
    page: &mut [u8],
    ink: &mut Ink,
)
    ensures { ReadsInto (readCall (length img.now) (view img.now) (view path.now) (length path.now) position (equals (length buffer.old) 0xA5) (length buffer.old)) (length buffer.old) (sheet ink.old page.old) ink.new buffer.new page.new }
{
    let size = buffer.len();
    store::fill_run(buffer, 0, size, BEFORE);
    let answer = read::read(img, path, position, buffer);
    replies::say_read(page, ink, answer, buffer);
}

// The same with the first bytes of the buffer; a line that asks for more than it holds is bad.
fn read(
    img: &[u8],
    values: &[usize; FIELDS],
    room: &[u8],
    buffer: &mut [u8],
    page: &mut [u8],
    ink: &mut Ink,
) -> Result<(), BadLine>
    requires { (length room.now ≡ 256) × (view values.now 0 ≤ 128) }
    ensures { Leaves (read_look (length img.now) (view img.now) (length buffer.old) (held values.now room.now buffer.old)) (sheet ink.old page.old) result ink.new img.now buffer.new page.new }
{
    let count = values[2];
    if buffer.len() < count {
        return Err(BadLine);
    }
    read_into(
        img,
        &room[0..values[0]],
        values[1],
        &mut buffer[0..count],
        page,
        ink,
    );
    Ok(())
}

// How many blocks of a directory's chain are read from its key block on until a block is reached.
fn blocks_read(img: &[u8], key: usize, goal: usize) -> usize
    ensures { result ≡ blocks_read (length img.now) (view img.now) key goal }
{
    let most = img.len() / BLOCK;
    let mut block = key;
    for read in 1..most {
        if block == goal || most <= block {
            return read;
        }
        block = store::get_word(img, block * BLOCK + 2);
    }
    most.max(1)
}

fn say_found(img: &[u8], home: Home, place: Place, page: &mut [u8], ink: &mut Ink)
    ensures { Prints (ok_line place_forms (place.block ∷ place.slot ∷ blocks_read (length img.now) (view img.now) home.key place.block ∷ [])) (sheet ink.old page.old) (sheet ink.new page.new) }
{
    let block = place.block as usize;
    let read = blocks_read(img, home.key as usize, block);
    replies::say_ok(page, ink, b"NNN", &[block, place.slot as usize, read]);
}

// Where the entry stands that a path leads to; the volume's header is slot 1 of block 2.
#[tactic(auto, unfolding(crate::specs::Looks::found_line))]
fn find(img: &[u8], path: &[u8], page: &mut [u8], ink: &mut Ink)
    ensures { Prints (found_line (length img.now) (view img.now) (opened_by (length img.now) (view img.now) (view path.now) (length path.now))) (sheet ink.old page.old) (sheet ink.new page.new) }
{
    match opening::opened_by(img, path) {
        Err(why) => replies::say_refused(page, ink, why),
        Ok(Opened::Volume(_)) => replies::say_ok(page, ink, b"NNN", &[2, 1, 1]),
        Ok(Opened::Entry { home, place, .. }) => say_found(img, home, place, page, ink),
    }
}

// A command whose fields are good.
// The values and the texts stay apart, since `read_line` is lent each: a type for both would ask more of its callers.
// A match: each command takes other fields and lends other parts.
#[tactic(auto, unfolding(crate::specs::Looks::looked))]
pub fn run(
    look: Look,
    img: &[u8],
    values: &[usize; FIELDS],
    room: &[u8],
    buffer: &mut [u8],
    page: &mut [u8],
    ink: &mut Ink,
) -> Result<(), BadLine>
    requires { (Fitting (command.Look look) (length buffer.old) values.now) × (length room.now ≡ 256) }
    ensures { Leaves (looked look (length img.now) (view img.now) (length buffer.old) (held values.now room.now buffer.old)) (sheet ink.old page.old) result ink.new img.now buffer.new page.new }
{
    let first = values[0];
    match look {
        Look::Digest => replies::say_digest(page, ink, img),
        Look::Block => block(img, first, page, ink)?,
        Look::Space => replies::say_space(page, ink, info::space(img)),
        Look::GetInfo => get_info(img, &room[0..first], page, ink),
        Look::Read => read(img, values, room, buffer, page, ink)?,
        Look::Find => find(img, &room[0..first], page, ink),
    }
    Ok(())
}
