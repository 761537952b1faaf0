// `catalog`: lists the volume whose image comes on standard input, or the image in each file named by an argument, under its name.
#![tactic(auto)]

ghost use Rattle.std.specs.Io.{ReadsAtMost};

use std::env::{Env, FillError};
use std::fs::{File, Files};
use std::io;
use std::io::{ErrorKind, Input, Read};

// One byte more than is listed, so that a larger image is seen to be one.
const ROOM: usize = 65537;

const PAGE: usize = 65536;

// More pages than the listing of any image of 65,536 bytes has.
const PAGES: usize = 64;

// A longer name is listed as an empty one, which no file has.
const LONGEST_NAME: usize = 256;

// Prints one page and answers how many bytes it had.
fn print_page(rt: &impl Print, img: &[u8], offset: usize, page: &mut [u8]) -> io::Result<usize> {
    let shown = pages::catalog_page(img, offset, page);
    if shown <= page.len() {
        rt.write_all(&page[0..shown])?;
    }
    Ok(shown)
}

// Prints what is to be said of an image, in large pieces.
fn print_catalog(rt: &impl Print, img: &[u8]) -> io::Result<()> {
    let mut page = [0u8; PAGE];
    for i in 0..PAGES {
        let shown = print_page(rt, img, i * PAGE, &mut page)?;
        if shown < PAGE {
            break;
        }
    }
    Ok(())
}

// Reads until the room is full or the input ends, and answers how many bytes came.
// This and the functions below stand in `replay` too: shared, they would be public, and what a public function answers follows from its arguments.
fn read_full<F: Read>(file: &mut F, room: &mut [u8]) -> io::Result<usize>
    ensures { ReadsAtMost result room.new }
{
    let mut got = 0;
    for _ in 0..u64::MAX {
        if got == room.len() {
            break;
        }
        match file.read(&mut room[got..]) {
            Ok(0) => break,
            Ok(n) => got += n,
            Err(e) if e.kind() == ErrorKind::Interrupted => {}
            Err(e) => return Err(e),
        }
    }
    Ok(got)
}

fn list<F: Read>(rt: &impl Print, file: &mut F, room: &mut [u8]) -> io::Result<()> {
    let got = read_full(file, room)?;
    print_catalog(rt, &room[0..got])
}

fn list_file(rt: &(impl Print + Eprint + Files), name: &[u8], room: &mut [u8]) -> io::Result<()> {
    rt.write_all(name)?;
    rt.write_all(b"\n")?;
    let Ok(path) = str::from_utf8(name) else {
        return eprintln!(rt; "a name that is not UTF-8 cannot be opened");
    };
    match File::open(rt, path) {
        Ok(mut file) => list(rt, &mut file, room),
        Err(error) => eprintln!(rt; "{path}: {error}"),
    }
}

// Lists what each argument names. Argument 0 is the program: alone, it reads standard input.
fn list_arguments(
    rt: &(impl Print + Eprint + Input + Files + Env),
    room: &mut [u8],
) -> io::Result<()> {
    let mut name = [0u8; LONGEST_NAME];
    for i in 0..usize::MAX {
        match rt.arg(i, &mut name) {
            Ok(_) | Err(FillError::TooLong) if i == 0 => {}
            Ok(size) => list_file(rt, &name[0..size], room)?,
            Err(FillError::TooLong) => list_file(rt, b"", room)?,
            Err(FillError::NotPresent) if i == 1 => return list(rt, &mut rt.reader(), room),
            Err(FillError::NotPresent) => break,
        }
    }
    Ok(())
}

fn main(rt: HostRuntime) -> io::Result<()> {
    let mut room = [0u8; ROOM];
    list_arguments(&rt, &mut room)
}
