// `replay`: plays the script that comes on standard input, or the script in each file named by an argument, under its name (docs/REPLAY.md).
#![tactic(auto)]

ghost use Rattle.std.specs.Io.{ReadsAtMost};

use player::{BUFFER, IMAGE, Output, PAGE, SCRIPT};
use std::env::{Env, FillError};
use std::fs::{File, Files};
use std::io;
use std::io::{ErrorKind, Input, Read};

// A longer name is played as an empty one, which no file has.
const LONGEST_NAME: usize = 256;

// Reads until the room is full or the input ends, and answers how many bytes came.
// This and the functions below stand in `catalog` too: shared, they would be public, and what a public function answers follows from its arguments.
fn read_full<F: Read>(file: &mut F, room: &mut [u8]) -> io::Result<usize>
    ensures { ReadsAtMost result room.new }
{
    let mut got = 0;
    for _ in 0..u64::MAX {
        if got == room.len() {
            break;
        }
        match file.read(&mut room[got..]) {
            Ok(0) => break,
            Ok(n) => got += n,
            Err(e) if e.kind() == ErrorKind::Interrupted => {}
            Err(e) => return Err(e),
        }
    }
    Ok(got)
}

fn play_from<F: Read>(
    rt: &impl Print,
    file: &mut F,
    text: &mut [u8],
    image: &mut [u8],
    buffer: &mut [u8],
    page: &mut [u8],
) -> io::Result<()> {
    let got = read_full(file, text)?;
    let mut output = Output {
        to: io::writer(rt),
        outcome: Ok(()),
    };
    player::play(&text[0..got], image, buffer, page, &mut output);
    output.outcome
}

fn play_file(
    rt: &(impl Print + Eprint + Files),
    name: &[u8],
    text: &mut [u8],
    image: &mut [u8],
    buffer: &mut [u8],
    page: &mut [u8],
) -> io::Result<()> {
    rt.write_all(name)?;
    rt.write_all(b"\n")?;
    let Ok(path) = str::from_utf8(name) else {
        return eprintln!(rt; "a name that is not UTF-8 cannot be opened");
    };
    match File::open(rt, path) {
        Ok(mut file) => play_from(rt, &mut file, text, image, buffer, page),
        Err(error) => eprintln!(rt; "{path}: {error}"),
    }
}

// Plays what each argument names. Argument 0 is the program: alone, it reads standard input.
fn play_arguments(
    rt: &(impl Print + Eprint + Input + Files + Env),
    text: &mut [u8; SCRIPT],
    image: &mut [u8; IMAGE],
    buffer: &mut [u8; BUFFER],
    page: &mut [u8; PAGE],
) -> io::Result<()> {
    let mut name = [0u8; LONGEST_NAME];
    for i in 0..usize::MAX {
        match rt.arg(i, &mut name) {
            Ok(_) | Err(FillError::TooLong) if i == 0 => {}
            Ok(size) => play_file(rt, &name[0..size], text, image, buffer, page)?,
            Err(FillError::TooLong) => play_file(rt, b"", text, image, buffer, page)?,
            Err(FillError::NotPresent) if i == 1 => {
                return play_from(rt, &mut rt.reader(), text, image, buffer, page);
            }
            Err(FillError::NotPresent) => break,
        }
    }
    Ok(())
}

fn main(rt: HostRuntime) -> io::Result<()> {
    let mut text = [0u8; SCRIPT];
    let mut image = [0u8; IMAGE];
    let mut buffer = [0u8; BUFFER];
    let mut page = [0u8; PAGE];
    play_arguments(&rt, &mut text, &mut image, &mut buffer, &mut page)
}
