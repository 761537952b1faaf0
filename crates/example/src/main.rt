// The calls in use: a volume in memory is formatted, LOG is made on it, written and read back.
#![tactic(auto)]

use model::{Refusal, Stamp};
use std::io;

fn keep_a_log(img: &mut [u8], back: &mut [u8]) -> Result<usize, Refusal> {
    let today = Stamp { date: 1, time: 2 };
    format::format(img, b"SITE7", today)?;
    create::create(img, b"/SITE7/LOG", 1, 4, 0, today)?;
    write::write(img, b"/SITE7/LOG", 0, b"forward 9900 W\n", today)?;
    read::read(img, b"/SITE7/LOG", 0, back)
}

fn main(rt: HostRuntime) -> io::Result<()> {
    let mut img = [0u8; 8192];
    let mut back = [0u8; 15];
    match keep_a_log(&mut img, &mut back) {
        Ok(_) => rt.write_all(&back),
        Err(why) => eprintln!(rt; "refused: {why:?}"),
    }
}
