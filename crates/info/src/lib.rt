// Get info and space: the calls that only tell. Each answers for every image and every argument; a refusal has the number of document 01.
#![tactic(auto)]

ghost use Rattle.std.specs.Prelude.{◌≡◌, ◌*◌, ◌≤◌, length};
ghost use Rattle.model.specs.Bytes.{view};
ghost use Rattle.model.specs.Directory.{map_block, map_place};
ghost use Rattle.model.specs.Info.{volume_info, get_info, space as spaceCall};
ghost use Rattle.model.specs.Answers.{Tells, Measures};
ghost use Rattle.info.specs.Told.{told};

use model::{Entry, Info, Refusal, Space};
use opening::Opened;

const MAP_BLOCK: usize = 6;

// Where the volume's header begins: slot 1 of block 2.
const VOLUME_HEADER: usize = 1028;

const SLOT_SIZE: usize = 39;

// Space: total and free blocks.
pub fn space(img: &[u8]) -> Result<Space, Refusal>
    ensures { Measures (spaceCall (length img.now) (view img.now)) result }
{
    let n = opening::volume_in(img)?;
    Ok(Space {
        total: n as u16,
        free: map::free_blocks(img, MAP_BLOCK, n) as u16,
    })
}

// What get info tells of an entry.
// A function, since `told` says what it gives.
fn entry_info(entry: Entry) -> Info
    ensures { result ≡ told entry }
{
    Info {
        kind: u8::from(entry.kind),
        ftype: entry.ftype,
        access: entry.access,
        aux: entry.aux,
        used: entry.used,
        eof: entry.eof,
        created: entry.created,
        modified: entry.modified,
    }
}

// What get info tells of the volume.
fn volume_info(img: &[u8], n: usize) -> Info
    requires { (16 ≤ n) × (n ≤ 65535) × (length img.now ≡ n * 512) × (map_block (view img.now) ≡ map_place) }
    ensures { result ≡ volume_info n (view img.now) }
{
    let header = &img[VOLUME_HEADER..VOLUME_HEADER + SLOT_SIZE];
    let created = directory::stamp_at(header, 0x18);
    let used = n - map::free_blocks(img, MAP_BLOCK, n);
    Info {
        kind: 0xF,
        ftype: 0x0F,
        access: img[VOLUME_HEADER + 0x1E],
        aux: n as u16,
        used: used as u16,
        eof: 2048,
        created,
        modified: created,
    }
}

// Get info: of the entry that a path leads to, or of the volume.
pub fn get_info(img: &[u8], path: &[u8]) -> Result<Info, Refusal>
    ensures { Tells (get_info (length img.now) (view img.now) (view path.now) (length path.now)) result }
{
    match opening::opened_by(img, path)? {
        Opened::Volume(n) => Ok(volume_info(img, n)),
        Opened::Entry { entry, .. } => Ok(entry_info(entry)),
    }
}
