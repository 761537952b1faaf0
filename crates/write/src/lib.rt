// Write: the refusals in their order; then EOF grows, the data are poured, and the entry is written anew.
// It answers for every image and every argument; its outcome is the one of the definition in model.
#![tactic(auto)]

ghost use Rattle.std.specs.Prelude.{◌≡◌, ◌+◌, ◌*◌, ◌≤◌, ◌<◌, length, ltb};
ghost use Rattle.model.specs.Bytes.{view, ◌or◌};
ghost use Rattle.model.specs.Map.{room};
ghost use Rattle.model.specs.Directory.{map_place};
ghost use Rattle.model.specs.File.{eof_most};
ghost use Rattle.model.specs.Write.{written, write as writeCall};
ghost use Rattle.model.specs.Answers.{Writes};
ghost use Rattle.directory.specs.Slots.{place_number, Counted};
ghost use Rattle.opening.specs.Sorts.{height_of};
ghost use Rattle.held.specs.Held.{Held, Told};
ghost use Rattle.write.specs.Writing.{written_at, entry_need};

use held::DataFile;
use model::{Entry, Place, Refusal, Stamp};
use opening::Opened;

const MAP_BLOCK: usize = 6;

// "A file has at most 16,777,215 bytes."
const EOF_MOST: usize = 16777215;

// $4D: a position past EOF, or an end past what a file may have.
#[tactic(auto, using(crate::proofs::RowLaws::far_start, crate::proofs::RowLaws::far_is))]
fn is_too_far(eof: u32, position: usize, size: usize) -> bool
    ensures { result ≡ (ltb eof position or ltb eof_most (position + size)) }
{
    (eof as usize) < position || EOF_MOST < position.saturating_add(size)
}

// The blocks that a write of size bytes needs, size not 0.
fn need(img: &[u8], n: usize, file: DataFile, position: usize, size: usize) -> usize
    requires img_len { (length img.now ≡ n * 512) × Held n (view img.now) (place_number file.place) file.entry }
    requires height_value { file.height ≡ height_of file.entry.kind }
    requires size_nonzero { (0 < size) × (position + size < 16777216) }
    ensures { result ≡ entry_need (view img.now) file.entry position size }
{
    let key = model::key_of(file.entry.kind) as usize;
    let end = store::largest(file.entry.eof as usize, position + size);
    let goal = directory::height_for(end);
    let past = (position + size - 1) / 512 + 1;
    pour::need(img, n, file.height, key, goal, position / 512, past)
}

// The data into the file of an entry, and the entry says so. `free` blocks are free before, and they suffice.
// The image that changes stays beside its number of blocks: in a struct each contract would have to say that it is the same image still.
fn put_data(
    img: &mut [u8],
    n: usize,
    file: DataFile,
    free: usize,
    position: usize,
    buffer: &[u8],
    stamp: Stamp,
)
    requires img_len { (length img.old ≡ n * 512) × Counted file.place × Held n (view img.old) (place_number file.place) file.entry }
    requires height_value { file.height ≡ height_of file.entry.kind }
    requires buffer_nonzero { (0 < length buffer.now) × (position + length buffer.now < 16777216) }
    requires free_value { (free ≡ room map_place (view img.old) n) × (entry_need (view img.old) file.entry position (length buffer.now) ≤ free) }
    ensures { view img.new ≡ written map_place n (view img.old) (place_number file.place) position (view buffer.now) (length buffer.now) stamp }
{
    let key = model::key_of(file.entry.kind) as usize;
    let eof = file.entry.eof as usize;
    let together = file.entry.used as usize + free;
    let end = store::largest(eof, position + buffer.len());
    let goal = directory::height_for(end);
    let at = directory::slot_at(file.place);
    let new_key = growth::grow(img, n, file.height, key, eof, end);
    pour::pour(img, n, goal, new_key, position, buffer);
    growth::note(img, n, at, goal, new_key, together, end, stamp);
}

// $4B, $4E, $4D and $48 for the entry at a place; then the data.
// Seven parameters, those of the call and of the file that it found.
fn write_entry(
    img: &mut [u8],
    n: usize,
    place: Place,
    entry: Entry,
    position: usize,
    buffer: &[u8],
    stamp: Stamp,
) -> Result<usize, Refusal>
    requires { (16 ≤ n) × (n ≤ 65535) × (length img.old ≡ n * 512) × Told n (view img.old) place entry }
    ensures { Writes (written_at n (view img.old) (place_number place) position (view buffer.now) (length buffer.now) stamp) (length img.old) result img.new }
{
    let Some(height) = opening::height_of(entry.kind) else {
        return Err(Refusal::BadKind);
    };
    if !model::allows(entry.access, model::WRITE) {
        return Err(Refusal::Locked);
    }
    let size = buffer.len();
    if is_too_far(entry.eof, position, size) {
        return Err(Refusal::BadPosition);
    }
    if size == 0 {
        return Ok(0);
    }
    let file = DataFile {
        place,
        entry,
        height,
    };
    let free = map::free_blocks(img, MAP_BLOCK, n);
    if free < need(img, n, file, position, size) {
        return Err(Refusal::NoRoom);
    }
    put_data(img, n, file, free, position, buffer, stamp);
    Ok(size)
}

// Write: the buffer, to a position of the file that a path names.
pub fn write(
    img: &mut [u8],
    path: &[u8],
    position: usize,
    buffer: &[u8],
    stamp: Stamp,
) -> Result<usize, Refusal>
    ensures { Writes (writeCall (length img.old) (view img.old) (view path.now) (length path.now) position (view buffer.now) (length buffer.now) stamp) (length img.old) result img.new }
{
    match opening::opened_by(img, path)? {
        Opened::Volume(_) => Err(Refusal::BadKind),
        Opened::Entry {
            blocks,
            place,
            entry,
            ..
        } => write_entry(img, blocks, place, entry, position, buffer, stamp),
    }
}
