// Read: into a lent buffer, from a position of a file. It answers for every image and every argument; a refusal has the number of document 01
// and changes no byte.
#![tactic(auto)]

ghost use Rattle.std.specs.Prelude.{◌≡◌, false, ◌*◌, ◌≤◌, length};
ghost use Rattle.model.specs.Bytes.{view};
ghost use Rattle.model.specs.Read.{read as readCall};
ghost use Rattle.model.specs.Answers.{Reads};
ghost use Rattle.opening.specs.Sorts.{is_folder};
ghost use Rattle.read.specs.Reading.{Readable, entry_read};

use model::{Entry, Refusal};
use opening::Opened;

// $4B, $4E, $4D and $4C; then the bytes of the file from a position on, as many as the buffer takes.
// The image is lent with its number of blocks: a struct of both would be two, one for `&` and one for `&mut`.
fn read_file(
    img: &[u8],
    n: usize,
    entry: Entry,
    position: usize,
    buffer: &mut [u8],
) -> Result<usize, Refusal>
    requires { (n ≤ 65535) × (length img.now ≡ n * 512) × (is_folder entry.kind ≡ false → Readable n (view img.now) entry) }
    ensures { Reads (entry_read (view img.now) entry position (view buffer.old) (length buffer.old)) (length buffer.old) result buffer.new }
{
    let Some(height) = opening::height_of(entry.kind) else {
        return Err(Refusal::BadKind);
    };
    if !model::allows(entry.access, model::READ) {
        return Err(Refusal::Locked);
    }
    let eof = entry.eof as usize;
    if eof < position {
        return Err(Refusal::BadPosition);
    }
    let size = buffer.len();
    if 1 <= size && position == eof {
        return Err(Refusal::EndOfFile);
    }
    let count = store::least(size, eof - position);
    let key = model::key_of(entry.kind) as usize;
    file::read_bytes(img, n, height, key, position, buffer, count);
    Ok(count)
}

// Read: into the buffer, from a position of the file that a path names.
pub fn read(img: &[u8], path: &[u8], position: usize, buffer: &mut [u8]) -> Result<usize, Refusal>
    ensures { Reads (readCall (length img.now) (view img.now) (view path.now) (length path.now) position (view buffer.old) (length buffer.old)) (length buffer.old) result buffer.new }
{
    match opening::opened_by(img, path)? {
        Opened::Volume(_) => Err(Refusal::BadKind),
        Opened::Entry { blocks, entry, .. } => read_file(img, blocks, entry, position, buffer),
    }
}
