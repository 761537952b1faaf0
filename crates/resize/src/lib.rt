// Set EOF: the refusals in their order; then the file grows or shrinks, and its entry is written anew.
// It answers for every image and every argument; its outcome is the one of the definition in model.
#![tactic(auto)]

ghost use Rattle.std.specs.Prelude.{◌≡◌, ◌+◌, ◌-◌, ◌*◌, ◌≤◌, ◌<◌, length};
ghost use Rattle.model.specs.Bytes.{view};
ghost use Rattle.model.specs.Map.{room};
ghost use Rattle.model.specs.Directory.{map_place};
ghost use Rattle.model.specs.File.{height_for, span};
ghost use Rattle.model.specs.SetEof.{set_eof, eof_set};
ghost use Rattle.model.specs.Answers.{Does};
ghost use Rattle.model.proofs.Laws.Move.{Fit};
ghost use Rattle.directory.specs.Slots.{place_number, Counted};
ghost use Rattle.opening.specs.Sorts.{height_of};
ghost use Rattle.held.specs.Held.{Held, Told};
ghost use Rattle.resize.specs.Ends.{end_set, resized, resized_key};

use held::DataFile;
use model::{Entry, Place, Refusal, Stamp};
use opening::Opened;

const MAP_BLOCK: usize = 6;

// "A file has at most 16,777,215 bytes."
const EOF_MOST: usize = 16777215;

// The file blocks below EOF, and at least one: a file always owns its key.
// As `sound` has it for an entry's EOF: each is one line of the library.
#[tactic(auto, unfolding(model::specs::File::span))]
fn span_of(eof: usize) -> usize
    requires { eof < 16777216 }
    ensures { result ≡ span eof }
{
    eof.div_ceil(512).max(1)
}

// A file of a height and a key, as its EOF becomes `end`. Answers its key.
// The image that changes stays beside its number of blocks: in a struct each contract would have to say that it is the same image still.
// A height is a number, as in `file`.
fn reach(img: &mut [u8], n: usize, height: usize, key: usize, eof: usize, end: usize) -> usize
    requires img_len { (length img.old ≡ n * 512) × (height ≡ height_for eof) × (eof < 16777216) × (end < 16777216) × Fit n (view img.old) height 0 key }
    requires height_bound { height_for end - height ≤ room map_place (view img.old) n }
    ensures img_after { view img.new ≡ resized n (view img.old) height key eof end }
    ensures value { result ≡ resized_key n (view img.old) height key eof end }
{
    if eof < end {
        return growth::grow(img, n, height, key, eof, end);
    }
    let to = directory::height_for(end);
    shrink::shrink(img, n, height, key, to, span_of(end))
}

// The file of an entry gets a new EOF, and the entry says so. `free` blocks are free before.
fn set_end(img: &mut [u8], n: usize, file: DataFile, free: usize, eof: usize, stamp: Stamp)
    requires img_len { (length img.old ≡ n * 512) × (eof < 16777216) × Counted file.place × Held n (view img.old) (place_number file.place) file.entry }
    requires height_value { file.height ≡ height_of file.entry.kind }
    requires free_value { (free ≡ room map_place (view img.old) n) × (height_for eof - height_of file.entry.kind ≤ free) }
    ensures { view img.new ≡ eof_set map_place n (view img.old) (place_number file.place) eof stamp }
{
    let key = model::key_of(file.entry.kind) as usize;
    let together = file.entry.used as usize + free;
    let at = directory::slot_at(file.place);
    let new_key = reach(img, n, file.height, key, file.entry.eof as usize, eof);
    let new_height = directory::height_for(eof);
    growth::note(img, n, at, new_height, new_key, together, eof, stamp);
}

// $4B, $4E, $4D and $48 for the entry at a place; then its new EOF.
fn set_entry(
    img: &mut [u8],
    n: usize,
    place: Place,
    entry: Entry,
    eof: usize,
    stamp: Stamp,
) -> Result<(), Refusal>
    requires { (length img.old ≡ n * 512) × Told n (view img.old) place entry }
    ensures { Does (end_set n (view img.old) (place_number place) eof stamp) (length img.old) result img.new }
{
    let Some(height) = opening::height_of(entry.kind) else {
        return Err(Refusal::BadKind);
    };
    if !model::allows(entry.access, model::WRITE) {
        return Err(Refusal::Locked);
    }
    if EOF_MOST < eof {
        return Err(Refusal::BadPosition);
    }
    let free = map::free_blocks(img, MAP_BLOCK, n);
    if free + height < directory::height_for(eof) {
        return Err(Refusal::NoRoom);
    }
    let file = DataFile {
        place,
        entry,
        height,
    };
    set_end(img, n, file, free, eof, stamp);
    Ok(())
}

// Set EOF of the file that a path names.
pub fn set_eof(img: &mut [u8], path: &[u8], eof: usize, stamp: Stamp) -> Result<(), Refusal>
    ensures { Does (set_eof (length img.old) (view img.old) (view path.now) (length path.now) eof stamp) (length img.old) result img.new }
{
    match opening::opened_by(img, path)? {
        Opened::Volume(_) => Err(Refusal::BadKind),
        Opened::Entry {
            blocks,
            place,
            entry,
            ..
        } => set_entry(img, blocks, place, entry, eof, stamp),
    }
}
