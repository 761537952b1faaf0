// What every call does before its own work: whether an image is a sound volume ($52, $5A), and what a path leads to ($40, $45, $44, $46).
#![tactic(auto)]

ghost use Rattle.std.specs.Prelude.{◌≡◌, true, ℕ, ◌*◌, ◌≤◌, length};
ghost use Rattle.model.specs.Bytes.{view};
ghost use Rattle.model.specs.Names.{proper_path};
ghost use Rattle.model.specs.Calls.{target};
ghost use Rattle.model.specs.Sound.{sound};
ghost use Rattle.opening.specs.Opened.{volume_in, opened_at, opened_by, opened_if};
ghost use Rattle.opening.specs.Sorts.{data_height};

use directory::{Home, Looked};
use model::{Entry, Kind, Place, Refusal};

// What a path leads to, with the number of blocks of its volume and, of an entry, its directory.
#[derive(Clone, Copy)]
pub enum Opened {
    Volume(usize),
    Entry {
        blocks: usize,
        home: Home,
        place: Place,
        entry: Entry,
    },
}

// $52 and $5A: the number of blocks of an image that is a sound volume.
pub fn volume_in(img: &[u8]) -> Result<usize, Refusal>
    ensures { result ≡ volume_in (length img.now) (view img.now) }
{
    let size = img.len();
    let n = size / 512;
    if size % 512 != 0 || n < 16 || 65535 < n || !checks::is_prodos(img, n) {
        return Err(Refusal::NotProdos);
    }
    if !sound::is_sound(img, n) {
        return Err(Refusal::NotSound);
    }
    Ok(n)
}

// $45, $44 and $46: what a proper path leads to on a sound volume.
// The image is lent with its number of blocks: a struct of both would be two, one for `&` and one for `&mut`.
#[tactic(auto, using(crate::proofs::SaneLaws::sane))]
pub fn opened_at(img: &[u8], n: usize, path: &[u8]) -> Result<Opened, Refusal>
    requires n_bound { (n ≤ 65535) × (length img.now ≡ n * 512) × (sound n (view img.now) ≡ true) }
    requires path_value { proper_path (view path.now) (length path.now) ≡ true }
    ensures { result ≡ opened_at n (view img.now) (target (view img.now) (view path.now) (length path.now)) }
{
    match directory::lookup(img, n, path)? {
        Looked::Missing(_) => Err(Refusal::NotFound),
        Looked::There { home, place, entry } => Ok(Opened::Entry {
            blocks: n,
            home,
            place,
            entry,
        }),
        Looked::Volume => Ok(Opened::Volume(n)),
    }
}

// The rows up to $46, and one more behind $40: where `fit` fails, the call is refused for the reason given.
// The fit and the reason stay two: the definition, which the clause names, takes both.
pub fn opened_if(img: &[u8], path: &[u8], fit: bool, reason: Refusal) -> Result<Opened, Refusal>
    ensures { result ≡ opened_if fit reason (length img.now) (view img.now) (view path.now) (length path.now) }
{
    let n = volume_in(img)?;
    if !names::is_proper_path(path) {
        return Err(Refusal::BadPath);
    }
    if !fit {
        return Err(reason);
    }
    opened_at(img, n, path)
}

// The refusals that every call with a path has, in their order, up to $46.
pub fn opened_by(img: &[u8], path: &[u8]) -> Result<Opened, Refusal>
    ensures { result ≡ opened_by (length img.now) (view img.now) (view path.now) (length path.now) }
{
    opened_if(img, path, true, Refusal::BadPath)
}

// The height of a data file; none for a directory.
// A height is a number, as in `file`.
pub fn height_of(kind: Kind) -> Option<usize>
    ensures { result ≡ data_height kind }
{
    match kind {
        Kind::Seedling(_) => Some(0),
        Kind::Sapling(_) => Some(1),
        Kind::Tree(_) => Some(2),
        Kind::Directory(_) => None,
    }
}
