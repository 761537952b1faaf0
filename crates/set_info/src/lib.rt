// Set info: access, aux and modified stamp as given. All checks stand before the first changed byte; a refusal has the number of document 01.
#![tactic(auto)]

ghost use Rattle.std.specs.Prelude.{◌≡◌, ◌+◌, ◌≤◌, length};
ghost use Rattle.model.specs.Bytes.{view, put, put_word};
ghost use Rattle.model.specs.Calls.{put_stamp};
ghost use Rattle.model.specs.Info.{set_info};
ghost use Rattle.model.specs.Answers.{Does};

use model::{Refusal, Stamp};
use opening::Opened;

// Access, aux and modified stamp of the slot that begins at `start`.
fn put_info(img: &mut [u8], start: usize, access: u8, aux: u16, modified: Stamp)
    requires { start + 39 ≤ length img.old }
    ensures { view img.new ≡ put_stamp (put_word (put (view img.old) (start + 0x1E) access) (start + 0x1F) aux) (start + 0x21) modified }
{
    store::put_byte(img, start + 0x1E, access);
    store::put_word(img, start + 0x1F, aux as usize);
    entries::put_stamp(img, start + 0x21, modified);
}

// Set info: access, aux and modified stamp as given.
pub fn set_info(
    img: &mut [u8],
    path: &[u8],
    access: u8,
    aux: u16,
    modified: Stamp,
) -> Result<(), Refusal>
    ensures { Does (set_info (length img.old) (view img.old) (view path.now) (length path.now) access aux modified) (length img.old) result img.new }
{
    let fit = access / 4 % 8 == 0;
    match opening::opened_if(img, path, fit, Refusal::BadType)? {
        Opened::Volume(_) => Err(Refusal::Locked),
        Opened::Entry { place, .. } => {
            put_info(img, directory::slot_at(place), access, aux, modified);
            Ok(())
        }
    }
}
