// A data file that a path leads to, and what its decoded entry says: what write and set EOF stand on. A struct, definitions and laws.
#![tactic(auto)]

use model::{Entry, Place};

// A data file: its entry, where that stands, and the height that its kind says.
// A height is a number, as in `file`.
#[derive(Clone, Copy)]
pub struct DataFile {
    pub place: Place,
    pub entry: Entry,
    pub height: usize,
}
