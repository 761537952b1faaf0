// The plain types of a ProDOS volume: refusals, kinds with their keys, entries, places and answers.
// Their numbers and meanings stand in specs/, a file for each heading of document 01.
#![tactic(auto)]

ghost use Rattle.std.specs.Prelude.{◌≡◌, ◌<◌};
ghost use Rattle.model.specs.Refusals.{refusal_number};
ghost use Rattle.model.specs.Kinds.{kind_number, key_of};
ghost use Rattle.model.specs.Calls.{allows};

// Why a call is refused. Document 01, "Refusal numbers"; $4B stands there twice and is one case.
#[derive(Clone, Copy, Debug, PartialEq, Eq)]
pub enum Refusal {
    NotProdos,
    NotSound,
    BadPath,
    BadKind,
    BadType,
    NoVolume,
    NoDirectory,
    NotFound,
    Duplicate,
    Locked,
    BadPosition,
    EndOfFile,
    DirectoryFull,
    NoRoom,
}

// The four kinds of an active entry, each with its own key block.
#[derive(Clone, Copy)]
pub enum Kind {
    Seedling(u16),
    Sapling(u16),
    Tree(u16),
    Directory(u16),
}

// A date and a time as they are stored: never read.
#[derive(Clone, Copy)]
pub struct Stamp {
    pub date: u16,
    pub time: u16,
}

// What an entry says of its file.
#[derive(Clone, Copy)]
pub struct Entry {
    pub kind: Kind,
    pub ftype: u8,
    pub access: u8,
    pub aux: u16,
    pub used: u16,
    pub eof: u32,
    pub created: Stamp,
    pub modified: Stamp,
}

// Where an entry stands: a block, and a slot from 1 to 13.
#[derive(Clone, Copy, PartialEq)]
pub struct Place {
    pub block: u16,
    pub slot: u8,
}

// What get info tells. The kind is a number: that of the volume is $F, which is no `Kind`.
// Not one type with `Entry` by the kind: clauses and definitions name both.
#[derive(Clone, Copy)]
pub struct Info {
    pub kind: u8,
    pub ftype: u8,
    pub access: u8,
    pub aux: u16,
    pub used: u16,
    pub eof: u32,
    pub created: Stamp,
    pub modified: Stamp,
}

// What space tells: the blocks of the volume, and how many of them are free.
#[derive(Clone, Copy)]
pub struct Space {
    pub total: u16,
    pub free: u16,
}

// The number document 01 gives a refusal.
impl From<Refusal> for u8 {
    ghost from_gives = { λ r n. n ≡ refusal_number r };

    fn from(r: Refusal) -> u8 {
        match r {
            Refusal::NotProdos => 0x52,
            Refusal::NotSound => 0x5A,
            Refusal::BadPath => 0x40,
            Refusal::BadKind => 0x4B,
            Refusal::BadType => 0x53,
            Refusal::NoVolume => 0x45,
            Refusal::NoDirectory => 0x44,
            Refusal::NotFound => 0x46,
            Refusal::Duplicate => 0x47,
            Refusal::Locked => 0x4E,
            Refusal::BadPosition => 0x4D,
            Refusal::EndOfFile => 0x4C,
            Refusal::DirectoryFull => 0x49,
            Refusal::NoRoom => 0x48,
        }
    }
}

// The number of a kind, as the high half of an entry's first byte has it.
impl From<Kind> for u8 {
    ghost from_gives = { λ k n. n ≡ kind_number k };

    fn from(k: Kind) -> u8 {
        match k {
            Kind::Seedling(_) => 1,
            Kind::Sapling(_) => 2,
            Kind::Tree(_) => 3,
            Kind::Directory(_) => 13,
        }
    }
}

// The key block of a kind.
pub fn key_of(k: Kind) -> u16
    ensures { result ≡ key_of k }
{
    match k {
        Kind::Seedling(b) | Kind::Sapling(b) | Kind::Tree(b) | Kind::Directory(b) => b,
    }
}

// The bits of an access that a call may need.
pub const DESTROY: u8 = 0x80;

pub const RENAME: u8 = 0x40;

pub const WRITE: u8 = 0x02;

pub const READ: u8 = 0x01;

// Whether an access has a bit.
#[tactic(auto, unfolding(crate::specs::Calls::allows))]
pub fn allows(access: u8, bit: u8) -> bool
    requires { 0 < bit }
    ensures { result ≡ allows access bit }
{
    access / bit % 2 == 1
}
