// What the calls store in a slot: stamps, names as capitals, and the 39 bytes of headers and entries.
// A writer of a slot is lent its 39 bytes from the middle of the image, and touches nothing else.
#![tactic(auto)]

ghost use Rattle.std.specs.Prelude.{◌≡◌, ◌+◌, ◌≤◌, ◌<◌, length};
ghost use Rattle.model.specs.Bytes.{view, paste};
ghost use Rattle.model.specs.Names.{capitals, part};
ghost use Rattle.model.specs.Directory.{place};
ghost use Rattle.model.specs.Calls.{put_stamp, name_field, put_name, backed_up};
ghost use Rattle.model.specs.Format.{header_bytes, volume_header};
ghost use Rattle.model.specs.Create.{entry_bytes, subdirectory_header};
ghost use Rattle.entries.specs.Fields.{first_eof, entry_front};

use model::Stamp;

const NAME_FIELD: usize = 16;

const SLOT_SIZE: usize = 39;

const SLOTS: u8 = 13;

// The volume's map begins at block 6.
const MAP_BLOCK: usize = 6;

// The kind of a subdirectory's entry.
const DIRECTORY: usize = 0xD;

// What a new file, and a subdirectory's header, may have done to them.
const ACCESS: u8 = 0xE3;

// An access with the backup bit set.
#[tactic(auto, using(crate::proofs::Laws::backed_or))]
pub fn backed_up(access: u8) -> u8
    ensures { result ≡ backed_up access }
{
    access | 0x20
}

// A stamp, date before time.
#[tactic(auto, using(crate::proofs::Laws::stamp_stored))]
pub fn put_stamp(img: &mut [u8], at: usize, stamp: Stamp)
    requires { at + 4 ≤ length img.old }
    ensures { view img.new ≡ put_stamp (view img.old) at stamp }
{
    store::put_word(img, at, usize::from(stamp.date));
    store::put_word(img, at + 2, usize::from(stamp.time));
}

// The capitals of a name, from `to` on.
#[tactic(auto, using(model::proofs::ByteLaws::paste_none, store::proofs::Runs::byte_pasted))]
fn put_capitals(dst: &mut [u8], to: usize, name: &[u8])
    requires { to + length name.now ≤ length dst.old }
    ensures { view dst.new ≡ paste (view dst.old) to (length name.now) (capitals (view name.now)) }
{
    for (i, byte) in name.iter().enumerate() {
        dst[to + i] = names::capital_of(*byte);
    }
}

// A name as it is stored: kind and length, the capitals, spare bytes 0.
// The kind is a number: headers have $E and $F, which are the kinds of no entry.
#[tactic(auto, using(crate::proofs::Laws::name_stored))]
pub fn put_name(img: &mut [u8], at: usize, kind: usize, name: &[u8])
    requires { (at + 16 ≤ length img.old) × (length name.now ≤ 15) × (kind < 16) }
    ensures { view img.new ≡ put_name (view img.old) at kind (view name.now) (part 0 (length name.now)) }
{
    store::clear_run(img, at, NAME_FIELD);
    put_capitals(img, at + 1, name);
    store::put_byte(img, at, (kind * 16 + name.len()) as u8);
}

// A slot that has a name and nothing else.
#[tactic(auto, using(crate::proofs::Laws::slot_cleared, crate::proofs::Laws::slot_named))]
fn write_name(slot: &mut [u8], kind: usize, name: &[u8])
    requires { (length slot.old ≡ 39) × (length name.now ≤ 15) × (kind < 16) }
    ensures { view slot.new ≡ name_field kind (view name.now) (part 0 (length name.now)) }
{
    store::clear_run(slot, 0, SLOT_SIZE);
    put_name(slot, 0, kind, name);
}

// A header with no active entry.
#[tactic(auto, unfolding(model::specs::Format::header_bytes))]
pub fn write_header(slot: &mut [u8], kind: usize, name: &[u8], stamp: Stamp, access: u8)
    requires { (length slot.old ≡ 39) × (length name.now ≤ 15) × (kind < 16) }
    ensures { view slot.new ≡ header_bytes kind (view name.now) (part 0 (length name.now)) stamp access }
{
    write_name(slot, kind, name);
    put_stamp(slot, 0x18, stamp);
    store::put_byte(slot, 0x1E, access);
    store::put_byte(slot, 0x1F, SLOT_SIZE as u8);
    store::put_byte(slot, 0x20, SLOTS);
}

// The header of a subdirectory whose entry stands in slot `number` of a block.
#[tactic(auto, unfolding(model::specs::Create::subdirectory_header, model::specs::Directory::place))]
pub fn write_subdirectory_header(
    slot: &mut [u8],
    name: &[u8],
    stamp: Stamp,
    block: usize,
    number: u8,
)
    requires { (length slot.old ≡ 39) × (length name.now ≤ 15) × (1 ≤ number) × (number ≤ 13) }
    ensures { view slot.new ≡ subdirectory_header (view name.now) (part 0 (length name.now)) stamp (place block number) }
{
    write_header(slot, 0xE, name, stamp, ACCESS);
    store::put_byte(slot, 0x10, 0x75);
    store::put_word(slot, 0x23, block);
    store::put_byte(slot, 0x25, number);
    store::put_byte(slot, 0x26, SLOT_SIZE as u8);
}

// The header of a volume of n blocks.
#[tactic(auto, unfolding(model::specs::Format::volume_header))]
pub fn write_volume_header(slot: &mut [u8], n: usize, name: &[u8], stamp: Stamp)
    requires { (length slot.old ≡ 39) × (length name.now ≤ 15) }
    ensures { view slot.new ≡ volume_header n (view name.now) (part 0 (length name.now)) stamp }
{
    write_header(slot, 0xF, name, stamp, 0xC3);
    store::put_word(slot, 0x23, MAP_BLOCK);
    store::put_word(slot, 0x25, n);
}

// The EOF of a file of one block: a directory is its block, a data file is empty.
#[tactic(auto, unfolding(crate::specs::Fields::first_eof))]
fn first_eof(kind: usize) -> usize
    ensures { result ≡ first_eof kind }
{
    if kind == DIRECTORY { 512 } else { 0 }
}

// The entry's bytes before the stamp: name, type, key, one block used, EOF.
fn write_front(slot: &mut [u8], name: &[u8], kind: usize, ftype: u8, key: usize)
    requires { (length slot.old ≡ 39) × (length name.now ≤ 15) × (kind < 16) }
    ensures { view slot.new ≡ entry_front (view name.now) (part 0 (length name.now)) kind ftype key }
{
    write_name(slot, kind, name);
    store::put_byte(slot, 0x10, ftype);
    store::put_word(slot, 0x11, key);
    store::put_word(slot, 0x13, 1);
    store::put_long(slot, 0x15, first_eof(kind));
}

// A new entry with its key block, in the directory that begins at `home`.
// Eight parameters: the contract names the fields one by one, and the struct that asks for a file is of a crate above.
// The kind is a number below 16, as the clauses of this crate have it: they may not ask more.
#[tactic(auto, unfolding(model::specs::Create::entry_bytes, crate::specs::Fields::first_eof))]
pub fn write_entry(
    slot: &mut [u8],
    name: &[u8],
    kind: usize,
    ftype: u8,
    aux: u16,
    stamp: Stamp,
    key: usize,
    home: usize,
)
    requires { (length slot.old ≡ 39) × (length name.now ≤ 15) × (kind < 16) }
    ensures { view slot.new ≡ entry_bytes (view name.now) (part 0 (length name.now)) (record { kind = kind; ftype = ftype; aux = aux; stamp = stamp }) key home }
{
    write_front(slot, name, kind, ftype, key);
    put_stamp(slot, 0x18, stamp);
    store::put_byte(slot, 0x1E, ACCESS);
    store::put_word(slot, 0x1F, usize::from(aux));
    put_stamp(slot, 0x21, stamp);
    store::put_word(slot, 0x25, home);
}
