// The tests of a sound volume that claim no block: the headers, the volume directory's links, active entries counted, names compared.
// A slot is known by its place, 13 to a block; its 39 bytes are lent. Document 01, "A sound volume".
#![tactic(auto)]

ghost use Rattle.std.specs.Prelude.{◌≡◌, ◌+◌, ◌-◌, ◌*◌, ◌≤◌, ◌<◌, eqb, ◌++◌, length, take, drop};
ghost use Rattle.model.specs.Bytes.{view, run, ◌and◌};
ghost use Rattle.model.specs.Names.{capital_name};
ghost use Rattle.model.specs.Directory.{at, block_of, slot_of, next, header_kind, header_slot_size, header_slots, parent_block, parent_slot, parent_slot_size, sort, is_active, active, chain, slots};
ghost use Rattle.model.specs.Sound.{prodos, volume_faults, header_faults, twins, twins_of};
ghost use Rattle.checks.specs.Inside.{Inside, Readable, ahead, actives};

pub use twins::Node;

pub const BLOCK: usize = 512;

pub const SLOT_SIZE: usize = 39;

pub const SLOTS: usize = 13;

const VOLUME: usize = 2;

// Room for the names of a directory, to compare them in: their addresses, and a tree of them.
#[derive(Drop)]
pub struct Scratch<'a> {
    pub list: &'a mut [u32],
    pub nodes: &'a mut [Node],
}

// Where a place's slot begins in the image.
#[tactic(auto, unfolding(model::specs::Directory::at))]
pub fn address(place: usize) -> usize
    requires { place < 1000000 }
    ensures { result ≡ at place }
{
    place / SLOTS * BLOCK + 4 + SLOT_SIZE * (place % SLOTS)
}

// The name stored at a place is proper and in capitals.
pub fn name_right(img: &[u8], place: usize) -> bool
    requires { (place < 1000000) × (at place + 39 ≤ length img.now) }
    ensures { result ≡ capital_name (view img.now) (at place) }
{
    let a = address(place);
    names::is_capital_name(&img[a..a + SLOT_SIZE])
}

// A header has this kind, 39 and 13.
// The kind is a number: $E and $F are the kinds of headers, which no `Kind` has.
fn header_fits(img: &[u8], key: usize, kind: u8) -> bool
    requires { key * 512 + 512 ≤ length img.now }
    ensures { result ≡ (eqb (header_kind (view img.now) key) kind and eqb (header_slot_size (view img.now) key) 39 and eqb (header_slots (view img.now) key) 13) }
{
    img[key * BLOCK + 0x04] / 16 == kind
        && img[key * BLOCK + 0x23] == 39
        && img[key * BLOCK + 0x24] == 13
}

pub fn is_prodos(img: &[u8], n: usize) -> bool
    requires { (length img.now ≡ n * 512) × (16 ≤ n) }
    ensures { result ≡ prodos n (view img.now) }
{
    store::get_word(img, VOLUME * BLOCK) == 0
        && header_fits(img, VOLUME, 0xF)
        && store::get_word(img, VOLUME * BLOCK + 0x29) == n
}

// The block that a directory block names as its next. Four loops below go along a chain by it: each is two lines, and an iterator would be longer.
fn next_of(img: &[u8], b: usize) -> usize
    requires { b * 512 + 512 ≤ length img.now }
    ensures { result ≡ next (view img.now) b }
{
    store::get_word(img, b * BLOCK + 2)
}

// The volume directory is blocks 2, 3, 4, 5, and the map starts at block 6.
pub fn volume_right(img: &[u8], n: usize) -> bool
    requires { (length img.now ≡ n * 512) × (16 ≤ n) }
    ensures { result ≡ eqb (volume_faults (view img.now)) 0 }
{
    next_of(img, VOLUME) == 3
        && next_of(img, 3) == 4
        && next_of(img, 4) == 5
        && store::get_word(img, VOLUME * BLOCK + 0x27) == 6
}

// A subdirectory's header points at its entry: the block, the slot counted from 1, and the slot's size.
fn points_at(img: &[u8], place: usize, key: usize) -> bool
    requires { (place < 1000000) × (key * 512 + 512 ≤ length img.now) }
    ensures { result ≡ (eqb (parent_block (view img.now) key) (block_of place) and eqb (parent_slot (view img.now) key) (slot_of place) and eqb (parent_slot_size (view img.now) key) 39) }
{
    store::get_word(img, key * BLOCK + 0x27) == place / SLOTS
        && usize::from(img[key * BLOCK + 0x29]) == place % SLOTS + 1
        && img[key * BLOCK + 0x2A] == 39
}

// The header in block `key` is that of the subdirectory whose entry is at a place.
#[tactic(auto, unfolding(model::specs::Directory::at))]
pub fn header_right(img: &[u8], n: usize, place: usize, key: usize) -> bool
    requires img_len { (length img.now ≡ n * 512) × (n ≤ 65535) × (key < n) }
    requires place_in_bounds { at place + 39 ≤ length img.now }
    ensures { result ≡ eqb (header_faults (view img.now) place key) 0 }
{
    header_fits(img, key, 0xE)
        && points_at(img, place, key)
        && twins::alike_at(img, key * BLOCK + 4, address(place))
}

// The volume whose slots are read, an image of n blocks.
// A type of its own beside that of `sound`, which knows more of the volume.
#[derive(Clone, Copy)]
struct Volume<'a> {
    img: &'a [u8],
    n: usize,
    ghost readable: { Readable n img.now },
}

impl Volume<'_> {
    #[tactic(auto, using(crate::proofs::Laws::active_is), unfolding(model::specs::Directory::at))]
    fn is_active(&self, place: usize) -> bool
        requires { place < self.now.n * 13 }
        ensures { result ≡ is_active (sort (view self.now.img.now) place) }
    {
        self.img[address(place)] / 16 != 0
    }

    // The active slots from one place up to another.
    fn active_between(&self, start: usize, end: usize) -> usize
        requires { (start ≤ end) × (end ≤ self.now.n * 13) }
        ensures { (result ≡ active (view self.now.img.now) (run start (end - start))) × (result ≤ end - start) }
    {
        let mut count = 0;
        for place in start..end {
            if self.is_active(place) {
                count += 1;
            }
        }
        count
    }

    // The active slots of a chain of blocks.
    fn active_in_blocks(&self, first: usize, blocks: usize) -> usize
        requires few { blocks ≤ 65535 }
        requires inside { Inside self.now.n (chain (view self.now.img.now) first blocks) }
        ensures { let v = view self.now.img.now in (result ≡ active v (slots (chain v first blocks))) × (result ≤ blocks * 13) }
    {
        let mut count = 0;
        let mut block = first;
        for _done in 0..blocks {
            let start = block * SLOTS;
            count += self.active_between(start, start + SLOTS);
            block = next_of(self.img, block);
        }
        count
    }

    // No active slot from one place up to another has the name stored at `place`.
    #[tactic(auto, using(crate::proofs::Laws::alone_off, crate::proofs::Laws::alone_next, crate::proofs::Laws::alone_not, crate::proofs::Laws::alone_end), unfolding(model::specs::Directory::at))]
    fn alone_between(&self, place: usize, start: usize, end: usize) -> bool
        requires { (place < self.now.n * 13) × (start ≤ end) × (end ≤ self.now.n * 13) }
        ensures { result ≡ eqb (twins_of (view self.now.img.now) place (run start (end - start))) 0 }
    {
        let name = address(place);
        for other in start..end {
            if self.is_active(other) && twins::alike_at(self.img, name, address(other)) {
                return false;
            }
        }
        true
    }

    // No active slot of a chain of blocks has the name stored at `place`.
    fn alone_in_blocks(&self, place: usize, first: usize, blocks: usize) -> bool
        requires place { place < self.now.n * 13 }
        requires inside { Inside self.now.n (chain (view self.now.img.now) first blocks) }
        ensures { let v = view self.now.img.now in result ≡ eqb (twins_of v place (slots (chain v first blocks))) 0 }
    {
        let mut block = first;
        for _done in 0..blocks {
            let start = block * SLOTS;
            if !self.alone_between(place, start, start + SLOTS) {
                return false;
            }
            block = next_of(self.img, block);
        }
        true
    }

    // No active slot behind `place`, in its block and the blocks that follow, has its name.
    fn alone_ahead(&self, place: usize, block: usize, after: usize) -> bool
        requires place { (place < block * 13 + 13) × (block < self.now.n) }
        requires inside { let v = view self.now.img.now in Inside self.now.n (chain v (next v block) after) }
        ensures { let v = view self.now.img.now in result ≡ eqb (twins_of v place (ahead v (place + 1) block after)) 0 }
    {
        self.alone_between(place, place + 1, block * SLOTS + SLOTS)
            && self.alone_in_blocks(place, next_of(self.img, block), after)
    }

    // Each active slot of a block, from `start` on, has a name that none behind it has: whether two of the blocks that follow are alike is open.
    #[tactic(auto, using(crate::proofs::Laws::ahead_end, crate::proofs::Laws::unlike_skip, crate::proofs::Laws::unlike_more, crate::proofs::Laws::unlike_not))]
    fn unlike_from(&self, start: usize, block: usize, after: usize) -> bool
        requires start { (start ≤ block * 13 + 13) × (block < self.now.n) }
        requires inside { let v = view self.now.img.now in Inside self.now.n (chain v (next v block) after) }
        ensures { let v = view self.now.img.now in eqb (twins v (ahead v start block after)) 0 ≡ (result and eqb (twins v (slots (chain v (next v block) after))) 0) }
    {
        for place in start..block * SLOTS + SLOTS {
            if self.is_active(place) && !self.alone_ahead(place, block, after) {
                return false;
            }
        }
        true
    }

    // No two active slots of a chain of blocks have one name.
    fn unlike_in_blocks(&self, first: usize, blocks: usize) -> bool
        requires inside { Inside self.now.n (chain (view self.now.img.now) first blocks) }
        ensures { let v = view self.now.img.now in result ≡ eqb (twins v (slots (chain v first blocks))) 0 }
    {
        let mut block = first;
        for after in (0..blocks).rev() {
            if !self.unlike_from(block * SLOTS, block, after) {
                return false;
            }
            block = next_of(self.img, block);
        }
        true
    }

    // No two active entries of a directory of `used` blocks have one name: each is compared with each.
    #[tactic(auto, using(crate::proofs::Laws::first_inside, crate::proofs::Laws::entries_unlike))]
    fn each_with_each(&self, key: usize, used: usize) -> bool
        requires inside { Inside self.now.n (chain (view self.now.img.now) key used) }
        ensures { let v = view self.now.img.now in result ≡ eqb (twins v (drop 1 (slots (chain v key used)))) 0 }
    {
        if used == 0 {
            return true;
        }
        self.unlike_from(key * SLOTS + 1, key, used - 1)
            && self.unlike_in_blocks(next_of(self.img, key), used - 1)
    }

    // Appends the addresses of the active slots from one place up to another to the first `at` of a list.
    // Each address is stored, and counted where the slot is active: so the list has one place more than it needs.
    // The list is a room of a fixed size, filled from `at` on: there is no heap.
    #[tactic(auto, unfolding(model::specs::Directory::at))]
    fn gather_between(&self, start: usize, end: usize, list: &mut [u32], at: usize) -> usize
        requires slots { (start ≤ end) × (end ≤ self.now.n * 13) }
        requires start_in_bounds { at + active (view self.now.img.now) (run start (end - start)) < length list.old }
        ensures value { result ≡ at + active (view self.now.img.now) (run start (end - start)) }
        ensures list_after { take result list.new ≡ take at list.old ++ actives (view self.now.img.now) (run start (end - start)) }
    {
        let mut count = at;
        for place in start..end {
            list[count] = address(place) as u32;
            if self.is_active(place) {
                count += 1;
            }
        }
        count
    }

    // The same for the slots of a chain of blocks.
    fn gather_in_blocks(&self, first: usize, blocks: usize, list: &mut [u32], at: usize) -> usize
        requires inside { Inside self.now.n (chain (view self.now.img.now) first blocks) }
        requires blocks_in_bounds { let v = view self.now.img.now in at + active v (slots (chain v first blocks)) < length list.old }
        ensures value { let v = view self.now.img.now in result ≡ at + active v (slots (chain v first blocks)) }
        ensures list_after { let v = view self.now.img.now in take result list.new ≡ take at list.old ++ actives v (slots (chain v first blocks)) }
    {
        let mut count = at;
        let mut block = first;
        for _done in 0..blocks {
            let start = block * SLOTS;
            count = self.gather_between(start, start + SLOTS, list, count);
            block = next_of(self.img, block);
        }
        count
    }

    // The addresses of a directory's active entries, from the start of a list on.
    #[tactic(auto, using(crate::proofs::Laws::first_inside))]
    fn gather_entries(&self, key: usize, used: usize, list: &mut [u32]) -> usize
        requires some { 0 < used }
        requires inside { Inside self.now.n (chain (view self.now.img.now) key used) }
        requires used_in_bounds { let v = view self.now.img.now in active v (drop 1 (slots (chain v key used))) < length list.old }
        ensures value { let v = view self.now.img.now in result ≡ active v (drop 1 (slots (chain v key used))) }
        ensures list_after { let v = view self.now.img.now in take result list.new ≡ actives v (drop 1 (slots (chain v key used))) }
    {
        let start = key * SLOTS;
        let count = self.gather_between(start + 1, start + SLOTS, list, 0);
        self.gather_in_blocks(next_of(self.img, key), used - 1, list, count)
    }

    // No two active entries of a directory of `used` blocks have one name: they are put into a tree. The last two are scratch.
    #[tactic(auto, using(crate::proofs::Laws::entries_unlike))]
    fn unlike_by_tree(&self, key: usize, used: usize, list: &mut [u32], nodes: &mut [Node]) -> bool
        requires few { used ≤ 65535 }
        requires inside { Inside self.now.n (chain (view self.now.img.now) key used) }
        requires list_in_bounds { let v = view self.now.img.now in active v (drop 1 (slots (chain v key used))) < length list.old }
        requires nodes_in_bounds { let v = view self.now.img.now in active v (drop 1 (slots (chain v key used))) < length nodes.old }
        ensures { let v = view self.now.img.now in result ≡ eqb (twins v (drop 1 (slots (chain v key used)))) 0 }
    {
        if used == 0 {
            return true;
        }
        let count = self.gather_entries(key, used, list);
        twins::no_twins(self.img, &list[0..count], nodes)
    }
}

// The active entries of a directory of `used` blocks: its header is none of them.
#[tactic(auto, using(crate::proofs::Laws::first_inside, crate::proofs::Laws::entries_none))]
pub fn count_active(img: &[u8], n: usize, key: usize, used: usize) -> usize
    requires readable { Readable n img.now × (used ≤ 65535) }
    requires inside { Inside n (chain (view img.now) key used) }
    ensures { result ≡ active (view img.now) (drop 1 (slots (chain (view img.now) key used))) }
{
    if used == 0 {
        return 0;
    }
    let volume = Volume { img, n };
    let start = key * SLOTS;
    let count = volume.active_between(start + 1, start + SLOTS);
    count + volume.active_in_blocks(next_of(img, key), used - 1)
}

// No two active entries of a directory of `used` blocks have one name. In a few blocks each is compared with each, in more they are put into a tree.
// Each part of the scratch has a place more than there are entries: where one is shorter, each is compared with each again.
pub fn unlike(img: &[u8], n: usize, key: usize, used: usize, scratch: &mut Scratch<'_>) -> bool
    requires readable { Readable n img.now }
    requires inside { Inside n (chain (view img.now) key used) }
    ensures { result ≡ eqb (twins (view img.now) (drop 1 (slots (chain (view img.now) key used)))) 0 }
{
    let volume = Volume { img, n };
    if used < 5 || 65535 < used {
        return volume.each_with_each(key, used);
    }
    let count = count_active(img, n, key, used);
    let list = &mut *scratch.list;
    let nodes = &mut *scratch.nodes;
    if count < list.len() && count < nodes.len() {
        volume.unlike_by_tree(key, used, list, nodes)
    } else {
        volume.each_with_each(key, used)
    }
}
