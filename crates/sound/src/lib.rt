// Whether a volume is sound: one walk that claims every block it meets, then the map. The volume itself is one more entry, at the place of
// its header. Document 01, "A sound volume".
#![tactic(auto)]

ghost use Rattle.std.specs.Prelude.{◌≡◌, true, not, ◌*◌, ◌≤◌, ◌<◌, eqb, length};
ghost use Rattle.model.specs.Bytes.{view, ◌and◌};
ghost use Rattle.model.specs.Names.{capital_name};
ghost use Rattle.model.specs.Map.{rest_clear};
ghost use Rattle.model.specs.Directory.{map_place, at, directory, file, sort, active_count, active, directory_key, directory_type, chain};
ghost use Rattle.model.specs.File.{height_for, span};
ghost use Rattle.model.specs.Sound.{sound, top_faults};
ghost use Rattle.claims.specs.Claims.{claim, outcome, claims_of, map_right};
ghost use Rattle.marks.specs.Marks.{marks, nothing};
ghost use Rattle.checks.specs.Inside.{Inside, Readable};
ghost use Rattle.directory.specs.Slots.{slot_says};
ghost use Rattle.directory.specs.Search.{listed};
ghost use Rattle.sound.specs.Work.{KeyAt, Stands, Describes, volume_entry, standing, file_work, chain_work, entry_work, directory_work, right_of, Leads, decision};

use checks::{BLOCK, Node, SLOT_SIZE, SLOTS, Scratch};
use directory::Slot;
use model::{Entry, Kind, Stamp};

const VOLUME: usize = 26;

const VOLUME_BLOCK: usize = 2;

const MAP_BLOCK: usize = 6;

const LEVELS: usize = 32;

const DIRECTORY_TYPE: u8 = 0x0F;

// What the claims of a slot by itself come to: one failed, nothing is below it, or a directory's entries are, by its key and length.
// An enum: the cases are three, and `Option<Option<(usize, usize)>>` would name none of them.
#[derive(Clone, Copy)]
enum Own {
    Wrong,
    Whole,
    Inner(usize, usize),
}

// The file blocks below EOF, and at least one.
// As `resize` has it for any number: each is one line of the library.
#[tactic(auto, unfolding(model::specs::File::span))]
fn file_blocks(eof: u32) -> usize
    ensures { result ≡ span eof }
{
    (eof as usize).div_ceil(BLOCK).max(1)
}

fn height_of(eof: u32) -> usize
    ensures { result ≡ height_for eof }
{
    directory::height_for(eof as usize)
}

// The volume as an entry.
fn volume_entry() -> Entry
    ensures { result ≡ volume_entry }
{
    Entry {
        kind: Kind::Directory(2),
        ftype: DIRECTORY_TYPE,
        access: 0,
        aux: 0,
        used: 4,
        eof: 2048,
        created: Stamp { date: 0, time: 0 },
        modified: Stamp { date: 0, time: 0 },
    }
}

// Type, blocks used and EOF are those of a directory.
fn directory_right(entry: Entry) -> bool
    ensures { result ≡ (eqb entry.ftype directory_type and not (eqb entry.used 0) and eqb entry.eof (entry.used * 512)) }
{
    entry.ftype == DIRECTORY_TYPE
        && entry.used != 0
        && entry.eof as usize == entry.used as usize * BLOCK
}

// The volume that a walk reads, an image of n blocks. What the walk has claimed is lent beside it: in here, behind one `&mut`,
// each contract would have to say that the image stays as it was. (The one in `checks` knows no least size, and its callers lend the parts.)
#[derive(Clone, Copy)]
struct Volume<'a> {
    img: &'a [u8],
    n: usize,
    ghost readable: { (16 ≤ n) × Readable n img.now },
}

// A slot on its turn in the walk: with so many levels left, in the directory with the key `home`, at a place of the volume.
#[derive(Clone, Copy)]
struct Turn<'a> {
    volume: Volume<'a>,
    levels: usize,
    home: usize,
    place: usize,
    ghost within: { place < volume.n * 13 },
}

impl Turn<'_> {
    // The header of the directory at the place: the volume's, or one that repeats its entry.
    #[tactic(auto, unfolding(model::specs::Directory::at))]
    fn top_right(&self, key: usize) -> bool
        requires { (key < self.now.volume.n) × KeyAt (view self.now.volume.img.now) self.now.place key }
        ensures { result ≡ eqb (top_faults (view self.now.volume.img.now) self.now.place) 0 }
    {
        let Volume { img, n } = self.volume;
        if self.place == VOLUME {
            checks::volume_right(img, n)
        } else {
            checks::header_right(img, n, self.place, key)
        }
    }

    // Claims the chain of the directory at the place; then its header is tested.
    fn open_directory(&self, seen: &mut [u8; 8192], key: usize, used: usize) -> bool
        requires { (0 < used) × (used ≤ 65535) × KeyAt (view self.now.volume.img.now) self.now.place key }
        ensures seen_after { outcome result (marks seen.new) ≡ claim self.now.volume.n (chain_work (view self.now.volume.img.now) self.now.place key used) (marks seen.old) }
        ensures inside { result ≡ true → Inside self.now.volume.n (chain (view self.now.volume.img.now) key used) }
    {
        marks::claim_chain(self.volume.img, seen, key, used, self.volume.n)
            && self.top_right(key)
            && self.volume.count_right(key, used)
    }

    // What stands at the place.
    #[tactic(auto, unfolding(model::specs::Directory::at))]
    fn stands_at(&self) -> Slot
        ensures { let v = view self.now.volume.img.now in result ≡ slot_says (sort v self.now.place) (standing v self.now.place) }
    {
        if self.place == VOLUME {
            return Slot::Active(volume_entry());
        }
        let start = checks::address(self.place);
        directory::decode(&self.volume.img[start..start + SLOT_SIZE])
    }

    // The key that the entry names as its directory's.
    #[tactic(auto, unfolding(model::specs::Directory::at))]
    fn home_of(&self) -> usize
        ensures { result ≡ directory_key (view self.now.volume.img.now) self.now.place }
    {
        if self.place == VOLUME {
            return VOLUME_BLOCK;
        }
        store::get_word(self.volume.img, checks::address(self.place) + 0x25)
    }

    // The name is proper and in capitals, and the entry names the key of its directory.
    #[tactic(auto, unfolding(model::specs::Directory::at))]
    fn entry_right(&self) -> bool
        ensures { let v = view self.now.volume.img.now in result ≡ (capital_name v (at self.now.place) and eqb (directory_key v self.now.place) self.now.home) }
    {
        checks::name_right(self.volume.img, self.place) && self.home_of() == self.home
    }

    // The claims of a directory by itself, but for its names.
    fn own_directory(&self, seen: &mut [u8; 8192], key: usize, entry: Entry) -> Own
        requires sort { sort (view self.now.volume.img.now) self.now.place ≡ directory }
        requires describes { Describes (view self.now.volume.img.now) self.now.place key entry }
        ensures seen_after { let v = view self.now.volume.img.now in outcome (right_of v result) (marks seen.new) ≡ claim self.now.volume.n (claims_of (sort v self.now.place) v self.now.levels self.now.home self.now.place) (marks seen.old) }
        ensures leads { Leads self.now.volume.n (view self.now.volume.img.now) self.now.levels self.now.place result }
    {
        let used = entry.used as usize;
        if self.levels == 0
            || !self.entry_right()
            || !directory_right(entry)
            || !self.open_directory(seen, key, used)
        {
            return Own::Wrong;
        }
        Own::Inner(key, used)
    }

    // The claims of a data file: apart from those of a directory, which asks for a level and claims a chain.
    // A height is a number, as in `file`.
    fn own_file(&self, seen: &mut [u8; 8192], height: usize, key: usize, entry: Entry) -> Own
        requires sort { (height < 3) × (sort (view self.now.volume.img.now) self.now.place ≡ file height) }
        requires describes { Describes (view self.now.volume.img.now) self.now.place key entry }
        ensures seen_after { let v = view self.now.volume.img.now in outcome (right_of v result) (marks seen.new) ≡ claim self.now.volume.n (claims_of (sort v self.now.place) v self.now.levels self.now.home self.now.place) (marks seen.old) }
        ensures leads { Leads self.now.volume.n (view self.now.volume.img.now) self.now.levels self.now.place result }
    {
        if self.entry_right() && self.volume.sound_file(seen, height, key, entry) {
            Own::Whole
        } else {
            Own::Wrong
        }
    }

    // The claims of an active entry by itself.
    fn own_active(&self, seen: &mut [u8; 8192], entry: Entry) -> Own
        requires { Stands (view self.now.volume.img.now) self.now.place entry }
        ensures seen_after { let v = view self.now.volume.img.now in outcome (right_of v result) (marks seen.new) ≡ claim self.now.volume.n (claims_of (sort v self.now.place) v self.now.levels self.now.home self.now.place) (marks seen.old) }
        ensures leads { Leads self.now.volume.n (view self.now.volume.img.now) self.now.levels self.now.place result }
    {
        match entry.kind {
            Kind::Directory(key) => self.own_directory(seen, key as usize, entry),
            Kind::Seedling(key) => self.own_file(seen, 0, key as usize, entry),
            Kind::Sapling(key) => self.own_file(seen, 1, key as usize, entry),
            Kind::Tree(key) => self.own_file(seen, 2, key as usize, entry),
        }
    }

    // The claims of the slot by itself.
    fn own_claims(&self, seen: &mut [u8; 8192]) -> Own
        ensures seen_after { let v = view self.now.volume.img.now in outcome (right_of v result) (marks seen.new) ≡ claim self.now.volume.n (claims_of (sort v self.now.place) v self.now.levels self.now.home self.now.place) (marks seen.old) }
        ensures leads { Leads self.now.volume.n (view self.now.volume.img.now) self.now.levels self.now.place result }
    {
        match self.stands_at() {
            Slot::Inactive => Own::Whole,
            Slot::Improper => Own::Wrong,
            Slot::Active(entry) => self.own_active(seen, entry),
        }
    }

    // Whether the slot is sound, and all that is below it.
    #[cycle(sound_directory_sound_entry)]
    fn sound_entry(&self, seen: &mut [u8; 8192], scratch: &mut Scratch<'_>) -> bool
        ensures { outcome result (marks seen.new) ≡ claim self.now.volume.n (entry_work (view self.now.volume.img.now) self.now.levels self.now.home self.now.place) (marks seen.old) }
    {
        match self.own_claims(seen) {
            Own::Wrong => false,
            Own::Whole => true,
            Own::Inner(key, used) => {
                self.volume
                    .sound_directory(seen, self.levels - 1, key, used, scratch)
            }
        }
    }
}

impl Volume<'_> {
    // A directory has as many active entries as its header counts.
    fn count_right(&self, key: usize, used: usize) -> bool
        requires readable { (key < self.now.n) × (used ≤ 65535) }
        requires inside { Inside self.now.n (chain (view self.now.img.now) key used) }
        ensures { let v = view self.now.img.now in result ≡ eqb (active_count v key) (active v (listed v key used)) }
    {
        store::get_word(self.img, key * BLOCK + 0x25)
            == checks::count_active(self.img, self.n, key, used)
    }

    // A data file of a height, with its key and what else its entry says.
    fn sound_file(&self, seen: &mut [u8; 8192], height: usize, key: usize, entry: Entry) -> bool
        requires { height < 3 }
        ensures { outcome result (marks seen.new) ≡ claim self.now.n (file_work (view self.now.img.now) height entry.ftype entry.eof key entry.used) (marks seen.old) }
    {
        if entry.ftype == DIRECTORY_TYPE {
            return false;
        }
        if height != height_of(entry.eof) {
            return false;
        }
        let blocks = file_blocks(entry.eof);
        let Some(count) = marks::claim_tree(self.img, seen, height, key, blocks, self.n) else {
            return false;
        };
        entry.used as usize == count
    }

    // Whether the entries of a directory of `used` blocks are sound: its header, the first slot, is none of them. Their names are compared last:
    // each active entry has claimed a block of its own then, so that there are fewer of them than blocks, as the scratch is made for.
    #[cycle(sound_directory_sound_entry)]
    #[tactic(auto, using(checks::proofs::Laws::first_inside))]
    fn sound_directory(
        &self,
        seen: &mut [u8; 8192],
        levels: usize,
        key: usize,
        used: usize,
        scratch: &mut Scratch<'_>,
    ) -> bool
        requires some { 0 < used }
        requires inside { Inside self.now.n (chain (view self.now.img.now) key used) }
        ensures { outcome result (marks seen.new) ≡ claim self.now.n (directory_work (view self.now.img.now) levels key used) (marks seen.old) }
    {
        let mut block = key;
        let mut first = key * SLOTS + 1;
        for _done in 0..used {
            for place in first..block * SLOTS + SLOTS {
                let turn = Turn {
                    volume: *self,
                    levels,
                    home: key,
                    place,
                };
                if !turn.sound_entry(seen, scratch) {
                    return false;
                }
            }
            block = store::get_word(self.img, block * BLOCK + 2);
            first = block * SLOTS;
        }
        checks::unlike(self.img, self.n, key, used, scratch)
    }

    // The map calls free just what is not claimed, and is clear behind the volume.
    #[tactic(auto, unfolding(model::specs::Map::map_blocks))]
    fn map_fits(&self, seen: &[u8; 8192]) -> bool
        ensures { let v = view self.now.img.now in result ≡ (map_right v (marks seen.now) self.now.n and rest_clear map_place v self.now.n) }
    {
        marks::map_right(self.img, seen, self.n) && map::rest_clear(self.img, MAP_BLOCK, self.n)
    }

    // The walk from the volume on, then the map.
    fn walk_fits(&self, seen: &mut [u8; 8192], scratch: &mut Scratch<'_>) -> bool
        requires { marks seen.old ≡ nothing }
        ensures { result ≡ decision self.now.n (view self.now.img.now) }
    {
        marks::reserve(seen, self.n);
        let turn = Turn {
            volume: *self,
            levels: LEVELS,
            home: VOLUME_BLOCK,
            place: VOLUME,
        };
        turn.sound_entry(seen, scratch) && self.map_fits(seen)
    }

    // The same, with scratch made for a volume of fewer than N blocks: 12 bytes of the stack for each. Not inlined, so that a walk pays for its own alone.
    #[inline(never)]
    fn walk_below<const N: usize>(&self, seen: &mut [u8; 8192]) -> bool
        requires { (marks seen.old ≡ nothing) × (N ≤ 65536) }
        ensures { result ≡ decision self.now.n (view self.now.img.now) }
    {
        let mut list = [0u32; N];
        let mut nodes = [Node { left: 0, right: 0 }; N];
        let mut scratch = Scratch {
            list: &mut list,
            nodes: &mut nodes,
        };
        self.walk_fits(seen, &mut scratch)
    }

    // The same, with scratch by the volume's size, made once for all its directories.
    fn walk(&self, seen: &mut [u8; 8192]) -> bool
        requires { marks seen.old ≡ nothing }
        ensures { result ≡ decision self.now.n (view self.now.img.now) }
    {
        if self.n < 1024 {
            self.walk_below::<1024>(seen)
        } else if self.n < 8192 {
            self.walk_below::<8192>(seen)
        } else {
            self.walk_below::<65536>(seen)
        }
    }
}

// Whether an image of n blocks is a sound volume.
pub fn is_sound(img: &[u8], n: usize) -> bool
    requires { (16 ≤ n) × (n ≤ 65535) × (length img.now ≡ n * 512) }
    ensures { result ≡ sound n (view img.now) }
{
    if !checks::is_prodos(img, n)
        || store::get_word(img, VOLUME_BLOCK * BLOCK + 0x27) != MAP_BLOCK
    {
        return false;
    }
    let mut seen = [0u8; 8192];
    Volume { img, n }.walk(&mut seen)
}
