// Whether two of many stored names are alike, in time that grows as their number: the names are put into a tree one by one, each where its bits lead.
// A name is known by its slot's address, a node of the tree by its name's place in the list. 0 is no child: node 0 is the root.
#![tactic(auto)]

ghost use Rattle.std.specs.Prelude.{◌≡◌, true, false, ◌+◌, ◌≤◌, ◌<◌, length, get_or, MatchOption};
ghost use Rattle.model.specs.Bytes.{view, from};
ghost use Rattle.model.specs.Names.{alike};
ghost use Rattle.twins.specs.Twins.{Stored, no_twins, digit_of, hash_of, own_bit, bit_of, lefts, rights, child, attached, Tree, HasTwin, Lands};

// A node's children.
#[derive(Clone, Copy)]
pub struct Node {
    pub left: u32,
    pub right: u32,
}

// Where a name belongs: at a node with no child on the side that the next bit says.
#[derive(Clone, Copy)]
struct Spot {
    node: usize,
    bit: bool,
}

// Two slots, by address, store the same name.
pub fn alike_at(img: &[u8], a: usize, b: usize) -> bool
    requires { (a + 39 ≤ length img.now) × (b + 39 ≤ length img.now) }
    ensures { result ≡ alike (view img.now) a b }
{
    names::alike(&img[a..a + 39], &img[b..b + 39])
}

// The same, sooner where the last bytes differ, as in names that are made in a row.
#[tactic(auto, using(crate::proofs::NameLaws::last_differs))]
fn same_name(img: &[u8], a: usize, b: usize) -> bool
    requires { (a + 39 ≤ length img.now) × (b + 39 ≤ length img.now) }
    ensures { result ≡ alike (view img.now) a b }
{
    let size = usize::from(img[a] % 16);
    if 0 < size && img[a + size] != img[b + size] {
        return false;
    }
    alike_at(img, a, b)
}

// The length, then the name's bytes, then zeros.
#[tactic(auto, using(crate::proofs::NameLaws::digit_first, crate::proofs::NameLaws::digit_in, crate::proofs::NameLaws::digit_past))]
fn digit(img: &[u8], a: usize, k: usize) -> u8
    requires { (a + 16 ≤ length img.now) × (k < 16) }
    ensures { result ≡ digit_of (from (view img.now) a) k }
{
    let n = img[a] % 16;
    if k == 0 {
        n
    } else if k <= usize::from(n) {
        img[a + k]
    } else {
        0
    }
}

// A number of 32 bits that names which are alike share, and others seldom.
#[tactic(auto, unfolding(crate::specs::Twins::mixed))]
fn hash(img: &[u8], a: usize) -> usize
    requires { a + 16 ≤ length img.now }
    ensures { result ≡ hash_of (from (view img.now) a) }
{
    let mut mixed = 0;
    for k in 0..16 {
        mixed = (mixed * 31 + usize::from(digit(img, a, k))) % 4294967296;
    }
    mixed
}

// Bit i of the digits, eight for each.
#[tactic(auto, unfolding(crate::specs::Twins::own_bit))]
fn own_bit(img: &[u8], a: usize, i: usize) -> bool
    requires { a + 16 ≤ length img.now }
    ensures { result ≡ own_bit (from (view img.now) a) i }
{
    let x = digit(img, a, i / 8 % 16);
    (x >> (i % 8)) % 2 == 1
}

// Bit i of a name: those of its hash come first, so that few names share a long way.
#[tactic(auto, using(crate::proofs::NameLaws::bit_hashed, crate::proofs::NameLaws::bit_own))]
fn bit(img: &[u8], a: usize, hash: usize, i: usize) -> bool
    requires { (a + 16 ≤ length img.now) × (hash ≡ hash_of (from (view img.now) a)) }
    ensures { result ≡ bit_of (from (view img.now) a) i }
{
    if i < 32 {
        (hash >> i) % 2 == 1
    } else {
        own_bit(img, a, i - 32)
    }
}

#[tactic(auto, unfolding(crate::specs::Twins::lefts, crate::specs::Twins::rights))]
fn child_of(nodes: &[Node], bit: bool, node: usize) -> usize
    requires { node < length nodes.now }
    ensures { result ≡ child (lefts nodes.now) (rights nodes.now) bit node }
{
    if bit {
        nodes[node].right as usize
    } else {
        nodes[node].left as usize
    }
}

// The names that are compared: their slots' addresses in an image.
#[derive(Clone, Copy)]
struct Roster<'a> {
    img: &'a [u8],
    places: &'a [u32],
    ghost stored: { Stored (length img.now) places.now },
}

impl Roster<'_> {
    fn same_at(&self, p: usize, q: usize) -> bool
        requires { (p < length self.now.places.now) × (q < length self.now.places.now) }
        ensures { result ≡ alike (view self.now.img.now) (get_or self.now.places.now p 0) (get_or self.now.places.now q 0) }
    {
        same_name(self.img, self.places[p] as usize, self.places[q] as usize)
    }

    fn hash_at(&self, p: usize) -> usize
        requires { p < length self.now.places.now }
        ensures { result ≡ hash_of (from (view self.now.img.now) (get_or self.now.places.now p 0)) }
    {
        hash(self.img, self.places[p] as usize)
    }

    fn bit_at(&self, p: usize, hash: usize, i: usize) -> bool
        requires p_in_bounds { p < length self.now.places.now }
        requires hash_value { hash ≡ hash_of (from (view self.now.img.now) (get_or self.now.places.now p 0)) }
        ensures { result ≡ bit_of (from (view self.now.img.now) (get_or self.now.places.now p 0)) i }
    {
        bit(self.img, self.places[p] as usize, hash, i)
    }

    // Where name k belongs in the tree of those before it; none where one of them is its twin. A child is a later node, so that k steps are enough.
    fn descend(&self, nodes: &[Node], k: usize) -> Option<Spot>
        requires k_nonzero { (0 < k) × (k < length self.now.places.now) × (k < length nodes.now) }
        requires tree { Tree (view self.now.img.now) self.now.places.now k (lefts nodes.now) (rights nodes.now) }
        ensures { let v = view self.now.img.now in let places = self.now.places.now in MatchOption result (HasTwin v places k) (λ s. Lands v places k (lefts nodes.now) (rights nodes.now) s) }
    {
        let hash = self.hash_at(k);
        let mut node = 0;
        for i in 0..k {
            if self.same_at(node, k) {
                return None;
            }
            let bit = self.bit_at(k, hash, i);
            let next = child_of(nodes, bit, node);
            if next == 0 {
                return Some(Spot { node, bit });
            }
            node = next;
        }
        None
    }
}

// Node k, with no child, becomes a child of a node before it.
fn attach(nodes: &mut [Node], spot: Spot, k: usize)
    requires { (spot.node < k) × (k < length nodes.old) × (k ≤ 4294967295) }
    ensures left_after { lefts nodes.new ≡ attached (lefts nodes.old) spot.bit false spot.node k }
    ensures right_after { rights nodes.new ≡ attached (rights nodes.old) spot.bit true spot.node k }
{
    nodes[k] = Node { left: 0, right: 0 };
    if spot.bit {
        nodes[spot.node].right = k as u32;
    } else {
        nodes[spot.node].left = k as u32;
    }
}

// No two of the names at these places are alike. The last is scratch, a node for each name.
pub fn no_twins(img: &[u8], places: &[u32], nodes: &mut [Node]) -> bool
    requires places_in_bounds { (length places.now ≤ length nodes.old) × (length places.now ≤ 4294967295) }
    requires stored { Stored (length img.now) places.now }
    ensures { result ≡ no_twins (view img.now) places.now }
{
    let n = places.len();
    if n == 0 {
        return true;
    }
    let names = Roster { img, places };
    nodes[0] = Node { left: 0, right: 0 };
    for k in 1..n {
        let Some(spot) = names.descend(nodes, k) else {
            return false;
        };
        attach(nodes, spot, k);
    }
    true
}
