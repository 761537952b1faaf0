// Gives blocks back: those of a file, those below some pointers of an index, those of a directory's chain. Only the map is written, and no
// block that is given back holds part of it: what is read on the way stays what it was.
#![tactic(auto)]

ghost use Rattle.std.specs.Prelude.{◌≡◌, ◌∷◌, ◌≤◌, ◌<◌};
ghost use Rattle.model.specs.Bytes.{view};
ghost use Rattle.model.specs.Directory.{map_place, chain};
ghost use Rattle.model.specs.Calls.{given_all};
ghost use Rattle.release.specs.Loose.{Whole, Loose, tree, below};

const MAP_PLACE: usize = 6;

// Gives back all that lies below the pointers of the block `key` from `first` on, which lead to blocks of the height `height`.
// The image that changes stays beside its number of blocks: in a struct each contract would have to say that it is the same image still.
// A height is a number, as in `file`.
#[cycle(give_limbs_give_tree)]
pub fn give_limbs(img: &mut [u8], n: usize, height: usize, key: usize, first: usize)
    requires { Whole n img.old × (height < 2) × (first ≤ 256) × Loose n (key ∷ below (view img.old) height key first) }
    ensures { view img.new ≡ given_all map_place (view img.old) (below (view img.old) height key first) }
{
    for i in first..256 {
        let p = store::get_pointer(img, key, i);
        if p != 0 {
            give_tree(img, n, height, p);
        }
    }
}

// Gives back the block `key` of a file and all that lies below it.
#[cycle(give_limbs_give_tree)]
#[tactic(auto, using(crate::proofs::Laws::tree_key), unfolding(model::specs::Map::map_at))]
pub fn give_tree(img: &mut [u8], n: usize, height: usize, key: usize)
    requires { Whole n img.old × (height < 3) × Loose n (tree (view img.old) height key) }
    ensures { view img.new ≡ given_all map_place (view img.old) (tree (view img.old) height key) }
{
    map::give(img, MAP_PLACE, key);
    if height != 0 {
        give_limbs(img, n, height - 1, key, 0);
    }
}

// Gives back the `used` blocks of a directory's chain from `key` on.
#[tactic(auto, unfolding(model::specs::Map::map_at))]
pub fn give_chain(img: &mut [u8], n: usize, key: usize, used: usize)
    requires { Whole n img.old × Loose n (chain (view img.old) key used) }
    ensures { view img.new ≡ given_all map_place (view img.old) (chain (view img.old) key used) }
{
    let mut b = key;
    for _ in 0..used {
        let next = store::get_word(img, b * 512 + 2);
        map::give(img, MAP_PLACE, b);
        b = next;
    }
}
