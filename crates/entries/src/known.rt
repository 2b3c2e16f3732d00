// What is known of a key on the way down a trie.
ghost use Rattle.std.specs.Prelude.{◌≤◌};
ghost use Rattle.rows.specs.Sizes.{value_size, ended_limit};

// How many of a key's first bytes are known: of the value, and of the path with its end byte. All keys below a node share them, as do those of a set that
// makes one. In a walk it is each level's own, while all levels share the key buffer: a struct of both would be taken apart at each node, and a ghost
// field beside a `&mut` field is not covered.
#[derive(Clone, Copy, PartialEq, Eq, Debug)]
pub struct Known {
    pub value: usize,
    pub path: usize,
    pub ghost value_fits: { value ≤ value_size },
    pub ghost path_fits: { path ≤ ended_limit },
}
