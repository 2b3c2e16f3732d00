// What is known on the way down a trie.
ghost use Rattle.std.specs.Prelude.{◌≤◌};
ghost use Rattle.rows.specs.Sizes.{node_limit};

pub use entries::known::Known;

// What is known below so many nodes.
#[derive(Clone, Copy, PartialEq, Eq, Debug)]
pub struct Below {
    pub nodes: usize,
    pub known: Known,
    pub ghost nodes_fit: { nodes ≤ node_limit },
}

// Above a trie nothing is known.
pub const ROOT: Below = Below {
    nodes: 0,
    known: Known { value: 0, path: 0 },
};
