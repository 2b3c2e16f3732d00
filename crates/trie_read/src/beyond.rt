// The first bytes of nodes that no trie of ours has.
ghost use Rattle.std.specs.Prelude.{◌<◌};

// A byte above those of the kinds that a trie of ours has.
#[derive(Clone, Copy, Debug, PartialEq, Eq)]
pub struct Beyond {
    pub byte: u8,
    pub ghost above: { 2 < byte },
}
