// What a node is, by its first byte.
ghost use Rattle.std.specs.Prelude.{◌≡◌};
ghost use Rattle.trie_read.specs.Kinds.{kind_of_byte, byte_of_kind};

use crate::beyond::Beyond;

// In which dimension the children of a node differ. `Other`: in none that a key has; no trie of ours has such a node, but other bytes may say so.
#[derive(Clone, Copy, Debug, PartialEq, Eq)]
pub enum Dimension {
    Value,
    Path,
    Other(Beyond),
}

// No Option: a leaf is a kind too, and its byte is written.
#[derive(Clone, Copy, Debug, PartialEq, Eq)]
pub enum Kind {
    Leaf,
    Inner(Dimension),
}

impl From<u8> for Kind {
    ghost from_gives = { λ byte kind. kind ≡ kind_of_byte byte };

    fn from(byte: u8) -> Kind {
        match byte {
            0 => Kind::Leaf,
            1 => Kind::Inner(Dimension::Value),
            2 => Kind::Inner(Dimension::Path),
            _ => Kind::Inner(Dimension::Other(Beyond { byte })),
        }
    }
}

impl From<Kind> for u8 {
    ghost from_gives = { λ kind byte. byte ≡ byte_of_kind kind };

    fn from(kind: Kind) -> u8 {
        match kind {
            Kind::Leaf => 0,
            Kind::Inner(Dimension::Value) => 1,
            Kind::Inner(Dimension::Path) => 2,
            Kind::Inner(Dimension::Other(beyond)) => beyond.byte,
        }
    }
}
