// The dimension in which a new parent branches over a node that a key differs from.
ghost use Rattle.std.specs.Prelude.{◌≡◌, suc, ◌≤◌, [], ◌∷◌};
ghost use Rattle.trie_theory.specs.Dimensions.{root};
ghost use Rattle.trie_theory.specs.SmallTrie.{differing};
ghost use Rattle.trie_read.specs.Shape.{above_of};
ghost use Rattle.trie_read.specs.Kinds.{kind_of_byte, byte_of_kind};
ghost use Rattle.trie_read.specs.declared.kind.Kind.TheVariants.{Inner};

use trie_read::kind::Dimension;

// At the root: the value, if it differs, else the path.
fn first_differing(value: &[u8], path: &[u8]) -> Dimension
    ensures upper_bound { byte_of_kind (Inner result) ≤ 2 }
    ensures value { Inner result ≡ kind_of_byte (suc (differing root (value.now ∷ path.now ∷ []))) }
{
    if value.len() > 0 {
        return Dimension::Value;
    }
    if path.len() > 0 {
        return Dimension::Path;
    }
    Dimension::Value
}

// `value` and `path` are what the node keeps; the node above branches in `above`. The dimension is the one that differs; if both do, the one that the
// node above does not use, and at the root the value.
pub fn split_dimension(above: Option<Dimension>, value: &[u8], path: &[u8]) -> Dimension
    ensures upper_bound { byte_of_kind (Inner result) ≤ 2 }
    ensures value { Inner result ≡ kind_of_byte (suc (differing (above_of above) (value.now ∷ path.now ∷ []))) }
{
    match above {
        Some(Dimension::Value) => {
            if path.len() > 0 {
                return Dimension::Path;
            }
            Dimension::Value
        }
        Some(Dimension::Other(_)) => Dimension::Value,
        Some(Dimension::Path) => first_differing(value, path),
        None => first_differing(value, path),
    }
}
