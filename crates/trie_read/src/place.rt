// Where a key belongs among tries side by side: at the node that has its branching byte, or in the gap where a new leaf goes.
ghost use Rattle.std.specs.Prelude.{◌≡◌, [], ◌∷◌, length};
ghost use Rattle.trie_theory.specs.Forest.{Forest};
ghost use Rattle.trie_theory.specs.Sound.{Ascending};
ghost use Rattle.trie_theory.specs.Encode.{Regular, encode};
ghost use Rattle.trie_read.specs.Shape.{above_of};
ghost use Rattle.trie_read.specs.Places.{Found, Fits};

use crate::head::{Malformed, read_head};
use crate::kind::Dimension;
use crate::node_place::NodePlace;
use crate::sizes::HEAD_SIZE;
use crate::strings::branch_byte;

// In the bytes of the tries, which an addition writes; a gap is before what stands there.
#[derive(Clone, Copy, Debug)]
pub enum Place {
    Node(NodePlace),
    Gap(usize),
}

// Finds it by one pass over the siblings, which stand ascending by their branching bytes. Not over `Nodes`: where no node begins they end, and here the
// bytes are refused.
pub fn find(
    tries: &[u8],
    above: Option<Dimension>,
    value: &[u8],
    path: &[u8],
) -> Result<Place, Malformed>
    ensures fits { Fits result (length tries.now) }
    ensures found { (f : Forest) → Regular 2 f → Ascending (above_of above) f → tries.now ≡ encode f → Found tries.now above (value.now ∷ path.now ∷ []) f result }
{
    let byte = branch_byte(above, value, path);
    let mut t = tries;
    while let Some(node) = read_head(t)? {
        let at = tries.len() - t.len();
        let own = branch_byte(above, node.value, node.path);
        if own == byte {
            let path = at + HEAD_SIZE + node.value.len();
            let body = path + node.path.len();
            return Ok(Place::Node(NodePlace {
                at,
                kind: node.kind(),
                path,
                body,
                next: body + node.body.len(),
            }));
        }
        if byte < own {
            return Ok(Place::Gap(at));
        }
        t = node.rest;
    }
    Ok(Place::Gap(tries.len()))
}
