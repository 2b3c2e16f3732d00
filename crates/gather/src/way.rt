// The nodes on the way down, three bytes each, with as much room as the deepest trie needs. What stands behind those of the way is left from other branches.
ghost use Rattle.std.specs.Prelude.{◌≡◌, ◌+◌, ◌*◌, ◌<◌, ◌≤◌, [], ◌∷◌};
ghost use Rattle.buffer.specs.Splice.{splice};
ghost use Rattle.rows.specs.Sizes.{node_limit};
ghost use Rattle.trie_read.specs.Kinds.{byte_of_kind, kind_of_byte};
ghost use Rattle.gather.specs.Visits.{node_size, Descended};

use crate::key::enter;
use crate::known::{Below, Known};
use buffer::moves::copy_from;
use entries::SLOT_SIZE;
use rows::sizes::{NODE_LIMIT, NODE_SIZE};
use trie_read::head::Node;
use trie_read::kind::Kind;

pub const WAY_SIZE: usize = NODE_SIZE * NODE_LIMIT;

// Notes a node of a kind behind n others: the positions behind what is known at it, counted from 1.
fn note(way: &mut [u8; WAY_SIZE], n: usize, kind: Kind, known: Known)
    requires { n < node_limit }
    ensures { way.new ≡ splice way.old (node_size * n) (byte_of_kind kind ∷ (known.path + 1) ∷ (known.value + 1) ∷ []) }
{
    let path = known.path + 1;
    let value = known.value + 1;
    copy_from(
        way,
        NODE_SIZE * n,
        &[u8::from(kind), path as u8, value as u8],
    );
}

// Goes down to a node and notes it. None where its strings have no room.
pub(crate) fn descend(
    key: &mut [u8; SLOT_SIZE],
    way: &mut [u8; WAY_SIZE],
    below: Below,
    node: &Node<'_>,
) -> Option<Below>
    requires { below.nodes < node_limit }
    ensures { Descended below node.now.value.now node.now.path.now (byte_of_kind (kind_of_byte node.now.byte)) key.old way.old key.new way.new result }
{
    let known = enter(key, below.known, node)?;
    note(way, below.nodes, node.kind(), known);
    Some(Below {
        nodes: below.nodes + 1,
        known,
    })
}
