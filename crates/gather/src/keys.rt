// A walk over the keys of tries. Of what it writes for them the first rows that have room go into the output, and all are counted: with a room of 0
// it only counts. On bytes that are no trie's it returns all the same, with at most NODE_LIMIT nested calls.
ghost use Rattle.std.specs.Prelude.{◌≡◌, cond, ℕ, ◌+◌, ◌*◌, ◌<◌, ◌≤◌, List, length, ltb, take};
ghost use Rattle.rows.specs.Sizes.{node_limit};
ghost use Rattle.entries.specs.Slots.{slot_size};
ghost use Rattle.gather.specs.Outputs.{CanPut, RowPut};
ghost use Rattle.gather.specs.Walks.{known_strings};
ghost use Rattle.gather.specs.Visits.{node_size, SuffixVisits, TrieVisits, Ready, Walked};

use crate::key::compose;
use crate::known::Below;
use crate::output::Output;
use crate::way::{WAY_SIZE, descend};
use entries::SLOT_SIZE;
use rows::sizes::NODE_LIMIT;
use trie_read::head::Nodes;
use trie_read::kind::Kind;
use trie_read::suffixes::Suffixes;

// What is written for a key: rows of one width. The key's buffer and the way are two parameters: a row is made of both by reading, the walk lends each of them
// to another function to be written, and search has no way.
pub trait Format {
    ghost width: { ℕ };

    ghost slot_row: { ℕ → List ℕ → List ℕ → List ℕ };

    // Puts the row of the key whose slot is given, below n nodes of the way.
    fn put(output: &mut Output<'_>, key: &[u8; SLOT_SIZE], way: &[u8; WAY_SIZE], n: usize)
        requires { CanPut width output.old × (n ≤ node_limit) }
        ensures { RowPut width (slot_row n (take (node_size * n) way.now) key.now) output.old output.new };

    ghost even: { (n : ℕ) (way key : List ℕ) → length key ≡ slot_size → length way ≡ node_size * n → n ≤ node_limit → length (slot_row n way key) ≡ width };
}

// Puts the rows of the keys of suffixes, which stand in the leaf that is the last of the nodes above. Not in line: each node above has a frame of the walk,
// which would hold what only a leaf wants.
#[inline(never)]
fn suffixes<F: Format>(
    body: &[u8],
    below: Below,
    key: &mut [u8; SLOT_SIZE],
    way: &[u8; WAY_SIZE],
    output: &mut Output<'_>,
)
    requires { Ready F.width body.now output.old }
    ensures { Walked F.slot_row (SuffixVisits below.nodes (take (node_size * below.nodes) way.now) (known_strings below.known key.old) body.now) below body.now output.old output.new key.old key.new }
{
    for suffix in Suffixes(body) {
        if compose(key, below.known, &suffix) {
            F::put(output, key, way, below.nodes);
        }
    }
}

// The same of all keys of tries side by side.
pub fn walk<F: Format>(
    tries: &[u8],
    below: Below,
    key: &mut [u8; SLOT_SIZE],
    way: &mut [u8; WAY_SIZE],
    output: &mut Output<'_>,
)
    requires { Ready F.width tries.now output.old }
    ensures walked { Walked F.slot_row (TrieVisits below.nodes (take (node_size * below.nodes) way.old) (known_strings below.known key.old) tries.now) below tries.now output.old output.new key.old key.new }
    ensures way_kept { take (node_size * below.nodes) way.new ≡ take (node_size * below.nodes) way.old }
{
    if below.nodes == NODE_LIMIT {
        return;
    }
    for node in Nodes(tries) {
        if let Some(inside) = descend(key, way, below, &node) {
            match node.kind() {
                Kind::Leaf => suffixes::<F>(node.body, inside, key, way, output),
                Kind::Inner(_) => walk::<F>(node.body, inside, key, way, output),
            }
        }
    }
}
