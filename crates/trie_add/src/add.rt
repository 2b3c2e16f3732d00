// The addition of a key to tries side by side, in place: down while strings agree, and back with the lengths of the nodes passed. They take the count that
// each function returns, so a struct of `s` and `used` would spare a parameter and add two facts to each contract (trie_write's `insert` says which).
ghost use Rattle.std.specs.Prelude.{◌≡◌, ℕ, ◌≤◌};
ghost use Rattle.trie_read.specs.declared.kind.Kind.TheVariants.{Leaf};
ghost use Rattle.trie_write.specs.Keys.{spelled};
ghost use Rattle.trie_add.specs.Added.{HasRoom, Added, AddedAt, Grown};

use crate::split::split;
use buffer::numbers::put32;
use trie_read::kind::{Dimension, Kind};
use trie_read::lookup::agrees;
use trie_read::node_place::NodePlace;
use trie_read::place::{Place, find};
use trie_read::sizes::{BODY_LENGTH_AT, HEAD_SIZE, LEAF_SIZE};
use trie_write::insert::{NewLeaf, NewSuffix, insert};
use trie_write::key::Key;

// The most bytes that an addition takes beside those of the key: a leaf, and the front of a parent.
pub const GROWTH_SIZE: usize = HEAD_SIZE + LEAF_SIZE;

// The leaf gets a suffix more.
fn add_suffix(s: &mut [u8], node: &NodePlace, used: usize, key: &Key<'_>) -> usize
    requires leaf { node.now.kind ≡ Leaf }
    requires room { (node.now.next ≤ used) × HasRoom s.old used (spelled key.now) }
    ensures { (depth : ℕ) → Grown s.old node.now used depth (spelled key.now) s.new result }
{
    let n = insert::<NewSuffix>(s, node.next, used, key);
    put32(
        s,
        node.at + BODY_LENGTH_AT,
        (node.next - node.body + n) as u32, // the suffix counts
    );
    n
}

// The key has these bytes left behind the strings of the node: a leaf gets them as a suffix, an inner node passes them on.
#[cycle(add_extend_body_visit_node)]
fn extend_body(s: &mut [u8], node: &NodePlace, used: usize, depth: usize, key: &Key<'_>) -> usize
    requires { (node.now.next ≤ used) × HasRoom s.old used (spelled key.now) }
    ensures { Grown s.old node.now used depth (spelled key.now) s.new result }
{
    let Kind::Inner(dimension) = node.kind else {
        return add_suffix(s, node, used, key);
    };
    if depth == 0 {
        return 0;
    }
    let n = add(
        s,
        node.body,
        node.next,
        used,
        Some(dimension),
        depth - 1,
        key,
    );
    put32(
        s,
        node.at + BODY_LENGTH_AT,
        (node.next - node.body + n) as u32,
    );
    n
}

// The node has the key's branching byte: it takes the key in, or is split.
#[cycle(add_extend_body_visit_node)]
fn visit_node(
    s: &mut [u8],
    node: &NodePlace,
    used: usize,
    above: Option<Dimension>,
    depth: usize,
    key: &Key<'_>,
) -> usize
    requires { (node.now.next ≤ used) × HasRoom s.old used (spelled key.now) }
    ensures { AddedAt s.old node.now used above depth (spelled key.now) s.new result }
{
    let from = node.at + HEAD_SIZE;
    if agrees(
        &s[from..node.path],
        &s[node.path..node.body],
        key.value,
        key.path,
    ) {
        let left = key.rest(node.path - from, node.body - node.path);
        return extend_body(s, node, used, depth, &left);
    }
    split(s, node, used, above, key)
}

// Adds a key to the tries in s[off..stop], which stand below a node that branches in `above` (None: at the root) and are at most `depth` nodes
// high; what follows them up to `used` moves on. Returns by how many bytes: by 0 where nothing is added, as on bytes that are no trie's, so that no case
// is left to say (it is public, and could not fail before).
#[cycle(add_extend_body_visit_node)]
pub fn add(
    s: &mut [u8],
    off: usize,
    stop: usize,
    used: usize,
    above: Option<Dimension>,
    depth: usize,
    key: &Key<'_>,
) -> usize
    requires { (off ≤ stop) × (stop ≤ used) × HasRoom s.old used (spelled key.now) }
    ensures { Added s.old off stop used above depth (spelled key.now) s.new result }
{
    let Ok(place) = find(&s[off..stop], above, key.value, key.path) else {
        return 0;
    };
    match place {
        Place::Node(node) => visit_node(s, &node.behind(off), used, above, depth, key),
        Place::Gap(at) => insert::<NewLeaf>(s, off + at, used, key),
    }
}
