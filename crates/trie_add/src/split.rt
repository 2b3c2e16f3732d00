// A node whose strings differ from the key gets a new parent, and the parent a new leaf.
ghost use Rattle.std.specs.Prelude.{◌≡◌, ◌+◌, ◌-◌, ◌≤◌, ◌<◌, [], ◌∷◌, ◌++◌, length, ltb, Some};
ghost use Rattle.buffer.specs.Splice.{splice, region};
ghost use Rattle.trie_theory.specs.Dimensions.{branching};
ghost use Rattle.buffer.specs.Sizes.{four_byte_limit};
ghost use Rattle.trie_read.specs.Sizes.{head_size};
ghost use Rattle.trie_read.specs.Shape.{above_of, part};
ghost use Rattle.trie_read.specs.Kinds.{byte_of_kind};
ghost use Rattle.trie_write.specs.Keys.{spelled};
ghost use Rattle.trie_add.specs.Added.{HasRoom, growth_limit};
ghost use Rattle.trie_add.specs.Replaced.{Replaced, CutFor, cut_fronts, split_bytes};

use trie_read::kind::{Dimension, Kind};
use trie_read::node_place::NodePlace;
use trie_read::sizes::{HEAD_SIZE, LEAF_SIZE};
use trie_read::strings::{branch_byte, common_length};
use trie_write::insert::{NewLeaf, insert, replace_front};
use trie_write::key::Key;
use trie_write::split::split_dimension;
use trie_write::write::put_front;

// Two fronts take no more: their strings are those of one node.
const FRONTS: usize = 2 * HEAD_SIZE + 2 * 255;

// How a node is cut: the new parent takes so many bytes of its value and path string and branches so; does the new leaf stand before it?
#[derive(Clone, Copy)]
pub struct Cut {
    pub value: usize,
    pub path: usize,
    pub dimension: Dimension,
    pub first: bool,
}

fn leaf_first(dimension: Dimension, value: &[u8], path: &[u8], nv: &[u8], np: &[u8]) -> bool
    ensures { result ≡ ltb (branching (above_of (Some dimension)) (value.now ∷ path.now ∷ [])) (branching (above_of (Some dimension)) (nv.now ∷ np.now ∷ [])) }
{
    branch_byte(Some(dimension), value, path) < branch_byte(Some(dimension), nv, np)
}

// A node has the strings nv and np, and the node above it branches in `above`.
fn cut_for(above: Option<Dimension>, nv: &[u8], np: &[u8], key: &Key<'_>) -> Cut
    ensures { CutFor (above_of above) nv.now np.now key.now.value.now key.now.path.now result }
{
    let a = common_length(nv, key.value);
    let b = common_length(np, key.path);
    let dimension = split_dimension(above, &nv[a..], &np[b..]);
    let left = key.rest(a, b);
    let first = leaf_first(dimension, left.value, left.path, &nv[a..], &np[b..]);
    Cut {
        value: a,
        path: b,
        dimension,
        first,
    }
}

// Writes the front of the new parent, whose body has `size` bytes, and that of the node with the strings that the parent leaves.
fn put_fronts(new: &mut [u8; FRONTS], s: &[u8], node: &NodePlace, cut: Cut, size: u32)
    requires { (node.now.next ≤ length s.now) × (length s.now < four_byte_limit) × (node.now.at + head_size + cut.value ≤ node.now.path) × (node.now.path + cut.path ≤ node.now.body) }
    ensures { new.new ≡ splice new.old 0 (cut_fronts s.now node.now cut size) }
{
    let a = cut.value;
    let b = cut.path;
    let value = &s[node.at + HEAD_SIZE..node.path];
    let path = &s[node.path..node.body];
    let own = (node.next - node.body) as u32;
    put_front(
        new,
        0,
        Kind::Inner(cut.dimension),
        &value[..a],
        &path[..b],
        size,
    );
    put_front(
        new,
        HEAD_SIZE + a + b,
        node.kind,
        &value[a..],
        &path[b..],
        own,
    );
}

// Puts the front of the new parent in front of the node.
fn put_parent(s: &mut [u8], node: &NodePlace, used: usize, cut: Cut, size: u32)
    requires room { (node.now.next ≤ used) × (used + head_size ≤ length s.old) × (length s.old < four_byte_limit) }
    requires inside { (node.now.at + head_size + cut.value ≤ node.now.path) × (node.now.path + cut.path ≤ node.now.body) }
    ensures { s.new ≡ splice s.old node.now.at (cut_fronts s.old node.now cut size ++ region s.old node.now.body (used - node.now.body)) }
{
    let end = node.body - node.at + HEAD_SIZE;
    let mut new = [0u8; FRONTS];
    put_fronts(&mut new, s, node, cut, size);
    replace_front(s, node.at, node.body, used, &new[0..end]);
}

// Replaces a node whose strings differ from the key by a new parent of it and of a new leaf. Returns by how many bytes they are more.
pub fn split(
    s: &mut [u8],
    node: &NodePlace,
    used: usize,
    above: Option<Dimension>,
    key: &Key<'_>,
) -> usize
    requires { (node.now.next ≤ used) × HasRoom s.old used (spelled key.now) }
    ensures upper_bound { result ≤ growth_limit (spelled key.now) }
    ensures replaced { Replaced s.old node.now.at node.now.next used (split_bytes (above_of above) (byte_of_kind node.now.kind) (part (node.now.at + head_size) node.now.path s.old ∷ part node.now.path node.now.body s.old ∷ []) (region s.old node.now.body (node.now.next - node.now.body)) (spelled key.now)) s.new result }
{
    let from = node.at + HEAD_SIZE;
    let cut = cut_for(above, &s[from..node.path], &s[node.path..node.body], key);
    let common = cut.value + cut.path;
    let left = key.rest(cut.value, cut.path);
    let n = LEAF_SIZE + left.size();
    let size = node.next + n - (node.at + common);
    let place = if cut.first {
        from + common
    } else {
        node.next + HEAD_SIZE
    };
    put_parent(s, node, used, cut, size as u32);
    insert::<NewLeaf>(s, place, used + HEAD_SIZE, &left);
    n + HEAD_SIZE
}
