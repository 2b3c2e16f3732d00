// The walk of a search over tries in bytes. The first rows found that have room go into the output, and all are counted: with a room of 0 it only
// counts. On bytes that are no trie of ours it returns all the same, with at most `depth` nested calls.
ghost use Rattle.rows.specs.Sizes.{row_size};
ghost use Rattle.trie_read.specs.Kinds.{kind_of_byte};
ghost use Rattle.trie_read.specs.Shape.{above_of};
ghost use Rattle.gather.specs.Walks.{known_strings};
ghost use Rattle.gather.specs.Visits.{Ready};
ghost use Rattle.search.specs.Asks.{asks};
ghost use Rattle.search.specs.Searches.{SuffixesFound, TriesFound, BodyFound, Walked, TrieSearched};

use crate::query::Query;
use crate::step::{ask_once, descend, take_key};
use entries::SLOT_SIZE;
use gather::known::{Known, ROOT};
use gather::output::Output;
use rows::sizes::{NODE_LIMIT, ROW_SIZE, VALUE_SIZE};
use trie_read::head::{Node, Nodes};
use trie_read::kind::{Dimension, Kind};
use trie_read::sizes::SUFFIX_SIZE;
use trie_read::suffixes::first_suffix;
use value_range::value::{first_number, span_behind};

// Puts the rows of the keys found among suffixes. Not by a `for` over `Suffixes`: the number is read out of 8 bytes of what is left, which may reach behind
// the value; out of the value's own bytes it made searches of few rows up to 16 % slower (bench/index).
// Not in line: each node above has a frame of the walk, which would hold what only a leaf wants (199 nested nodes took 87 KB of stack so, and take 58).
#[inline(never)]
fn suffixes(
    q: &Query<'_>,
    body: &[u8],
    key: &mut [u8; SLOT_SIZE],
    known: Known,
    output: &mut Output<'_>,
)
    requires { Ready row_size body.now output.old }
    ensures { Walked (SuffixesFound (asks q.now) (known_strings known key.old) body.now) known body.now output.old output.new key.old key.new 0 }
{
    let rest = span_behind(q.range, &key[..known.value], VALUE_SIZE - known.value);
    let mut t = body;
    while let Some(suffix) = first_suffix(t) {
        let n = suffix.value.len();
        if known.value + n == VALUE_SIZE {
            let x = first_number(&t[SUFFIX_SIZE..], n);
            if rest.to < x {
                return; // values do not descend in a leaf
            }
            if take_key(q, key, known, &suffix, x, rest) {
                output.put(&key[..ROW_SIZE]);
            }
        }
        t = suffix.rest;
    }
}

// The same of the body of a node. Returns how many nodes are entered.
#[cycle(search)]
fn search_body(
    q: &Query<'_>,
    node: &Node<'_>,
    key: &mut [u8; SLOT_SIZE],
    known: Known,
    depth: usize,
    output: &mut Output<'_>,
) -> usize
    requires { Ready row_size node.now.body.now output.old }
    ensures { Walked (BodyFound (asks q.now) (kind_of_byte node.now.byte) depth (known_strings known key.old) node.now.body.now) known node.now.body.now output.old output.new key.old key.new result }
{
    match node.kind() {
        Kind::Leaf => {
            suffixes(q, node.body, key, known, output);
            0
        }
        Kind::Inner(dimension) => {
            search_tries(q, node.body, Some(dimension), key, known, depth, output)
        }
    }
}

// The same of tries side by side, below a node that branches in a dimension, or of roots; at most `depth` nodes stand one below the other.
#[cycle(search)]
fn search_tries(
    q: &Query<'_>,
    tries: &[u8],
    above: Option<Dimension>,
    key: &mut [u8; SLOT_SIZE],
    known: Known,
    depth: usize,
    output: &mut Output<'_>,
) -> usize
    requires { Ready row_size tries.now output.old }
    ensures { Walked (TriesFound (asks q.now) (above_of above) depth (known_strings known key.old) tries.now) known tries.now output.old output.new key.old key.new result }
{
    if depth == 0 {
        return 0;
    }
    let common = ask_once(q, above, key, known);
    let mut nodes = 0;
    for node in Nodes(tries) {
        if let Some(inside) = descend(q, above, key, known, &node, common) {
            nodes += 1 + search_body(q, &node, key, inside, depth - 1, output);
            if common.one {
                return nodes; // at most one byte leads on, and no sibling has it
            }
        }
    }
    nodes
}

// Searches one trie: puts the rows found behind those of others. Returns how many nodes are entered.
pub fn search_trie(q: &Query<'_>, tries: &[u8], output: &mut Output<'_>) -> usize
    requires { Ready row_size tries.now output.old }
    ensures { TrieSearched (asks q.now) tries.now output.old output.new result }
{
    let mut key = [0; SLOT_SIZE];
    search_tries(q, tries, None, &mut key, ROOT.known, NODE_LIMIT, output)
}
