// Discriminative positions (Definition 5), and the dimension in which a set is partitioned (Definition 7).
ghost use Rattle.std.specs.Prelude.{◌≡◌, true, ◌+◌, ◌≤◌, ◌<◌, length, map};
ghost use Rattle.buffer.specs.Lists.{all};
ghost use Rattle.entries.specs.Slots.{slot_size, slot_key, short_path};
ghost use Rattle.trie_theory.specs.Dimensions.{turn};
ghost use Rattle.trie_theory.specs.Strings.{at};
ghost use Rattle.trie_theory.specs.Position.{shared};
ghost use Rattle.trie_read.specs.Shape.{above_of};
ghost use Rattle.trie_sets.specs.Sets.{slots_of};
ghost use Rattle.trie_sets.specs.Positions.{Alike, Least, passes, branch_of, OfTwo, Split};

use entries::known::Known;
use entries::{SLOT_SIZE, Slot};
use matcher::bytes::PATH_LIMIT;
use rows::sizes::{LENGTH_AT, PATH_AT, VALUE_SIZE};
use trie_read::kind::{Dimension, Kind};

// Is no path in the slots longer than a path may be?
pub fn paths_are_short(slots: &[u8]) -> bool
    ensures { result ≡ all short_path (slots_of slots.now) }
{
    let (set, _) = slots.as_chunks::<SLOT_SIZE>();
    set.iter()
        .all(|slot| usize::from(slot[LENGTH_AT]) <= PATH_LIMIT)
}

// The least path length of the slots.
fn least_path(slots: &[Slot]) -> u8
    requires { 0 < length slots.now }
    ensures { Least slots.now result }
{
    slots.iter().map(|slot| slot[LENGTH_AT]).min().unwrap()
}

// How many bytes the strings that begin at `start` in each slot have in common, `from` of which are known, up to `limit`: one less than
// the discriminative position.
fn common_bytes(slots: &[Slot], start: usize, from: usize, limit: usize) -> usize
    requires { (0 < length slots.now) × (from ≤ limit) × (start + limit ≤ slot_size) }
    ensures { Alike slots.now start from limit result }
{
    let mut shared = limit;
    'positions: for j in from..limit {
        let byte = slots[0][start + j];
        for slot in &slots[1..] {
            if slot[start + j] != byte {
                shared = j;
                break 'positions;
            }
        }
    }
    shared
}

// What a node is whose keys differ in the value or in the path: it branches in the first dimension, from the wanted one on, in which they do.
#[tactic(auto, using(crate::proofs::Turning::turn_path, crate::proofs::Turning::turn_value))]
fn kind_of_set(above: Option<Dimension>, value: bool, path: bool) -> Kind
    requires { OfTwo (above_of above) }
    ensures { branch_of result ≡ turn (passes value path) 2 (above_of above) }
{
    match above {
        Some(Dimension::Value) if path => Kind::Inner(Dimension::Path),
        _ if value => Kind::Inner(Dimension::Value),
        _ if path => Kind::Inner(Dimension::Path),
        _ => Kind::Leaf,
    }
}

// How a set is split: what its node is, and the bytes that its keys share.
#[derive(Clone, Copy)]
pub struct Shape {
    pub kind: Kind,
    pub shared: Known,
}

// The bytes in `known`, those that the node above knows, are known to be shared.
pub fn split(slots: &[u8], tau: usize, above: Option<Dimension>, known: Known) -> Shape
    requires { (0 < length (slots_of slots.now)) × OfTwo (above_of above) × (all short_path (slots_of slots.now) ≡ true) × (known.value ≤ length (at 0 (shared (map slot_key (slots_of slots.now))))) × (known.path ≤ length (at 1 (shared (map slot_key (slots_of slots.now))))) }
    ensures { Split tau (above_of above) (map slot_key (slots_of slots.now)) result.kind result.shared.value result.shared.path }
{
    let (set, _) = slots.as_chunks();
    let ends = usize::from(least_path(set)) + 1;
    let value = common_bytes(set, 0, known.value, VALUE_SIZE);
    let path = common_bytes(set, PATH_AT, known.path, ends);
    let kind = if set.len() > tau {
        kind_of_set(above, value < VALUE_SIZE, path < ends)
    } else {
        Kind::Leaf
    };
    Shape {
        kind,
        shared: Known { value, path },
    }
}
