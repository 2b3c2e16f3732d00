// The level builder (Definitions 7 and 8): one node for a set, and the builder again for each of its parts. All is written front to back, but for
// the length of a node's body, which is known last.
ghost use Rattle.std.specs.Prelude.{◌≡◌, true, ℕ, ◌+◌, ◌*◌, ◌≤◌, ◌<◌, [], length, get_or, drop, map};
ghost use Rattle.buffer.specs.Sizes.{four_byte_limit};
ghost use Rattle.buffer.specs.Splice.{splice};
ghost use Rattle.entries.specs.Slots.{slot_size, slot_key};
ghost use Rattle.trie_theory.specs.Level.{level_of};
ghost use Rattle.trie_theory.specs.Encode.{encode, suffix_bytes};
ghost use Rattle.trie_read.specs.Kinds.{number_of};
ghost use Rattle.trie_read.specs.Shape.{above_of};
ghost use Rattle.trie_sets.specs.Sets.{keys_of, short_paths, slots_of};
ghost use Rattle.trie_build.specs.Build.{trie_room, Built};
ghost use Rattle.trie_build.specs.Nodes.{rest, rests_bytes, Behind};
ghost use Rattle.trie_build.specs.Steps.{Ready, trie_bytes, column_of, Run, Opened};

use buffer::numbers::put32;
use entries::known::Known;
use entries::{SLOT_SIZE, Slot};
use rows::sizes::{LENGTH_AT, PATH_AT, REFERENCE_AT, REFERENCE_SIZE, VALUE_SIZE};
use trie_read::kind::{Dimension, Kind};
use trie_read::sizes::{BODY_LENGTH_AT, HEAD_SIZE, SUFFIX_SIZE};
use trie_sets::partition::{Column, partition};
use trie_sets::positions::{Shape, split};
use trie_write::write::{put_front, put_suffix};

// How many slots, from the first on, have its byte in a column.
fn run(slots: &[u8], column: Column) -> usize
    requires { 0 < length (slots_of slots.now) }
    ensures { Run (slots_of slots.now) column.at result }
{
    let (set, _) = slots.as_chunks::<SLOT_SIZE>();
    let byte = set[0][column.at];
    set.iter()
        .position(|slot| slot[column.at] != byte)
        .unwrap_or(set.len())
}

// Where in a slot the byte stands at which the keys of a node part.
fn column_of(dimension: Dimension, shared: Known) -> Column
    ensures { result.at ≡ column_of (number_of dimension) shared.value shared.path }
{
    let at = match dimension {
        Dimension::Value => shared.value,
        _ => PATH_AT + shared.path,
    };
    Column { at }
}

// Splits the set and writes its node up to the body: the strings are the bytes of a slot from the positions above up to its own.
fn open_node(
    out: &mut [u8],
    slots: &[u8],
    tau: usize,
    above: Option<Dimension>,
    known: Known,
) -> Shape
    requires { Ready (length out.old) (slots_of slots.now) tau (above_of above) known.value known.path }
    ensures { Opened out.old (slots_of slots.now) tau (above_of above) known.value known.path out.new result.kind result.shared.value result.shared.path }
{
    let shape = split(slots, tau, above, known);
    let (set, _) = slots.as_chunks::<SLOT_SIZE>();
    let slot = &set[0];
    let value = &slot[known.value..shape.shared.value];
    let path = &slot[PATH_AT + known.path..PATH_AT + shape.shared.path];
    put_front(out, 0, shape.kind, value, path, 0);
    shape
}

// The suffix of the key in a slot, what remains behind the positions. Returns where it ends.
fn put_rest(out: &mut [u8], at: usize, slot: &Slot, shared: Known) -> usize
    requires { Behind slot.now shared.path × (at + length (suffix_bytes (rest shared.value shared.path slot.now)) ≤ length out.old) }
    ensures { (out.new ≡ splice out.old at (suffix_bytes (rest shared.value shared.path slot.now))) × (result ≡ at + length (suffix_bytes (rest shared.value shared.path slot.now))) }
{
    let value = &slot[shared.value..VALUE_SIZE];
    let ends = usize::from(slot[LENGTH_AT]) + 1;
    let path = &slot[PATH_AT + shared.path..PATH_AT + ends];
    put_suffix(
        out,
        at,
        value,
        path,
        &slot[REFERENCE_AT..REFERENCE_AT + REFERENCE_SIZE],
    );
    at + SUFFIX_SIZE + value.len() + path.len()
}

// The suffixes of a leaf, in the sequence of their slots. Returns where they end.
fn put_suffixes(out: &mut [u8], at: usize, slots: &[u8], shared: Known) -> usize
    requires { ((k : ℕ) → k < length (slots_of slots.now) → Behind (get_or (slots_of slots.now) k []) shared.path) × (at + length (rests_bytes shared.value shared.path (slots_of slots.now)) ≤ length out.old) }
    ensures { (out.new ≡ splice out.old at (rests_bytes shared.value shared.path (slots_of slots.now))) × (result ≡ at + length (rests_bytes shared.value shared.path (slots_of slots.now))) }
{
    let (set, _) = slots.as_chunks::<SLOT_SIZE>();
    let mut end = at;
    for slot in set {
        end = put_rest(out, end, slot, shared);
    }
    end
}

// Writes the trie of the set in `slots`, and returns how many bytes it has. `above` is what the node above branches in, `known` the bytes that it
// knows. The slots and the scratch stretch have some bytes afterwards.
fn build(
    out: &mut [u8],
    slots: &mut [u8],
    scratch: &mut [u8],
    tau: usize,
    above: Option<Dimension>,
    known: Known,
) -> usize
    requires { Ready (length out.old) (slots_of slots.old) tau (above_of above) known.value known.path × (length slots.old ≡ length (slots_of slots.old) * slot_size) × (length slots.old ≤ length scratch.old) }
    ensures { (out.new ≡ splice out.old 0 (trie_bytes tau (above_of above) known.value known.path (map slot_key (slots_of slots.old)))) × (result ≡ length (trie_bytes tau (above_of above) known.value known.path (map slot_key (slots_of slots.old)))) }
{
    let shape = open_node(out, slots, tau, above, known);
    let shared = shape.shared;
    let body = HEAD_SIZE + (shared.value - known.value) + (shared.path - known.path);
    let Kind::Inner(dimension) = shape.kind else {
        let end = put_suffixes(out, body, slots, shared);
        put32(out, BODY_LENGTH_AT, (end - body) as u32);
        return end;
    };
    let column = column_of(dimension, shared);
    partition(slots, scratch, column);
    let mut rest = slots;
    let mut end = body;
    // No `for` over std's `chunk_by_mut`: the invariant would have to carry what its closure computes from turn to turn. Begun, not proved.
    while !rest.is_empty() {
        let size = run(rest, column) * SLOT_SIZE;
        let (part, others) = rest.split_at_mut(size);
        end += build(&mut out[end..], part, scratch, tau, Some(dimension), shared);
        rest = others;
    }
    put32(out, BODY_LENGTH_AT, (end - body) as u32);
    end
}

// Writes the level of the keys in `n` slots (in row sequence) from `out` on, and returns how many bytes it has. The slots stand behind the
// room for it, the scratch stretch behind the slots; both have some bytes afterwards.
pub fn build_level(
    s: &mut [u8],
    out: usize,
    slots: usize,
    scratch: usize,
    n: usize,
    tau: usize,
) -> usize
    requires { (short_paths n (drop slots s.old) ≡ true) × (out + trie_room * n ≤ slots) × (slots + n * slot_size ≤ scratch) × (scratch + n * slot_size ≤ length s.old) × (trie_room * n < four_byte_limit) }
    ensures { Built s.old out slots scratch n (encode (level_of 2 tau (keys_of n (drop slots s.old)))) s.new × (result ≡ length (encode (level_of 2 tau (keys_of n (drop slots s.old))))) }
{
    if n == 0 {
        return 0;
    }
    let size = n * SLOT_SIZE;
    let (front, behind) = s.split_at_mut(scratch);
    let (room, set) = front.split_at_mut(slots);
    build(
        &mut room[out..],
        &mut set[..size],
        &mut behind[..size],
        tau,
        None,
        Known { value: 0, path: 0 },
    )
}
