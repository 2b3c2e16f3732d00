// A level from the slots of its entries. The region of a level has 1,024 bytes for each entry: the trie is built in the first quarter, the
// slots stand in the second, and the builder's scratch in the third.
ghost use Rattle.std.specs.Prelude.{◌≡◌, true, ◌+◌, ◌*◌, ◌≤◌, length, drop};
ghost use Rattle.buffer.specs.Splice.{splice};
ghost use Rattle.book.specs.Front.{entry_room, entries_limit};
ghost use Rattle.trie_sets.specs.Sets.{short_paths};
ghost use Rattle.store_overflow.specs.Steps.{slots_at, level_bytes};

use buffer::moves::clear;
use entries::SLOT_SIZE;
use rows::sort::sort;
use store::front::ENTRY_ROOM;
use trie_build::build::build_level;

// The region at `base`, of a level of up to `size` entries, gets the trie of the n slots in it, and zeros behind the trie.
pub(crate) fn merge(s: &mut [u8], base: usize, size: usize, n: usize, tau: usize)
    requires { (n ≤ size) × (size ≤ entries_limit) × (base + entry_room * size ≤ length s.old) × (short_paths n (drop (slots_at base size) s.old) ≡ true) }
    ensures { s.new ≡ splice s.old base (level_bytes size tau n (drop (slots_at base size) s.old)) }
{
    let slots = base + size * SLOT_SIZE;
    let scratch = slots + size * SLOT_SIZE;
    sort(s, slots, n, SLOT_SIZE);
    let used = build_level(s, base, slots, scratch, n, tau);
    clear(s, base + used, ENTRY_ROOM * size - used);
}
