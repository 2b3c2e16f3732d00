// The overflow of the small trie: its entries, those of the levels below the first empty one, and the new entry go into that level; all below it
// are emptied.
ghost use Rattle.std.specs.Prelude.{◌≤◌, ◌<◌, length};
ghost use Rattle.book.specs.Front.{need};
ghost use Rattle.store_overflow.specs.Entering.{entry_of};
ghost use Rattle.store_overflow.specs.Steps.{LevelFilled};
ghost use Rattle.store_overflow.specs.Overflow.{Overflowed};

use crate::digits::first_empty;
use crate::entry::Entry;
use crate::gathering::gather_first;
use crate::merging::merge;
use crate::slots::put_slot;
use buffer::moves::clear;
use entries::SLOT_SIZE;
use store::front::{ENTRY_ROOM, FRONT_ROOM, Front};

// Builds level j from what lies below it and the new entry, and empties what lies below.
fn fill_level(store: &mut [u8], front: Front, j: usize, entry: &Entry<'_>)
    requires { (1 ≤ front.m) × (j < front.l) × (need front.m front.l ≤ length store.old) }
    ensures { LevelFilled front.m front.l front.tau j (entry_of entry.now) store.old store.new }
{
    let size = front.level_size(j);
    let base = FRONT_ROOM + ENTRY_ROOM * size;
    let slots = base + size * SLOT_SIZE;
    let n = gather_first(store, front, j + 1, slots, size - 1);
    put_slot(store, slots + n * SLOT_SIZE, entry);
    merge(store, base, size, n + 1, front.tau);
    clear(store, FRONT_ROOM, ENTRY_ROOM * size);
}

// What an addition writes where it brings the small trie to M entries, but for the held number. A store that has no empty level stays as it is; none
// of ours is like that.
pub fn overflow(store: &mut [u8], front: Front, entry: &Entry<'_>)
    requires { (1 ≤ front.m) × (need front.m front.l ≤ length store.old) }
    ensures { Overflowed front.m front.l front.tau front.held (entry_of entry.now) store.old store.new }
{
    if let Some(j) = first_empty(front.l, front.held / front.m) {
        fill_level(store, front, j, entry);
    }
}
