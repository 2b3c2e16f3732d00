// Putting a new entry into the tries of a store.
ghost use Rattle.store_overflow.specs.Entering.{entry_of};
ghost use Rattle.store_add.specs.Placed.{Placed, Entered};
ghost use Rattle.store_add.specs.Ready.{Ready};
ghost use Rattle.store_add.specs.Spelled.{Spells};

use crate::small::add_small;
use buffer::numbers::put32;
use store::front::{Front, HELD_AT};
use store::part::trie_range;
use store_overflow::entry::Entry;
use store_overflow::overflow::overflow;
use trie_write::key::Key;

// The small trie takes the entry in, until that brings it to M entries: then a level does.
fn place(store: &mut [u8], front: Front, entry: &Entry<'_>, key: &Key<'_>)
    requires ready { Ready front.m front.l front.tau front.held (entry_of entry.now) store.old }
    requires spells { Spells (entry_of entry.now) key.now }
    ensures { Placed front.m front.l front.tau front.held (entry_of entry.now) store.old store.new }
{
    if front.held % front.m + 1 < front.m {
        let place = trie_range(store, front, 0);
        add_small(store, front, place.end - place.start, key);
    } else {
        overflow(store, front, entry);
    }
}

// Puts the entry in, and counts it.
pub(crate) fn put_entry(store: &mut [u8], front: Front, entry: &Entry<'_>, key: &Key<'_>)
    requires ready { Ready front.m front.l front.tau front.held (entry_of entry.now) store.old }
    requires spells { Spells (entry_of entry.now) key.now }
    ensures { Entered front.m front.l front.tau front.held (entry_of entry.now) store.old store.new }
{
    place(store, front, entry, key);
    put32(store, HELD_AT, (front.held + 1) as u32);
}
