// The addition to the small trie, in its region.
ghost use Rattle.std.specs.Prelude.{◌+◌, ◌*◌, ◌≤◌, length};
ghost use Rattle.book.specs.Front.{front_room, entry_room};
ghost use Rattle.store_add.specs.Small.{SmallGrown};
ghost use Rattle.trie_write.specs.Keys.{spelled};

use rows::sizes::NODE_LIMIT;
use store::front::{ENTRY_ROOM, FRONT_ROOM, Front};
use trie_add::add::{GROWTH_SIZE, add};
use trie_write::key::Key;

// Adds a key to the small trie, which has `used` bytes. Where there is no room for it, which no store of ours comes to, nothing is changed.
pub(crate) fn add_small(store: &mut [u8], front: Front, used: usize, key: &Key<'_>)
    requires { (front_room + entry_room * front.m ≤ length store.old) × (used ≤ entry_room * front.m) }
    ensures { SmallGrown front.m used (spelled key.now) store.old store.new }
{
    let room = ENTRY_ROOM * front.m;
    if used + GROWTH_SIZE + key.value.len() + key.path.len() <= room {
        let end = FRONT_ROOM + room;
        add(
            &mut store[FRONT_ROOM..end],
            0,
            used,
            used,
            None,
            NODE_LIMIT,
            key,
        );
    }
}
