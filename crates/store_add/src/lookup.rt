// Looking an entry up in each trie of a store.
ghost use Rattle.std.specs.Prelude.{◌≤◌};
ghost use Rattle.store_add.specs.Placed.{InTrie, LookedUp};
ghost use Rattle.trie_write.specs.Keys.{spelled};

use store::opened::Store;
use trie_read::lookup::contains;
use trie_write::key::Key;

// Does trie k have it?
fn trie_has(store: &Store<'_>, k: usize, key: &Key<'_>) -> bool
    requires { k ≤ store.now.front.l }
    ensures { InTrie store.now.front.m store.now.front.l k (spelled key.now) store.now.bytes.now result }
{
    let reference = key.reference;
    contains(store.trie(k), key.value, key.path, reference)
}

// Does the store have the entry with this key?
pub(crate) fn has_entry(store: &Store<'_>, key: &Key<'_>) -> bool
    ensures { LookedUp store.now.front.m store.now.front.l (spelled key.now) store.now.bytes.now result }
{
    (0..store.front.l + 1).any(|k| trie_has(store, k, key))
}
