// The key buffer of a walk: a slot in which the bytes known on the way down stand where a slot has them, those of the value from its
// beginning on, those of the path from PATH_AT on. What deeper nodes write stands behind, so that what is known stays.
ghost use Rattle.std.specs.Prelude.{◌≡◌, cond, ◌+◌, ◌≤◌, length};
ghost use Rattle.rows.specs.Sizes.{value_size};
ghost use Rattle.gather.specs.KeySlots.{ended_limit, has_slot, key_slot, suffix_key};
ghost use Rattle.gather.specs.Walks.{Entered, known_strings};

use crate::known::Known;
use buffer::moves::{clear, copy_from};
use entries::SLOT_SIZE;
use rows::sizes::{ENDED_LIMIT, LENGTH_AT, PATH_AT, REFERENCE_AT, VALUE_SIZE};
use trie_read::head::Node;
use trie_read::suffix::Suffix;

// Writes what a suffix adds, and what is known stays: the buffer is then the slot of the key.
fn fill(key: &mut [u8; SLOT_SIZE], known: Known, suffix: &Suffix<'_>)
    requires value_len { known.value + length suffix.now.value.now ≡ value_size }
    requires path_len { (1 ≤ known.path + length suffix.now.path.now) × (known.path + length suffix.now.path.now ≤ ended_limit) }
    ensures { key.new ≡ key_slot (suffix_key (known_strings known key.old) suffix.now.value.now suffix.now.path.now suffix.now.reference.now) }
{
    let n = known.path + suffix.path.len();
    let length = n - 1;
    copy_from(key, known.value, suffix.value);
    copy_from(key, REFERENCE_AT, suffix.reference);
    key[LENGTH_AT] = length as u8;
    copy_from(key, PATH_AT + known.path, suffix.path);
    clear(key, PATH_AT + n, SLOT_SIZE - PATH_AT - n);
}

// Makes the slot of a key, of which a suffix has the last bytes. A key that has no slot is passed over.
pub fn compose(key: &mut [u8; SLOT_SIZE], known: Known, suffix: &Suffix<'_>) -> bool
    ensures value { result ≡ has_slot (suffix_key (known_strings known key.old) suffix.now.value.now suffix.now.path.now suffix.now.reference.now) }
    ensures key_after { key.new ≡ cond result (key_slot (suffix_key (known_strings known key.old) suffix.now.value.now suffix.now.path.now suffix.now.reference.now)) key.old }
{
    let n = known.path + suffix.path.len();
    if known.value + suffix.value.len() != VALUE_SIZE || n < 1 || n > ENDED_LIMIT {
        return false;
    }
    fill(key, known, suffix);
    true
}

// Goes down to a node: writes its strings behind what is known. Returns what is known then, or None where the strings have no room.
pub fn enter(key: &mut [u8; SLOT_SIZE], known: Known, node: &Node<'_>) -> Option<Known>
    ensures { Entered known node.now.value.now node.now.path.now key.old key.new result }
{
    let value = known.value + node.value.len();
    let path = known.path + node.path.len();
    if value > VALUE_SIZE || path > ENDED_LIMIT {
        return None;
    }
    copy_from(key, known.value, node.value);
    copy_from(key, PATH_AT + known.path, node.path);
    Some(Known { value, path })
}
