// The slot of the new entry.
ghost use Rattle.std.specs.Prelude.{◌≡◌, ◌+◌, ◌≤◌, length};
ghost use Rattle.buffer.specs.Splice.{splice};
ghost use Rattle.entries.specs.Slots.{slot_size, slot};
ghost use Rattle.store_overflow.specs.Entering.{entry_of};

use crate::entry::Entry;
use buffer::moves::{clear, copy_from};
use buffer::numbers::put64;
use entries::SLOT_SIZE;
use rows::sizes::{LENGTH_AT, PATH_AT, REFERENCE_AT};

// What stands behind the place of a path's first byte.
const PATH_ROOM: usize = SLOT_SIZE - PATH_AT;

// Writes the slot of an entry: its row, and zeros behind it.
pub(crate) fn put_slot(s: &mut [u8], at: usize, entry: &Entry<'_>)
    requires { at + slot_size ≤ length s.old }
    ensures { s.new ≡ splice s.old at (slot (entry_of entry.now)) }
{
    let path = entry.path;
    let reference = entry.reference;
    put64(s, at, entry.value);
    copy_from(s, at + REFERENCE_AT, reference);
    s[at + LENGTH_AT] = path.len() as u8;
    copy_from(s, at + PATH_AT, path);
    clear(s, at + PATH_AT + path.len(), PATH_ROOM - path.len());
}
