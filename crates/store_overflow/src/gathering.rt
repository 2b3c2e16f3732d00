// The entries of several tries, as slots one after another.
ghost use Rattle.std.specs.Prelude.{ℕ, ◌+◌, ◌*◌, ◌≤◌, ◌<◌, length};
ghost use Rattle.entries.specs.Slots.{slot_size};
ghost use Rattle.book.specs.Front.{need};
ghost use Rattle.store.specs.Parts.{region_at, region_size};
ghost use Rattle.store_overflow.specs.Steps.{FirstGathered};

use entries::SLOT_SIZE;
use gather::walk::gather;
use store::front::Front;
use store::part::trie_range;

// Writes the slots of all keys of the first k tries from `out` on, behind the regions of these tries; at most `room`. Returns how many. Each trie's
// place is read before anything is written, since the slots stand where the store may have another trie.
pub(crate) fn gather_first(s: &mut [u8], front: Front, k: usize, out: usize, room: usize) -> usize
    requires places { (k ≤ front.l + 1) × (need front.m front.l ≤ length s.old) × ((i : ℕ) → i < k → region_at front.m i + region_size front.m i ≤ out) }
    requires fits { out + room * slot_size ≤ length s.old }
    ensures { FirstGathered front.m front.l k out room s.old s.new result }
{
    if k == 0 {
        return 0;
    }
    let place = trie_range(s, front, k - 1);
    let from = place.start;
    let to = place.end;
    let n = gather_first(s, front, k - 1, out, room);
    n + gather(s, from, to, out + n * SLOT_SIZE, room - n)
}
