// The slots of all keys of tries, written into the slice that has the tries, behind these.
ghost use Rattle.std.specs.Prelude.{◌≡◌, ◌+◌, ◌*◌, ◌≤◌, length, refl};
ghost use Rattle.entries.specs.Slots.{slot_size};
ghost use Rattle.gather.specs.Gathered.{Gathered};

use crate::keys::{Format, walk};
use crate::known::ROOT;
use crate::output::Output;
use crate::way::WAY_SIZE;
use entries::SLOT_SIZE;

// A key's row is its slot.
struct Slots;

impl Format for Slots {
    ghost width = { slot_size };

    ghost slot_row = { λ n way slot. slot };

    fn put(output: &mut Output<'_>, key: &[u8; SLOT_SIZE], _way: &[u8; WAY_SIZE], _n: usize) {
        output.put(key);
    }

    ghost even = { λ n way slot long ways few. long };
}

// Writes the slots of all keys of the tries in s[from..to], one after another, from `out` on, at most `room` of them. Returns how many.
pub fn gather(s: &mut [u8], from: usize, to: usize, out: usize, room: usize) -> usize
    requires { (from ≤ to) × (to ≤ out) × (out + room * slot_size ≤ length s.old) }
    ensures { Gathered from to out room s.old s.new result }
{
    let mut key = [0u8; SLOT_SIZE];
    let mut way = [0u8; WAY_SIZE];
    let (tries, bytes) = s.split_at_mut(out);
    let mut output = Output {
        bytes,
        room,
        rows: 0,
    };
    walk::<Slots>(&tries[from..to], ROOT, &mut key, &mut way, &mut output);
    output.rows.min(room)
}
