// What a listing leaves in the answer: the rows of a walk over tries, sorted, or nothing where they have no room.
ghost use Rattle.std.specs.Prelude.{◌≡◌, ◌*◌, ◌≤◌, ℕ, List, length};
ghost use Rattle.rows.specs.Sizes.{row_size};
ghost use Rattle.store.specs.Said.{said, rows_listed};
ghost use Rattle.store.specs.Listing.{Walked, Overfull, Filled, Listed};

use crate::refusal::Refusal;
use rows::sort::sort;

// A walk over tries that writes what it finds as rows of one width. It is a trait and no closure, since a clause cannot range over `Rows`; a member
// can be it.
pub trait Walk {
    ghost WIDTH: { ℕ };

    fn width(&self) -> usize
        ensures { result ≡ WIDTH };

    // Whether these are the rows that it finds, in their sequence, and the second value; of none where the bytes are not those of good tries.
    ghost Rows: { Self → List (List ℕ) → ℕ → Type 0 };

    // Writes the first `room` of the rows. Returns how many there are, and the second value: these are a reply's two numbers, which document 01 gives to each
    // call, to reading back a second one of 0. Answer and room, and no Output of gather: this crate does not stand on gather, and would for this alone.
    fn walk(&self, answer: &mut [u8], room: usize) -> (usize, usize)
        requires { room * WIDTH ≤ length answer.old }
        ensures { Walked WIDTH (Rows self.now) room answer.old answer.new result.0 result.1 };

    ghost wide: { row_size ≤ WIDTH };
}

// The number of rows, where they have no room. Where all that the store says it holds have room, none has to be counted.
fn overfull<W: Walk>(walk: &W, held: usize, room: usize) -> Option<usize>
    ensures { Overfull (W.Rows walk.now) held room result }
{
    if held <= room {
        return None;
    }
    // With a room of 0 nothing is written.
    let (rows, _) = walk.walk(&mut [], 0);
    if rows <= room {
        return None;
    }
    Some(rows.min(held))
}

// Writes the rows, at most `room`, and sorts them.
fn fill<W: Walk>(walk: &W, answer: &mut [u8], room: usize) -> (usize, usize)
    requires { room * W.WIDTH ≤ length answer.old }
    ensures { Filled W.WIDTH (W.Rows walk.now) room answer.old answer.new (rows_listed result) }
{
    let (found, second) = walk.walk(answer, room);
    let rows = found.min(room);
    sort(answer, 0, rows, walk.width());
    (rows, second)
}

// Lists the rows of a walk over a store that says it holds `held`: how many they are, and the second value.
pub fn list<W: Walk>(walk: &W, held: usize, answer: &mut [u8]) -> Result<(usize, usize), Refusal>
    ensures { Listed W.WIDTH (W.Rows walk.now) held answer.old answer.new (said rows_listed result) }
{
    let room = answer.len() / walk.width();
    if let Some(rows) = overfull(walk, held, room) {
        return Err(Refusal::NoRoom(rows));
    }
    Ok(fill(walk, answer, room))
}
