// The lines that are printed for a reply, and for the rows of an answer.
ghost use Rattle.std.specs.Prelude.{map, List, ℕ, ◌≡◌, ◌+◌, ◌*◌, ◌≤◌, length};
ghost use Rattle.buffer.specs.Lists.{flat};
ghost use Rattle.rows.specs.Sizes.{row_size};
ghost use Rattle.rows.specs.Records.{records};
ghost use Rattle.logline.specs.Sizes.{reply_limit, row_line_limit};
ghost use Rattle.logline.specs.Spelling.{row_line, Wrote};
ghost use Rattle.nivruska.specs.Replied.{replied};
ghost use Rattle.session.specs.Sizes.{print_limit};
ghost use Rattle.session.specs.Printed.{reply_line};
ghost use Rattle.session.specs.Keeps.{Ran};
ghost use Rattle.logline.specs.Meaning.{misread};

use crate::sizes::PRINT_LIMIT;
use logline::spell::{spell_reply, spell_row};
use nivruska::Reply;
use rows::sizes::ROW_SIZE;

// How many bytes of the memory for it a line printed. Not beside that memory, where no ghost field can stand.
#[derive(Clone, Copy)]
pub struct Printed {
    pub bytes: usize,
    ghost short: { bytes ≤ print_limit },
}

// A line for each of the first n rows.
pub(crate) fn print_rows(answer: &[u8], n: usize, out: &mut [u8]) -> usize
    requires { (n * row_size ≤ length answer.now) × (n * row_line_limit ≤ length out.old) }
    ensures wrote { Wrote out.old 0 (flat (map row_line (records row_size n answer.now))) out.new result }
    ensures upper_bound { result ≤ n * row_line_limit }
{
    let mut at: usize = 0;
    let (rows, _) = answer.as_chunks::<ROW_SIZE>();
    for row in &rows[..n] {
        at = spell_row(out, at, row);
    }
    at
}

// The line of a reply, from `at` on.
#[tactic(auto, unfolding(crate::specs::Printed::reply_line))]
pub(crate) fn print_reply(reply: Reply, out: &mut [u8; PRINT_LIMIT], at: usize) -> Printed
    requires { at + reply_limit ≤ print_limit }
    ensures { Wrote out.old at (reply_line (replied reply)) out.new result.bytes }
{
    Printed {
        bytes: spell_reply(out, at, u64::from(reply.number), reply.first, reply.second),
    }
}

// What is printed for a line that cannot be read, number 12, or for one over 512 bytes, of which the bytes are not there. No store is needed for it.
pub fn print_misread(out: &mut [u8; PRINT_LIMIT]) -> Printed
    ensures { (store : List ℕ) → Ran misread store store out.old out.new result.bytes }
{
    let reply = Reply {
        number: 12,
        first: 0,
        second: 0,
    };
    print_reply(reply, out, 0)
}
