// Where a label begins or ends, and how many there are.
ghost use Rattle.std.specs.Prelude.{◌≡◌, ◌+◌, ◌-◌, ◌≤◌, length, drop, ◌==◌};
ghost use Rattle.std.specs.List.{position_or_len};
ghost use Rattle.glob.specs.Bytes.{slash};
ghost use Rattle.glob.specs.Labels.{up_to_slash, labels_of, deep};
ghost use Rattle.glob.specs.Inner.{LastLabel};

use crate::bytes::{SLASH, STAR};

// How many bytes stand before the first c: all, where there is none. No Option, nor in `next_slash`: callers cut there, and none asks which it was.
pub fn bytes_before(s: &[u8], c: u8) -> usize
    ensures value { result ≡ position_or_len (λ b. b == c) s.now }
    ensures bound { result ≤ length s.now }
{
    s.iter().position(|b| *b == c).unwrap_or(s.len())
}

// Where is the first `/` from a place on? Where there is none, the end; and a place behind the end is its own answer.
pub fn next_slash(s: &[u8], from: usize) -> usize
    ensures { (result ≡ from + length (up_to_slash (drop from s.now))) × (result ≤ from + (length s.now - from)) }
{
    if s.len() <= from {
        return from;
    }
    from + bytes_before(&s[from..], SLASH)
}

// Where does the last label begin: behind the last `/`? `None` where there is none.
pub(crate) fn last_label(s: &[u8]) -> Option<usize>
    ensures { LastLabel s.now result }
{
    Some(s.iter().rposition(|b| *b == SLASH)? + 1)
}

// How many labels are there: how many `/`? `filter(..).count()` takes twice as long here.
pub fn label_count(s: &[u8]) -> usize
    ensures { result ≡ length (labels_of s.now) }
{
    let mut n: usize = 0;
    for b in s {
        if *b == SLASH {
            n += 1;
        }
    }
    n
}

// Is a label `**`?
pub fn is_deep(l: &[u8]) -> bool
    ensures { result ≡ deep l.now }
{
    matches!(l, [STAR, STAR])
}
