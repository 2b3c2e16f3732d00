// What the bytes known of a value say of a range.
ghost use Rattle.std.specs.Prelude.{◌≡◌, ℕ, ◌+◌, ◌-◌, ◌/◌, ◌^◌, ◌≤◌, ◌<◌, List, ◌++◌, length, take, eqb, leb, ltb, ◌&&◌};
ghost use Rattle.buffer.specs.Numbers.{number};
ghost use Rattle.rows.specs.Sizes.{value_size};
ghost use Rattle.entries.specs.Query.{Query, value_reach, lowest, asked};
ghost use Rattle.value_range.specs.Spans.{Steps, Spans};

use buffer::numbers::get64;
use matcher::reach::Answer;
use rows::sizes::VALUE_SIZE;

// The numbers from..to, both included: none where `from` is above `to`. No RangeInclusive of std: that is not Copy.
#[derive(Clone, Copy)]
pub struct Span {
    pub from: u64,
    pub to: u64,
}

impl Span {
    pub const NONE: Span = Span { from: 1, to: 0 };

    pub fn contains(self, x: u64) -> bool
        ensures { result ≡ leb self.from x && leb x self.to }
    {
        self.from <= x && x <= self.to
    }
}

// The number that at most 8 bytes are. Not by `from_be_bytes`: that reads an array of 8 bytes, and here may be fewer.
fn number_of(s: &[u8]) -> u64
    requires { length s.now ≤ value_size }
    ensures { result ≡ number s.now }
{
    let mut x = 0;
    for b in s {
        x = x * 256 + u64::from(*b);
    }
    x
}

// The lowest value that begins with the known bytes.
fn lowest(known: &[u8]) -> u64
    requires { length known.now ≤ value_size }
    ensures { result ≡ lowest known.now }
{
    let left = VALUE_SIZE - known.len();
    number_of(known).checked_shl(8 * left as u32).unwrap_or(0)
}

// A number without its last n bytes.
fn without_last(x: u64, n: usize) -> u64
    requires { n ≤ value_size }
    ensures { result ≡ x / 256 ^ n }
{
    x.checked_shr(8 * n as u32).unwrap_or(0)
}

// The steps of 256^n, counted from `first` on, in which values of the range lie: so many values begin with the same 8 - n bytes.
fn steps(range: Span, first: u64, n: usize) -> Span
    requires { n ≤ value_size }
    ensures { Steps range.from range.to first (256 ^ n) result.from result.to }
{
    if range.to < range.from.max(first) {
        return Span::NONE;
    }
    Span {
        from: without_last(range.from.saturating_sub(first), n),
        to: without_last(range.to - first, n),
    }
}

// Which numbers of n bytes continue the known bytes to a value in range, or to the beginning of one?
pub fn span_behind(range: Span, known: &[u8], n: usize) -> Span
    requires { length known.now + n ≤ value_size }
    ensures { (pattern : List ℕ) → Spans (asked pattern range.from range.to) known.now n result.from result.to }
{
    let left = VALUE_SIZE - known.len() - n;
    steps(range, lowest(known), left)
}

// The number that the first n bytes of s are. Where s has 8 bytes they are read as one, and those too many shifted out.
pub fn first_number(s: &[u8], n: usize) -> u64
    requires { (n ≤ length s.now) × (n ≤ value_size) }
    ensures { result ≡ number (take n s.now) }
{
    if s.len() < VALUE_SIZE {
        return number_of(&s[..n]);
    }
    without_last(get64(s, 0), VALUE_SIZE - n)
}

// The answer for a value of which `known` bytes are known, the last of them a number x, of which those in the span lead into the range.
pub fn value_told(span: Span, x: u64, known: usize) -> Answer
    ensures { (q : Query) (k s : List ℕ) → x ≡ number s → known ≡ length k + length s → Spans q k (length s) span.from span.to → result ≡ value_reach q (k ++ s) }
{
    if !span.contains(x) {
        return Answer::Mismatch;
    }
    if known == VALUE_SIZE {
        return Answer::Match;
    }
    Answer::Incomplete
}

// The answer for a value of which v bytes were known, and the first n bytes of s are known too: the span is the one behind those v.
pub fn value_with(span: Span, v: usize, s: &[u8], n: usize) -> Answer
    requires { (n ≤ length s.now) × (v + n ≤ value_size) }
    ensures { (q : Query) (k : List ℕ) → length k ≡ v → Spans q k n span.from span.to → result ≡ value_reach q (k ++ take n s.now) }
{
    value_told(span, first_number(s, n), v + n)
}

// Can a value whose first bytes are known be in the range? The pattern plays no part.
pub fn value_reach(range: Span, known: &[u8]) -> Answer
    ensures { (pattern : List ℕ) → result ≡ value_reach (asked pattern range.from range.to) known.now }
{
    if known.len() > VALUE_SIZE {
        return Answer::Mismatch;
    }
    let span = steps(range, 0, VALUE_SIZE - known.len());
    value_with(span, 0, known, known.len())
}
