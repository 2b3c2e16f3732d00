// The steps of a search. The key buffer of a walk (crate gather) has the known bytes. What is the same for all children of a node, or for all suffixes
// of a leaf, is asked once; of a child or a suffix the value is asked first, and its bytes are copied only where they are needed. The form of paths is not
// looked at: those of a store that our calls left are formed, and of other bytes nothing is said of an answer. The query, the buffer and what is known stay
// three parameters: the first is only read, the second written by all levels, the third each level's own.
ghost use Rattle.std.specs.Prelude.{◌≡◌, ◌&&◌, ℕ, ◌+◌, ◌-◌, ◌≤◌, ◌<◌, List, [], ◌∷◌, ◌++◌, length, take};
ghost use Rattle.buffer.specs.Numbers.{number};
ghost use Rattle.buffer.specs.Splice.{region, splice};
ghost use Rattle.matcher.specs.Continued.{FirstBytes};
ghost use Rattle.matcher.specs.Reach.{reach_of, goes_on};
ghost use Rattle.rows.specs.Sizes.{value_size, path_at};
ghost use Rattle.trie_theory.specs.Search.{enters};
ghost use Rattle.trie_read.specs.Shape.{above_of};
ghost use Rattle.entries.specs.Query.{value_reach, reaches, is_match, asked};
ghost use Rattle.gather.specs.KeySlots.{ended_limit};
ghost use Rattle.gather.specs.Walks.{known_strings};
ghost use Rattle.value_range.specs.Spans.{Spans};
ghost use Rattle.search.specs.Asks.{asks};
ghost use Rattle.search.specs.Steps.{both, InCommon, Descended, Taken};

use crate::query::Query;
use buffer::moves::copy_from;
use entries::SLOT_SIZE;
use gather::key::{compose, enter};
use gather::known::Known;
use matcher::reach::{Answer, one_leads, reach_from, ruled_out};
use rows::sizes::{ENDED_LIMIT, PATH_AT, VALUE_SIZE};
use trie_read::head::Node;
use trie_read::kind::Dimension;
use trie_read::suffix::Suffix;
use value_range::value::{Span, span_behind, value_reach, value_told, value_with};

// The answer of both dimensions together.
fn both(value: Answer, path: Answer) -> Answer
    ensures { result ≡ both value path }
{
    match (value, path) {
        (Answer::Mismatch, _) | (_, Answer::Mismatch) => Answer::Mismatch,
        (Answer::Match, Answer::Match) => Answer::Match,
        _ => Answer::Incomplete,
    }
}

// Can known bytes be continued, by the answer of both dimensions? One `matches!`, under the name of its definition: `==` is no plainer.
fn goes_on(answer: Answer) -> bool
    ensures { result ≡ goes_on answer }
{
    !matches!(answer, Answer::Mismatch)
}

// Does a whole key match, by the answer of both dimensions? A name for one `matches!` as well.
fn is_match(answer: Answer) -> bool
    ensures { result ≡ is_match answer }
{
    matches!(answer, Answer::Match)
}

// What is asked once for all children of a node: which branching bytes of the value lead into the range, where it branches there; the answer
// of the dimension in which it does not branch (at a root it says nothing); and `one`: if true, at most one branching byte leads on. No enum by what
// stands above: with one, searches of few rows took 3 to 10 % longer (bench/index, unproved, medians of six layouts).
#[derive(Clone, Copy)]
pub(crate) struct Common {
    pub(crate) bytes: Span,
    pub(crate) other: Answer,
    pub(crate) one: bool,
}

// Which branching bytes of the value lead into the range?
fn branches(range: Span, known: &[u8]) -> Span
    ensures { (pattern : List ℕ) → length known.now < value_size → Spans (asked pattern range.from range.to) known.now 1 result.from result.to }
{
    if known.len() < VALUE_SIZE {
        return span_behind(range, known, 1);
    }
    Span::NONE
}

// Asks it of tries side by side, below a node that branches in a dimension, or of roots.
pub(crate) fn ask_once(
    q: &Query<'_>,
    above: Option<Dimension>,
    key: &[u8; SLOT_SIZE],
    known: Known,
) -> Common
    ensures { InCommon (asks q.now) above known key.now result }
{
    let Some(dimension) = above else {
        return Common {
            bytes: Span::NONE,
            other: Answer::Incomplete,
            one: false,
        };
    };
    match dimension {
        Dimension::Value => {
            let bytes = branches(q.range, &key[..known.value]);
            let end = PATH_AT + known.path;
            Common {
                bytes,
                other: reach_from(q.pattern, q.literal, &key[PATH_AT..end]),
                one: bytes.from == bytes.to,
            }
        }
        _ => Common {
            bytes: Span::NONE,
            other: value_reach(q.range, &key[..known.value]),
            one: one_leads(q.literal, known.path),
        },
    }
}

// The answer for the value with the first byte of s added, if there is one: `bytes` are those that lead into the range.
fn value_more(range: Span, known: &[u8], bytes: Span, s: &[u8]) -> Answer
    requires { length known.now ≤ value_size }
    ensures { (pattern : List ℕ) → (length known.now < value_size → Spans (asked pattern range.from range.to) known.now 1 bytes.from bytes.to) → result ≡ value_reach (asked pattern range.from range.to) (known.now ++ take 1 s.now) }
{
    if s.is_empty() {
        return value_reach(range, known);
    }
    if known.len() < VALUE_SIZE {
        return value_with(bytes, known.len(), s, 1);
    }
    Answer::Mismatch
}

// The answer for the path with the bytes s added, which are written behind those known.
fn path_with(q: &Query<'_>, key: &mut [u8; SLOT_SIZE], p: usize, s: &[u8]) -> Answer
    requires { p + length s.now ≤ ended_limit + 1 }
    ensures value { FirstBytes (region key.old path_at p ++ s.now) → result ≡ reach_of q.now.pattern.now (region key.old path_at p ++ s.now) }
    ensures key_after { key.new ≡ splice key.old (path_at + p) s.now }
{
    let at = PATH_AT + p;
    copy_from(key, at, s);
    let end = at + s.len();
    reach_from(q.pattern, q.literal, &key[PATH_AT..end])
}

// The answer of both dimensions, where the value is answered and the path has the bytes s more: it is asked where the value is no mismatch. Most paths
// differ from the pattern where that has no wild byte yet: they are ruled out, and nothing is written.
// In line: each child and each suffix is asked, most end at the first test, and as a call this makes a search up to a fifth slower (bench/index).
#[inline(always)]
fn ask_path(value: Answer, q: &Query<'_>, key: &mut [u8; SLOT_SIZE], p: usize, s: &[u8]) -> Answer
    requires { p + length s.now ≤ ended_limit + 1 }
    ensures value { FirstBytes (region key.old path_at p ++ s.now) → result ≡ both value (reach_of q.now.pattern.now (region key.old path_at p ++ s.now)) }
    ensures key_unchanged { take (path_at + p) key.new ≡ take (path_at + p) key.old }
{
    match value {
        Answer::Mismatch => Answer::Mismatch,
        _ if ruled_out(q.pattern, q.literal, p, s) => Answer::Mismatch,
        _ => both(value, path_with(q, key, p, s)),
    }
}

// Does a search enter a node below one that branches in a dimension, or a root? The byte that it asks of may stand behind the known path then.
fn admits(
    q: &Query<'_>,
    above: Option<Dimension>,
    key: &mut [u8; SLOT_SIZE],
    known: Known,
    node: &Node<'_>,
    common: Common,
) -> bool
    requires { InCommon (asks q.now) above known key.old common }
    ensures value { FirstBytes (region key.old path_at known.path ++ node.now.path.now) → result ≡ enters (reaches (asks q.now)) (above_of above) (known_strings known key.old) (node.now.value.now ∷ node.now.path.now ∷ []) }
    ensures key_unchanged { known_strings known key.new ≡ known_strings known key.old }
{
    let Some(dimension) = above else {
        return true; // it is entered
    };
    let other = common.other;
    match dimension {
        Dimension::Value => {
            let value = value_more(q.range, &key[..known.value], common.bytes, node.value);
            goes_on(both(value, other))
        }
        Dimension::Path => {
            let byte = &node.path[..node.path.len().min(1)];
            goes_on(ask_path(other, q, key, known.path, byte))
        }
        Dimension::Other(_) => goes_on(ask_path(other, q, key, known.path, &[])),
    }
}

// Goes down to a node, if a search enters it and its strings have room: then they stand behind what is known. Returns what is known then.
pub(crate) fn descend(
    q: &Query<'_>,
    above: Option<Dimension>,
    key: &mut [u8; SLOT_SIZE],
    known: Known,
    node: &Node<'_>,
    common: Common,
) -> Option<Known>
    requires { InCommon (asks q.now) above known key.old common }
    ensures { Descended (asks q.now) above known node.now.value.now node.now.path.now key.old key.new result }
{
    if !admits(q, above, key, known, node, common) {
        return None;
    }
    enter(key, known, node)
}

// Tells whether the key of a suffix is taken, and makes its slot then. With the suffix's bytes, the number x, the value is whole; the span is that of the
// values behind those known.
pub(crate) fn take_key(
    q: &Query<'_>,
    key: &mut [u8; SLOT_SIZE],
    known: Known,
    suffix: &Suffix<'_>,
    x: u64,
    span: Span,
) -> bool
    requires { (known.value + length suffix.now.value.now ≡ value_size) × (x ≡ number suffix.now.value.now) }
    ensures { Spans (asks q.now) (take known.value key.old) (value_size - known.value) span.from span.to → Taken (asks q.now) known suffix.now.value.now suffix.now.path.now suffix.now.reference.now key.old key.new result }
{
    if known.path + suffix.path.len() > ENDED_LIMIT {
        return false;
    }
    let value = value_told(span, x, VALUE_SIZE);
    if !is_match(ask_path(value, q, key, known.path, suffix.path)) {
        return false;
    }
    compose(key, known, suffix)
}
