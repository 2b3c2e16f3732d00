// The suffixes of a leaf, one after another: v | p | reference, 20 bytes | v value bytes | p path bytes.
ghost use Rattle.std.specs.Prelude.{◌≡◌, List, Ok, IfSome, length, option_map};
ghost use Rattle.std.specs.Iterator.{at_most};
ghost use Rattle.trie_theory.specs.Forest.{Key};
ghost use Rattle.buffer.specs.Lists.{All};
ghost use Rattle.trie_theory.specs.Lookup.{among};
ghost use Rattle.trie_read.specs.Shape.{Fixed, key_of};
ghost use Rattle.trie_read.specs.Suffixes.{suffixes_bytes, tail_of, tail_in, tail_told, WithinBytes, SuffixStands, NextSuffix};

use crate::head::Malformed;
use crate::sizes::SUFFIX_SIZE;
use crate::suffix::Suffix;

// The first of suffixes; `Ok(None)` where there are no bytes.
#[inline]
pub fn read_suffix(b: &[u8]) -> Result<Option<Suffix<'_>>, Malformed>
    ensures within { WithinBytes b.now result }
    ensures value { (ts : List Key) → All Fixed ts → b.now ≡ suffixes_bytes ts → tail_told result ≡ Ok (tail_of ts) }
{
    if b.is_empty() {
        return Ok(None);
    }
    if b.len() < SUFFIX_SIZE {
        return Err(Malformed);
    }
    let path = SUFFIX_SIZE + usize::from(b[0]);
    let next = path + usize::from(b[1]);
    if b.len() < next {
        return Err(Malformed);
    }
    Ok(Some(Suffix {
        value: &b[SUFFIX_SIZE..path],
        path: &b[path..next],
        reference: &b[2..SUFFIX_SIZE],
        rest: &b[next..],
    }))
}

// The same for walks, which end where no suffix begins, whatever the bytes there are.
#[inline]
pub fn first_suffix(b: &[u8]) -> Option<Suffix<'_>>
    ensures within { IfSome result (λ x. SuffixStands b.now x) }
    ensures value { (ts : List Key) → All Fixed ts → b.now ≡ suffixes_bytes ts → option_map tail_in result ≡ tail_of ts }
{
    read_suffix(b).unwrap_or(None)
}

// The suffixes one after another; they end where no suffix begins, whatever the bytes there are.
#[derive(Drop)]
pub struct Suffixes<'a>(pub &'a [u8]);

impl<'a> Iterator for Suffixes<'a> {
    type Item = Suffix<'a>;

    ghost next_gives = { λ s r t. NextSuffix s.0.now r t.0.now };

    ghost remaining = { λ s. at_most (length s.0.now) };

    #[inline]
    fn next(&mut self) -> Option<Suffix<'a>> {
        let suffix = first_suffix(self.0)?;
        self.0 = suffix.rest;
        Some(suffix)
    }
}

// Is a key with these bytes left one of the suffixes? No `any` yet: what it promises is of the whole run of its calls, and
// that needs an induction, which is not written.
pub fn has_suffix(body: &[u8], value: &[u8], path: &[u8], reference: &[u8]) -> bool
    ensures { (ts : List Key) → All Fixed ts → body.now ≡ suffixes_bytes ts → result ≡ among (key_of value.now path.now reference.now) ts }
{
    for suffix in Suffixes(body) {
        if suffix.is(value, path, reference) {
            return true;
        }
    }
    false
}
