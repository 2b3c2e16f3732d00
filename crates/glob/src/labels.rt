// Labels that stand one behind the other, as in a path or a pattern.
ghost use Rattle.std.specs.Prelude.{◌≡◌, false, ◌-◌, ◌≤◌, length, take, drop, IfSome};
ghost use Rattle.std.specs.Iterator.{YieldsFirstRef, item_count};
ghost use Rattle.buffer.specs.Lists.{none};
ghost use Rattle.glob.specs.Labels.{labels_of, Begun, FirstLabel};
ghost use Rattle.glob.specs.Fit.{first, fits_label, fit_labels};

use crate::split::{is_deep, next_slash};

// Bytes that begin with a `/`, if there are any: each `/` begins a label.
#[derive(Clone, Copy)]
pub struct Labels<'a> {
    pub bytes: &'a [u8],
    pub ghost begun: { Begun bytes.now },
}

impl<'a> Labels<'a> {
    // The labels of any bytes: what stands before the first `/` is of none.
    pub fn new(s: &'a [u8]) -> Labels<'a>
        ensures { labels_of result.bytes.now ≡ labels_of s.now }
    {
        Labels {
            bytes: &s[next_slash(s, 0)..],
        }
    }

    pub fn is_empty(self) -> bool
        ensures { result ≡ none (labels_of self.entry.bytes.now) }
    {
        self.bytes.is_empty()
    }

    // The first label, and the others.
    pub fn split_first(self) -> (&'a [u8], Labels<'a>)
        requires { none (labels_of self.bytes.now) ≡ false }
        ensures { FirstLabel self.entry.bytes.now result.0.now result.1.bytes.now }
    {
        let a = next_slash(self.bytes, 1);
        (
            &self.bytes[1..a],
            Labels {
                bytes: &self.bytes[a..],
            },
        )
    }

    // From a place on at which a label begins, or the end.
    pub(crate) fn from(self, n: usize) -> Labels<'a>
        requires { (n ≤ length self.bytes.now) × Begun (take (length self.bytes.now - n) (drop n self.bytes.now)) }
        ensures { result.bytes.now ≡ take (length self.entry.bytes.now - n) (drop n self.entry.bytes.now) }
    {
        Labels {
            bytes: &self.bytes[n..],
        }
    }

    // The only label, where there is one and it is not `**`: as a pattern it takes exactly one label.
    #[tactic(auto, using(crate::proofs::Cuts::single_law))]
    pub(crate) fn single(self) -> Option<&'a [u8]>
        ensures { IfSome result (λ l. fit_labels (labels_of self.entry.bytes.now) ≡ first (fits_label l.now) none) }
    {
        if self.is_empty() {
            return None;
        }
        let (label, others) = self.split_first();
        if others.is_empty() && !is_deep(label) {
            return Some(label);
        }
        None
    }
}

// The labels one after the other.
impl<'a> Iterator for Labels<'a> {
    type Item = &'a [u8];

    ghost next_gives = { YieldsFirstRef (λ s. labels_of s.bytes.now) };

    ghost remaining = { item_count (λ s. labels_of s.bytes.now) };

    fn next(&mut self) -> Option<&'a [u8]> {
        if self.is_empty() {
            return None;
        }
        let (first, rest) = self.split_first();
        *self = rest;
        Some(first)
    }
}
