// Does a path fit a pattern? Calls go deeper only as the pattern gets shorter, so the pattern alone bounds the stack.
// An answer `Never` stops the wild element before it from trying again, so the time is at most pattern times path.
// The loops of `after_star` and `descend` are two: one function over the step to the next place and the trial would be a closure within their cycle of calls.
ghost use Rattle.std.specs.Prelude.{◌≡◌, true, false, ◌&&◌, ◌+◌, ◌-◌, ◌<◌, ◌≤◌, length, take, drop, get_or, eqb, IfSome};
ghost use Rattle.buffer.specs.Lists.{none};
ghost use Rattle.glob.specs.Bytes.{slash};
ghost use Rattle.glob.specs.Labels.{labels_of, Begun};
ghost use Rattle.glob.specs.Fit.{after_some, first, fits_label, fit_labels, fits_path};
ghost use Rattle.glob.specs.Inner.{Says, is_fit, Alike, Next, OffLabel, OffLabels, AlikeLabels};

use crate::bytes::{SLASH, STAR};
use crate::labels::Labels;
use crate::split::{is_deep, last_label, next_slash};

// `Never`: it fails now, and also once any of the first bytes (or labels) are taken away.
#[derive(Clone, Copy)]
pub(crate) enum Trial {
    Fits,
    Fails,
    Never,
}

impl Trial {
    // One `matches!`, under the name of its definition: a derived `==` is no plainer.
    fn is_fit(self) -> bool
        ensures { result ≡ is_fit self }
    {
        matches!(self, Trial::Fits)
    }
}

// How many bytes do a label of a pattern, before its first `*`, and a label begin alike with? By indices: of `zip().take_while(..).count()`, as fast, the
// closure's two tests leave a goal that did not close.
fn alike(p: &[u8], s: &[u8]) -> usize
    ensures { Alike p.now s.now result }
{
    let n = p.len().min(s.len());
    for i in 0..n {
        if p[i] == STAR || p[i] != s[i] {
            return i;
        }
    }
    n
}

// The next place, from one on, at which the rest of a label may fit a label of a pattern: it begins with the same byte, or the pattern with `*`.
fn next_try(p: &[u8], s: &[u8], from: usize) -> Option<usize>
    requires { (length p.now ≡ 0 → ⊥) × (from ≤ length s.now + 1) }
    ensures { Next (OffLabel p.now s.now) (length s.now) from result }
{
    let rest = s.get(from..)?;
    if p[0] == STAR {
        return Some(from);
    }
    Some(from + rest.iter().position(|b| *b == p[0])?)
}

// Tries a label against a label of a pattern. Bytes that are alike are passed over in one turn.
#[cycle(after_star_label)]
fn label(p: &[u8], s: &[u8]) -> Trial
    ensures { Says (fits_label p.now) s.now result }
{
    match (p.first(), s.first()) {
        (None, None) => Trial::Fits,
        (None, Some(_)) => Trial::Fails,
        (Some(&STAR), _) => after_star(&p[1..], s),
        (Some(_), None) => Trial::Never,
        (Some(a), Some(b)) if a == b => {
            let n = 1 + alike(&p[1..], &s[1..]);
            label(&p[n..], &s[n..])
        }
        (Some(_), Some(_)) => Trial::Fails,
    }
}

// Tries a label against `*` and the pattern that remains. `*` takes one byte more, or several, in each turn.
#[cycle(after_star_label)]
fn after_star(p: &[u8], s: &[u8]) -> Trial
    ensures { Says (after_some (fits_label p.now)) s.now result }
{
    if p.is_empty() {
        return Trial::Fits; // a last `*` takes all bytes that are left
    }
    let mut next = next_try(p, s, 0);
    while let Some(i) = next {
        match label(p, &s[i..]) {
            Trial::Fits => return Trial::Fits,
            Trial::Never => return Trial::Never,
            Trial::Fails => next = next_try(p, s, i + 1),
        }
    }
    Trial::Never // `*` has taken all bytes
}

// Does a label fit a label of a pattern?
#[tactic(auto, using(crate::proofs::Trials::says_is))]
pub fn label_fits(p: &[u8], s: &[u8]) -> bool
    ensures { result ≡ fits_label p.now s.now }
{
    label(p, s).is_fit()
}

// Do the first labels begin with different bytes, and the pattern's with no `*`? Then it does not fit, and no label has to be cut off.
fn begin_unlike(pattern: Labels<'_>, path: Labels<'_>) -> bool
    ensures { result ≡ true → fit_labels (labels_of pattern.entry.bytes.now) (labels_of path.entry.bytes.now) ≡ false }
{
    let (pattern, path) = (pattern.bytes, path.bytes);
    pattern.len() > 1 && path.len() > 1 && pattern[1] != STAR && pattern[1] != path[1]
}

// How many bytes may be passed over at once, since a pattern and a path begin with the same whole labels there, none with a `*`? 0 where none are, and
// where the path ends first. `None` where it does not fit: bytes differ before a `*`, or the pattern has none and the path goes on.
fn equal_labels(pattern: Labels<'_>, path: Labels<'_>) -> Option<usize>
    requires { length pattern.bytes.now ≡ 0 → ⊥ }
    ensures { AlikeLabels pattern.entry.bytes.now path.entry.bytes.now result }
{
    let (pattern, path) = (pattern.bytes, path.bytes);
    let mut n = 0;
    for i in 1..pattern.len() {
        if path.len() <= i {
            return Some(n);
        }
        if pattern[i] == STAR {
            return Some(n);
        }
        if pattern[i] != path[i] {
            return None;
        }
        if pattern[i] == SLASH { // both labels end
            n = i;
        }
    }
    if pattern.len() < path.len() {
        return None;
    }
    Some(path.len()) // both have ended
}

// Label matching: tries the rest of a path against the pattern that remains.
#[cycle(descend_labels)]
#[tactic(auto, using(crate::proofs::Cuts::rest_says))]
fn labels(pattern: Labels<'_>, path: Labels<'_>) -> Trial
    ensures { Says (fit_labels (labels_of pattern.entry.bytes.now)) (labels_of path.entry.bytes.now) result }
{
    if pattern.is_empty() {
        if path.is_empty() {
            return Trial::Fits;
        }
        return Trial::Fails; // but a `**` before may take more labels
    }
    if begin_unlike(pattern, path) {
        return Trial::Fails;
    }
    let Some(n) = equal_labels(pattern, path) else {
        return Trial::Fails; // but a `**` before may try the next label
    };
    if n > 0 {
        return labels(pattern.from(n), path.from(n));
    }
    let (p, behind) = pattern.split_first();
    if is_deep(p) {
        return descend(behind, path);
    }
    if path.is_empty() {
        return Trial::Never;
    }
    let (s, rest) = path.split_first();
    if !label_fits(p, s) {
        return Trial::Fails; // but a `**` before may take this label and try the next
    }
    labels(behind, rest) // where this fails, a `**` before may take this label, though it fits, and try the next
}

// Does a label begin at i, and with the byte c? Most bytes are not c, so this is asked first.
fn begins_with(path: &[u8], i: usize, c: u8) -> bool
    requires { i + 1 < length path.now }
    ensures { result ≡ eqb (get_or path.now (i + 1) 0) c && eqb (get_or path.now i 0) slash }
{
    path[i + 1] == c && path[i] == SLASH
}

// The next place, from one on, at which the rest of a path may fit a pattern. Where the pattern's first label begins with a byte of its own, that
// byte begins the rest's first label. Else it is where any label begins, or the end.
fn next_begin(pattern: Labels<'_>, path: &[u8], from: usize) -> Option<usize>
    requires { from ≤ length path.now + 1 }
    ensures { Next (OffLabels (labels_of pattern.entry.bytes.now) path.now) (length path.now) from result × IfSome result (λ i. Begun (take (length path.now - i) (drop i path.now))) }
{
    let pattern = pattern.bytes;
    if path.len() < from {
        return None;
    }
    if pattern.len() < 2 || pattern[1] == STAR || pattern[1] == SLASH {
        return Some(next_slash(path, from));
    }
    (from..path.len().saturating_sub(1)).find(|i| begins_with(path, *i, pattern[1]))
}

// Tries a path against `**` and a last label, which is not `**`: it takes the path's last label, and `**` all before.
fn try_last(p: &[u8], path: &[u8]) -> Trial
    ensures { Says (after_some (first (fits_label p.now) none)) (labels_of path.now) result }
{
    let Some(a) = last_label(path) else {
        return Trial::Never; // there is no label
    };
    if label_fits(p, &path[a..]) {
        return Trial::Fits;
    }
    Trial::Never
}

// Descendant matching: tries the rest of a path against `**` and the pattern that remains. `**` takes one label more, or several, in each turn.
// No part of `labels`, which would then save more registers at each label.
#[cycle(descend_labels)]
#[inline(never)]
fn descend(pattern: Labels<'_>, path: Labels<'_>) -> Trial
    ensures { Says (after_some (fit_labels (labels_of pattern.entry.bytes.now))) (labels_of path.entry.bytes.now) result }
{
    if pattern.is_empty() { // the `**` is the last label
        return Trial::Fits; // it takes all labels that are left
    }
    if let Some(label) = pattern.single() {
        return try_last(label, path.bytes);
    }
    let mut next = next_begin(pattern, path.bytes, 0);
    while let Some(b) = next {
        match labels(pattern, path.from(b)) {
            Trial::Fits => return Trial::Fits,
            Trial::Never => return Trial::Never,
            Trial::Fails => next = next_begin(pattern, path.bytes, b + 1),
        }
    }
    Trial::Never // `**` has taken all labels
}

// Do the labels of a path fit those of a pattern? For callers that know both to be formed, or test that themselves: nothing is checked here. Of any
// bytes it answers by their labels, which begin at the first `/`. The stack goes as deep as the pattern has bytes.
#[tactic(auto, using(crate::proofs::Trials::says_is))]
pub fn fits_formed(pattern: &[u8], path: &[u8]) -> bool
    ensures { result ≡ fits_path pattern.now path.now }
{
    labels(Labels::new(pattern), Labels::new(path)).is_fit()
}
