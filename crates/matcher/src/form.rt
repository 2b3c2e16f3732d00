// Is a path, is a pattern formed? Lengths are tested first, so the other tests see at most 200 bytes.
ghost use Rattle.std.specs.Prelude.{◌≡◌};
ghost use Rattle.buffer.specs.Lists.{all};
ghost use Rattle.matcher.specs.Labels.{labels_of};
ghost use Rattle.matcher.specs.Form.{pattern_label, formed_path, formed_pattern, path_form, pattern_form, path_number, pattern_number};
ghost use Rattle.matcher.specs.Reach.{begins_path};

use crate::bytes::{PATH_LIMIT, PATTERN_LABEL_LIMIT, SLASH, STAR};
use crate::runs::are_apart;
use glob::labels::Labels;
use glob::split::{is_deep, label_count};
use std::error::Error;
use std::fmt;

// Why a path or a pattern is turned down. `TooLong`: over 200 bytes, or a pattern with over 32 `/`.
#[derive(Clone, Copy, PartialEq, Eq, Debug)]
pub enum FormError {
    TooLong,
    Malformed,
}

impl fmt::Display for FormError {
    fn fmt<W: fmt::Write>(&self, f: &mut fmt::Formatter<W>) -> fmt::Result {
        f.write_str(match self {
            FormError::TooLong => "it is over 200 bytes, or a pattern over 32 labels",
            FormError::Malformed => "it is not well formed",
        })
    }
}

impl Error for FormError {}

// The number of document 01 for a path, and for a pattern, of this form: 0 where it is fine. Two tables that share no number are plainer than one with a
// parameter.
pub fn path_number(form: Result<(), FormError>) -> u64
    ensures { result ≡ path_number form }
{
    match form {
        Ok(()) => 0,
        Err(FormError::TooLong) => 2,
        Err(FormError::Malformed) => 1,
    }
}

pub fn pattern_number(form: Result<(), FormError>) -> u64
    ensures { result ≡ pattern_number form }
{
    match form {
        Ok(()) => 0,
        Err(FormError::TooLong) => 8,
        Err(FormError::Malformed) => 7,
    }
}

// Do these bytes begin a path?
#[tactic(auto, unfolding(crate::specs::Bytes::label_byte))]
pub(crate) fn begins_path(known: &[u8]) -> bool
    ensures { result ≡ begins_path known.now }
{
    known.is_empty() || known[0] == SLASH && are_apart(known, SLASH)
}

// Is this a path, of any length? One that ends with `/` has an empty label.
#[tactic(auto, using(crate::proofs::Apart::ends_slash, crate::proofs::Apart::ends_label))]
pub(crate) fn is_path(path: &[u8]) -> bool
    ensures { result ≡ formed_path path.now }
{
    match path.last() {
        None => false,
        Some(&SLASH) => false,
        Some(_) => begins_path(path),
    }
}

// The form of a path: length first, then its labels.
#[tactic(auto, unfolding(crate::specs::Form::path_form))]
pub fn check_path(path: &[u8]) -> Result<(), FormError>
    ensures { result ≡ path_form path.now }
{
    if PATH_LIMIT < path.len() {
        return Err(FormError::TooLong);
    }
    if is_path(path) {
        return Ok(());
    }
    Err(FormError::Malformed)
}

// Is a label of a pattern formed?
#[tactic(auto, unfolding(crate::specs::Bytes::label_byte))]
fn is_pattern_label(l: &[u8]) -> bool
    ensures { result ≡ pattern_label l.now }
{
    !l.is_empty() && (is_deep(l) || are_apart(l, STAR))
}

// Is each label of a pattern formed?
fn are_pattern_labels(pattern: &[u8]) -> bool
    ensures { result ≡ all pattern_label (labels_of pattern.now) }
{
    Labels::new(pattern).all(is_pattern_label)
}

// Is this a pattern, of any length?
fn is_pattern(pattern: &[u8]) -> bool
    ensures { result ≡ formed_pattern pattern.now }
{
    pattern.first() == Some(&SLASH) && are_pattern_labels(pattern)
}

// The form of a pattern: too long, or of too many labels, comes before malformed. A label takes its `/` and at least one byte, so a formed pattern of few
// bytes is not counted.
#[tactic(auto, unfolding(crate::specs::Form::pattern_form), using(crate::proofs::Forms::pattern_long))]
pub fn check_pattern(pattern: &[u8]) -> Result<(), FormError>
    ensures { result ≡ pattern_form pattern.now }
{
    if PATH_LIMIT < pattern.len() {
        return Err(FormError::TooLong);
    }
    let formed = is_pattern(pattern);
    if formed && pattern.len() / 2 <= PATTERN_LABEL_LIMIT {
        return Ok(());
    }
    if PATTERN_LABEL_LIMIT < label_count(pattern) {
        return Err(FormError::TooLong);
    }
    if formed {
        return Ok(()); // of many bytes
    }
    Err(FormError::Malformed)
}
