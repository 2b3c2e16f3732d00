// Can the first bytes of a path be continued to one that matches a pattern?
ghost use Rattle.std.specs.Prelude.{◌≡◌, true, ℕ, List};
ghost use Rattle.matcher.specs.Form.{pattern_form, is_fine};
ghost use Rattle.matcher.specs.Continued.{FirstBytes};
ghost use Rattle.matcher.specs.Reach.{is_first, reach_labels, reach_of, LiteralPrefix, Reached, RuledOut, OneLeads};

use crate::bytes::END;
use crate::form::{begins_path, check_pattern, is_path};
use glob::begin::begins_formed;
use glob::fit::fits_formed;
use glob_prefix::prefix::differs;

// How many bytes of a pattern does every path that fits it begin with?
pub use glob_prefix::prefix::literal_prefix;

// What the bytes known of a path say of a pattern.
#[derive(Clone, Copy, PartialEq, Eq, Debug)]
pub enum Answer {
    Match,
    Mismatch,
    Incomplete,
}

// Do the bytes known begin a path, or are they a path and its end byte?
fn is_first(known: &[u8]) -> bool
    ensures { result ≡ is_first known.now }
{
    if let Some((&END, path)) = known.split_last() {
        return is_path(path);
    }
    begins_path(known)
}

// The answer by labels alone: of a formed pattern and the first bytes of a path it is the answer of `reach`.
fn reach_labels(pattern: &[u8], known: &[u8]) -> Answer
    ensures { result ≡ reach_labels pattern.now known.now }
{
    if let Some((&END, path)) = known.split_last() {
        if fits_formed(pattern, path) {
            return Answer::Match;
        }
        return Answer::Mismatch; // it does not fit
    }
    if begins_formed(pattern, known) {
        return Answer::Incomplete;
    }
    Answer::Mismatch // however it goes on
}

// The answer for a search, which checks its pattern once and asks of the first bytes of paths: their form is not looked at again. `literal` bytes of the
// pattern are such that every path that fits begins with them: bytes that are no more are only compared with these. The pattern and its literal bytes are no
// struct here, as they are in search's Query: the clause asks for nothing, and answers where `LiteralPrefix` holds.
pub fn reach_from(pattern: &[u8], literal: usize, known: &[u8]) -> Answer
    ensures { is_fine (pattern_form pattern.now) ≡ true → LiteralPrefix pattern.now literal → FirstBytes known.now → result ≡ reach_of pattern.now known.now }
{
    if known.len() <= literal && literal <= pattern.len() {
        if differs(&pattern[..literal], known) {
            return Answer::Mismatch; // no path that fits begins so
        }
        return Answer::Incomplete; // any does
    }
    reach_labels(pattern, known)
}

// Can a path whose first bytes, the end byte possibly among them, are `known` match the pattern? A pattern that is not
// formed, and bytes that begin no path, are a mismatch.
#[tactic(auto, unfolding(crate::specs::Reach::reach_of), using(crate::proofs::Decided::reached))]
pub fn reach(pattern: &[u8], known: &[u8]) -> Answer
    ensures { Reached pattern.now known.now result }
{
    if check_pattern(pattern).is_err() {
        return Answer::Mismatch; // it is no pattern
    }
    if is_first(known) {
        return reach_labels(pattern, known);
    }
    Answer::Mismatch // no path begins so
}

// Are the bytes s, behind p bytes of a path, a mismatch whatever those are? `literal` bytes of the pattern are such that every path that fits begins with
// them. A test for a search, cheaper than `reach_from`, that tells most paths apart: where it says no, nothing is known.
pub fn ruled_out(pattern: &[u8], literal: usize, p: usize, s: &[u8]) -> bool
    ensures { RuledOut pattern.now literal p s.now result }
{
    if literal <= p || pattern.len() < literal {
        return false; // the pattern may be wild there
    }
    differs(&pattern[p..literal], s)
}

// Does at most one byte lead on from p bytes of a path? The pattern's, as long as every path that fits has it there; where it says no, nothing is known.
#[tactic(auto, using(crate::proofs::Ruled::leads_alone))]
pub fn one_leads(literal: usize, p: usize) -> bool
    ensures { (pattern : List ℕ) → OneLeads pattern literal p result }
{
    p < literal
}
