// Why a call is refused.
ghost use Rattle.std.specs.Prelude.{◌≡◌, Ok, Err};
ghost use Rattle.matcher.specs.declared.form.FormError.TheVariants.{TooLong, Malformed};

use matcher::form::FormError;
use std::error::Error;
use std::fmt;

// Document 01's reasons.
#[derive(Clone, Copy, PartialEq, Eq, Debug)]
pub enum Refusal {
    PathMalformed,
    PathTooLong,
    ReferenceSize,
    NoStore,
    OutsideLimits,
    TooLittleMemory,
    PatternMalformed,
    PatternTooLong,
    Full,
    EmptyRange,

    // The rows, or the records of a level read back, have no room: how many they are.
    NoRoom(usize),
}

impl Refusal {
    ghost use Rattle.store.specs.Said.{refused};

    // Its number in document 01.
    pub fn number(self) -> u32
        ensures { result ≡ (refused self).number }
    {
        match self {
            Refusal::PathMalformed => 1,
            Refusal::PathTooLong => 2,
            Refusal::ReferenceSize => 3,
            Refusal::NoStore => 4,
            Refusal::OutsideLimits => 5,
            Refusal::TooLittleMemory => 6,
            Refusal::PatternMalformed => 7,
            Refusal::PatternTooLong => 8,
            Refusal::Full => 9,
            Refusal::EmptyRange => 10,
            Refusal::NoRoom(_) => 11,
        }
    }

    // The value beside it, as a reply has one with each number: the count of rows that have no room, else 0.
    pub fn value(self) -> usize
        ensures { result ≡ (refused self).first }
    {
        match self {
            Refusal::NoRoom(rows) => rows,
            _ => 0,
        }
    }
}

impl fmt::Display for Refusal {
    fn fmt<W: fmt::Write>(&self, f: &mut fmt::Formatter<W>) -> fmt::Result {
        f.write_str(match self {
            Refusal::PathMalformed => "the path is not well formed",
            Refusal::PathTooLong => "the path is over 200 bytes",
            Refusal::ReferenceSize => "the reference has not 20 bytes",
            Refusal::NoStore => "no store stands in the memory lent",
            Refusal::OutsideLimits => "M, L or τ is outside its limits",
            Refusal::TooLittleMemory => "the memory lent is shorter than needed",
            Refusal::PatternMalformed => "the pattern is not well formed",
            Refusal::PatternTooLong => "the pattern is over 200 bytes or 32 labels",
            Refusal::Full => "the store is full",
            Refusal::EmptyRange => "the low value is above the high one",
            Refusal::NoRoom(_) => "the rows have no room in the answer buffer",
        })
    }
}

impl Error for Refusal {}

// Refuses a path or a pattern that is not formed, by the one or the other of its two reasons.
pub fn refuse_unformed(
    form: Result<(), FormError>,
    too_long: Refusal,
    malformed: Refusal,
) -> Result<(), Refusal>
    ensures fine { form ≡ Ok tt → result ≡ Ok tt }
    ensures long { form ≡ Err TooLong → result ≡ Err too_long }
    ensures bad { form ≡ Err Malformed → result ≡ Err malformed }
{
    match form {
        Ok(()) => Ok(()),
        Err(FormError::TooLong) => Err(too_long),
        Err(FormError::Malformed) => Err(malformed),
    }
}
