// The fields of a line: numbers, references. Each function answers for a whole field.
ghost use Rattle.std.specs.Prelude.{◌≡◌, ◌+◌, ◌*◌, Some, None, cond};
ghost use Rattle.linefields.specs.Sizes.{reference_digits};
ghost use Rattle.linefields.specs.Fields.{only, number_from, plain, number_of, hex_digit, hex_value, is_reference, unhex};

use crate::sizes::REFERENCE_DIGITS;
use buffer::sizes::REFERENCE_SIZE;

// Is a field the one byte `b`?
#[tactic(auto, using(crate::proofs::Scan::only_is))]
pub fn is_only(f: &[u8], b: u8) -> bool
    ensures { result ≡ only b f.now }
{
    f == [b].as_slice()
}

// The number that digits spell. Not by std's `parse`: that takes a `+` before them.
fn digits(s: &[u8]) -> Option<u64>
    ensures { result ≡ number_from 0 s.now }
{
    let mut n: u64 = 0;
    for b in s {
        if !b.is_ascii_digit() {
            return None;
        }
        n = n.checked_mul(10)?.checked_add(u64::from(*b - b'0'))?;
    }
    Some(n)
}

// Not empty, and no leading zero?
#[tactic(auto, using(crate::proofs::Scan::plain_is, std::proofs::lemmas::Bool::Decides::nat_tests))]
fn is_plain(s: &[u8]) -> bool
    ensures { result ≡ plain s.now }
{
    match s {
        [] | [b'0', _, ..] => false,
        _ => true,
    }
}

// The number of a field. By hand as `digits` is: std's `parse` takes leading zeros too.
#[tactic(auto, unfolding(crate::specs::Fields::number_of))]
pub fn decimal(s: &[u8]) -> Option<u64>
    ensures { result ≡ number_of s.now }
{
    if is_plain(s) { digits(s) } else { None }
}

// What a hex digit is worth. Not by std's `to_digit`: that takes capital letters too.
#[tactic(auto, unfolding(crate::specs::Fields::hex_digit, crate::specs::Fields::hex_value))]
fn hex_value(b: u8) -> Option<u8>
    ensures { result ≡ cond (hex_digit b) (Some (hex_value b)) None }
{
    match b {
        b'0'..=b'9' => Some(b - b'0'),
        b'a'..=b'f' => Some(b - b'a' + 10),
        _ => None,
    }
}

// Is a field a reference?
pub fn is_reference(s: &[u8]) -> bool
    ensures { result ≡ is_reference s.now }
{
    s.len() == REFERENCE_DIGITS && s.iter().all(|b| hex_value(*b).is_some())
}

// The byte that two hex digits spell; what is no hex digit counts as 0.
fn hex_byte(high: u8, low: u8) -> u8
    ensures { result ≡ hex_value high * 16 + hex_value low }
{
    hex_value(high).unwrap_or(0) * 16 + hex_value(low).unwrap_or(0)
}

// The 20 bytes that 40 hex digits spell; what is no hex digit counts as 0. `reference`, which tells, stands beside it.
pub fn unhex(digits: &[u8; REFERENCE_DIGITS]) -> [u8; REFERENCE_SIZE]
    ensures { result ≡ unhex digits.now }
{
    std::array::from_fn(|i| hex_byte(digits[2 * i], digits[2 * i + 1]))
}

// The reference that a field spells.
pub fn reference(s: &[u8]) -> Option<[u8; REFERENCE_SIZE]>
    ensures { result ≡ cond (is_reference s.now) (Some (unhex s.now)) None }
{
    let digits = s.first_chunk::<REFERENCE_DIGITS>()?;
    if !is_reference(s) {
        return None;
    }
    Some(unhex(digits))
}
