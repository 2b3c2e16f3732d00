// Spelling of replies and rows into a lent buffer. `write!` is not for it: no contract says that it succeeds where there is room. The kit's crates
// itoa and hex have such contracts (`write_digits`, `encode_to_slice`), but the repository stands on std alone (README: no dependency).
ghost use Rattle.std.specs.Prelude.{◌≡◌, [], ◌∷◌, ◌+◌, ◌*◌, ◌≤◌, ◌<◌, length, get_or};
ghost use Rattle.buffer.specs.Splice.{region};
ghost use Rattle.linespell.specs.Sizes.{path_limit, length_at, path_at, row_size, reply_limit, row_line_limit};
ghost use Rattle.linespell.specs.Spelling.{decimal, glyph, hex, reply, row_line, Wrote};
ghost use Rattle.linespell.specs.Put.{Put};

use rows::sizes::{LENGTH_AT, PATH_AT, PATH_LIMIT, REFERENCE_AT};

// A line that is being written: what comes next stands in `out` from `at` on.
#[derive(Drop)]
struct Line<'a> {
    out: &'a mut [u8],
    at: usize,
}

impl Line<'_> {
    fn put_byte(&mut self, b: u8)
        requires { self.old.at < length self.old.out.now }
        ensures { Put self.old (b ∷ []) self.new }
    {
        self.out[self.at] = b;
        self.at += 1;
    }

    // Higher digits first: they are written by the call before the last digit is.
    fn put_decimal(&mut self, n: u64)
        requires { self.old.at + length (decimal n) ≤ length self.old.out.now }
        ensures { Put self.old (decimal n) self.new }
    {
        if n < 10 {
            return self.put_byte(b'0' + n as u8);
        }
        self.put_decimal(n / 10);
        self.put_byte(b'0' + (n % 10) as u8);
    }

    fn put_hex(&mut self, s: &[u8])
        requires { self.old.at + 2 * length s.now ≤ length self.old.out.now }
        ensures { Put self.old (hex s.now) self.new }
    {
        for b in s {
            self.put_byte(glyph(b / 16));
            self.put_byte(glyph(b % 16));
        }
    }

    fn put_bytes(&mut self, s: &[u8])
        requires { self.old.at + length s.now ≤ length self.old.out.now }
        ensures { Put self.old s.now self.new }
    {
        buffer::moves::copy_from(self.out, self.at, s);
        self.at += s.len();
    }
}

// Not by `char::from_digit`, whose Option of a char would be opened and made a byte.
#[tactic(auto, unfolding(crate::specs::Spelling::glyph))]
fn glyph(d: u8) -> u8
    requires { d < 16 }
    ensures { result ≡ glyph d }
{
    if d < 10 { b'0' + d } else { b'a' + (d - 10) }
}

// Writes the reply to a line; `reply_limit` bytes are enough for any three numbers.
#[tactic(auto, using(crate::proofs::Decimals::length_decimal))]
pub fn spell_reply(out: &mut [u8], at: usize, number: u64, first: u64, second: u64) -> usize
    requires { at + reply_limit ≤ length out.old }
    ensures { Wrote out.old at (reply number first second) out.new result }
{
    let mut line = Line { out, at };
    line.put_bytes(b"=,");
    line.put_decimal(number);
    line.put_byte(b',');
    line.put_decimal(first);
    line.put_byte(b',');
    line.put_decimal(second);
    line.put_byte(b'\n');
    line.at
}

// The path of a row; a row that no search wrote may say more than the 200 bytes there are.
fn path_of(row: &[u8]) -> &[u8]
    requires { length row.now ≡ row_size }
    ensures { (length result.now ≤ path_limit) × (result.now ≡ region row.now path_at (get_or row.now length_at 0)) }
{
    let length = usize::from(row[LENGTH_AT]).min(PATH_LIMIT);
    &row[PATH_AT..PATH_AT + length]
}

// Writes a row; `row_line_limit` bytes are enough for any.
#[tactic(auto, using(crate::proofs::Decimals::length_decimal, crate::proofs::Writing::length_reference))]
pub fn spell_row(out: &mut [u8], at: usize, row: &[u8]) -> usize
    requires { (at + row_line_limit ≤ length out.old) × (length row.now ≡ row_size) }
    ensures { Wrote out.old at (row_line row.now) out.new result }
{
    let value = buffer::numbers::get64(row, 0);
    let path = path_of(row);
    let mut line = Line { out, at };
    line.put_bytes(b"-,");
    line.put_decimal(value);
    line.put_byte(b',');
    line.put_hex(&row[REFERENCE_AT..LENGTH_AT]);
    line.put_byte(b',');
    line.put_bytes(path);
    line.put_byte(b'\n');
    line.at
}
