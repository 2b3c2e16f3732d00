// A reader: a line, and the position from which on it is to be read. A path or pattern is all that remains, commas included. Past the end
// there is an empty line.
ghost use Rattle.std.specs.Prelude.{◌≡◌, drop};
ghost use Rattle.logline.specs.Meaning.{meaning, addition_of, search_of, setup_of, Says};
ghost use Rattle.logline.specs.Reading.{rest_of, FieldRead, NumberRead};

use crate::command::Command;
use linecut::sizes::LINE_LIMIT;
use linefields::fields::{decimal, is_only, reference};

#[derive(Clone, Copy)]
pub struct Line<'a> {
    pub bytes: &'a [u8],
    pub at: usize,
}

impl<'a> Line<'a> {
    pub fn new(bytes: &'a [u8], at: usize) -> Line<'a>
        ensures { (result.bytes ≡ bytes.entry) × (result.at ≡ at) }
    {
        Line { bytes, at }
    }

    // All that remains from the position on.
    pub fn rest(self) -> &'a [u8]
        ensures { result.now ≡ drop self.entry.at self.entry.bytes.now }
    {
        self.bytes.get(self.at..).unwrap_or(&[])
    }

    // The field up to the next comma; there is none without a comma.
    fn field(&mut self) -> Option<&'a [u8]>
        ensures { FieldRead (rest_of self.old) result (rest_of self.new) }
    {
        let rest = self.rest();
        let end = rest.iter().position(|b| *b == b',')?;
        self.at += end + 1;
        Some(&rest[..end])
    }

    // A decimal field.
    fn number(&mut self) -> Option<u64>
        ensures { NumberRead (rest_of self.old) result (rest_of self.new) }
    {
        decimal(self.field()?)
    }

    // `value,reference,path`
    fn addition(&mut self) -> Option<Command<'a>>
        ensures { Says (addition_of (rest_of self.old)) result }
    {
        let value = self.number()?;
        let reference = reference(self.field()?)?;
        Some(Command::Add {
            value,
            reference,
            path: self.rest(),
        })
    }

    // `low,high,pattern`
    fn search(&mut self) -> Option<Command<'a>>
        ensures { Says (search_of (rest_of self.old)) result }
    {
        let low = self.number()?;
        let high = self.number()?;
        Some(Command::Search {
            low,
            high,
            pattern: self.rest(),
        })
    }

    // `L,τ` behind the field of M
    fn setup(&mut self, first: &[u8]) -> Option<Command<'a>>
        ensures { Says (setup_of first.now (rest_of self.old)) result }
    {
        let m = decimal(first)?;
        let l = self.number()?;
        let tau = decimal(self.rest())?;
        Some(Command::Setup { m, l, tau })
    }

    // What the line says from the position on; None is misread.
    pub fn read(mut self) -> Option<Command<'a>>
        ensures { Says (meaning (drop self.entry.at self.entry.bytes.now)) result }
    {
        if LINE_LIMIT < self.rest().len() {
            return None;
        }
        let first = self.field()?;
        if is_only(first, b'+') {
            self.addition()
        } else if is_only(first, b'?') {
            self.search()
        } else {
            self.setup(first)
        }
    }
}

// The command of a line that begins at `at`.
pub fn read_at(line: &[u8], at: usize) -> Option<Command<'_>>
    ensures { Says (meaning (drop at line.now)) result }
{
    Line::new(line, at).read()
}

// A line without its 0A, read as a command.
pub fn parse(line: &[u8]) -> Option<Command<'_>>
    ensures { Says (meaning line.now) result }
{
    read_at(line, 0)
}

// All of a line from a position on.
pub fn rest_at(line: &[u8], at: usize) -> &[u8]
    ensures { result.now ≡ drop at line.now }
{
    Line::new(line, at).rest()
}
