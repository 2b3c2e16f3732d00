// Cuts input into lines, byte by byte, so it does not matter how the input arrives. Of a line over 512 bytes only the fact is kept.
ghost use Rattle.std.specs.Prelude.{◌≡◌, ◌≤◌, List, ℕ, length, take};
ghost use Rattle.linecut.specs.Sizes.{line_limit};
ghost use Rattle.linecut.specs.Input.{Holds, Fed, told, on_end, event_of, counted, PushedAs, finished_event};

use crate::sizes::LINE_LIMIT;
use buffer::moves::copy_from;

// A line that was cut off. No Option or Result: both cases say something, and neither is a failure of the cutter.
#[derive(Clone, Copy, PartialEq, Eq, Debug)]
pub enum Cut {
    // Its bytes are the first of the cutter's.
    Line(usize),
    // It has over 512 bytes.
    Long,
}

// The line that is begun: what it is cut off as if it ends here. A field of its own, since a ghost field cannot stand beside a `&mut`.
#[derive(Clone, Copy)]
pub struct Begun {
    pub cut: Cut,
    ghost within: { cut ≡ event_of (counted cut) },
}

impl Begun {
    // The end of the input: the last line, where its 0A is missing. The bytes are not needed for it.
    pub fn finish(self) -> Option<Cut>
        ensures by_index { (buf begun : List ℕ) → Holds (counted self.cut) buf begun → told result buf ≡ on_end begun }
        ensures value { result ≡ finished_event (counted self.cut) }
    {
        let Cut::Line(len) = self.cut else {
            return Some(Cut::Long);
        };
        if len == 0 {
            return None;
        }
        Some(Cut::Line(len))
    }
}

// The line that is begun, and the memory that holds its bytes.
#[derive(Drop)]
pub struct LineCutter<'a> {
    pub begun: Begun,
    pub bytes: &'a mut [u8; LINE_LIMIT],
}

impl<'a> LineCutter<'a> {
    #[tactic(auto, unfolding(crate::specs::Input::event_of))]
    pub fn new(bytes: &'a mut [u8; LINE_LIMIT]) -> LineCutter<'a>
        ensures same_reference { result.bytes.ghost_name ≡ bytes.entry.ghost_name }
        ensures bytes { result.bytes.now ≡ bytes.old }
        ensures begun { counted result.begun.cut ≡ 0 }
    {
        LineCutter {
            begun: Begun { cut: Cut::Line(0) },
            bytes,
        }
    }

    // Feeds one byte. After a cut no line is begun, and the bytes of the line are still there until the next byte is fed.
    pub fn push(&mut self, byte: u8) -> Option<Cut>
        ensures by_index { (begun : List ℕ) → Holds (counted self.old.begun.cut) self.old.bytes.now begun → Fed begun byte result (counted self.new.begun.cut) self.new.bytes.now }
        ensures pushed_as { PushedAs (counted self.old.begun.cut) self.old.bytes.now byte result (counted self.new.begun.cut) self.new.bytes.now }
        ensures same_reference { self.new.bytes.ghost_name ≡ self.old.bytes.ghost_name }
    {
        let cut = self.begun.cut;
        if byte == b'\n' {
            self.begun = Begun { cut: Cut::Line(0) };
            return Some(cut);
        }
        // A line that is too long stays so.
        let Cut::Line(len) = cut else {
            return None;
        };
        if len < LINE_LIMIT {
            // Not by an index: of an array that a field lends, a proof then knows no length.
            copy_from(self.bytes, len, &[byte]);
            self.begun = Begun {
                cut: Cut::Line(len + 1),
            };
        } else {
            self.begun = Begun { cut: Cut::Long };
        }
        None
    }

    // The end of the input, as `Begun::finish`.
    pub fn finish(&self) -> Option<Cut>
        ensures by_index { (buf begun : List ℕ) → Holds (counted self.now.begun.cut) buf begun → told result buf ≡ on_end begun }
        ensures value { result ≡ finished_event (counted self.now.begun.cut) }
    {
        self.begun.finish()
    }

    // The bytes of a line that was cut off.
    pub fn line(&self, len: usize) -> &[u8]
        requires { len ≤ line_limit }
        ensures { result.now ≡ take len self.now.bytes.now }
    {
        &self.bytes[..len]
    }
}
