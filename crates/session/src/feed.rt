// The input of a field log, byte by byte: a line is carried out as soon as its end is there, however the input arrives.
use crate::print::Printed;
use crate::run::Machine;
use crate::sizes::{ANSWER_SIZE, PRINT_LIMIT, STORE_SIZE};
use logline::lines::{Cut, LineCutter};
use logline::sizes::LINE_LIMIT;

// The line that is begun, and the memory on which those before it were carried out.
#[derive(Drop)]
pub struct Session<'a> {
    pub lines: LineCutter<'a>,
    pub machine: Machine<'a>,
}

impl<'a> Session<'a> {
    ghost use Rattle.std.specs.Prelude.{◌≡◌, map};
    ghost use Rattle.logline.specs.Meaning.{meaning_of};
    ghost use Rattle.logline.specs.Sizes.{line_limit};
    ghost use Rattle.logline.specs.Input.{told, counted, Within};
    ghost use Rattle.session.specs.Keeps.{RanAll, FedByte, FedEnd};
    ghost use Rattle.session.specs.Stands.{state_of, text_of, SameMemory, SameSession};

    pub fn new(
        line: &'a mut [u8; LINE_LIMIT],
        store: &'a mut [u8; STORE_SIZE],
        answer: &'a mut [u8; ANSWER_SIZE],
        out: &'a mut [u8; PRINT_LIMIT],
    ) -> Session<'a>
        ensures same_line { result.lines.bytes.ghost_name ≡ line.entry.ghost_name }
        ensures same_store { result.machine.store.ghost_name ≡ store.entry.ghost_name }
        ensures same_answer { result.machine.answer.ghost_name ≡ answer.entry.ghost_name }
        ensures same_out { result.machine.out.ghost_name ≡ out.entry.ghost_name }
        ensures begun { counted result.lines.begun.cut ≡ 0 }
        ensures store { result.machine.store.now ≡ store.old }
        ensures printed { result.machine.printed.bytes ≡ 0 }
    {
        Session {
            lines: LineCutter::new(line),
            machine: Machine::new(store, answer, out),
        }
    }

    // What the last byte, or the end of the input, printed.
    pub fn text(&self) -> &[u8]
        ensures { result.now ≡ text_of self.now }
    {
        &self.machine.out[..self.machine.printed.bytes]
    }

    // Feeds one byte.
    pub fn feed_byte(&mut self, byte: u8)
        ensures fed { FedByte byte (state_of self.old) (state_of self.new) (text_of self.new) }
        ensures same_session { SameSession self.old self.new }
    {
        let cut = self.lines.push(byte);
        self.carry_out(cut);
    }

    // The end of the input.
    pub fn feed_end(&mut self)
        ensures fed { FedEnd (state_of self.old) (text_of self.new) }
        ensures kept { self.new.lines ≡ self.old.lines }
        ensures same_session { SameSession self.old self.new }
    {
        let cut = self.lines.finish();
        self.carry_out(cut);
    }

    // Carries out the line that was cut off, if one was.
    fn carry_out(&mut self, cut: Option<Cut>)
        requires { Within cut line_limit }
        ensures ran { RanAll (map meaning_of (told cut self.old.lines.bytes.now)) self.old.machine.store.now self.new.machine.store.now self.old.machine.out.now self.new.machine.out.now self.new.machine.printed.bytes }
        ensures kept { self.new.lines ≡ self.old.lines }
        ensures same_memory { SameMemory self.old.machine self.new.machine }
    {
        let Some(cut) = cut else {
            self.machine.printed = Printed { bytes: 0 };
            return;
        };
        match cut {
            Cut::Line(n) => self.machine.run(self.lines.line(n)),
            Cut::Long => self.machine.misread(),
        }
    }
}
