// One line of a field log: read, carried out, and what is printed for it.
use crate::print::{Printed, print_misread, print_reply, print_rows};
use crate::sizes::{ANSWER_SIZE, PRINT_LIMIT, STORE_SIZE};
use logline::command::Command;
use logline::reader::parse;
use nivruska::Reply;
use rows::sizes::REFERENCE_SIZE;

// The memory on which lines are carried out. What the last one printed is the first of `out`.
#[derive(Drop)]
pub struct Machine<'a> {
    pub store: &'a mut [u8; STORE_SIZE],
    pub answer: &'a mut [u8; ANSWER_SIZE],
    pub out: &'a mut [u8; PRINT_LIMIT],
    pub printed: Printed,
}

impl<'a> Machine<'a> {
    ghost use Rattle.std.specs.Prelude.{◌≡◌};
    ghost use Rattle.logline.specs.Meaning.{setup, addition, searching, misread, meaning};
    ghost use Rattle.session.specs.Stands.{SameMemory};
    ghost use Rattle.session.specs.Keeps.{Ran};

    pub fn new(
        store: &'a mut [u8; STORE_SIZE],
        answer: &'a mut [u8; ANSWER_SIZE],
        out: &'a mut [u8; PRINT_LIMIT],
    ) -> Machine<'a>
        ensures same_store { result.store.ghost_name ≡ store.entry.ghost_name }
        ensures same_answer { result.answer.ghost_name ≡ answer.entry.ghost_name }
        ensures same_out { result.out.ghost_name ≡ out.entry.ghost_name }
        ensures store { result.store.now ≡ store.old }
        ensures printed { result.printed.bytes ≡ 0 }
    {
        Machine {
            store,
            answer,
            out,
            printed: Printed { bytes: 0 },
        }
    }

    // `M,L,τ`
    fn setup(&mut self, m: u64, l: u64, tau: u64)
        ensures ran { Ran (setup m l tau) self.old.store.now self.new.store.now self.old.out.now self.new.out.now self.new.printed.bytes }
        ensures same_memory { SameMemory self.old self.new }
    {
        let reply = Reply::from(nivruska::setup(self.store, m, l, tau));
        self.printed = print_reply(reply, self.out, 0);
    }

    // `+,value,reference,path`
    fn add(&mut self, value: u64, reference: &[u8; REFERENCE_SIZE], path: &[u8])
        ensures ran { Ran (addition value reference.now path.now) self.old.store.now self.new.store.now self.old.out.now self.new.out.now self.new.printed.bytes }
        ensures same_memory { SameMemory self.old self.new }
    {
        let reply = Reply::from(nivruska::add(self.store, path, value, reference));
        self.printed = print_reply(reply, self.out, 0);
    }

    // `?,low,high,pattern`
    fn search(&mut self, low: u64, high: u64, pattern: &[u8])
        ensures ran { Ran (searching low high pattern.now) self.old.store.now self.new.store.now self.old.out.now self.new.out.now self.new.printed.bytes }
        ensures same_memory { SameMemory self.old self.new }
    {
        // Named before they are lent: of two fields lent at once the check has no rule.
        let answer = &mut *self.answer;
        let out = &mut *self.out;
        match nivruska::search(self.store, pattern, low, high, answer) {
            Ok(found) => {
                let at = print_rows(answer, found.rows, out);
                self.printed = print_reply(Reply::from(found), out, at);
            }
            Err(refusal) => self.printed = print_reply(Reply::from(refusal), out, 0),
        }
    }

    // A line that cannot be read, or one over 512 bytes.
    pub fn misread(&mut self)
        ensures ran { Ran misread self.old.store.now self.new.store.now self.old.out.now self.new.out.now self.new.printed.bytes }
        ensures answer { self.new.answer.now ≡ self.old.answer.now }
        ensures same_memory { SameMemory self.old self.new }
    {
        self.printed = print_misread(self.out);
    }

    // A line without its 0A.
    pub fn run(&mut self, line: &[u8])
        ensures ran { Ran (meaning line.now) self.old.store.now self.new.store.now self.old.out.now self.new.out.now self.new.printed.bytes }
        ensures same_memory { SameMemory self.old self.new }
    {
        match parse(line) {
            Some(Command::Setup { m, l, tau }) => self.setup(m, l, tau),
            Some(
                Command::Add {
                    value,
                    reference,
                    path,
                },
            ) => self.add(value, &reference, path),
            Some(Command::Search { low, high, pattern }) => self.search(low, high, pattern),
            None => self.misread(),
        }
    }
}
