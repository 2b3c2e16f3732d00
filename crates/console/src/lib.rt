// Standard input and output of the programs. A read that failed is the end of the input, after a write that failed nothing more is written, and
// `finish` returns the failure for `main` to return.
#![tactic(auto)]

ghost use Rattle.std.specs.Prelude.{◌≤◌, length};

use linespell::sizes::{REPLY_LIMIT, ROW_LINE_LIMIT};
use linespell::spell::{spell_reply, spell_row};
use rows::sizes::ROW_SIZE;
use std::io;
use std::io::{Read, Stdin, Stdout, Write};

#[derive(Drop)]
pub struct Console {
    input: Stdin,
    output: Stdout,
    reads: io::Result<()>,
    writes: io::Result<()>,
}

impl Console {
    pub fn new(input: Stdin, output: Stdout) -> Console {
        Console {
            input,
            output,
            reads: Ok(()),
            writes: Ok(()),
        }
    }

    // Writes all the bytes.
    pub fn print(&mut self, bytes: &[u8]) {
        if self.writes.is_ok() {
            self.writes = self.output.write_all(bytes);
        }
    }

    pub fn print_decimal(&mut self, n: u64) {
        if self.writes.is_ok() {
            self.writes = write!(self.output, "{n}");
        }
    }

    // Two hex digits a byte.
    pub fn print_hex(&mut self, bytes: &[u8]) {
        for b in bytes {
            if self.writes.is_ok() {
                self.writes = write!(self.output, "{b:02x}");
            }
        }
    }

    // A line of three numbers, as `fieldlog` spells a reply.
    pub fn print_reply(&mut self, number: u64, first: u64, second: u64) {
        let mut text = [0u8; REPLY_LIMIT];
        let n = spell_reply(&mut text, 0, number, first, second);
        self.print(&text[..n]);
    }

    // The line of a row, as `fieldlog` spells it.
    pub fn print_row(&mut self, row: &[u8; ROW_SIZE]) {
        let mut text = [0u8; ROW_LINE_LIMIT];
        let n = spell_row(&mut text, 0, row);
        self.print(&text[..n]);
    }

    // One read; 0 at the end of the input.
    pub fn read(&mut self, buf: &mut [u8]) -> usize
        ensures { result ≤ length buf.new }
    {
        if self.reads.is_err() {
            return 0;
        }
        match self.input.read(buf) {
            Ok(n) => n,
            Err(e) => {
                self.reads = Err(e);
                0
            }
        }
    }

    // Reads until the buffer is full or the input ends.
    pub fn read_full(&mut self, buf: &mut [u8]) -> usize
        ensures { result ≤ length buf.new }
    {
        let mut done: usize = 0;
        // No `for`: a turn goes on by what a read gave.
        while done < buf.len() {
            let n = self.read(&mut buf[done..]);
            if n == 0 {
                return done;
            }
            done += n;
        }
        done
    }

    pub fn finish(self) -> io::Result<()> {
        self.writes?;
        self.reads
    }
}
