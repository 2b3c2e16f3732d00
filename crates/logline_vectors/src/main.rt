// Cuts standard input into lines, read in chunks of 61 bytes, and prints what each line was read as, spelled as replies and rows are.
// The input and what must be printed for it come from tools/oracle/logline.py.
#![tactic(auto)]

ghost use Rattle.std.specs.Prelude.{◌≡◌, ◌≤◌};

use buffer::moves::copy_from;
use buffer::numbers::put64;
use console::Console;
use logline::command::Command;
use logline::lines::{Cut, LineCutter};
use logline::reader::parse;
use logline::sizes::LINE_LIMIT;
use rows::sizes::{LENGTH_AT, PATH_AT, PATH_LIMIT, REFERENCE_AT, REFERENCE_SIZE, ROW_SIZE};
use std::io;

const CHUNKS: usize = 4096;

// `-,value,reference,path` by way of a row
fn print_row(console: &mut Console, value: u64, reference: &[u8; REFERENCE_SIZE], path: &[u8]) {
    if PATH_LIMIT < path.len() {
        console.print(b"path over 200\n");
        return;
    }
    let mut row = [0u8; ROW_SIZE];
    put64(&mut row, 0, value);
    copy_from(&mut row, REFERENCE_AT, reference);
    row[LENGTH_AT] = path.len() as u8;
    copy_from(&mut row, PATH_AT, path);
    console.print_row(&row);
}

fn print_line(console: &mut Console, line: &[u8]) {
    match parse(line) {
        Some(Command::Setup { m, l, tau }) => {
            console.print(b"setup ");
            console.print_reply(m, l, tau);
        }
        Some(
            Command::Add {
                value,
                reference,
                path,
            },
        ) => {
            console.print(b"add ");
            print_row(console, value, &reference, path);
        }
        Some(Command::Search { low, high, pattern }) => {
            console.print(b"search ");
            console.print_reply(low, high, pattern.len() as u64);
            console.print(pattern);
            console.print(b"\n");
        }
        None => console.print(b"misread\n"),
    }
}

// Prints what was cut off, if anything was.
fn print_cut(console: &mut Console, lines: &LineCutter<'_>, cut: Option<Cut>) {
    match cut {
        Some(Cut::Line(n)) => {
            if n <= LINE_LIMIT {
                print_line(console, lines.line(n));
            }
        }
        Some(Cut::Long) => console.print(b"long\n"),
        None => {}
    }
}

fn feed_chunk(console: &mut Console, lines: &mut LineCutter<'_>, chunk: &[u8]) {
    for byte in chunk {
        let cut = lines.push(*byte);
        print_cut(console, lines, cut);
    }
}

fn main(rt: HostRuntime) -> io::Result<()> {
    let mut console = Console::new(rt.stdin(), rt.stdout());
    let mut line = [0u8; LINE_LIMIT];
    let mut lines = LineCutter::new(&mut line);
    print_cut(&mut console, &lines, lines.finish());
    console.print(b"begin\n");
    let mut chunk = [0u8; 61];
    for _ in 0..CHUNKS {
        let n = console.read_full(&mut chunk);
        feed_chunk(&mut console, &mut lines, &chunk[..n]);
    }
    print_cut(&mut console, &lines, lines.finish());
    console.finish()
}
