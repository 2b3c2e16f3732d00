// Runs commands of 16 bytes from standard input on 64 bytes, and prints the 64 bytes in hex after each.
// A command: kind, three small numbers, 4 bytes not used, 8 bytes of data. The cases and what they print come from tools/oracle/buffer.py.
#![tactic(auto)]

use buffer::moves::{clear, copy_from, move_within};
use buffer::numbers::{get32, get64, put32, put64};
use console::Console;
use std::io;

const SIZE: usize = 64;

fn copy(s: &mut [u8; 64], at: usize, src: &[u8]) {
    if src.len() <= SIZE && at <= SIZE - src.len() {
        copy_from(s, at, src);
    }
}

fn shift(s: &mut [u8; 64], from: usize, to: usize, n: usize) {
    if n <= SIZE && from.max(to) <= SIZE - n {
        move_within(s, from, to, n);
    }
}

fn zero(s: &mut [u8; 64], at: usize, n: usize) {
    if n <= SIZE && at <= SIZE - n {
        clear(s, at, n);
    }
}

fn print_number(console: &mut Console, x: u64) {
    console.print_decimal(x);
    console.print(b"\n");
}

fn run(console: &mut Console, s: &mut [u8; 64], command: &[u8; 16]) {
    let a = usize::from(command[1]);
    let b = usize::from(command[2]);
    let n = usize::from(command[3]);
    // One `match`, the only place that reads the number: a table of closures would be no plainer.
    match command[0] {
        0 => copy(s, a, &command[8..]),
        1 => shift(s, a, b, n),
        2 => zero(s, a, b),
        // Writes the number in 4 bytes, or in 8, and prints the number that then stands one byte before.
        3 => {
            if 1 <= a && a <= SIZE - 4 {
                put32(s, a, get32(command, 8));
                print_number(console, u64::from(get32(s, a - 1)));
            }
        }
        _ => {
            if 1 <= a && a <= SIZE - 8 {
                put64(s, a, get64(command, 8));
                print_number(console, get64(s, a - 1));
            }
        }
    }
}

fn print(console: &mut Console, s: &[u8; 64]) {
    console.print_hex(s);
    console.print(b"\n");
}

fn main(rt: HostRuntime) -> io::Result<()> {
    let mut console = Console::new(rt.stdin(), rt.stdout());
    let mut input = [0u8; 65536];
    let n = console.read_full(&mut input);
    let (commands, _) = input[..n].as_chunks::<16>();
    let mut s = [0u8; SIZE];
    for command in commands {
        run(&mut console, &mut s, command);
        print(&mut console, &s);
    }
    console.finish()
}
