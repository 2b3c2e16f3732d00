// Reads cases of the matcher from standard input and prints its answers. A line is a letter and one or two byte strings in
// hex, with `-` for no bytes; the answer is the letter and a number. tools/oracle/matcher.py makes the cases, and has the
// answers of a second program. A line that begins with `#` is a comment.
#![tactic(auto)]

ghost use Rattle.std.specs.Prelude.{◌≤◌, ◌<◌, length};

use console::Console;
use matcher::fit::fits;
use matcher::form::{check_path, check_pattern, path_number, pattern_number};
use matcher::reach::{Answer, reach};
use std::io;

// What stands before the first space, and what stands behind it.
fn split_word(text: &[u8]) -> (&[u8], &[u8]) {
    match text.iter().position(|b| *b == b' ') {
        Some(i) => (&text[..i], &text[i + 1..]),
        None => (text, &[]),
    }
}

// Of any byte: no `to_digit`, which takes capitals and of no other byte says anything.
fn digit(b: u8) -> u8
    ensures { result < 16 }
{
    if b >= b'a' {
        return (b - b'a' + 10) % 16;
    }
    b % 16
}

// The bytes of a text of two digits for each; one digit left over, as `-`, is no byte.
fn decode(text: &[u8], out: &mut [u8]) -> usize
    ensures { result ≤ length out.new }
{
    let (pairs, _) = text.as_chunks::<2>();
    for (byte, [high, low]) in out.iter_mut().zip(pairs) {
        *byte = digit(*high) * 16 + digit(*low);
    }
    out.len().min(pairs.len())
}

fn number(letter: u8, a: &[u8], b: &[u8]) -> u64 {
    // One `match`, the only place that asks for the letter: a table of closures would be no plainer.
    match letter {
        b'p' => path_number(check_path(a)),
        b'q' => pattern_number(check_pattern(a)),
        b'f' => u64::from(fits(a, b)),
        _ => match reach(a, b) {
            Answer::Mismatch => 0,
            Answer::Incomplete => 1,
            Answer::Match => 2,
        },
    }
}

fn answer(console: &mut Console, line: &[u8]) {
    if line.len() < 2 || line[0] == b'#' {
        return;
    }
    let letter = line[0];
    let (a, b) = split_word(&line[2..]);
    let mut first = [0u8; 512];
    let mut second = [0u8; 512];
    let n = decode(a, &mut first);
    let m = decode(b, &mut second);
    console.print(&[letter, b' ']);
    console.print_decimal(number(letter, &first[..n], &second[..m]));
    console.print(b"\n");
}

fn main(rt: HostRuntime) -> io::Result<()> {
    let mut console = Console::new(rt.stdin(), rt.stdout());
    let mut text = [0u8; 65536];
    let n = console.read_full(&mut text);
    for line in text[..n].split(|b| *b == b'\n') {
        answer(&mut console, line);
    }
    console.finish()
}
