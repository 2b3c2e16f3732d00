// Adds entries to small tries and prints the tries node by node, read back from their bytes. tools/oracle/tries.py makes the input and has
// what a second program draws for it. The lines:
//
//   +,value,reference,path      the entry is added
//   ?+,value,reference,path     is the entry there? 1 or 0
//   (an empty line)             the trie is drawn, and the next one begins
//   #..                         printed as it is
//
// A node's line has its kind, its value string in hex and its path string; the suffixes of a leaf, with their references, stand below it.
#![tactic(auto)]

ghost use Rattle.std.specs.Prelude.{◌+◌, ◌≤◌, ◌<◌, length};
ghost use Rattle.buffer.specs.Sizes.{four_byte_limit};
ghost use Rattle.trie_vectors.specs.declared.TheConstants.{REGION_SIZE};

use console::Console;
use logline::command::Command;
use rows::sizes::{ENDED_LIMIT, NODE_LIMIT, PATH_LIMIT, REFERENCE_SIZE, VALUE_SIZE};
use std::io;
use trie_add::add::{GROWTH_SIZE, add};
use trie_read::head::{Malformed, Node, read_head};
use trie_read::kind::{Dimension, Kind};
use trie_read::suffix::Suffix;
use trie_read::suffixes::read_suffix;
use trie_write::key::Key;

const INPUT_SIZE: usize = 262144;

const REGION_SIZE: usize = 65536;

fn is_plain(b: u8) -> bool {
    b > b' ' && b < 127 && b != b'"' && b != b'%'
}

// A byte of a path; `%` and two digits for one that would not be read as it stands.
fn print_byte(console: &mut Console, b: u8) {
    if is_plain(b) {
        console.print(&[b]);
        return;
    }
    console.print(b"%");
    console.print_hex(&[b]);
}

fn print_path(console: &mut Console, s: &[u8]) {
    console.print(b" \"");
    for b in s {
        print_byte(console, *b);
    }
    console.print(b"\"");
}

fn print_indent(console: &mut Console, n: usize) {
    for _ in 0..n {
        console.print(b"  ");
    }
}

fn print_kind(console: &mut Console, kind: Kind) {
    match kind {
        Kind::Leaf => console.print(b"leaf "),
        Kind::Inner(Dimension::Value) => console.print(b"V "),
        Kind::Inner(Dimension::Path) => console.print(b"P "),
        Kind::Inner(Dimension::Other(_)) => console.print(b"unknown "),
    }
}

fn print_node(console: &mut Console, node: &Node<'_>, indent: usize) {
    print_indent(console, indent);
    print_kind(console, node.kind());
    console.print_hex(node.value);
    print_path(console, node.path);
    console.print(b"\n");
}

fn print_suffix(console: &mut Console, suffix: &Suffix<'_>, indent: usize) {
    print_indent(console, indent);
    console.print(b"- ");
    console.print_hex(suffix.value);
    print_path(console, suffix.path);
    console.print(b" ");
    console.print_hex(suffix.reference);
    console.print(b"\n");
}

// By `read_suffix`, not over Suffixes: these end where no suffix begins, and here that is said.
fn print_suffixes(console: &mut Console, body: &[u8], indent: usize) -> Result<(), Malformed> {
    let mut b = body;
    while let Some(suffix) = read_suffix(b)? {
        print_suffix(console, &suffix, indent);
        b = suffix.rest;
    }
    Ok(())
}

fn draw_suffixes(console: &mut Console, body: &[u8], indent: usize) {
    if print_suffixes(console, body, indent).is_err() {
        console.print(b"no suffix\n");
    }
}

// Draws tries side by side: the first, what stands below it, and the others.
fn draw(console: &mut Console, t: &[u8], indent: usize)
    requires { indent + length t.now < four_byte_limit }
{
    let Ok(first) = read_head(t) else {
        console.print(b"no node\n");
        return;
    };
    let Some(node) = first else {
        return;
    };
    print_node(console, &node, indent);
    match node.kind() {
        Kind::Leaf => draw_suffixes(console, node.body, indent + 1),
        Kind::Inner(_) => draw(console, node.body, indent + 1),
    }
    draw(console, node.rest, indent);
}

fn print_title(console: &mut Console, line: &[u8]) {
    console.print(line);
    console.print(b"\n");
}

// An entry as a key has it: its value in bytes, its path with the end byte.
#[derive(Drop)]
struct Entry {
    value: [u8; VALUE_SIZE],
    path: [u8; ENDED_LIMIT],
    length: usize,
    reference: [u8; REFERENCE_SIZE],
    ghost short: { length ≤ 200 },
}

impl Entry {
    fn new(value: u64, path: &[u8], reference: [u8; REFERENCE_SIZE]) -> Entry
        requires { length path.now ≤ 200 }
    {
        let mut p = [0u8; ENDED_LIMIT];
        buffer::moves::copy_from(&mut p, 0, path);
        Entry {
            value: u64::to_be_bytes(value),
            path: p,
            length: path.len(),
            reference,
        }
    }

    fn key(&self) -> Key<'_> {
        Key {
            value: &self.value,
            path: &self.path[..self.length + 1],
            reference: &self.reference,
        }
    }
}

// The entry of a line `+,value,reference,path`; prints why there is none.
fn read_entry(console: &mut Console, line: &[u8]) -> Option<Entry> {
    let Some(
        Command::Add {
            value,
            reference,
            path,
        },
    ) = logline::reader::parse(line)
    else {
        console.print(b"misread\n");
        return None;
    };
    if PATH_LIMIT < path.len() {
        console.print(b"path over 200\n");
        return None;
    }
    Some(Entry::new(value, path, reference))
}

// A trie, and how many bytes it has.
#[derive(Drop)]
struct Trie {
    bytes: [u8; REGION_SIZE],
    used: usize,
    ghost fits: { used ≤ REGION_SIZE },
}

impl Trie {
    fn new() -> Trie {
        Trie {
            bytes: [0u8; REGION_SIZE],
            used: 0,
        }
    }

    // Draws the trie, says how many bytes it has, and clears them.
    fn end(&mut self, console: &mut Console) {
        console.print_decimal(self.used as u64);
        console.print(b" bytes\n");
        draw(console, &self.bytes[..self.used], 0);
        buffer::moves::clear(&mut self.bytes, 0, self.used);
        self.used = 0;
    }

    fn ask(&self, console: &mut Console, key: &Key<'_>) {
        let trie = &self.bytes[..self.used];
        let reference = key.reference;
        if trie_read::lookup::contains(trie, key.value, key.path, reference) {
            console.print(b"1\n");
        } else {
            console.print(b"0\n");
        }
    }

    fn add(&mut self, console: &mut Console, key: &Key<'_>) {
        let used = self.used;
        if REGION_SIZE - used < GROWTH_SIZE + key.size() {
            console.print(b"full\n");
            return;
        }
        self.used += add(&mut self.bytes, 0, used, used, None, NODE_LIMIT, key);
    }

    fn step(&mut self, console: &mut Console, line: &[u8]) {
        match line {
            [] => self.end(console),
            [b'#', ..] => print_title(console, line),
            [b'?', rest @ ..] => {
                if let Some(entry) = read_entry(console, rest) {
                    self.ask(console, &entry.key());
                }
            }
            _ => {
                if let Some(entry) = read_entry(console, line) {
                    self.add(console, &entry.key());
                }
            }
        }
    }
}

fn run(console: &mut Console, text: &[u8]) {
    let mut trie = Trie::new();
    for line in text.split_inclusive(|b| *b == b'\n') {
        trie.step(console, line.strip_suffix(b"\n").unwrap_or(line));
    }
}

fn main(rt: HostRuntime) -> io::Result<()> {
    let mut console = Console::new(rt.stdin(), rt.stdout());
    let mut text = [0u8; INPUT_SIZE];
    let n = console.read_full(&mut text);
    run(&mut console, &text[..n]);
    console.finish()
}
