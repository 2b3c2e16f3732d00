// Runs the outside cases of crate `rows` and prints them; tools/oracle/rows.py prints the same by other means.
#![tactic(auto)]

ghost use Rattle.std.specs.Prelude.{◌+◌, ◌*◌, ◌≤◌, ◌<◌, length};
ghost use Rattle.rows.specs.Sizes.{path_limit, row_size};

use buffer::moves::{clear, copy_from};
use buffer::numbers::{get64, put64};
use console::Console;
use rows::sizes::{LENGTH_AT, PATH_AT, RECORD_SIZE, REFERENCE_AT, ROW_SIZE};
use std::cmp::Ordering;
use std::io;

// The bytes of a record, which begins with a row. As the one of rows::sort, which is private: `sort` takes a plain width.
#[derive(Clone, Copy)]
struct Width {
    bytes: usize,
    ghost row: { row_size ≤ bytes },
}

// The last byte of a reference.
const MARK_AT: usize = LENGTH_AT - 1;

// A linear congruential generator of 31 bits.
#[derive(Clone, Copy)]
struct Random {
    x: u64,
    ghost bits: { x < 2147483648 },
}

impl Random {
    fn next(self) -> Random {
        Random {
            x: (self.x * 1103515245 + 12345) % 2147483648,
        }
    }

    fn letter(self, divisor: u64) -> u8
        requires { 0 < divisor }
    {
        if self.x / divisor % 2 == 0 {
            b'a'
        } else {
            b'b'
        }
    }
}

// An entry whose reference is zeros but for the last byte, the mark. (The `Entry` of store_overflow lies above `rows` and has a whole reference.)
#[derive(Clone, Copy)]
struct Entry<'a> {
    value: u64,
    path: &'a [u8],
    mark: u8,
    ghost short: { length path.now ≤ path_limit },
}

impl<'a> Entry<'a> {
    fn new(value: u64, path: &'a [u8], mark: u8) -> Entry<'a>
        requires { length path.now ≤ path_limit }
    {
        Entry { value, path, mark }
    }
}

// Writes the row of an entry.
fn put(s: &mut [u8], entry: Entry<'_>)
    requires { row_size ≤ length s.old }
{
    clear(s, 0, ROW_SIZE);
    put64(s, 0, entry.value);
    s[MARK_AT] = entry.mark;
    s[LENGTH_AT] = entry.path.len() as u8;
    copy_from(s, PATH_AT, entry.path);
}

// A record with few values, paths and references, so that many are equal; what follows the row differs.
fn generate(bytes: &mut [u8], random: Random)
    requires { row_size ≤ length bytes.old }
{
    let mut path = [b'/'; 8];
    path[1] = random.letter(262144);
    path[3] = random.letter(524288);
    path[5] = random.letter(1048576);
    path[7] = random.letter(2097152);
    let end = (random.x / 65536 % 4) as usize * 2 + 2;
    bytes.fill(0);
    put(
        bytes,
        Entry::new(
            random.x / 4194304 % 5,
            &path[..end],
            (random.x / 33554432 % 3) as u8,
        ),
    );
    if ROW_SIZE < bytes.len() {
        bytes[ROW_SIZE] = (random.x / 65536 % 251) as u8;
    }
}

fn fill(s: &mut [u8], width: Width) {
    let mut random = Random { x: 1 };
    for record in s.chunks_exact_mut(width.bytes) {
        random = random.next();
        generate(record, random);
    }
}

// Value, path, reference, and the byte after the row where there is one.
fn print_record(console: &mut Console, bytes: &[u8])
    requires { row_size ≤ length bytes.now }
{
    console.print_decimal(get64(bytes, 0));
    console.print(b",");
    let end = PATH_AT + usize::from(bytes[LENGTH_AT]);
    if end <= bytes.len() {
        console.print(&bytes[PATH_AT..end]);
    }
    console.print(b",");
    console.print_hex(&bytes[REFERENCE_AT..LENGTH_AT]);
    if ROW_SIZE < bytes.len() {
        console.print(b",");
        console.print_hex(&[bytes[ROW_SIZE]]);
    }
    console.print(b"\n");
}

// Three bytes, the records behind them, and the last byte.
fn print_case(console: &mut Console, s: &[u8], width: Width)
    requires { 4 ≤ length s.now }
{
    let end = s.len() - 1;
    console.print_hex(&s[..3]);
    console.print(b"\n");
    for record in s[3..end].chunks_exact(width.bytes) {
        print_record(console, record);
    }
    console.print_hex(&s[end..]);
    console.print(b"\n");
}

// Fills the lent bytes with n records behind three bytes and before one, sorts them and prints all.
fn sort_in(console: &mut Console, s: &mut [u8], n: usize, width: Width)
    requires { 4 + n * width.bytes ≤ length s.old }
{
    let end = 3 + n * width.bytes;
    fill(&mut s[3..end], width);
    copy_from(s, 0, &[1, 2, 3]);
    s[end] = 4;
    rows::sort::sort(s, 3, n, width.bytes);
    print_case(console, &s[..end + 1], width);
}

fn sort_case(console: &mut Console, n: usize, width: Width)
    requires { 4 + n * width.bytes ≤ 229004 }
{
    console.print(b"sort ");
    console.print_decimal(n as u64);
    console.print(b" of ");
    console.print_decimal(width.bytes as u64);
    console.print(b"\n");
    let mut s = [0u8; 4 + 1000 * ROW_SIZE];
    sort_in(console, &mut s, n, width);
}

// Compares the rows of two entries.
fn compare_case(console: &mut Console, a: Entry<'_>, b: Entry<'_>) {
    let mut x = [0u8; ROW_SIZE];
    let mut y = [0u8; ROW_SIZE];
    put(&mut x, a);
    put(&mut y, b);
    print_record(console, &x);
    match rows::order::compare(&x, &y) {
        Ordering::Less => console.print(b"comes before\n"),
        Ordering::Equal => console.print(b"equals\n"),
        Ordering::Greater => console.print(b"comes after\n"),
    }
    if x == y {
        console.print(b"and is the same as\n");
    } else {
        console.print(b"and is not the same as\n");
    }
    print_record(console, &y);
}

fn main(rt: HostRuntime) -> io::Result<()> {
    let mut console = Console::new(rt.stdin(), rt.stdout());
    compare_case(
        &mut console,
        Entry::new(7, b"/a", 9),
        Entry::new(7, b"/a/b", 1),
    );
    compare_case(
        &mut console,
        Entry::new(7, b"/a/b", 1),
        Entry::new(7, b"/a", 9),
    );
    compare_case(
        &mut console,
        Entry::new(7, b"/b", 0),
        Entry::new(7, b"/a/b", 0),
    );
    compare_case(
        &mut console,
        Entry::new(1, b"/z", 9),
        Entry::new(256, b"/a", 0),
    );
    compare_case(
        &mut console,
        Entry::new(5, b"/a", 2),
        Entry::new(5, b"/a", 1),
    );
    compare_case(
        &mut console,
        Entry::new(5, b"/a", 2),
        Entry::new(5, b"/a", 2),
    );
    let row = Width { bytes: ROW_SIZE };
    for n in [0, 1, 2, 3, 100, 1000] {
        sort_case(&mut console, n, row);
    }
    let record = Width { bytes: RECORD_SIZE };
    sort_case(&mut console, 100, record);
    console.finish()
}
