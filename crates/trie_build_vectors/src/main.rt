// For each set of rows from standard input: the kind of its node and its discriminative positions in path and value (a line of Table 3), then
// the bytes of its level in hex. A set: tau, the kind of the node above, the number of its rows (at most 32), its rows in row sequence. The sets
// and what they print come from tools/oracle/trie_build.py.
#![tactic(auto)]

ghost use Rattle.std.specs.Prelude.{◌≡◌, ◌<◌, ◌≤◌, true, length, IfSome};
ghost use Rattle.buffer.specs.Lists.{all};
ghost use Rattle.entries.specs.Slots.{slot_size, short_path};
ghost use Rattle.trie_read.specs.Shape.{above_of};
ghost use Rattle.trie_sets.specs.Sets.{slots_of};
ghost use Rattle.trie_sets.specs.Positions.{OfTwo};

use console::Console;
use entries::SLOT_SIZE;
use entries::known::Known;
use rows::sizes::ROW_SIZE;
use std::io;
use trie_read::kind::Dimension;
use trie_sets::positions::{paths_are_short, split};

// The most rows of a set.
const MOST: usize = 32;

// The memory: room for the level of that many rows, their slots, and the scratch stretch.
const SLOTS: usize = MOST * SLOT_SIZE;

const SCRATCH: usize = SLOTS + MOST * SLOT_SIZE;

const MEMORY: usize = SCRATCH + MOST * SLOT_SIZE;

fn lay(slot: &mut [u8], row: &[u8; ROW_SIZE])
    requires { length slot.old ≡ slot_size }
{
    slot[..ROW_SIZE].copy_from_slice(row);
    slot[ROW_SIZE..].fill(0);
}

// A position is one more than the bytes shared.
fn print_position(console: &mut Console, shared: usize) {
    console.print(b" ");
    console.print_decimal((shared as u64).wrapping_add(1));
}

fn print_split(console: &mut Console, slots: &[u8], tau: usize, above: Option<Dimension>)
    requires { (0 < length (slots_of slots.now)) × OfTwo (above_of above) × (all short_path (slots_of slots.now) ≡ true) }
{
    let shape = split(slots, tau, above, Known { value: 0, path: 0 });
    console.print_decimal(u64::from(u8::from(shape.kind)));
    print_position(console, shape.shared.path);
    print_position(console, shape.shared.value);
    console.print(b"\n");
}

fn level(
    console: &mut Console,
    s: &mut [u8; MEMORY],
    n: usize,
    tau: usize,
    above: Option<Dimension>,
)
    requires { (n ≤ MOST) × OfTwo (above_of above) }
{
    let end = SLOTS + n * SLOT_SIZE;
    if !paths_are_short(&s[SLOTS..end]) {
        console.print(b"long\n");
        return;
    }
    if n > 0 {
        print_split(console, &s[SLOTS..end], tau, above);
    }
    let size = trie_build::build::build_level(s, 0, SLOTS, SCRATCH, n, tau);
    console.print_hex(&s[..size]);
    console.print(b"\n");
}

// The first set of the input; returns what is behind it. There is none where the input ends, or within a set.
fn set<'a>(console: &mut Console, s: &mut [u8; MEMORY], input: &'a [u8]) -> Option<&'a [u8]>
    ensures { IfSome result (λ behind. length behind.now < length input.now) }
{
    let ([tau, above, n], rest) = input.split_first_chunk::<3>()?;
    let above = match above {
        0 => None,
        1 => Some(Dimension::Value),
        2 => Some(Dimension::Path),
        _ => return None,
    };
    let n = usize::from(*n);
    if n > MOST {
        return None;
    }
    let (rows, rest) = rest.split_at_checked(n * ROW_SIZE)?;
    let (rows, _) = rows.as_chunks::<ROW_SIZE>();
    for (slot, row) in s[SLOTS..SCRATCH].chunks_exact_mut(SLOT_SIZE).zip(rows) {
        lay(slot, row);
    }
    level(console, s, n, usize::from(*tau), above);
    Some(rest)
}

fn run(console: &mut Console, s: &mut [u8; MEMORY], input: &[u8]) {
    let mut rest = input;
    // No `for`: the sets are of unlike length.
    while let Some(behind) = set(console, s, rest) {
        rest = behind;
    }
}

fn main(rt: HostRuntime) -> io::Result<()> {
    let mut console = Console::new(rt.stdin(), rt.stdout());
    let mut input = [0u8; 65536];
    let n = console.read_full(&mut input);
    let mut s = [0u8; MEMORY];
    run(&mut console, &mut s, &input[..n]);
    console.finish()
}
