// Adds the rows of standard input to a store for M 9, L 1 and τ 2, and prints each reply. Then reads level 0 back and prints each record: its row,
// and its nodes as `=,kind,path position,value position`. Input and expected output come from tools/oracle/table5.py: Table 5 of the paper.
#![tactic(auto)]

use buffer::numbers::get64;
use console::Console;
use nivruska::Reply;
use rows::sizes::{LENGTH_AT, NODE_SIZE, PATH_AT, PATH_LIMIT, RECORD_SIZE, REFERENCE_AT, ROW_SIZE};
use std::io;
use store::front::{ENTRY_ROOM, FRONT_ROOM};

// What a store for M 9 and L 1 needs, and room for its records.
const STORE_SIZE: usize = ENTRY_ROOM * 9 * 2 + FRONT_ROOM;

const ANSWER_SIZE: usize = 9 * RECORD_SIZE;

// More rows than such a store holds.
const ROWS: usize = 20;

fn print_reply(console: &mut Console, reply: Reply) {
    console.print_reply(u64::from(reply.number), reply.first, reply.second);
}

fn add_row(console: &mut Console, store: &mut [u8], row: &[u8; ROW_SIZE]) {
    let n = usize::from(row[LENGTH_AT]);
    if PATH_LIMIT < n {
        return;
    }
    let added = nivruska::add(
        store,
        &row[PATH_AT..PATH_AT + n],
        get64(row, 0),
        &row[REFERENCE_AT..LENGTH_AT],
    );
    print_reply(console, Reply::from(added));
}

fn add_rows(console: &mut Console, store: &mut [u8]) {
    let mut row = [0u8; ROW_SIZE];
    for _ in 0..ROWS {
        if console.read_full(&mut row) < ROW_SIZE {
            return;
        }
        add_row(console, store, &row);
    }
}

fn print_record(console: &mut Console, record: &[u8]) {
    let Some((row, [count, nodes @ ..])) = record.split_first_chunk::<ROW_SIZE>() else {
        return;
    };
    console.print_row(row);
    for node in nodes.chunks_exact(NODE_SIZE).take(usize::from(*count)) {
        if let [kind, path, value] = node {
            console.print_reply(u64::from(*kind), u64::from(*path), u64::from(*value));
        }
    }
}

fn print_records(console: &mut Console, answer: &[u8], n: usize) {
    for record in answer.chunks_exact(RECORD_SIZE).take(n) {
        print_record(console, record);
    }
}

fn main(rt: HostRuntime) -> io::Result<()> {
    let mut console = Console::new(rt.stdin(), rt.stdout());
    let mut store = [0u8; STORE_SIZE];
    let mut answer = [0u8; ANSWER_SIZE];
    let prepared = nivruska::setup(&mut store, 9, 1, 2);
    print_reply(&mut console, Reply::from(prepared));
    add_rows(&mut console, &mut store);
    let records = nivruska::read_level(&store, 0, &mut answer);
    if let Ok(n) = records {
        print_records(&mut console, &answer, n);
    }
    print_reply(&mut console, Reply::from(records));
    console.finish()
}
