// The record of a key: its row, the number of nodes above it, these nodes, and zeros where a deeper key has nodes.
ghost use Rattle.std.specs.Prelude.{◌≡◌, cond, ◌*◌, ◌≤◌, length, take, ltb};
ghost use Rattle.buffer.specs.Splice.{splice};
ghost use Rattle.rows.specs.Sizes.{node_limit, record_size};
ghost use Rattle.read_back.specs.Readings.{node_size, record_bytes};
ghost use Rattle.read_back.specs.RecordLength.{length_record};

use buffer::moves::{clear, copy_from};
use entries::SLOT_SIZE;
use gather::keys::Format;
use gather::output::Output;
use gather::way::WAY_SIZE;
use rows::sizes::{NODE_SIZE, RECORD_SIZE, ROW_SIZE};

const COUNT_AT: usize = ROW_SIZE;

const WAY_AT: usize = COUNT_AT + 1;

// Writes the record of the key whose slot is given, below n nodes of the way, behind m other records, if there is room. In place, and only then: a
// walk that counts makes none.
fn put_record(
    answer: &mut [u8],
    m: usize,
    room: usize,
    key: &[u8; SLOT_SIZE],
    way: &[u8; WAY_SIZE],
    n: usize,
)
    requires { (room * record_size ≤ length answer.old) × (n ≤ node_limit) }
    ensures { answer.new ≡ cond (ltb m room) (splice answer.old (m * record_size) (record_bytes n (take (node_size * n) way.now) key.now)) answer.old }
{
    if m < room {
        let at = m * RECORD_SIZE;
        let end = NODE_SIZE * n;
        copy_from(answer, at, &key[..ROW_SIZE]);
        answer[at + COUNT_AT] = n as u8;
        copy_from(answer, at + WAY_AT, &way[..end]);
        clear(answer, at + WAY_AT + end, WAY_SIZE - end);
    }
}

// A key's row is its record.
pub(crate) struct Records;

impl Format for Records {
    ghost width = { record_size };

    ghost slot_row = { record_bytes };

    fn put(output: &mut Output<'_>, key: &[u8; SLOT_SIZE], way: &[u8; WAY_SIZE], n: usize) {
        put_record(output.bytes, output.rows, output.room, key, way, n);
        output.rows += 1;
    }

    ghost even = { λ n way slot long ways few. length_record n way slot long ways few };
}
