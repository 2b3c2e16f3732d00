// The walk that reads a trie back. Of the records it writes the first `room` into the answer, and counts all: with a room of 0 it only counts.
ghost use Rattle.std.specs.Prelude.{◌*◌, ◌≤◌, length};
ghost use Rattle.rows.specs.Sizes.{record_size};
ghost use Rattle.read_back.specs.Readings.{TrieRead};

use crate::record::Records;
use entries::SLOT_SIZE;
use gather::keys::walk;
use gather::known::ROOT;
use gather::output::Output;
use gather::way::WAY_SIZE;

// Reads one trie back. Returns how many keys it has.
pub fn read_trie(trie: &[u8], answer: &mut [u8], room: usize) -> usize
    requires { room * record_size ≤ length answer.old }
    ensures { TrieRead trie.now room answer.old answer.new result }
{
    let mut key = [0u8; SLOT_SIZE];
    let mut way = [0u8; WAY_SIZE];
    let mut output = Output {
        bytes: answer,
        room,
        rows: 0,
    };
    walk::<Records>(trie, ROOT, &mut key, &mut way, &mut output);
    output.rows
}
