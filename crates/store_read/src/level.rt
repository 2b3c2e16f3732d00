// The call: its check, and then the listing.
ghost use Rattle.book.specs.Promises.{ReadsLevel};
ghost use Rattle.store.specs.Said.{said};
ghost use Rattle.store_read.specs.Listings.{records_read};

use crate::listing::Level;
use store::listing::list;
use store::opened::Store;
use store::refusal::Refusal;

// Reads a level of a store back. The answer has a record of each entry there, in row sequence, and the result is their number. A level numbered L or
// above has none.
pub fn read_level(store: &[u8], level: u64, answer: &mut [u8]) -> Result<usize, Refusal>
    ensures { ReadsLevel level store.now answer.old answer.new (said records_read result) }
{
    let store = Store::open(store)?;
    if level >= store.front.l as u64 {
        return Ok(0);
    }
    let trie = store.trie(level as usize + 1);
    let (records, _) = list(&Level { trie }, store.front.held, answer)?;
    Ok(records)
}
