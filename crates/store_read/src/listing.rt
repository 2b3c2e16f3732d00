// Listing the records of a trie.
ghost use Rattle.std.specs.Prelude.{◌≡◌, ◌*◌, ◌≤◌, length};
ghost use Rattle.rows.specs.Sizes.{row_size, record_size};
ghost use Rattle.store.specs.Listing.{Walked};
ghost use Rattle.store_read.specs.Listings.{RecordsOf, record_wide};

use read_back::walk::read_trie;
use rows::sizes::RECORD_SIZE;
use store::listing::Walk;

// The bytes of a trie whose records are listed.
#[derive(Clone, Copy)]
pub(crate) struct Level<'a> {
    pub(crate) trie: &'a [u8],
}

impl Walk for Level<'_> {
    ghost WIDTH = { record_size };

    fn width(&self) -> usize
        ensures { result ≡ record_size }
    {
        RECORD_SIZE
    }

    ghost Rows = { λ l. RecordsOf l.trie.now };

    fn walk(&self, answer: &mut [u8], room: usize) -> (usize, usize)
        requires { room * record_size ≤ length answer.old }
        ensures { Walked record_size (RecordsOf self.now.trie.now) room answer.old answer.new result.0 result.1 }
    {
        (read_trie(self.trie, answer, room), 0)
    }

    ghost wide = { record_wide };
}
