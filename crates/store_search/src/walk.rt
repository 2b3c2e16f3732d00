// A search over all tries of a store.
ghost use Rattle.std.specs.Prelude.{◌≡◌, ◌*◌, ◌≤◌, length};
ghost use Rattle.std.proofs.Math.Nat.{le_refl};
ghost use Rattle.rows.specs.Sizes.{row_size};
ghost use Rattle.search.specs.Asks.{asks};
ghost use Rattle.store.specs.Listing.{Walked};
ghost use Rattle.store_search.specs.Listing.{RowsOf};

use gather::output::Output;
use rows::sizes::ROW_SIZE;
use search::query::Query;
use search::walk::search_trie;
use store::listing::Walk;
use store::opened::Store;

// What is searched, and what for.
#[derive(Clone, Copy)]
pub(crate) struct Search<'a> {
    pub(crate) store: Store<'a>,
    pub(crate) query: Query<'a>,
}

impl Walk for Search<'_> {
    ghost WIDTH = { row_size };

    fn width(&self) -> usize
        ensures { result ≡ row_size }
    {
        ROW_SIZE
    }

    ghost Rows = { λ s. RowsOf (asks s.query) s.store.bytes.now s.store.front.m s.store.front.l };

    // The small trie first, and then every level.
    fn walk(&self, answer: &mut [u8], room: usize) -> (usize, usize)
        requires { room * row_size ≤ length answer.old }
        ensures { Walked row_size (RowsOf (asks self.now.query) self.now.store.bytes.now self.now.store.front.m self.now.store.front.l) room answer.old answer.new result.0 result.1 }
    {
        let mut output = Output {
            bytes: answer,
            room,
            rows: 0,
        };
        let mut nodes = 0;
        for k in 0..=self.store.front.l {
            nodes += search_trie(&self.query, self.store.trie(k), &mut output);
        }
        (output.rows, nodes)
    }

    ghost wide = { le_refl row_size };
}
