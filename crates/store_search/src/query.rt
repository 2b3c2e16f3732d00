// The call: its checks in the sequence of document 01, and then the listing.
ghost use Rattle.entries.specs.Query.{asked};
ghost use Rattle.book.specs.Promises.{Searches};
ghost use Rattle.store.specs.Said.{said};
ghost use Rattle.store_search.specs.Listing.{Asked, found_said};

use crate::walk::Search;
use matcher::form::check_pattern;
use search::query::Query;
use store::listing::list;
use store::opened::Store;
use store::refusal::{Refusal, refuse_unformed};
use value_range::value::Span;

// Rows found, and nodes entered.
#[derive(Clone, Copy)]
pub struct Found {
    pub rows: usize,
    pub nodes: usize,
}

// The query, or the first of its own checks that refuses it: pattern first, then range.
fn check<'a>(pattern: &'a [u8], range: Span) -> Result<Query<'a>, Refusal>
    ensures { Asked (asked pattern.now range.from range.to) result }
{
    refuse_unformed(
        check_pattern(pattern),
        Refusal::PatternTooLong,
        Refusal::PatternMalformed,
    )?;
    if range.to < range.from {
        return Err(Refusal::EmptyRange);
    }
    Ok(Query::new(pattern, range))
}

// Searches a store for the entries whose path the pattern matches and whose value is from low to high. The answer has their rows; returned are
// their number and the nodes entered.
pub fn search(
    store: &[u8],
    pattern: &[u8],
    low: u64,
    high: u64,
    answer: &mut [u8],
) -> Result<Found, Refusal>
    ensures { Searches (asked pattern.now low high) store.now answer.old answer.new (said found_said result) }
{
    let store = Store::open(store)?;
    let query = check(
        pattern,
        Span {
            from: low,
            to: high,
        },
    )?;
    let (rows, nodes) = list(&Search { store, query }, store.front.held, answer)?;
    Ok(Found { rows, nodes })
}
