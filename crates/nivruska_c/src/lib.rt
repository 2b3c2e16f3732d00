// The index for C and Rust: the calls of `nivruska` under C's calling convention, a slice as a pointer and a length. Each promises what the call
// of `nivruska` that it makes promises.
#![tactic(auto)]

ghost use Rattle.std.specs.Prelude.{◌≡◌};
ghost use Rattle.matcher.specs.Matches.{matches};
ghost use Rattle.rows.specs.Entry.{entry};
ghost use Rattle.book.specs.Promises.{SetsUp, Adds, Searches, ReadsLevel};
ghost use Rattle.entries.specs.Query.{asked};
ghost use Rattle.nivruska.specs.Replied.{replied};

use nivruska::Reply;

#[unsafe(no_mangle)]
pub extern "C" fn nivruska_setup(store: &mut [u8], m: u64, l: u64, tau: u64) -> Reply
    ensures { SetsUp m l tau store.old store.new (replied result) }
{
    nivruska::setup(store, m, l, tau).into()
}

#[unsafe(no_mangle)]
pub extern "C" fn nivruska_add(store: &mut [u8], path: &[u8], value: u64, reference: &[u8]) -> Reply
    ensures { Adds (entry path.now value reference.now) store.old store.new (replied result) }
{
    nivruska::add(store, path, value, reference).into()
}

#[unsafe(no_mangle)]
pub extern "C" fn nivruska_search(
    store: &[u8],
    pattern: &[u8],
    low: u64,
    high: u64,
    answer: &mut [u8],
) -> Reply
    ensures { Searches (asked pattern.now low high) store.now answer.old answer.new (replied result) }
{
    nivruska::search(store, pattern, low, high, answer).into()
}

#[unsafe(no_mangle)]
pub extern "C" fn nivruska_read_level(store: &[u8], level: u64, answer: &mut [u8]) -> Reply
    ensures { ReadsLevel level store.now answer.old answer.new (replied result) }
{
    nivruska::read_level(store, level, answer).into()
}

#[unsafe(no_mangle)]
pub extern "C" fn nivruska_fits(pattern: &[u8], path: &[u8]) -> bool
    ensures { result ≡ matches pattern.now path.now }
{
    nivruska::fits(pattern, path)
}
