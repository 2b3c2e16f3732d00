// The index in lent memory: four calls, and the matcher alone; for C and Rust crate `nivruska_c` exports them. No call asks
// anything of its caller; what each promises is in the book (crates/book/specs/Promises.antt), and what follows for any list of calls is demand 3
// (crates/book/specs/Demand3.antt).
#![tactic(auto)]

ghost use Rattle.std.specs.Prelude.{◌≡◌};
ghost use Rattle.matcher.specs.Matches.{matches};
ghost use Rattle.rows.specs.Entry.{entry};
ghost use Rattle.book.specs.Promises.{SetsUp, Adds, Searches, ReadsLevel};
ghost use Rattle.entries.specs.Query.{asked};
ghost use Rattle.store.specs.Said.{said, done};
ghost use Rattle.store_add.specs.Said.{added};
ghost use Rattle.store_search.specs.Listing.{found_said};
ghost use Rattle.store_read.specs.Listings.{records_read};

pub mod reply;

pub use reply::Reply;
pub use store::refusal::Refusal;
pub use store_add::add::Added;
pub use store_search::query::Found;

// Sets a store up for M, L and τ.
pub fn setup(store: &mut [u8], m: u64, l: u64, tau: u64) -> Result<(), Refusal>
    ensures { SetsUp m l tau store.old store.new (said done result) }
{
    store::setup::prepare(store, m, l, tau)
}

// Adds an entry.
pub fn add(store: &mut [u8], path: &[u8], value: u64, reference: &[u8]) -> Result<Added, Refusal>
    ensures { Adds (entry path.now value reference.now) store.old store.new (said added result) }
{
    store_add::add::add(store, path, value, reference)
}

// Lists the rows whose path fits the pattern and whose value is from low to high, in row sequence, into the answer.
pub fn search(
    store: &[u8],
    pattern: &[u8],
    low: u64,
    high: u64,
    answer: &mut [u8],
) -> Result<Found, Refusal>
    ensures { Searches (asked pattern.now low high) store.now answer.old answer.new (said found_said result) }
{
    store_search::query::search(store, pattern, low, high, answer)
}

// Lists the records of a level, in row sequence, into the answer. Returns how many they are.
pub fn read_level(store: &[u8], level: u64, answer: &mut [u8]) -> Result<usize, Refusal>
    ensures { ReadsLevel level store.now answer.old answer.new (said records_read result) }
{
    store_read::level::read_level(store, level, answer)
}

// Does the path fit the pattern? False where either is not formed.
pub fn fits(pattern: &[u8], path: &[u8]) -> bool
    ensures { result ≡ matches pattern.now path.now }
{
    matcher::fit::fits(pattern, path)
}
