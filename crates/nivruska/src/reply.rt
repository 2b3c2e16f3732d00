// What each call returns for C and the log: its number, and the two values beside it.
use store::refusal::Refusal;
use store_add::add::Added;
use store_search::query::Found;

#[repr(C)]
#[derive(Clone, Copy, PartialEq, Eq, Debug)]
pub struct Reply {
    pub number: u32,
    pub first: u64,
    pub second: u64,
}

// A refusal has its number, and 11 the row count.
impl From<Refusal> for Reply {
    ghost use Rattle.std.specs.Prelude.{◌≡◌};
    ghost use Rattle.store.specs.Said.{refused};
    ghost use Rattle.nivruska.specs.Replied.{replied};

    ghost from_gives = { λ e r. replied r ≡ refused e };

    fn from(refusal: Refusal) -> Reply {
        Reply {
            number: refusal.number(),
            first: refusal.value() as u64,
            second: 0,
        }
    }
}

// An accepted setup has two zeros.
impl From<()> for Reply {
    ghost use Rattle.std.specs.Prelude.{◌≡◌};
    ghost use Rattle.store.specs.Said.{done};
    ghost use Rattle.nivruska.specs.Replied.{replied};

    ghost from_gives = { λ x r. replied r ≡ done x };

    fn from(_done: ()) -> Reply {
        Reply {
            number: 0,
            first: 0,
            second: 0,
        }
    }
}

// An addition has the held number; 100 where the entry was there already.
impl From<Added> for Reply {
    ghost use Rattle.std.specs.Prelude.{◌≡◌};
    ghost use Rattle.store_add.specs.Said.{added};
    ghost use Rattle.nivruska.specs.Replied.{replied};

    ghost from_gives = { λ x r. replied r ≡ added x };

    fn from(outcome: Added) -> Reply {
        let (number, held) = match outcome {
            Added::New(held) => (0, held),
            Added::AlreadyThere(held) => (100, held),
        };
        Reply {
            number,
            first: held as u64,
            second: 0,
        }
    }
}

// A search has its rows and nodes.
impl From<Found> for Reply {
    ghost use Rattle.std.specs.Prelude.{◌≡◌};
    ghost use Rattle.store_search.specs.Listing.{found_said};
    ghost use Rattle.nivruska.specs.Replied.{replied};

    ghost from_gives = { λ x r. replied r ≡ found_said x };

    fn from(found: Found) -> Reply {
        Reply {
            number: 0,
            first: found.rows as u64,
            second: found.nodes as u64,
        }
    }
}

// A level read back has the number of its records.
impl From<usize> for Reply {
    ghost use Rattle.std.specs.Prelude.{◌≡◌};
    ghost use Rattle.store_read.specs.Listings.{records_read};
    ghost use Rattle.nivruska.specs.Replied.{replied};

    ghost from_gives = { λ x r. replied r ≡ records_read x };

    fn from(records: usize) -> Reply {
        Reply {
            number: 0,
            first: records as u64,
            second: 0,
        }
    }
}

impl<T: Into<Reply>> From<Result<T, Refusal>> for Reply {
    ghost use Rattle.std.specs.Prelude.{◌≡◌, MatchResult};
    ghost use Rattle.store.specs.Said.{refused};
    ghost use Rattle.nivruska.specs.Replied.{replied};

    ghost from_gives = { λ x r. MatchResult x (λ y. T.converts y r) (λ e. replied r ≡ refused e) };

    fn from(outcome: Result<T, Refusal>) -> Reply {
        match outcome {
            Ok(accepted) => accepted.into(),
            Err(refusal) => refusal.into(),
        }
    }
}
