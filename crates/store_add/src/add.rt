// The addition to a store.
ghost use Rattle.rows.specs.Entry.{entry};
ghost use Rattle.book.specs.Promises.{Adds};
ghost use Rattle.store.specs.Said.{said};
ghost use Rattle.store_overflow.specs.Entering.{entry_of};
ghost use Rattle.store_add.specs.Ready.{Ready};
ghost use Rattle.store_add.specs.Said.{added};

use crate::check::check;
use crate::lookup::has_entry;
use crate::place::put_entry;
use buffer::moves::copy_from;
use rows::sizes::ENDED_LIMIT;
use store::front::Front;
use store::opened::Store;
use store::refusal::Refusal;
use store_overflow::entry::Entry;
use trie_write::key::Key;

// An addition that no check refuses, with the number of entries then held.
#[derive(Clone, Copy, PartialEq, Eq, Debug)]
pub enum Added {
    New(usize),
    AlreadyThere(usize),
}

fn admit(store: &mut [u8], front: Front, entry: &Entry<'_>) -> Added
    requires { Ready front.m front.l front.tau front.held (entry_of entry.now) store.old }
    ensures { Adds (entry_of entry.now) store.old store.new (added result) }
{
    let value = u64::to_be_bytes(entry.value);
    let mut path = [0u8; ENDED_LIMIT];
    copy_from(&mut path, 0, entry.path);
    let key = Key {
        value: &value,
        path: &path[..entry.path.len() + 1],
        reference: entry.reference,
    };
    if has_entry(
        &Store {
            bytes: store,
            front,
        },
        &key,
    ) {
        return Added::AlreadyThere(front.held);
    }
    put_entry(store, front, entry, &key);
    Added::New(front.held + 1)
}

// Adds an entry: a path, a value and a reference. Document 01's numbers, in their sequence.
pub fn add(store: &mut [u8], path: &[u8], value: u64, reference: &[u8]) -> Result<Added, Refusal>
    ensures { Adds (entry path.now value reference.now) store.old store.new (said added result) }
{
    let front = Store::open(store)?.front;
    let entry = check(front, path, value, reference)?;
    Ok(admit(store, front, &entry))
}
