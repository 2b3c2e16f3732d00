// A store that was opened: lent memory whose front is read and tested.
ghost use Rattle.std.specs.Prelude.{◌≡◌, ◌≤◌, length};
ghost use Rattle.book.specs.Front.{need};

use crate::front::Front;
use crate::part::trie_range;
use crate::refusal::Refusal;

// Lent memory in which a store stands, and its numbers.
#[derive(Clone, Copy)]
pub struct Store<'a> {
    pub bytes: &'a [u8],
    pub front: Front,
    pub ghost whole: { need front.m front.l ≤ length bytes.now },
}

impl<'a> Store<'a> {
    ghost use Rattle.store.specs.Opening.{OpenedAs};
    ghost use Rattle.store.specs.Parts.{TrieIs};

    // Reads the front and tests it: its numbers, and whether all the bytes needed are lent.
    pub fn open(bytes: &'a [u8]) -> Result<Store<'a>, Refusal>
        ensures { OpenedAs bytes.now result }
    {
        let Some(front) = Front::read(bytes) else {
            return Err(Refusal::NoStore);
        };
        if front.held >= front.held_limit() {
            return Err(Refusal::NoStore);
        }
        if bytes.len() < front.needed() {
            return Err(Refusal::NoStore);
        }
        Ok(Store { bytes, front })
    }

    // The bytes of trie k.
    pub fn trie(&self, k: usize) -> &'a [u8]
        requires { k ≤ self.now.front.l }
        ensures { TrieIs self.now.bytes.now self.now.front.m self.now.front.l k result.now }
    {
        &self.bytes[trie_range(self.bytes, self.front, k)]
    }
}
