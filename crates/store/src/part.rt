// Where the tries of a store lie. They are counted: the small trie is 0, level i is i + 1. No enum: all of them are looked through, listed and measured
// by one count.
ghost use Rattle.std.specs.Prelude.{◌≡◌, ◌*◌, ◌≤◌, length};
ghost use Rattle.book.specs.Front.{need, m_limit, l_limit, entries_limit, need_limit, entry_room};
ghost use Rattle.store.specs.Parts.{region_at, region_size, PartOf};

use crate::extent::trie_length;
use crate::front::{ENTRY_ROOM, FRONT_ROOM, Front};
use std::ops::Range;

// How many bytes the store keeps for trie k. The small trie has as many as level 0.
pub fn region_size(m: usize, k: usize) -> usize
    requires { (m ≤ m_limit) × (k ≤ l_limit) }
    ensures { (result ≡ region_size m k) × (result ≤ entry_room * entries_limit) }
{
    ENTRY_ROOM * (m << k.saturating_sub(1))
}

// Where they begin.
pub fn region_at(m: usize, k: usize) -> usize
    requires { (m ≤ m_limit) × (k ≤ l_limit) }
    ensures { (result ≡ region_at m k) × (result ≤ need_limit) }
{
    if k == 0 {
        return FRONT_ROOM;
    }
    FRONT_ROOM + region_size(m, k)
}

// The part that trie k takes of its region.
pub fn trie_range(store: &[u8], front: Front, k: usize) -> Range<usize>
    requires { (k ≤ front.l) × (need front.m front.l ≤ length store.now) }
    ensures { PartOf store.now front.m front.l k result.start result.end }
{
    let from = region_at(front.m, k);
    let end = from + region_size(front.m, k);
    from..from + trie_length(&store[from..end])
}
