// The numbers at the beginning of a store, and what they say of it.
ghost use Rattle.std.specs.Prelude.{◌≡◌, ◌*◌, ◌^◌, ◌≤◌, ◌&&◌, leb};
ghost use Rattle.book.specs.Front.{in_limits, need, m_limit, l_limit, entries_limit};

use buffer::numbers::get32;

// Document 01's limits of M, L and τ.
pub const M_LIMIT: u64 = 4096;

pub const L_LIMIT: u64 = 8;

pub const TAU_LIMIT: u64 = 100;

// The four numbers of the front.
pub const FRONT_SIZE: usize = 16;

// Where the held number stands, the last of them.
pub const HELD_AT: usize = 12;

// Bytes kept for the front, and for each entry that a level can hold.
pub const FRONT_ROOM: usize = 4096;

pub const ENTRY_ROOM: usize = 1024;

fn is_within(x: u64, limit: u64) -> bool
    ensures { result ≡ (leb 1 x && leb x limit) }
{
    (1..=limit).contains(&x)
}

pub(crate) fn in_limits(m: u64, l: u64, tau: u64) -> bool
    ensures { result ≡ in_limits m l tau }
{
    is_within(m, M_LIMIT) && is_within(l, L_LIMIT) && is_within(tau, TAU_LIMIT)
}

// M, L, τ and the held number.
#[derive(Clone, Copy)]
pub struct Front {
    pub m: usize,
    pub l: usize,
    pub tau: usize,
    pub held: usize,
    pub ghost m_high: { m ≤ m_limit },
    pub ghost l_high: { l ≤ l_limit },
}

impl Front {
    ghost use Rattle.store.specs.Opening.{FrontRead};

    // The four numbers at the beginning of a store, where there are any, and M, L and τ keep to their limits.
    pub(crate) fn read(store: &[u8]) -> Option<Front>
        ensures { FrontRead store.now result }
    {
        if store.len() < FRONT_SIZE {
            return None;
        }
        let m = get32(store, 0);
        let l = get32(store, 4);
        let tau = get32(store, 8);
        if !in_limits(u64::from(m), u64::from(l), u64::from(tau)) {
            return None;
        }
        Some(Front {
            m: m as usize,
            l: l as usize,
            tau: tau as usize,
            held: get32(store, HELD_AT) as usize,
        })
    }

    // How many entries level i has place for: M × 2^i.
    pub fn level_size(self, i: usize) -> usize
        requires { i ≤ l_limit }
        ensures { (result ≡ self.m * 2 ^ i) × (result ≤ entries_limit) }
    {
        self.m << i
    }

    // M × 2^L: what is held stays below.
    pub fn held_limit(self) -> usize
        ensures { (result ≡ self.m * 2 ^ self.l) × (result ≤ entries_limit) }
    {
        self.level_size(self.l)
    }

    // The bytes that a store needs.
    pub fn needed(self) -> usize
        ensures { result ≡ need self.m self.l }
    {
        ENTRY_ROOM * self.held_limit() + FRONT_ROOM
    }
}
