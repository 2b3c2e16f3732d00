// Setting a store up: all the bytes needed are written, always the same for the same M, L and τ.
ghost use Rattle.std.specs.Prelude.{◌≡◌, true, ◌≤◌, length};
ghost use Rattle.buffer.specs.Splice.{splice};
ghost use Rattle.book.specs.Front.{in_limits, need};
ghost use Rattle.book.specs.Book.{fresh};
ghost use Rattle.book.specs.Image.{image};
ghost use Rattle.book.specs.Promises.{SetsUp};
ghost use Rattle.store.specs.Said.{said, done};

use crate::front::{Front, in_limits};
use crate::refusal::Refusal;
use buffer::moves::clear;
use buffer::numbers::put32;

// An empty store, as its front says: zeros but for M, L and τ.
fn write_fresh(store: &mut [u8], front: Front)
    requires { (in_limits front.m front.l front.tau ≡ true) × (need front.m front.l ≤ length store.old) }
    ensures { store.new ≡ splice store.old 0 (image (fresh front.m front.l front.tau)) }
{
    let n = front.needed();
    clear(store, 0, n);
    put32(store, 0, front.m as u32);
    put32(store, 4, front.l as u32);
    put32(store, 8, front.tau as u32);
}

// Sets a store up for M, L and τ.
pub fn prepare(store: &mut [u8], m: u64, l: u64, tau: u64) -> Result<(), Refusal>
    ensures { SetsUp m l tau store.old store.new (said done result) }
{
    if !in_limits(m, l, tau) {
        return Err(Refusal::OutsideLimits);
    }
    let front = Front {
        m: m as usize,
        l: l as usize,
        tau: tau as usize,
        held: 0,
    };
    if store.len() < front.needed() {
        return Err(Refusal::TooLittleMemory);
    }
    write_fresh(store, front);
    Ok(())
}
