// The checks of an addition behind number 4.
ghost use Rattle.std.specs.Prelude.{◌≡◌, ◌*◌, ◌^◌, ◌<◌, IfOk};
ghost use Rattle.rows.specs.Entry.{entry};
ghost use Rattle.store.specs.Said.{said, done};
ghost use Rattle.store_overflow.specs.Entering.{entry_of};
ghost use Rattle.store_add.specs.Checked.{Checked};

use matcher::form::check_path;
use store::front::Front;
use store::refusal::{Refusal, refuse_unformed};
use store_overflow::entry::Entry;

// The entry, or the first check that refuses it.
pub(crate) fn check<'a>(
    front: Front,
    path: &'a [u8],
    value: u64,
    reference: &'a [u8],
) -> Result<Entry<'a>, Refusal>
    requires { front.held < front.m * 2 ^ front.l }
    ensures checked { Checked front.m front.l front.held (entry path.now value reference.now) (said done result) }
    ensures same { IfOk result (λ e. entry_of e ≡ entry path.now value reference.now) }
{
    refuse_unformed(
        check_path(path),
        Refusal::PathTooLong,
        Refusal::PathMalformed,
    )?;
    let Some(reference) = reference.as_array() else {
        return Err(Refusal::ReferenceSize);
    };
    if front.held + 1 == front.held_limit() {
        return Err(Refusal::Full);
    }
    Ok(Entry {
        path,
        value,
        reference,
    })
}
