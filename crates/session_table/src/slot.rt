//! Which slot has a session's row.

ghost use Rattle.std.specs.Prelude.{◌≡◌, IfSome, IsSome};
ghost use Rattle.std.specs.FinMap.{get};
ghost use Rattle.keyed_slab.specs.KeyedSlab.{thing_at};
ghost use Rattle.session_table.specs.Inside.{IsKept, slot_of};

use crate::kept::Kept;
use crate::row_facts::near_of;
use keyed_slab::Key;

/// The key of the row of the session with this session ID. One key is tried first: it names nothing
/// where its session is gone.
pub(crate) fn key_near(kept: &Kept, near: u32, likely: Key) -> Option<Key>
    requires { IsKept kept.now.rows kept.now.keys.keys kept.now.deadlines kept.now.busy kept.now.round }
    ensures { result ≡ get kept.now.keys.keys near }
{
    match kept.rows.named(likely) {
        Some(row) => {
            if near_of(row) == near {
                Some(likely)
            } else {
                kept.keys.get(near)
            }
        }
        None => kept.keys.get(near),
    }
}

/// The slot that has it.
pub(crate) fn slot_near(kept: &Kept, near: u32, likely: Key) -> Option<usize>
    requires { IsKept kept.now.rows kept.now.keys.keys kept.now.deadlines kept.now.busy kept.now.round }
    ensures found { result ≡ slot_of kept.now.keys.keys near }
    ensures there { IfSome result (λ slot. IsSome (thing_at kept.now.rows slot)) }
{
    match key_near(kept, near, likely) {
        Some(key) => Some(key.slot),
        None => None,
    }
}
