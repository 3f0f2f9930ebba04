//! Sessions whose peer moved to another address: they go there from the answer to its ping on
//! (RFC 7016 section 3.5.4.2).

ghost use Rattle.std.specs.Prelude.{◌≡◌, true, OnErr, OnOk};
ghost use Rattle.std.specs.FinMap.{get};
ghost use Rattle.endpoint_model.specs.InSessions.{answers_by, moved_by};
ghost use Rattle.endpoint_model.specs.State.{Done, nothing};

use end_state::{EndState, Outbox};
use endpoint_model::Entry;
use rtmfp_forms::Address;
use std::alloc::AllocError;

/// Whether an answer to a ping, which came from an address, moves the session.
pub(crate) fn is_answered(end: &EndState, near: u32, from: &Address, bytes: &[u8]) -> bool
    ensures { result ≡ answers_by from.now bytes.now (get end.now.sessions near) }
{
    match end.sessions.row(near) {
        Some(row) => row.moves.answers(from, bytes),
        None => false,
    }
}

/// Takes an answer to a ping, which moves the session to where it came from.
pub(crate) fn take_ping_reply(
    end: &mut EndState,
    near: u32,
    from: &Address,
    bytes: &[u8],
    out: &mut Outbox,
) -> Result<(), AllocError>
    requires { answers_by from.now bytes.now (get end.old.sessions near) ≡ true }
    ensures ok { OnOk result (Done (moved_by end.old near from.now bytes.now
        (get end.old.sessions near)) end.new out.old out.new) }
    ensures err { OnErr result (Done (nothing end.old) end.new out.old out.new) }
{
    out.make_room(1)?;
    end.sessions.move_to(near, from, bytes);
    out.add(Entry::Moved { near, to: *from });
    Ok(())
}
