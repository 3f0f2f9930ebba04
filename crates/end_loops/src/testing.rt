//! Tests of addresses: a session whose peer may have moved is pinged where its datagram came from
//! (RFC 7016 section 3.5.4.2).

ghost use Rattle.std.specs.Prelude.{◌≡◌, ◌<◌, true, OnErr, OnOk};
ghost use Rattle.std.specs.FinMap.{get};
ghost use Rattle.endpoint_model.specs.InSessions.{asks_at, asks_by, held_row, tested, tested_by};
ghost use Rattle.endpoint_model.specs.State.{Done, nothing};
ghost use Rattle.end_loops.specs.Pending.{test_pending};

use end_state::{EndState, Outbox};
use endpoint_model::{Draws, Place};
use rtmfp_chunks::ChunkView;
use rtmfp_forms::Address;
use std::alloc::AllocError;

/// The bytes of a ping with a token.
const TEST: usize = 19;

/// Whether a datagram from this address asks for a test of it.
fn asks(end: &EndState, near: u32, from: &Address) -> bool
    ensures { result ≡ asks_by end.now from.now (held_row end.now near) }
{
    match end.sessions.row(near) {
        Some(row) => {
            row.session.is_held() && row.moves.asks(row.session.address(), from, end.moment)
        }
        None => false,
    }
}

/// A test of this address is pending from now on, with this token.
fn begin_test(end: &mut EndState, near: u32, from: &Address, token: [u8; 16])
    ensures { end.new ≡ test_pending end.old near from.now token
        (get end.old.sessions near) }
{
    end.sessions.test(near, from, token, end.moment);
}

/// Tests the address that a datagram of a session came from, where that asks for it: a ping
/// with the drawn token goes there.
fn test_in(
    end: &mut EndState,
    near: u32,
    from: &Address,
    token: [u8; 16],
    out: &mut Outbox,
) -> Result<(), AllocError>
    ensures ok { OnOk result (Done (tested_by end.old near from.now token
        (held_row end.old near)) end.new out.old out.new) }
    ensures err { OnErr result (Done (nothing end.old) end.new out.old out.new) }
    ensures asked { OnErr result (asks_by end.old from.now (held_row end.old near) ≡ true) }
{
    if !asks(end, near, from) {
        return Ok(());
    }
    let blanks = end.blanks(TEST)?;
    out.make_room(blanks.count())?;
    begin_test(end, near, from, token);
    end.send_in_session(blanks, near, from, &ChunkView::Ping { bytes: &token }, out);
    Ok(())
}

/// Tests the address that a datagram came from, after its chunks. No memory is asked for where
/// none is tested.
pub(crate) fn test(
    end: &mut EndState,
    place: Place,
    from: &Address,
    draws: &Draws,
    out: &mut Outbox,
) -> Result<(), AllocError>
    ensures ok { OnOk result (Done (tested end.old place from.now draws.now) end.new out.old
        out.new) }
    ensures err { OnErr result (Done (nothing end.old) end.new out.old out.new) }
    ensures asked { OnErr result (asks_at end.old place from.now ≡ true) }
{
    match place {
        Place::Startup { .. } => Ok(()),
        Place::Attempt { .. } => Ok(()),
        Place::Session(near) => test_in(end, near, from, draws.token, out),
    }
}
