//! Closes of a session by its peer (RFC 7016 section 3.5.5; the times are own).

ghost use Rattle.std.specs.Prelude.{OnErr, OnOk};
ghost use Rattle.std.specs.FinMap.{get};
ghost use Rattle.endpoint_model.specs.InSessions.{close_taken_by};
ghost use Rattle.endpoint_model.specs.State.{Done, nothing};
ghost use Rattle.end_state.specs.Steps.{Gives};
ghost use Rattle.end_chunks.specs.Steps.{lingering_by};

use end_state::{EndState, Outbox};
use endpoint_model::Entry;
use glare_core::Why;
use rtmfp_chunks::ChunkView;
use std::alloc::AllocError;

/// The bytes of an answer to a close.
const CLOSE_ACK: usize = 3;

/// Takes a close of the peer, which is answered.
pub(crate) fn take_close(end: &mut EndState, near: u32, out: &mut Outbox) -> Result<(), AllocError>
    ensures ok { OnOk result (Done (close_taken_by end.old near (get end.old.sessions near))
        end.new out.old out.new) }
    ensures err { OnErr result (Done (nothing end.old) end.new out.old out.new) }
{
    let blanks = end.blanks(CLOSE_ACK)?;
    out.make_room(1 + blanks.count())?;
    out.add_some(end_by_peer(end, near));
    end.send_home(blanks, near, &ChunkView::CloseAck, out);
    Ok(())
}

/// The session lingers. Where it was held it ends, and the entry that tells this is given.
fn end_by_peer(end: &mut EndState, near: u32) -> Option<Entry>
    ensures { Gives (lingering_by end.old near (get end.old.sessions near)) end.new result }
{
    if end.holds(near) {
        let told = end.end_session(near, Why::Far);
        end.linger(near);
        told
    } else {
        end.linger(near);
        None
    }
}
