//! Sessions that this end closes (RFC 7016 section 3.5.5; the times are own).

ghost use Rattle.std.specs.Prelude.{◌≡◌, true, is_some, IfErr, IfNone, IfSome, OnErr, OnOk};
ghost use Rattle.std.specs.Prelude.{Err};
ghost use Rattle.endpoint_model.specs.InSessions.{closing, held_row};
ghost use Rattle.endpoint_model.specs.Log.{Extends, close_event};
ghost use Rattle.endpoint_model.specs.State.{Done, at_moment, nothing};

use crate::endpoint::Endpoint;
use end_state::{EndState, Outbox};
use endpoint_model::CallRefusal;
use glare_core::Why;
use rtmfp_chunks::ChunkView;
use std::alloc::AllocError;

/// The bytes of a close.
const CLOSE: usize = 3;

impl Endpoint {
    /// Closes the held session with this session ID: it ends, and a close goes out, which is sent
    /// again until it is answered (RFC 7016 section 3.5.5). The session ID stays in use until
    /// `Closed`.
    ///
    /// It is refused exactly where no held session has the session ID, or for want of memory; then
    /// all is as before but for the moment.
    pub fn close(&mut self, near: u32, moment: u64, out: &mut Outbox) -> Result<(), CallRefusal>
        ensures ok { OnOk result (Done (closing (at_moment self.old moment) near) self.new out.old
            out.new) }
        ensures refused { IfNone (held_row self.old near) (result ≡ Err CallRefusal.NoSession) }
        ensures memory { IfSome (held_row self.old near)
            (λ _. IfErr result (λ refusal. refusal ≡ CallRefusal.Memory)) }
        ensures err { OnErr result (Done (nothing (at_moment self.old moment)) self.new out.old
            out.new) }

        // The end stands for its log with this call.
        ensures stands { Extends self.old self.new
            (close_event near moment result out.old.entries out.new.entries) }
    {
        close_session(&mut self.end, near, moment, out)
    }
}

/// Closes a session, or tells why not.
fn close_session(
    end: &mut EndState,
    near: u32,
    moment: u64,
    out: &mut Outbox,
) -> Result<(), CallRefusal>
    ensures ok { OnOk result (Done (closing (at_moment end.old moment) near) end.new out.old
        out.new) }
    ensures refused { IfNone (held_row end.old near) (result ≡ Err CallRefusal.NoSession) }
    ensures memory { IfSome (held_row end.old near)
        (λ _. IfErr result (λ refusal. refusal ≡ CallRefusal.Memory)) }
    ensures err { OnErr result (Done (nothing (at_moment end.old moment)) end.new out.old
        out.new) }
{
    end.advance(moment);
    if !end.holds(near) {
        return Err(CallRefusal::NoSession);
    }
    match close_held(end, near, out) {
        Ok(()) => Ok(()),
        Err(_) => Err(CallRefusal::Memory),
    }
}

/// Closes a session that is held.
fn close_held(end: &mut EndState, near: u32, out: &mut Outbox) -> Result<(), AllocError>
    requires { is_some (held_row end.old near) ≡ true }
    ensures ok { OnOk result (Done (closing end.old near) end.new out.old out.new) }
    ensures err { OnErr result (Done (nothing end.old) end.new out.old out.new) }
{
    let blanks = end.blanks(CLOSE)?;
    out.make_room(1 + blanks.count())?;
    out.add_some(end.end_session(near, Why::Near));
    end.begin_closing(near);
    end.send_home(blanks, near, &ChunkView::Close, out);
    Ok(())
}
