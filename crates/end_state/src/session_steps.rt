//! The steps of which ends and closings of a session are made.

ghost use Rattle.std.specs.Prelude.{◌≡◌, is_some, IfSome, OnErr, OnOk};
ghost use Rattle.std.specs.FinMap.{get};
ghost use Rattle.session_core.specs.Closing.{after_due, asked_to_close, closed_near, first_due};
ghost use Rattle.session_core.specs.Closing.{kept_alive};
ghost use Rattle.endpoint_model.specs.InSessions.{held_row, closed};
ghost use Rattle.endpoint_model.specs.State.{Done, without_row, nothing};
ghost use Rattle.endpoint_model.specs.FlowTimes.{all_late};
ghost use Rattle.session_table.specs.FlowTimes.{OverdueWaits, overdue_gone};
ghost use Rattle.end_state.specs.Steps.{Gives, end_told, row_changed, session_changed};

use crate::end_state::EndState;
use crate::outbox::{Outbox, fact_entry};
use endpoint_model::Entry;
use glare_core::Why;
use std::alloc::AllocError;

impl EndState {
    /// Whether a session with this session ID is held, which hasn't ended.
    pub fn holds(&self, near: u32) -> bool
        ensures { result ≡ is_some (held_row self.now near) }
    {
        match self.sessions.row(near) {
            Some(row) => row.session.is_held(),
            None => false,
        }
    }

    /// Ends the session with this session ID, and gives the entry that tells it. Its row stays.
    pub fn end_session(&mut self, near: u32, why: Why) -> Option<Entry>
        ensures { Gives (end_told self.old why (get self.old.sessions near)) self.new result }
    {
        match self.sessions.row(near) {
            Some(row) => {
                let peer = row.session.joined().peer;
                let fact = self.startup.end(&peer, why);
                fact_entry(fact)
            }
            None => None,
        }
    }

    /// This end closes the session from now on.
    pub fn begin_closing(&mut self, near: u32)
        ensures { self.new ≡ session_changed closed_near self.old near
            (get self.old.sessions near) }
    {
        self.sessions.close(near, self.moment);
    }

    /// The session lingers from now on, since its peer closes it.
    pub fn linger(&mut self, near: u32)
        ensures { self.new ≡ session_changed asked_to_close self.old near
            (get self.old.sessions near) }
    {
        self.sessions.linger(near, self.moment);
    }

    /// What is due of the session counts as done.
    pub fn note_due(&mut self, near: u32)
        ensures { self.new ≡ session_changed (λ moment x. after_due (first_due x moment) moment x)
            self.old near (get self.old.sessions near) }
    {
        self.sessions.note_due(near, self.moment);
    }

    /// The keepalive of the session counts as sent.
    pub fn note_keepalive(&mut self, near: u32)
        ensures { self.new ≡ session_changed kept_alive self.old near
            (get self.old.sessions near) }
    {
        self.sessions.note_keepalive(near, self.moment);
    }

    /// Marks as lost, in each session that is held, the numbers of its flows that are lost by time.
    pub fn lose_late(&mut self)
        ensures { self.new ≡ all_late self.old }
    {
        self.sessions.lose_late(self.moment);
    }

    /// Abandons the first message of the session's flows that is sent no longer, where there is
    /// one. What is stated of it isn't told.
    pub fn abandon_overdue(&mut self, near: u32)
        ensures state { self.new ≡ row_changed overdue_gone self.old near
            (get self.old.sessions near) }
        ensures waits { IfSome (get self.old.sessions near)
            (λ row. OverdueWaits self.old.moment row) }
    {
        self.sessions.abandon_overdue(near, self.moment);
    }

    /// Forgets the session with this session ID, whose ID is free then.
    pub fn forget_session(&mut self, near: u32)
        ensures { self.new ≡ without_row self.old near }
    {
        self.sessions.forget(near);
    }

    /// The closing of a session is over.
    pub fn finish_closing(&mut self, near: u32, out: &mut Outbox) -> Result<(), AllocError>
        ensures ok { OnOk result (Done (closed self.old near) self.new out.old out.new) }
        ensures err { OnErr result (Done (nothing self.old) self.new out.old out.new) }
    {
        out.make_room(1)?;
        self.forget_session(near);
        out.add(Entry::Closed { near });
        Ok(())
    }
}
