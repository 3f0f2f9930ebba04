//! Acks that a session owes, which go out after the chunks of a datagram.

ghost use Rattle.std.specs.Prelude.{◌≡◌, ◌≤◌};
ghost use Rattle.std.specs.FinMap.{get};
ghost use Rattle.endpoint_model.specs.FlowChunks.{acked_by, owes_by, unowed_by};
ghost use Rattle.endpoint_model.specs.Sending.{limit_of};
ghost use Rattle.endpoint_model.specs.State.{Done};
ghost use Rattle.end_state.specs.Steps.{datagrams_for};

use crate::end_state::EndState;
use crate::memory::Blanks;
use crate::outbox::Outbox;

impl EndState {
    /// Whether the session with this session ID owes acks.
    pub fn owes_acks(&self, near: u32) -> bool
        ensures { result ≡ owes_by (get self.now.sessions near) }
    {
        match self.sessions.row(near) {
            Some(row) => row.flows.owes_acks(),
            None => false,
        }
    }

    /// Sends one packet of the acks that the session with this session ID owes, to where its
    /// datagrams go. Where an ID or one of the counts is lacking nothing goes out, and the acks
    /// aren't owed any more.
    pub fn send_acks(&mut self, blanks: Blanks, near: u32, out: &mut Outbox)
        requires enough { datagrams_for (limit_of self.old) 1159 ≤ blanks }
        requires room { blanks ≤ out.old.free }
        ensures { Done (acked_by self.old near (get self.old.sessions near)) self.new out.old
            out.new }
    {
        let Some(row) = self.sessions.row(near) else {
            return;
        };
        let to = *row.session.address();
        let Blanks { first, more } = blanks;
        let limit = self.limit();
        let packed = self.sessions.seal_acks(near, self.moment, limit, first);
        self.send_packed(packed, more, near, &to, out);
    }

    /// The session with this session ID owes no acks any more.
    pub fn forget_acks(&mut self, near: u32)
        ensures { self.new ≡ unowed_by self.old near (get self.old.sessions near) }
    {
        self.sessions.forget_acks(near);
    }
}
