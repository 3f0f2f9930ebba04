//! Where datagrams come from and go to.
ghost use Rattle.std.specs.Prelude.{◌≡◌};
ghost use Rattle.rtmfp_host.specs.Faults.{CountsBound, CountsGot, CountsSent};
ghost use Rattle.rtmfp_host.specs.Linking.{LinkSeen, Calls, Receives, Fits, given_by, is_done};

use rtmfp_base::Message;
use rtmfp_forms::Address;

/// What one bind did.
#[derive(Clone, Copy, Debug, PartialEq, Eq)]
pub enum Bound {
    /// Datagrams come in at the place from now on.
    Done,
    /// The outside failed, and its count of faults has risen.
    Failed,
}

/// What one receive gave.
#[derive(Clone, Copy, Debug, PartialEq, Eq)]
pub enum Got {
    /// A datagram from this place, so many bytes at the front of the buffer.
    Datagram {
        /// Where it comes from.
        from: Address,
        /// How many bytes it has, at most 2,048.
        length: usize,
    },
    /// None came until the moment.
    Quiet,
    /// The outside failed, and its count of faults has risen.
    Failed,
}

/// What one send did.
#[derive(Clone, Copy, Debug, PartialEq, Eq)]
pub enum Sent {
    /// The datagram went out.
    Done,
    /// The datagram is lost, and the count of losses has risen.
    Failed,
}

/// A place of a list: what a link has to give at one receive.
#[derive(Drop)]
pub enum Given {
    /// A datagram.
    Datagram {
        /// Where it comes from.
        from: Address,
        /// Its bytes.
        bytes: Message,
    },
    /// None until the moment.
    Quiet,
}

/// A call of a link.
#[derive(Drop)]
pub enum LinkCall {
    /// A bind.
    Bind {
        /// At this place.
        at: Address,
    },
    /// A receive.
    Receive {
        /// Until this moment.
        until: u64,
    },
    /// A send.
    Send {
        /// To this place.
        to: Address,
        /// The datagram.
        bytes: Message,
        /// Whether it was done.
        done: bool,
    },
}

/// A link to other ends (own).
pub trait Link {
    /// What it has still to give and the calls of it, where it tells them; how often `bind` and
    /// `receive` have failed; and how often `send` has. The two counts stand still at the end of a
    /// `u64`. A link that has told may stop telling; it doesn't begin again.
    ghost seen: { Self → LinkSeen };

    /// Takes the place at which datagrams come in.
    fn bind(&mut self, at: &Address) -> Bound
        ensures call { Calls (seen self.old).line (seen self.new).line (LinkCall.Bind at.now) }
        ensures faults { CountsBound result (seen self.old).faults (seen self.new).faults }
        ensures losses { (seen self.new).losses ≡ (seen self.old).losses };

    /// Waits for a datagram until a moment.
    fn receive(&mut self, until: u64, buf: &mut [u8; 2048]) -> Got
        ensures call { Receives (seen self.old).line (seen self.new).line until
            (given_by result buf.new) }
        ensures fits { Fits result }
        ensures faults { CountsGot result (seen self.old).faults (seen self.new).faults }
        ensures losses { (seen self.new).losses ≡ (seen self.old).losses };

    /// Sends a datagram. One that fails is lost, and raises the count of losses alone.
    fn send(&mut self, to: &Address, bytes: &[u8]) -> Sent
        ensures call { Calls (seen self.old).line (seen self.new).line
            (LinkCall.Send to.now bytes.now (is_done result)) }
        ensures faults { (seen self.new).faults ≡ (seen self.old).faults }
        ensures losses { CountsSent result (seen self.old).losses (seen self.new).losses };
}
