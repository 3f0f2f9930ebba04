//! What holds of every end, whatever calls led to it. The functions do nothing: the contract of each
//! is its law.

ghost use Rattle.std.specs.Prelude.{◌≤◌};
ghost use Rattle.glare_core.specs.Ledger.{row_count};
ghost use Rattle.endpoint_model.specs.State.{uses};
ghost use Rattle.endpoint.specs.Holding.{AllFlowsAreWithin, AllFlowsHoldFew, HoldsWhatIsThere};
ghost use Rattle.endpoint.specs.Holding.{AllPiecesHoldFew, NoneOwesAcks};

use crate::endpoint::Endpoint;
use crate::laws;

impl Endpoint {
    /// There are never more attempts, searches and sessions than may be, those that are closing
    /// among them, and never more rows of peers.
    pub fn stays_within(&self)
        ensures sessions { uses self.now ≤ self.now.config.max_sessions }
        ensures peers { row_count self.now.startup.ledger ≤ self.now.config.max_peers }
    {
        let _end = &self.end;
    }

    /// What is held with the peers names just the attempts and the sessions that are there: each
    /// attempt is held under its number, its near ID and its nonce, each session as what it is by
    /// its role and its stage, and one that is closing not at all. A search is held with no peer.
    pub fn holds_what_is_there(&self)
        ensures { HoldsWhatIsThere self.now }
    {
        let _end = &self.end;
        laws::state_of_the_log();
    }

    /// No session has more flows than it may, and no flow holds more bytes, fragments and numbers.
    pub fn flows_hold_few(&self)
        ensures within { AllFlowsAreWithin self.now }
        ensures few { AllFlowsHoldFew self.now }
    {
        let _end = &self.end;
        laws::flows_are_within();
        laws::flows_hold_few();
    }

    /// No session holds more pieces than it may: those of at most 4 packets, no two under one ID,
    /// and of each packet at most 64 pieces and 4,096 bytes.
    pub fn pieces_hold_few(&self)
        ensures { AllPiecesHoldFew self.now }
    {
        let _end = &self.end;
        laws::pieces_hold_few();
    }

    /// No session owes an ack: those that a call owes go out in it, or are given up.
    pub fn owes_no_ack(&self)
        ensures { NoneOwesAcks self.now }
    {
        let _end = &self.end;
        laws::no_ack_is_owed();
    }
}
