//! What opening sessions answers, and what it sends.

use crypto_profile::{Generation, Keys};
use glare_core::Fact;
use rtmfp_base::Cause;
use rtmfp_forms::{Address, Outgoing};
use std::marker::Model;
use thiserror::Error;

/// A plain packet for one address, under a session ID, and what it is sealed with.
#[derive(Drop)]
pub struct Answer {
    /// Where it goes.
    pub to: Address,
    /// The session ID that it goes under.
    pub sid: u32,
    /// The packet.
    pub plain: Outgoing,
    /// The generation of the group's secret under which it is sealed.
    pub generation: u64,
    /// The startup keys of that generation.
    pub keys: Keys,
}

impl Answer {
    ghost use Rattle.std.specs.Prelude.{◌≡◌};
    ghost use Rattle.startup.specs.Answers.{answer_under};

    /// A packet that is sealed in this generation.
    pub(crate) fn under(under: &Generation, to: &Address, sid: u32, plain: Outgoing) -> Answer
        ensures { result ≡ answer_under under.now to.now sid plain }
    {
        Answer {
            to: *to,
            sid,
            plain,
            generation: under.number(),
            keys: under.startup().copy(),
        }
    }
}

/// One plain packet for several addresses, under session ID 0.
///
/// Contracts see it as the list of the addresses, and the packet.
#[derive(Drop)]
pub struct Spread {
    /// Where it goes: the first `count` of these, in their order.
    pub to: [Address; 16],
    /// How many addresses there are, at most 16.
    pub count: usize,
    /// The packet.
    pub plain: Outgoing,
}

impl Model for Spread {
    ghost use Rattle.std.specs.Prelude.{◌≤◌, take};
    ghost use Rattle.startup.specs.State.{SpreadParts, spread_code};
    ghost use Rattle.rtmfp_forms.specs.contracts.address.Address as address_type;

    ghost Value = { SpreadParts };

    ghost coded = { spread_code address_type.the_row.coded };

    ghost view = { λ s. record { to = take s.count s.to; plain = s.plain } };

    ghost invariant = { λ s. s.count ≤ 16 };
}

impl Spread {
    ghost use Rattle.std.specs.Prelude.{◌≡◌, ◌≤◌, length};

    /// The addresses, in order.
    pub fn addresses(&self) -> &[Address]
        ensures addresses { result.now ≡ self.now.to }
        ensures few { length result.now ≤ 16 }
    {
        &self.to[..self.count]
    }
}

/// Why a keying or a responder's hello changed nothing.
#[derive(Clone, Copy, Debug, PartialEq, Eq, Error)]
pub enum KeyRefusal {
    /// The chunk is discarded.
    #[error("the chunk is discarded: {0:?}")]
    Cause(Cause),
    /// There is no memory for what it would make.
    #[error("out of memory")]
    Memory,
}

/// One thing that time has made due.
#[derive(Drop)]
pub enum Due {
    /// An attempt wasn't answered in time; its end.
    Ended(Fact),
    /// A search wasn't answered in time; its near id. It is given up.
    Unsought(u32),
    /// The hellos of an attempt, again.
    Hello(Spread),
    /// The keying of an attempt, again.
    Keying(Answer),
}

/// What became of an initiator's keying.
#[derive(Drop)]
pub enum Keyed {
    /// Its cookie was made for another place or too long ago: a new one.
    Change(Answer),
    /// It is the keying of the held session: the responder's keying, again, as it was at first.
    Again(Answer),
    /// A session was born.
    Birth {
        /// The fact that ended what was held with the peer.
        ended: Option<Fact>,
        /// The fact of the session.
        born: Fact,
        /// The responder's keying.
        answer: Answer,
    },
}
