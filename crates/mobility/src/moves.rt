//! The tests of one session's address.

ghost use Rattle.std.specs.Prelude.{◌≡◌, None};
ghost use Rattle.mobility.specs.Tests.{asks, token_for, after_seen, is_answered, address_for, after_reply};

use crate::pending::{Test, is_answered, is_young};
use rtmfp_forms::Address;
use std::marker::Model;

/// The pending test of a session's address, if there is one. Contracts see it.
#[derive(Drop)]
pub struct Moves {
    pending: Option<Test>,
}

impl Model for Moves {
    ghost use Rattle.std.specs.Prelude.{Option};
    ghost use Rattle.mobility.specs.declared.pending.Test.{Test};

    ghost Value = { Option Test };

    ghost view = { λ moves. moves.pending };
}

impl Moves {
    /// No test is pending.
    pub fn new() -> Moves
        ensures { result ≡ None }
    {
        Moves { pending: None }
    }

    /// Whether `seen` would give a token (own). It changes nothing.
    pub fn asks(&self, current: &Address, from: &Address, moment: u64) -> bool
        ensures { result ≡ asks self.now current.now from.now moment }
    {
        !current.same_place(from) && !is_young(&self.pending, from, moment)
    }

    /// Begins a test of the place that a datagram of the session came from, instead of an earlier
    /// one, and gives the token to ping it with (own). The moment is in milliseconds. None exactly
    /// where it is the session's current place, or the place of a test that was begun less than
    /// 1,000 ms before.
    pub fn seen(
        &mut self,
        current: &Address,
        from: &Address,
        token: [u8; 16],
        moment: u64,
    ) -> Option<[u8; 16]>
        ensures answer { result ≡ token_for self.old current.now from.now token moment }
        ensures pending { self.new ≡ after_seen self.old current.now from.now token moment }
    {
        if !self.asks(current, from, moment) {
            return None;
        }
        self.pending = Some(Test {
            address: *from,
            token,
            moment,
        });
        Some(token)
    }

    /// Whether `reply` would give an address (own). It changes nothing.
    pub fn answers(&self, from: &Address, bytes: &[u8]) -> bool
        ensures { result ≡ is_answered self.now from.now bytes.now }
    {
        is_answered(&self.pending, from, bytes)
    }

    /// Takes the bytes of a reply to a ping, and gives the session's new address, which is where
    /// the reply came from (RFC 7016 section 3.5.4.2). None exactly where no test of this place
    /// with this token is pending. The test is over with its reply.
    pub fn reply(&mut self, from: &Address, bytes: &[u8]) -> Option<Address>
        ensures answer { result ≡ address_for self.old from.now bytes.now }
        ensures pending { self.new ≡ after_reply self.old from.now bytes.now }
    {
        if !self.answers(from, bytes) {
            return None;
        }
        self.pending = None;
        Some(*from)
    }
}
