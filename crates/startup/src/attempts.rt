//! How attempts begin, go on from hellos to keyings, and are given up.

ghost use Rattle.std.specs.Prelude.{◌≡◌, is_some};
ghost use Rattle.glare_core.specs.Ledger.{held_with};
ghost use Rattle.startup.specs.Attempts.{session_in};

use crate::aim::Aim;
use crate::answer::Spread;
use crate::attempt::{Attempt, Stage};
use crate::candidates::{Candidates, distinct_candidates};
use crate::rows::{Sought, end_at};
use crate::sending::hello_spread;
use crate::startup::Startup;
use glare_core::{Fact, Held, Peers, StartRefusal, Why};
use identity::Epd;
use rtmfp_base::Memory;
use rtmfp_forms::Address;

/// Whether a session is held with the peer.
fn holds_session(peers: &Peers, peer: &[u8; 32]) -> bool
    ensures { result ≡ is_some (session_in (held_with peers.now peer.now)) }
{
    match peers.held(peer) {
        Some(Held::Opening { .. }) => false,
        Some(_) => true,
        None => false,
    }
}

impl Startup {
    ghost use Rattle.std.specs.Prelude.{◌≡◌, ◌≢◌, ◌≤◌, length, None, Some, Err, IfSome, IfNone};
    ghost use Rattle.std.specs.Prelude.{IfOk, IfErr, OnErr};
    ghost use Rattle.std.specs.FinMap.{get};
    ghost use Rattle.glare_core.specs.Calls.{start_refusal, started_fact};
    ghost use Rattle.startup.specs.Attempts.{begin_spread, after_begin, cancel_fact, after_cancel};
    ghost use Rattle.startup.specs.Attempts.{confirm_fact, after_confirm, end_fact, after_end};

    /// Begins an attempt towards the end that the discriminator names, under a near id that isn't 0
    /// and that no held attempt has, with 1 to 16 candidate addresses; candidates at the same place
    /// count once.
    ///
    /// It gives Started, and the hello for all candidates, in order. The refusals are those
    /// of `Peers::start`, in their order; where it is refused, all is as before.
    pub fn begin(
        &mut self,
        epd: &Epd,
        candidates: &[Address],
        near: u32,
        ni: [u8; 16],
        tag: [u8; 16],
        moment: u64,
    ) -> Result<(Fact, Spread), StartRefusal>
        requires some { 1 ≤ length candidates.now }
        requires few { length candidates.now ≤ 16 }
        requires near { near ≢ 0 }
        requires free { get self.old.attempts near ≡ None }
        ensures fact { IfOk result (λ told. told.0
            ≡ started_fact self.old.ledger epd.now.print near ni) }
        ensures spread { IfOk result (λ told. told.1
            ≡ begin_spread self.old epd.now.print candidates.now ni tag moment) }
        ensures after { IfOk result (λ _. self.new
            ≡ after_begin self.old epd.now.print candidates.now near ni tag moment) }
        ensures refused { IfSome (start_refusal self.old.ledger epd.now.print) (λ refusal. result
            ≡ Err refusal) }
        ensures memory { IfNone (start_refusal self.old.ledger epd.now.print)
            (IfErr result (λ refusal. refusal ≡ StartRefusal.Memory)) }
        ensures err { OnErr result (self.new ≡ self.old) }
    {
        match self.peers.start_refusal(&epd.print) {
            Some(refusal) => return Err(refusal),
            None => {}
        }
        match self.attempts.reserve() {
            Ok(()) => {}
            Err(Memory) => return Err(StartRefusal::Memory),
        }
        let fact = match self.peers.start(&epd.print, near, ni) {
            Ok(fact) => fact,
            Err(refusal) => return Err(refusal),
        };
        let Candidates { to, count } = distinct_candidates(candidates);
        let attempt = Attempt {
            aim: Aim::AtPeer {
                peer: epd.print,
                n: self.peers.started(),
            },
            ni,
            tag,
            start: moment,
            candidates: to,
            count,
            stage: Stage::Hello,
            last: moment,
            gap: 0,
        };
        let spread = hello_spread(&attempt);
        self.attempts.keep(near, attempt);
        Ok((fact, spread))
    }

    /// Gives up the attempt with this number; None exactly where no held attempt has it, as no
    /// search does. It takes no memory.
    pub fn cancel(&mut self, n: u64) -> Option<Fact>
        ensures fact { result ≡ cancel_fact self.old n }
        ensures after { self.new ≡ after_cancel self.old n }
    {
        match self.attempts.find(&Sought::Number(n)) {
            Some(found) => {
                let near = found.near;
                end_at(&mut self.peers, &mut self.attempts, near, Why::Cancelled)
            }
            None => None,
        }
    }

    /// Confirms the half-open session with the peer; None exactly where nothing half-open is held.
    /// It takes no memory.
    pub fn confirm(&mut self, peer: &[u8; 32]) -> Option<Fact>
        ensures fact { result ≡ confirm_fact self.old peer.now }
        ensures after { self.new ≡ after_confirm self.old peer.now }
    {
        self.peers.confirm(peer)
    }

    /// Ends the session with the peer; None exactly where no session is held with it. What answers
    /// its repeated keying is forgotten. It takes no memory.
    ///
    /// A half-open session may end here with Unconfirmed, Near or Far, a kept one with Near, Far or
    /// Idle.
    pub fn end(&mut self, peer: &[u8; 32], why: Why) -> Option<Fact>
        ensures fact { result ≡ end_fact self.old peer.now why }
        ensures after { self.new ≡ after_end self.old peer.now why }
    {
        if !holds_session(&self.peers, peer) {
            return None;
        }
        self.kept.forget(peer);
        self.peers.end(peer, why)
    }
}
