//! Redirects, which tell further addresses of the peer that an attempt is towards.

ghost use Rattle.std.specs.Prelude.{ℕ, ◌≡◌, ◌≤◌, length, take, Option, Err, Some, None};
ghost use Rattle.std.specs.Prelude.{IfErr, IfNone, IfOk, IfSome, IsOk, OnErr};
ghost use Rattle.startup.specs.State.{AttemptState};
ghost use Rattle.startup.specs.Attempts.{has_tag, lowest};
ghost use Rattle.startup.specs.Redirects.{added, adds, after_redirect, new_candidates};
ghost use Rattle.startup.specs.Redirects.{redirect_answer, redirect_cause, redirect_cause_among};
ghost use Rattle.startup.specs.Redirects.{redirect_spread, redirect_spread_of, told_addresses};
ghost use Rattle.startup.specs.Sought.{IsExtension};
ghost use Rattle.startup.specs.Judging.{after_extension_of, extension_spread, Extends, IsFound};

use crate::answer::{Answer, Spread};
use crate::attempt::Change;
use crate::candidates::{Candidates, new_candidates};
use crate::choosing::wide;
use crate::indexed::IndexedAttempts;
use crate::judging::is_in_hello;
use crate::leaving::Found;
use crate::rows::{FoundAttempt, Sought};
use crate::sending::hello_to;
use crate::startup::Startup;
use crypto_profile::Generation;
use rtmfp_base::Cause;
use rtmfp_forms::Address;
use startup_packets::redirect_packet;
use std::marker::Model;

/// What a redirect adds: the attempt that was found, and its further candidates.
///
/// Contracts see the candidates as their list.
#[derive(Drop)]
pub struct Extension {
    pub(crate) found: Found,
    pub(crate) new: Candidates,
}

impl Model for Extension {
    ghost use Rattle.std.specs.Prelude.{◌≡◌, length, take};
    ghost use Rattle.startup.specs.Judging.{ExtensionParts, extension_code};
    ghost use Rattle.rtmfp_forms.specs.contracts.address.Address as address_type;
    ghost use Rattle.startup.specs.contracts.leaving.Found as found_type;

    ghost Value = { ExtensionParts };

    ghost coded = { extension_code found_type.the_row.coded address_type.the_row.coded };

    ghost view = { λ e. record { found = e.found; new = take e.new.count e.new.to } };

    ghost invariant = { λ e. length (take e.new.count e.new.to) ≡ e.new.count };
}

impl Extension {
    ghost use Rattle.std.specs.Prelude.{◌≡◌, length};

    /// How many hellos it sends: one to each of the further candidates.
    pub fn count(&self) -> usize
        ensures { result ≡ length self.now.new }
    {
        self.new.count
    }
}

/// What a redirect with this tag and list adds that came from an address, or why it is discarded.
fn extension_by(
    attempts: &IndexedAttempts,
    tag: &[u8],
    list: &[u8],
    from: &Address,
) -> Result<Extension, Cause>
    ensures chosen { IfOk result (λ e. IsExtension attempts.now.attempts tag.now
        (told_addresses list.now from.now) e.found.near e.new) }
    ensures counted { IfOk result (λ e. length e.new ≡ added
        (redirect_cause_among attempts.now.attempts tag.now (told_addresses list.now from.now))
        (redirect_spread_of (lowest (has_tag tag.now) attempts.now.attempts)
        (told_addresses list.now from.now))) }
    ensures none { IfOk result (λ _. redirect_cause_among attempts.now.attempts tag.now
        (told_addresses list.now from.now) ≡ None) }
    ensures refused { IfErr result (λ cause. redirect_cause_among attempts.now.attempts tag.now
        (told_addresses list.now from.now) ≡ Some cause) }
{
    match wide(tag) {
        Some(cause) => return Err(cause),
        None => {}
    }
    let Some(FoundAttempt { near, attempt }) = attempts.find(&Sought::Tag(tag)) else {
        return Err(Cause::NoAttempt);
    };
    if !is_in_hello(&attempt.stage) {
        return Err(Cause::WrongState);
    }
    let held = attempt.addresses();
    match new_candidates(held, list, from) {
        Some(new) => Ok(Extension {
            found: Found { near },
            new,
        }),
        None => Err(Cause::CandidatesFull(held.len() as u64)),
    }
}

/// The redirect that answers a hello with this tag, to where the hello came from: the addresses, as
/// they are (RFC 7016 section 3.5.1.4), sealed in the generation in which the hello opened. It takes
/// no memory.
pub fn redirect_answer(
    tag: &[u8],
    addresses: &[Address],
    to: &Address,
    under: &Generation,
) -> Answer
    requires tag { length tag.now ≤ 128 }
    requires few { length addresses.now ≤ 16 }
    ensures { result ≡ redirect_answer tag.now addresses.now to.now under.now }
{
    Answer::under(under, to, 0, redirect_packet(tag, addresses))
}

impl Startup {
    /// What a redirect adds, or why it is discarded.
    ///
    /// The causes are those of `redirect`, in their order. It changes nothing and takes no memory.
    pub fn judge_redirect(
        &self,
        tag: &[u8],
        list: &[u8],
        from: &Address,
    ) -> Result<Extension, Cause>
        ensures extension { IfOk result (λ e. IsExtension self.now.attempts tag.now
            (told_addresses list.now from.now) e.found.near e.new) }
        ensures ok { IfOk result (λ e. length e.new ≡ adds self.now tag.now list.now from.now) }
        ensures none { IfOk result (λ _. redirect_cause self.now tag.now list.now from.now
            ≡ None) }
        ensures refused { IfErr result (λ cause. redirect_cause self.now tag.now list.now from.now
            ≡ Some cause) }
    {
        extension_by(&self.attempts, tag, list, from)
    }

    /// An attempt that was found has what a redirect adds as candidates, and its hello for them is
    /// given; where nothing is added, all is as before. It takes no memory.
    pub fn apply_redirect(&mut self, extension: &Extension, moment: u64) -> Spread
        requires { Extends self.old extension.now }
        ensures spread { (chosen : Option (ℕ × AttemptState)) →
            IsFound self.old extension.now.found chosen →
            extension_spread chosen extension.now.new ≡ Some result }
        ensures after { (chosen : Option (ℕ × AttemptState)) →
            IsFound self.old extension.now.found chosen →
            self.new ≡ after_extension_of self.old chosen extension.now.new moment }
    {
        let near = extension.found.near;
        let new = &extension.new;
        let spread = match self.attempts.get(near) {
            Some(attempt) => hello_to(attempt, &new.to, new.count),
            None => unreachable!(),
        };
        if new.count == 0 {
            return spread;
        }
        self.attempts
            .change(near, &Change::Extended(&new.to[..new.count]), moment);
        spread
    }

    /// How many hellos `redirect` would send for this redirect; 0 where it would give a cause. It
    /// changes nothing and takes no memory.
    pub fn adds(&self, tag: &[u8], list: &[u8], from: &Address) -> usize
        ensures { result ≡ adds self.now tag.now list.now from.now }
    {
        match self.judge_redirect(tag, list, from) {
            Ok(extension) => extension.count(),
            Err(_) => 0,
        }
    }

    /// Hears a redirect with this tag and list of addresses, which came from an address (RFC 7016
    /// section 3.5.1.4): those that aren't candidates yet are, and the attempt's hello for them is
    /// given. Of addresses at one place the first counts; a list without addresses counts as one of
    /// its source (own). It takes no memory.
    ///
    /// The causes, in their order, are a wide tag, no attempt with this tag (of several the one
    /// with the lowest near id counts), an attempt that was answered already, and more than 16
    /// candidates with the new ones; where one stands, or nothing is added, all is as before. The
    /// generation in which it opened isn't used: its hellos are sealed in the current one.
    pub fn redirect(
        &mut self,
        tag: &[u8],
        list: &[u8],
        from: &Address,
        moment: u64,
        _generation: u64,
        _secret: &[u8; 32],
    ) -> Result<Spread, Cause>
        ensures spread { IfOk result (λ spread. redirect_spread self.old tag.now list.now from.now
            ≡ Some spread) }
        ensures after { IfOk result (λ _. self.new
            ≡ after_redirect self.old tag.now list.now from.now moment) }
        ensures refused { IfSome (redirect_cause self.old tag.now list.now from.now)
            (λ cause. result ≡ Err cause) }
        ensures heard { IfNone (redirect_cause self.old tag.now list.now from.now) (IsOk result) }
        ensures err { OnErr result (self.new ≡ self.old) }
    {
        match self.judge_redirect(tag, list, from) {
            Ok(extension) => Ok(self.apply_redirect(&extension, moment)),
            Err(cause) => Err(cause),
        }
    }
}
