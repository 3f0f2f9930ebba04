//! What a keying is found to be before anything changes, and what it then does. Each is read, and
//! its signature and cookie are tested, once.

ghost use Rattle.std.specs.Prelude.{ℕ, [], ◌∷◌, Option, ◌≡◌, ◌≢◌, IfOk, IfErr, OnErr, IsTrue};
ghost use Rattle.std.specs.Prelude.{Ok, Some, None};
ghost use Rattle.std.specs.FinMap.{get};
ghost use Rattle.sha2.specs.Sha256.{sha256};
ghost use Rattle.cookies.specs.declared.CookieTest.TheVariants.{Current};
ghost use Rattle.glare_core.specs.Account.{Gave};
ghost use Rattle.startup_packets.specs.Readings.{initiator_keying_in, responder_keying_in};
ghost use Rattle.startup.specs.Keyings.{keying_of};
ghost use Rattle.startup.specs.Attempts.{is_own};
ghost use Rattle.startup.specs.Keyings.{heard_cause, named_cause, keyed, after_keying};
ghost use Rattle.startup.specs.Keyings.{bears, keyed_facts, iikeying_cause};
ghost use Rattle.startup.specs.Keyings.{is_in_hello, attempt_cause, responder_cause, opening_cause};
ghost use Rattle.startup.specs.Keyings.{rikeying_cause, opened, after_opening};
ghost use Rattle.startup_packets.specs.Packets.{is_signed};
ghost use Rattle.startup.specs.Judging.{unless_cause, heard_as, hearing, judged_initiator};
ghost use Rattle.startup_packets.specs.Read.{initiator_of, responder_of};
ghost use Rattle.startup.specs.State.{peer_of_attempt};

use crate::aim::Aim;
use crate::answer::{KeyRefusal, Keyed};
use crate::attempt::{Attempt, Stage};
use crate::choosing::wide;
use crate::startup::Startup;
use cookies::CookieTest;
use crypto_profile::Generation;
use glare_core::{Fact, HearRefusal, Joined, Judged, Keying, Way};
use rtmfp_base::Cause;
use rtmfp_forms::Address;
use startup_packets::{
    InitiatorFields, ResponderFields, is_signed, read_initiator_keying, read_responder_keying,
};

/// What hearing an initiator's keying would be that isn't discarded.
#[derive(Drop)]
pub enum Hearing {
    /// Its cookie was made for another place or too long ago: a new one is sent.
    Change,
    /// It is this keying, of this held session: the responder's keying is sent again.
    Again(Keying, Joined),
    /// Its session is born, in this way.
    Birth(Keying, Way),
}

/// What a keying says to the ledger.
fn keying_of(fields: &InitiatorFields<'_>) -> Keying
    ensures { result ≡ keying_of (initiator_of fields.now) }
{
    Keying {
        peer: fields.cert.print(),
        n: fields.part.n,
        ni: fields.part.ni,
        far: fields.near,
    }
}

/// The cause that goes with a refusal of the ledger, which isn't want of memory.
fn heard_cause(full: Option<u32>, refusal: HearRefusal) -> Cause
    requires { refusal ≢ HearRefusal.Memory }
    ensures { heard_cause full (Some refusal) ≡ Some result }
{
    match refusal {
        HearRefusal::Stale(floor) => Cause::Stale(floor),
        HearRefusal::Glare(n) => Cause::Glare(n),
        HearRefusal::PeersFull(count) => Cause::PeersFull(count),
        HearRefusal::SessionsFull => Cause::SessionsFull(u64::from(full.unwrap_or(0))),
        HearRefusal::Memory => unreachable!(),
    }
}

/// What hearing a keying would be, by what the ledger judges.
fn heard_as(keying: Keying, judged: Judged) -> Hearing
    ensures { result ≡ heard_as keying judged }
{
    match judged {
        Judged::Again(session) => Hearing::Again(keying, session),
        Judged::Birth(way) => Hearing::Birth(keying, way),
    }
}

/// Whether the signature that a payload ends with is one of the group in this generation.
fn has_signed(payload: &[u8], sign: &[u8], under: &Generation) -> bool
    ensures { result ≡ is_signed under.now.secret payload.now sign.now }
{
    is_signed(under.sign(), payload, sign)
}

/// Whether hellos are sent.
pub(crate) fn is_in_hello(stage: &Stage) -> bool
    ensures { result ≡ is_in_hello stage.now }
{
    match stage {
        Stage::Hello => true,
        Stage::Keying { .. } => false,
    }
}

/// Why a responder's keying doesn't open this attempt.
fn unopened_cause(attempt: &Attempt, fields: &ResponderFields<'_>) -> Option<Cause>
    ensures { result ≡ attempt_cause (responder_of fields.now) (Some attempt.now) }
{
    if attempt.aim.is_search() {
        return Some(Cause::NoAttempt);
    }
    if is_in_hello(&attempt.stage) {
        return Some(Cause::WrongState);
    }
    if !attempt.aim.is_towards(&fields.part.responder) {
        return Some(Cause::WrongPeer);
    }
    if fields.part.ni != attempt.ni {
        return Some(Cause::NoAttempt);
    }
    None
}

/// The peer of this attempt, or why a responder's keying doesn't open it.
fn opened_peer(attempt: &Attempt, fields: &ResponderFields<'_>) -> Result<[u8; 32], Cause>
    ensures peer { IfOk result (λ peer. peer_of_attempt (Some attempt.now) ≡ Some peer) }
    ensures none { IfOk result (λ _. attempt_cause (responder_of fields.now) (Some attempt.now)
        ≡ None) }
    ensures refused { IfErr result (λ cause. attempt_cause (responder_of fields.now)
        (Some attempt.now) ≡ Some cause) }
{
    match unopened_cause(attempt, fields) {
        Some(cause) => Err(cause),
        None => match &attempt.aim {
            Aim::AtPeer { peer, .. } => Ok(*peer),
            Aim::ByName { .. } => unreachable!(),
        },
    }
}

impl Startup {
    /// Whether a certificate counts as the own one.
    pub(crate) fn is_own(&self, cert: &[u8], print: &[u8; 32]) -> bool
        requires { print.now ≡ sha256 cert.now }
        ensures { result ≡ is_own self.now cert.now }
    {
        *cert == *self.cert.bytes() || *print == self.print
    }

    /// What hearing a keying with a good cookie would be, or why it is discarded.
    fn judge_named(&self, fields: &InitiatorFields<'_>, full: Option<u32>) -> Result<Hearing, Cause>
        ensures { result ≡ unless_cause (hearing self.now (initiator_of fields.now) Current)
            (named_cause self.now (initiator_of fields.now) full) }
    {
        if fields.part.responder != self.print {
            return Err(Cause::WrongResponder);
        }
        let keying = keying_of(fields);
        if self.is_own(fields.cert.bytes(), &keying.peer) {
            return Err(Cause::OwnCertificate);
        }
        match self.peers.judge(&keying, full.is_none()) {
            Ok(judged) => Ok(heard_as(keying, judged)),
            Err(refusal) => Err(heard_cause(full, refusal)),
        }
    }

    /// What hearing an initiator's keying would be, which came from an address and opened in this
    /// generation, or why it is discarded; `full` is the limit on sessions where there is no room
    /// for one more.
    ///
    /// The causes are those of `initiator_keying`, in their order. It changes nothing and takes no
    /// memory.
    pub fn judge_initiator_keying(
        &self,
        fields: &InitiatorFields<'_>,
        from: &Address,
        moment: u64,
        full: Option<u32>,
        under: &Generation,
    ) -> Result<Hearing, Cause>
        ensures { result ≡ judged_initiator self.now fields.now.payload.now from.now moment full
            under.now (initiator_of fields.now) }
    {
        if !has_signed(fields.payload, fields.sign, under) {
            return Err(Cause::BadSignature);
        }
        match wide(fields.cookie) {
            Some(cause) => return Err(cause),
            None => {}
        }
        match self.cookies.test(fields.cookie, from, moment) {
            CookieTest::Bad => Err(Cause::BadCookie),
            CookieTest::Moved => Ok(Hearing::Change),
            CookieTest::Expired => Ok(Hearing::Change),
            CookieTest::Current => self.judge_named(fields, full),
        }
    }

    /// Hears an initiator's keying that was found to be this, and isn't discarded.
    ///
    /// Only a birth takes memory, for the row of a peer that has none and for what is kept; where
    /// there is none all is as before.
    pub fn apply_initiator_keying(
        &mut self,
        fields: &InitiatorFields<'_>,
        hearing: &Hearing,
        from: &Address,
        moment: u64,
        near: u32,
        nr: [u8; 16],
        under: &Generation,
    ) -> Result<Keyed, KeyRefusal>
        requires reads { initiator_keying_in fields.now.payload.now ≡ Ok (initiator_of fields.now) }
        requires judged { (full : Option ℕ) × (judged_initiator self.old fields.now.payload.now
            from.now moment full under.now (initiator_of fields.now) ≡ Ok hearing.now) }
        ensures ok { IfOk result (λ a. (keyed self.old fields.now.payload.now from.now moment near
            nr under.now ≡ Some a) × (self.new
            ≡ after_keying self.old fields.now.payload.now from.now moment near nr under.now)) }
        ensures memory { IfErr result (λ refusal. (refusal ≡ KeyRefusal.Memory) ×
            IsTrue (bears self.old fields.now.payload.now from.now moment)) }
        ensures err { OnErr result (self.new ≡ self.old) }
        ensures gave { IfOk result (λ a. Gave self.old.ledger (keyed_facts a) self.new.ledger) }
    {
        match hearing {
            Hearing::Change => Ok(Keyed::Change(self.change_answer(fields, from, moment, under))),
            Hearing::Again(keying, session) => {
                Ok(Keyed::Again(self.again(&keying.peer, session, from)))
            }
            Hearing::Birth(keying, way) => self.bear(keying, way, from, near, nr, under),
        }
    }

    /// Why an initiator's keying is discarded.
    pub(crate) fn iikeying_cause(
        &self,
        payload: &[u8],
        from: &Address,
        moment: u64,
        full: Option<u32>,
        under: &Generation,
    ) -> Option<Cause>
        ensures { result ≡ iikeying_cause self.now payload.now from.now moment full under.now }
    {
        match read_initiator_keying(payload) {
            Ok(fields) => self
                .judge_initiator_keying(&fields, from, moment, full, under)
                .err(),
            Err(cause) => Some(cause),
        }
    }

    /// The peer whose attempt with this near id a responder's keying opens, which opened in this
    /// generation, or why the keying is discarded.
    ///
    /// The causes are those of `responder_keying`, in their order. It changes nothing and takes no
    /// memory.
    pub fn judge_responder_keying(
        &self,
        near: u32,
        fields: &ResponderFields<'_>,
        under: &Generation,
    ) -> Result<[u8; 32], Cause>
        ensures peer { IfOk result (λ peer. peer_of_attempt (get self.now.attempts near)
            ≡ Some peer) }
        ensures none { IfOk result (λ _. responder_cause self.now near fields.now.payload.now
            under.now (responder_of fields.now) ≡ None) }
        ensures refused { IfErr result (λ cause. responder_cause self.now near
            fields.now.payload.now under.now (responder_of fields.now) ≡ Some cause) }
    {
        if !has_signed(fields.payload, fields.sign, under) {
            return Err(Cause::BadSignature);
        }
        match self.attempts.get(near) {
            Some(attempt) => opened_peer(attempt, fields),
            None => Err(Cause::NoAttempt),
        }
    }

    /// The peer whose attempt with this near id a responder's keying opens, or why the keying is
    /// discarded, where the attempt is looked up before the signature is tested.
    ///
    /// No such attempt is the first cause then, and behind it come those of `responder_keying`, in
    /// their order. It changes nothing and takes no memory.
    pub fn judge_opening(
        &self,
        near: u32,
        fields: &ResponderFields<'_>,
        under: &Generation,
    ) -> Result<[u8; 32], Cause>
        ensures peer { IfOk result (λ peer. peer_of_attempt (get self.now.attempts near)
            ≡ Some peer) }
        ensures none { IfOk result (λ _. opening_cause self.now near fields.now.payload.now
            under.now (responder_of fields.now) ≡ None) }
        ensures refused { IfErr result (λ cause. opening_cause self.now near
            fields.now.payload.now under.now (responder_of fields.now) ≡ Some cause) }
    {
        let Some(attempt) = self.attempts.get(near) else {
            return Err(Cause::NoAttempt);
        };
        if !has_signed(fields.payload, fields.sign, under) {
            return Err(Cause::BadSignature);
        }
        opened_peer(attempt, fields)
    }

    /// Opens the session of the attempt with this near id, which is one with this peer; the attempt
    /// leaves. It takes no memory.
    pub fn apply_responder_keying(
        &mut self,
        near: u32,
        peer: &[u8; 32],
        fields: &ResponderFields<'_>,
    ) -> Fact
        requires reads { responder_keying_in fields.now.payload.now ≡ Ok (responder_of fields.now) }
        requires peer { peer_of_attempt (get self.old.attempts near) ≡ Some peer.now }
        ensures fact { opened self.old near fields.now.payload.now ≡ Some result }
        ensures after { self.new ≡ after_opening self.old near result }
        ensures gave { Gave self.old.ledger (result ∷ []) self.new.ledger }
    {
        match self
            .peers
            .answer(peer, fields.part.nr, fields.near, fields.part.k)
        {
            Some(fact) => {
                self.attempts.forget(near);
                fact
            }
            None => unreachable!(),
        }
    }

    /// Why a responder's keying is discarded that came under this near id.
    pub(crate) fn rikeying_cause(
        &self,
        near: u32,
        payload: &[u8],
        under: &Generation,
    ) -> Option<Cause>
        ensures { result ≡ rikeying_cause self.now near payload.now under.now }
    {
        match read_responder_keying(payload) {
            Ok(fields) => self.judge_responder_keying(near, &fields, under).err(),
            Err(cause) => Some(cause),
        }
    }
}
