//! The keyings that bear and open sessions, and the hellos that an end answers (RFC 7016 section
//! 3.5.1).

ghost use Rattle.std.specs.FinMap.{get};
ghost use Rattle.crypto_profile.specs.declared.group.GroupSecret.{GroupSecret};
ghost use Rattle.startup.specs.declared.answer.Keyed.TheVariants.{Again as IsAgain};
ghost use Rattle.std.specs.Prelude.{Bool, [], ◌∷◌, ◌≡◌, ◌≢◌, ◌≤◌, length, true, false, IfOk, IfErr};
ghost use Rattle.std.specs.Prelude.{IfSome, IfNone, IsOkAnd, IsTrue, OnErr, Ok, Err, Some, None};
ghost use Rattle.sha2.specs.Sha256.{sha256};
ghost use Rattle.identity.specs.Targets.{selects, target_of};
ghost use Rattle.glare_core.specs.declared.answers.Judged.TheVariants.{Birth as IsBirth};
ghost use Rattle.glare_core.specs.Ledger.{held_with};
ghost use Rattle.glare_core.specs.Account.{Gave};
ghost use Rattle.glare_core.specs.Calls.{judged};
ghost use Rattle.startup.specs.Keyings.{initiator_hello_cause, initiator_hello_answer};
ghost use Rattle.startup.specs.Keyings.{iikeying_cause, change_answer, session_answer};
ghost use Rattle.startup.specs.Keyings.{kept_keying, kept_answer, again_by};
ghost use Rattle.startup.specs.Keyings.{repeated_session, again_or_birth, after_again_or_birth};
ghost use Rattle.startup.specs.Keyings.{keyed, after_keying, bears, keyed_facts, attempt_gone, gone_for};
ghost use Rattle.startup.specs.Answers.{group_of};
ghost use Rattle.startup.specs.State.{is_born_here};
ghost use Rattle.startup.specs.Keyings.{rikeying_cause, opened, after_opening};
ghost use Rattle.startup_packets.specs.Read.{initiator_of};

use crate::answer::{Answer, KeyRefusal, Keyed};
use crate::choosing::wide;
use crate::kept::KeptKeying;
use crate::rows::forget;
use crate::startup::Startup;
use crypto_profile::{Generation, Keys};
use glare_core::{Fact, Joined, Keying, Way, Why};
use rtmfp_base::{Cause, Memory};
use rtmfp_forms::Address;
use startup_packets::{
    InitiatorFields, cookiechange_packet, read_initiator_keying, read_responder_keying,
    rhello_packet, rikeying_packet, rikeying_signature,
};

/// The near id of what ends for such a cause, where it is an attempt that makes way for a session.
fn gone_for(near: u32, why: Why) -> Option<u32>
    ensures { result ≡ gone_for near why }
{
    match why {
        Why::Glare => Some(near),
        _ => None,
    }
}

/// The near id of the attempt that made way for a session, where one did.
fn attempt_gone(ended: &Option<Fact>) -> Option<u32>
    ensures { result ≡ attempt_gone ended.now }
{
    match ended {
        Some(Fact::Ended { near, why, .. }) => gone_for(*near, *why),
        _ => None,
    }
}

impl Startup {
    /// Why an initiator's hello isn't answered.
    pub fn initiator_hello_cause(&self, epd: &[u8], tag: &[u8]) -> Option<Cause>
        ensures { result ≡ initiator_hello_cause self.now epd.now tag.now }
    {
        if let Some(cause) = wide(tag) {
            return Some(cause);
        }
        if self.is_selected_by(epd) {
            return None;
        }
        Some(Cause::NotSelected)
    }

    /// Whether a discriminator selects the own certificate, by its fingerprint or by its name.
    pub fn is_selected_by(&self, epd: &[u8]) -> bool
        ensures { result ≡ selects (target_of epd.now) self.now.cert }
    {
        self.cert.is_selected_by(&self.print, epd)
    }

    /// Answers an initiator's hello, which came from an address or has it as its reply address, by
    /// the own hello: its tag, a new cookie for the address, and the own certificate (RFC 7016
    /// section 3.5.1.1). It is sealed in this generation. It takes no memory.
    ///
    /// The causes are, in this order: a wide tag, and a discriminator that doesn't select the own
    /// certificate.
    pub fn hello(
        &self,
        epd: &[u8],
        tag: &[u8],
        to: &Address,
        moment: u64,
        generation: u64,
        secret: &[u8; 32],
    ) -> Result<Answer, Cause>
        ensures ok { IfNone (initiator_hello_cause self.now epd.now tag.now) (result
            ≡ Ok (initiator_hello_answer self.now tag.now to.now moment
            (group_of generation secret.now))) }
        ensures refused { IfSome (initiator_hello_cause self.now epd.now tag.now) (λ cause. result
            ≡ Err cause) }
    {
        match self.initiator_hello_cause(epd, tag) {
            Some(cause) => Err(cause),
            None => {
                let under = Generation::of(generation, secret);
                Ok(self.apply_hello(tag, to, moment, &under))
            }
        }
    }

    /// The own hello with this tag for an address, sealed in this generation, where no cause keeps
    /// it from being sent. It takes no memory.
    pub fn apply_hello(&self, tag: &[u8], to: &Address, moment: u64, under: &Generation) -> Answer
        requires { length tag.now ≤ 128 }
        ensures { result ≡ initiator_hello_answer self.now tag.now to.now moment under.now }
    {
        let cookie = self.cookies.make(to, moment);
        let plain = rhello_packet(tag, cookie.bytes(), self.cert.bytes());
        Answer::under(under, to, 0, plain)
    }

    /// A new cookie for the address, in place of that of the keying.
    pub(crate) fn change_answer(
        &self,
        fields: &InitiatorFields<'_>,
        from: &Address,
        moment: u64,
        under: &Generation,
    ) -> Answer
        requires { length fields.now.cookie.now ≤ 128 }
        ensures { result ≡ change_answer self.now (initiator_of fields.now) from.now moment
            under.now }
    {
        let cookie = self.cookies.make(from, moment);
        let plain = cookiechange_packet(fields.cookie, cookie.bytes());
        Answer::under(under, from, fields.near, plain)
    }

    /// What is kept of the responder's keying of a session that is born in this generation.
    pub(crate) fn kept_keying(&self, session: &Joined, under: &Generation) -> KeptKeying
        ensures { result ≡ kept_keying self.now session.now under.now }
    {
        KeptKeying {
            generation: under.number(),
            keys: under.startup().plain(),
            sign: rikeying_signature(
                under.sign(),
                session.near,
                &session.nr,
                session.k,
                &self.print,
                &session.ni,
            ),
        }
    }

    /// The responder's keying of a session, as it is kept, with the kept keys hashed for use.
    pub(crate) fn kept_answer(
        &self,
        session: &Joined,
        from: &Address,
        kept: &KeptKeying,
        keys: Keys,
    ) -> Answer
        requires { keys ≡ kept.now.keys }
        ensures kept { result ≡ kept_answer self.now session.now from.now kept.now }
        ensures born { (g : GroupSecret) → kept.now ≡ kept_keying self.now session.now g →
            result ≡ session_answer self.now session.now from.now g }
    {
        Answer {
            to: *from,
            sid: session.far,
            plain: rikeying_packet(
                session.near,
                &session.nr,
                session.k,
                &self.print,
                &session.ni,
                &kept.sign,
            ),
            generation: kept.generation,
            keys,
        }
    }

    /// The responder's keying of a session with the peer that was born here, as it is kept.
    pub(crate) fn again(&self, peer: &[u8; 32], session: &Joined, from: &Address) -> Answer
        requires { is_born_here (held_with self.now.ledger peer.now) ≡ true }
        ensures { again_by self.now session.now from.now (get self.now.kept peer.now)
            ≡ Some (IsAgain result) }
    {
        match self.kept.get(peer) {
            Some(kept) => self.kept_answer(session, from, kept, kept.keys.hashed()),
            None => unreachable!(),
        }
    }

    /// Bears the session of a keying, which was found to be a birth in this way.
    pub(crate) fn bear(
        &mut self,
        keying: &Keying,
        way: &Way,
        from: &Address,
        near: u32,
        nr: [u8; 16],
        under: &Generation,
    ) -> Result<Keyed, KeyRefusal>
        requires other { sha256 self.old.cert ≢ keying.now.peer }
        requires judged { (free : Bool) × (judged self.old.ledger keying.now free
            ≡ Ok (IsBirth way.now)) }
        requires fresh { repeated_session (held_with self.old.ledger keying.now.peer) keying.now
            ≡ None }
        ensures ok { IfOk result (λ answer. (Some answer
            ≡ again_or_birth self.old keying.now from.now near nr under.now None) ×
            (self.new ≡ after_again_or_birth self.old keying.now near nr under.now None)) }
        ensures memory { IfErr result (λ refusal. refusal ≡ KeyRefusal.Memory) }
        ensures err { OnErr result (self.new ≡ self.old) }
        ensures gave { IfOk result (λ a. Gave self.old.ledger (keyed_facts a) self.new.ledger) }
    {
        match self.kept.reserve() {
            Ok(()) => {}
            Err(Memory) => return Err(KeyRefusal::Memory),
        }
        let session = Joined {
            peer: keying.peer,
            n: keying.n,
            near,
            far: keying.far,
            ni: keying.ni,
            nr,
            k: self.peers.started(),
        };
        let kept = self.kept_keying(&session, under);
        let answer = self.kept_answer(&session, from, &kept, under.startup().copy());
        match self.peers.bear(keying, way, near, nr) {
            Ok((ended, born)) => {
                let attempt = attempt_gone(&ended);
                forget(&mut self.attempts, attempt);
                self.kept.put(&keying.peer, kept);
                Ok(Keyed::Birth {
                    ended,
                    born,
                    answer,
                })
            }
            Err(_) => Err(KeyRefusal::Memory),
        }
    }

    /// Takes an initiator's keying, the payload of its chunk, which came from an address and opened
    /// in this generation, and a near id and a nonce for a session (RFC 7016 section 3.5.1.2);
    /// `full` is the limit on sessions where there is no room for one more.
    ///
    /// Where its cookie was made for another place or too long ago, a new one is sent. Where its
    /// session is held, the responder's keying is sent again, in the generation in which the
    /// session was born. Else the session is born, and what was held with the peer ends: an
    /// attempt, which leaves, with Glare, and a session with Override. The causes are, in this
    /// order: malformed, a wrong signature, a wide cookie, a bad one, and where it is a current one
    /// another responder, the own certificate, and the refusals of the ledger. Only a birth takes
    /// memory, for the row of a peer that has none and for what answers a repeated keying. Where it
    /// is refused, all is as before.
    pub fn initiator_keying(
        &mut self,
        payload: &[u8],
        from: &Address,
        moment: u64,
        near: u32,
        nr: [u8; 16],
        full: Option<u32>,
        generation: u64,
        secret: &[u8; 32],
    ) -> Result<Keyed, KeyRefusal>
        ensures ok { IfOk result (λ answer. (keyed self.old payload.now from.now moment near nr
            (group_of generation secret.now) ≡ Some answer) ×
            (self.new ≡ after_keying self.old payload.now from.now moment near nr
            (group_of generation secret.now))) }
        ensures refused { IfSome (iikeying_cause self.old payload.now from.now moment full
            (group_of generation secret.now)) (λ cause. result ≡ Err (KeyRefusal.Cause cause)) }
        ensures memory { IfNone (iikeying_cause self.old payload.now from.now moment full
            (group_of generation secret.now))
            (IfErr result (λ refusal. (refusal ≡ KeyRefusal.Memory) ×
            IsTrue (bears self.old payload.now from.now moment))) }
        ensures err { OnErr result (self.new ≡ self.old) }
        ensures gave { IfOk result (λ a. Gave self.old.ledger (keyed_facts a) self.new.ledger) }
    {
        let fields = match read_initiator_keying(payload) {
            Ok(fields) => fields,
            Err(cause) => return Err(KeyRefusal::Cause(cause)),
        };
        let under = Generation::of(generation, secret);
        match self.judge_initiator_keying(&fields, from, moment, full, &under) {
            Ok(hearing) => {
                self.apply_initiator_keying(&fields, &hearing, from, moment, near, nr, &under)
            }
            Err(cause) => Err(KeyRefusal::Cause(cause)),
        }
    }

    /// Takes a responder's keying, the payload of its chunk, which came under the near id of an
    /// attempt and opened in this generation (RFC 7016 section 3.5.1.3): the session of the attempt
    /// is opened, and the attempt leaves. It takes no memory.
    ///
    /// The causes are, in this order: malformed, a wrong signature, an attempt that still sends
    /// hellos, another peer, and another nonce or no attempt at all. Where it is discarded, all is
    /// as before.
    pub fn responder_keying(
        &mut self,
        near: u32,
        payload: &[u8],
        generation: u64,
        secret: &[u8; 32],
    ) -> Result<Fact, Cause>
        ensures ok { IfNone (rikeying_cause self.old near payload.now
            (group_of generation secret.now))
            (IsOkAnd result (λ fact. (opened self.old near payload.now ≡ Some fact) ×
            (self.new ≡ after_opening self.old near fact))) }
        ensures refused { IfSome (rikeying_cause self.old near payload.now
            (group_of generation secret.now)) (λ cause. result ≡ Err cause) }
        ensures err { OnErr result (self.new ≡ self.old) }
        ensures gave { IfOk result (λ fact. Gave self.old.ledger (fact ∷ []) self.new.ledger) }
    {
        let fields = match read_responder_keying(payload) {
            Ok(fields) => fields,
            Err(cause) => return Err(cause),
        };
        let under = Generation::of(generation, secret);
        match self.judge_responder_keying(near, &fields, &under) {
            Ok(peer) => Ok(self.apply_responder_keying(near, &peer, &fields)),
            Err(cause) => Err(cause),
        }
    }
}
