//! What answers the hellos and the keyings of an attempt: a responder's hello, and a change of a
//! cookie.

ghost use Rattle.std.specs.Prelude.{ℕ, List, ◌≡◌, ◌≤◌, length, true, Option, None, Some, Err};
ghost use Rattle.std.specs.Prelude.{IfSome, IfNone, IfOk, IfErr, IsOk, IsTrue, OnErr};
ghost use Rattle.std.specs.FinMap.{get};
ghost use Rattle.sha2.specs.Sha256.{sha256};
ghost use Rattle.glare_core.specs.Calls.{start_refusal, started_fact};
ghost use Rattle.startup.specs.State.{AttemptState};
ghost use Rattle.startup.specs.Attempts.{lowest, has_tag, has_search, is_search_at, changed};
ghost use Rattle.startup.specs.Attempts.{search_cause, aim_cause, hello_cause, rhello_cause};
ghost use Rattle.startup.specs.Attempts.{rhello_fact, rhello_keying, after_rhello, rhello_starts};
ghost use Rattle.startup.specs.Attempts.{answer_fact, answer_keying, after_answer};
ghost use Rattle.startup.specs.Attempts.{keying_towards, after_start};
ghost use Rattle.startup.specs.Attempts.{cookie_change_cause, cookie_change_keying};
ghost use Rattle.startup.specs.Attempts.{after_cookie_change, change_keying, after_change};
ghost use Rattle.startup.specs.Answers.{group_of};
ghost use Rattle.startup.specs.Judging.{IsFound, IsGreeted};

use crate::aim::Aim;
use crate::answer::{Answer, KeyRefusal};
use crate::attempt::{Attempt, Change, Stage};
use crate::choosing::{changed_near, has_name, held_cause, spent_cause, wide};
use crate::leaving::{Found, Greeting};
use crate::rows::{FoundAttempt, Sought};
use crate::sending::keying_again;
use crate::startup::Startup;
use crypto_profile::Generation;
use glare_core::Fact;
use identity::ServiceName;
use rtmfp_base::{Cause, Memory};
use rtmfp_forms::Address;
use sha2::{Digest, Sha256};
use startup_packets::iikeying_packet;

impl Startup {
    /// Why a search for a name isn't answered by the hello of an end with this certificate.
    fn search_cause(&self, name: &ServiceName, cert: &[u8], print: &[u8; 32]) -> Option<Cause>
        requires { print.now ≡ sha256 cert.now }
        ensures { result ≡ search_cause self.now name.now cert.now }
    {
        if !has_name(cert, name.bytes()) {
            return Some(Cause::WrongPeer);
        }
        if self.is_own(cert, print) {
            return Some(Cause::OwnCertificate);
        }
        match held_cause(&self.peers, print) {
            Some(cause) => Some(cause),
            None => spent_cause(&self.peers, print),
        }
    }

    /// Why an attempt or a search isn't answered by the hello of an end with this certificate, by
    /// what it is towards.
    fn aim_cause(&self, aim: &Aim, cert: &[u8], print: &[u8; 32]) -> Option<Cause>
        requires { print.now ≡ sha256 cert.now }
        ensures { result ≡ aim_cause self.now aim.now cert.now }
    {
        match aim {
            Aim::AtPeer { peer, .. } => {
                if *print == *peer {
                    None
                } else {
                    Some(Cause::WrongPeer)
                }
            }
            Aim::ByName { name } => self.search_cause(name, cert, print),
        }
    }

    /// The fingerprint of the end with this certificate, whose hello answers an attempt or a
    /// search, or why it doesn't. The certificate is hashed where hellos are sent alone.
    fn greeted_by(&self, attempt: &Attempt, cert: &[u8]) -> Result<[u8; 32], Cause>
        ensures print { IfOk result (λ print. print ≡ sha256 cert.now) }
        ensures none { IfOk result (λ _. hello_cause self.now attempt.now.stage attempt.now.aim
            cert.now ≡ None) }
        ensures refused { IfErr result (λ cause. hello_cause self.now attempt.now.stage
            attempt.now.aim cert.now ≡ Some cause) }
    {
        match &attempt.stage {
            Stage::Hello => {
                let print = Sha256::digest(cert);
                match self.aim_cause(&attempt.aim, cert, &print) {
                    Some(cause) => Err(cause),
                    None => Ok(print),
                }
            }
            Stage::Keying { .. } => Err(Cause::WrongState),
        }
    }

    /// The attempt or search that a responder's hello with this tag, cookie and certificate
    /// answers, or why the hello is discarded.
    ///
    /// The causes are those of `responder_hello`, in their order. It changes nothing and takes no
    /// memory.
    pub fn judge_responder_hello(
        &self,
        tag: &[u8],
        cookie: &[u8],
        cert: &[u8],
    ) -> Result<Greeting, Cause>
        ensures greeted { IfOk result (λ greeting. IsGreeted self.now greeting
            (lowest (has_tag tag.now) self.now.attempts) cert.now) }
        ensures cookie { IfOk result (λ _. length cookie.now ≤ 128) }
        ensures none { IfOk result (λ _. rhello_cause self.now tag.now cookie.now cert.now ≡ None) }
        ensures refused { IfErr result (λ cause. rhello_cause self.now tag.now cookie.now cert.now
            ≡ Some cause) }
    {
        match wide(tag) {
            Some(cause) => return Err(cause),
            None => {}
        }
        match wide(cookie) {
            Some(cause) => return Err(cause),
            None => {}
        }
        let Some(FoundAttempt { near, attempt }) = self.attempts.find(&Sought::Tag(tag)) else {
            return Err(Cause::NoAttempt);
        };
        match self.greeted_by(attempt, cert) {
            Ok(print) => Ok(Greeting {
                found: Found { near },
                print,
            }),
            Err(cause) => Err(cause),
        }
    }

    /// The keying of the attempt with this near id and nonce towards a peer, with its number, in
    /// this generation.
    fn keying_towards(
        &self,
        near: u32,
        ni: &[u8; 16],
        peer: &[u8; 32],
        n: u64,
        to: &Address,
        cookie: &[u8],
        under: &Generation,
    ) -> Answer
        requires { length cookie.now ≤ 128 }
        ensures { result ≡ keying_towards self.now near ni.now peer.now n to.now cookie.now
            under.now }
    {
        let cert = self.cert.bytes();
        let plain = iikeying_packet(under.sign(), near, cookie, cert, ni, n, peer);
        Answer::under(under, to, 0, plain)
    }

    /// A search that was found starts as an attempt towards the end with this fingerprint; Started
    /// is given. Only here an answer takes memory: for the row of the peer, and for the number.
    fn start_search(
        &mut self,
        near: u32,
        print: &[u8; 32],
        from: &Address,
        cookie: &[u8],
        moment: u64,
        under: &Generation,
    ) -> Result<Fact, Memory>
        requires search { has_search self.old near ≡ true }
        requires free { start_refusal self.old.ledger print.now ≡ None }
        requires cookie { length cookie.now ≤ 128 }
        ensures fact { IfOk result (λ fact. (a : AttemptState) →
            get self.old.attempts near ≡ Some a →
            fact ≡ started_fact self.old.ledger print.now near a.ni) }
        ensures after { IfOk result (λ fact. (a : AttemptState) →
            get self.old.attempts near ≡ Some a →
            self.new ≡ after_start self.old print.now near a from.now cookie.now moment
            under.now) }
        ensures err { OnErr result (self.new ≡ self.old) }
    {
        let ni = match self.attempts.get(near) {
            Some(search) => search.ni,
            None => unreachable!(),
        };
        match self.attempts.reserve_number() {
            Ok(()) => {}
            Err(Memory) => return Err(Memory),
        }
        let fact = match self.peers.start(print, near, ni) {
            Ok(fact) => fact,
            Err(_) => return Err(Memory),
        };
        let n = self.peers.started();
        self.attempts.change(
            near,
            &Change::Met {
                peer: print,
                n,
                from,
                cookie,
                under,
            },
            moment,
        );
        Ok(fact)
    }

    /// An attempt or a search that was found is answered from an address with a cookie, in this
    /// generation: a search starts as an attempt, whose Started is given; it goes on to keyings in
    /// this generation, which it keeps hashed, and its keying is given.
    ///
    /// Only a search takes memory, for the row of its peer and for its number; where there is none,
    /// all is as before.
    pub fn apply_responder_hello(
        &mut self,
        greeting: &Greeting,
        cookie: &[u8],
        from: &Address,
        moment: u64,
        under: &Generation,
    ) -> Result<(Option<Fact>, Answer), Memory>
        requires greeted { (chosen : Option (ℕ × AttemptState)) × ((cert : List ℕ) ×
            IsGreeted self.old greeting.now chosen cert) }
        requires cookie { length cookie.now ≤ 128 }
        ensures fact { IfOk result (λ told. (chosen : Option (ℕ × AttemptState)) →
            IsFound self.old greeting.now.found chosen →
            told.0 ≡ answer_fact self.old greeting.now.print chosen) }
        ensures answer { IfOk result (λ told. (chosen : Option (ℕ × AttemptState)) →
            IsFound self.old greeting.now.found chosen →
            answer_keying self.old greeting.now.print chosen from.now cookie.now under.now
            ≡ Some told.1) }
        ensures after { IfOk result (λ _. (chosen : Option (ℕ × AttemptState)) →
            IsFound self.old greeting.now.found chosen →
            self.new ≡ after_answer self.old greeting.now.print chosen from.now cookie.now
            moment under.now) }
        ensures memory { OnErr result ((chosen : Option (ℕ × AttemptState)) →
            IsFound self.old greeting.now.found chosen → is_search_at chosen ≡ true) }
        ensures err { OnErr result (self.new ≡ self.old) }
    {
        let near = greeting.found.near;
        let Some(attempt) = self.attempts.get(near) else {
            unreachable!()
        };
        let aim = attempt.aim;
        let ni = attempt.ni;
        match aim {
            Aim::AtPeer { peer, n } => {
                let answer = self.keying_towards(near, &ni, &peer, n, from, cookie, under);
                self.attempts
                    .change(near, &Change::Answered(from, cookie, under), moment);
                Ok((None, answer))
            }
            Aim::ByName { .. } => {
                let print = &greeting.print;
                let fact = match self.start_search(near, print, from, cookie, moment, under) {
                    Ok(fact) => fact,
                    Err(Memory) => return Err(Memory),
                };
                let n = self.peers.started();
                let answer = self.keying_towards(near, &ni, print, n, from, cookie, under);
                Ok((Some(fact), answer))
            }
        }
    }

    /// Hears a responder's hello with this tag, cookie and certificate, from an address: the
    /// attempt goes on to keyings in the generation in which the hello opened, which it keeps
    /// hashed, and its keying is given. A search starts as an attempt towards the end whose hello
    /// it is, and its Started is given, too; it lasts from this moment on.
    ///
    /// The causes, in their order, are a wide tag or cookie, no attempt or search with this tag (of
    /// several the one with the lowest near id counts), an attempt that was answered already, and
    /// the certificate of another end. For a search the last is one without its name, and behind it
    /// come the own certificate, an attempt or session that is held with the end, 2^64-1 attempts
    /// that were started, and want of a row for the end. Only a search takes memory. Where it is
    /// refused, all is as before.
    pub fn responder_hello(
        &mut self,
        tag: &[u8],
        cookie: &[u8],
        cert: &[u8],
        from: &Address,
        moment: u64,
        generation: u64,
        secret: &[u8; 32],
    ) -> Result<(Option<Fact>, Answer), KeyRefusal>
        ensures fact { IfOk result (λ told. told.0 ≡ rhello_fact self.old tag.now cert.now) }
        ensures answer { IfOk result (λ told. rhello_keying self.old tag.now cookie.now cert.now
            from.now (group_of generation secret.now) ≡ Some told.1) }
        ensures after { IfOk result (λ _. self.new
            ≡ after_rhello self.old tag.now cookie.now cert.now from.now moment
            (group_of generation secret.now)) }
        ensures refused { IfSome (rhello_cause self.old tag.now cookie.now cert.now)
            (λ cause. result ≡ Err (KeyRefusal.Cause cause)) }
        ensures memory { IfNone (rhello_cause self.old tag.now cookie.now cert.now)
            (IfErr result (λ refusal. (refusal ≡ KeyRefusal.Memory) ×
            IsTrue (rhello_starts self.old tag.now))) }
        ensures err { OnErr result (self.new ≡ self.old) }
    {
        let greeting = match self.judge_responder_hello(tag, cookie, cert) {
            Ok(greeting) => greeting,
            Err(cause) => return Err(KeyRefusal::Cause(cause)),
        };
        let under = Generation::of(generation, secret);
        match self.apply_responder_hello(&greeting, cookie, from, moment, &under) {
            Ok(told) => Ok(told),
            Err(Memory) => Err(KeyRefusal::Memory),
        }
    }

    /// The attempt whose cookie a change under this session ID replaces that opened in this
    /// generation, or why the change is discarded.
    ///
    /// The causes are those of `cookie_change`, in their order. It changes nothing and takes no
    /// memory.
    pub fn judge_cookie_change(
        &self,
        sid: u32,
        old: &[u8],
        new: &[u8],
        generation: u64,
    ) -> Result<Found, Cause>
        ensures found { IfOk result (λ found. IsFound self.now found
            (changed self.now.attempts sid old.now)) }
        ensures cookie { IfOk result (λ _. length new.now ≤ 128) }
        ensures none { IfOk result (λ _. cookie_change_cause self.now sid old.now new.now
            generation ≡ None) }
        ensures refused { IfErr result (λ cause. cookie_change_cause self.now sid old.now new.now
            generation ≡ Some cause) }
    {
        match changed_near(&self.attempts, sid, old, new, generation) {
            Ok(near) => Ok(Found { near }),
            Err(cause) => Err(cause),
        }
    }

    /// The keying of an attempt that was found, which is in the keying stage, goes out again with
    /// another cookie, in the generation of the attempt. It takes no memory.
    pub fn apply_cookie_change(&mut self, found: Found, new: &[u8], moment: u64) -> Answer
        requires found { (sid : ℕ) × ((old : List ℕ) × IsFound self.old found
            (changed self.old.attempts sid old)) }
        requires cookie { length new.now ≤ 128 }
        ensures answer { (chosen : Option (ℕ × AttemptState)) → IsFound self.old found chosen →
            change_keying self.old chosen new.now ≡ Some result }
        ensures after { (chosen : Option (ℕ × AttemptState)) → IsFound self.old found chosen →
            self.new ≡ after_change self.old chosen new.now moment }
    {
        let near = found.near;
        let again = match self.attempts.get(near) {
            Some(attempt) => keying_again(near, attempt, &self.cert, new),
            None => unreachable!(),
        };
        let answer = match again {
            Some(answer) => answer,
            None => unreachable!(),
        };
        self.attempts.change(near, &Change::Recookied(new), moment);
        answer
    }

    /// Hears a change of a cookie under a session ID: the keying goes out again with the new one.
    ///
    /// Under 0 it is of the attempt with the lowest near id that has the old cookie, else of the
    /// attempt with that near id alone. The causes, in their order, are a wide cookie, the old one
    /// before the new one, and no such attempt in the keying stage, or one in another generation
    /// than that in which the change opened; where one stands, all is as before. It takes no
    /// memory.
    pub fn cookie_change(
        &mut self,
        sid: u32,
        old: &[u8],
        new: &[u8],
        moment: u64,
        generation: u64,
    ) -> Result<Answer, Cause>
        ensures answer { IfOk result (λ answer. cookie_change_keying self.old sid old.now new.now
            ≡ Some answer) }
        ensures after { IfOk result (λ _. self.new
            ≡ after_cookie_change self.old sid old.now new.now moment) }
        ensures refused { IfSome (cookie_change_cause self.old sid old.now new.now generation)
            (λ cause. result ≡ Err cause) }
        ensures heard { IfNone (cookie_change_cause self.old sid old.now new.now generation)
            (IsOk result) }
        ensures err { OnErr result (self.new ≡ self.old) }
    {
        match self.judge_cookie_change(sid, old, new, generation) {
            Ok(found) => Ok(self.apply_cookie_change(found, new, moment)),
            Err(cause) => Err(cause),
        }
    }
}
