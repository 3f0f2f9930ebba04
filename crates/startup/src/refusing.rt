//! Why a chunk would be discarded, without taking it.

ghost use Rattle.std.specs.Prelude.{◌≡◌};
ghost use Rattle.startup.specs.Refusals.{rhello_refusal_with, rhello_refusal, cookie_change_refusal, redirect_refusal, refusal};
ghost use Rattle.startup.specs.Attempts.{cookie_change_cause};
ghost use Rattle.startup.specs.Redirects.{redirect_cause};
ghost use Rattle.startup.specs.Answers.{group_of};

use crate::startup::Startup;
use crypto_profile::Generation;
use identity::Certificate;
use rtmfp_base::Cause;
use rtmfp_chunks::kinds::{COOKIE_CHANGE, IIKEYING, REDIRECT, RHELLO, RIKEYING};
use rtmfp_chunks::{ChunkView, read_chunk};
use rtmfp_forms::Address;
use startup_packets::fault_cause;

impl Startup {
    /// The cause with which `responder_hello`, `redirect`, `cookie_change`, `initiator_keying` or
    /// `responder_keying` would refuse the chunk of this type and payload, which came under this
    /// session ID and opened in this generation; `full` is the limit on sessions where there is no
    /// room for one more. None exactly where that call would give no cause, and for other types.
    ///
    /// A payload that doesn't read, and a responder's hello whose certificate has no form, are
    /// malformed. It changes nothing and takes no memory.
    pub fn refuses(
        &self,
        sid: u32,
        kind: u8,
        payload: &[u8],
        from: &Address,
        moment: u64,
        full: Option<u32>,
        generation: u64,
        secret: &[u8; 32],
    ) -> Option<Cause>
        ensures { result ≡ refusal self.now sid kind payload.now from.now moment full
            (group_of generation secret.now) }
    {
        let under = Generation::of(generation, secret);
        match kind {
            RHELLO => self.rhello_refusal(payload),
            REDIRECT => self.redirect_refusal(payload, from),
            COOKIE_CHANGE => self.cookie_change_refusal(sid, payload, generation),
            IIKEYING => self.iikeying_cause(payload, from, moment, full, &under),
            RIKEYING => self.rikeying_cause(sid, payload, &under),
            _ => None,
        }
    }

    /// Why a responder's hello would be discarded.
    #[tactic(auto, unfolding(crate::specs::Refusals::rhello_refusal))]
    fn rhello_refusal(&self, payload: &[u8]) -> Option<Cause>
        ensures { result ≡ rhello_refusal self.now payload.now }
    {
        match read_chunk(RHELLO, payload) {
            Ok(ChunkView::RHello { tag, cookie, cert }) => {
                self.hello_refusal(payload, tag, cookie, cert)
            }
            Ok(_) => Some(Cause::UnknownChunk(RHELLO)),
            Err(fault) => Some(fault_cause(fault)),
        }
    }

    /// Why a responder's hello with these fields would be discarded.
    fn hello_refusal(&self, payload: &[u8], tag: &[u8], cookie: &[u8], cert: &[u8]) -> Option<Cause>
        ensures { result ≡ rhello_refusal_with self.now payload.now tag.now cookie.now cert.now }
    {
        match Certificate::read(cert) {
            Ok(_) => match self.judge_responder_hello(tag, cookie, cert) {
                Ok(_) => None,
                Err(cause) => Some(cause),
            },
            Err(_) => Some(Cause::Malformed(payload.len().saturating_sub(cert.len()) as u64)),
        }
    }

    /// Why a redirect would be discarded that came from an address.
    #[tactic(auto, unfolding(crate::specs::Refusals::redirect_refusal))]
    fn redirect_refusal(&self, payload: &[u8], from: &Address) -> Option<Cause>
        ensures { result ≡ redirect_refusal self.now payload.now from.now }
    {
        match read_chunk(REDIRECT, payload) {
            Ok(ChunkView::Redirect { tag, list }) => self.list_refusal(tag, list, from),
            Ok(_) => Some(Cause::UnknownChunk(REDIRECT)),
            Err(fault) => Some(fault_cause(fault)),
        }
    }

    /// Why a redirect with this list would be discarded.
    fn list_refusal(&self, tag: &[u8], list: &[u8], from: &Address) -> Option<Cause>
        ensures { result ≡ redirect_cause self.now tag.now list.now from.now }
    {
        match self.judge_redirect(tag, list, from) {
            Ok(_) => None,
            Err(cause) => Some(cause),
        }
    }

    /// Why a change of a cookie would be discarded.
    #[tactic(auto, unfolding(crate::specs::Refusals::cookie_change_refusal))]
    fn cookie_change_refusal(&self, sid: u32, payload: &[u8], generation: u64) -> Option<Cause>
        ensures { result ≡ cookie_change_refusal self.now sid payload.now generation }
    {
        match read_chunk(COOKIE_CHANGE, payload) {
            Ok(ChunkView::CookieChange { old, new }) => {
                self.change_refusal(sid, old, new, generation)
            }
            Ok(_) => Some(Cause::UnknownChunk(COOKIE_CHANGE)),
            Err(fault) => Some(fault_cause(fault)),
        }
    }

    /// Why a change of this cookie would be discarded.
    fn change_refusal(&self, sid: u32, old: &[u8], new: &[u8], generation: u64) -> Option<Cause>
        ensures { result ≡ cookie_change_cause self.now sid old.now new.now generation }
    {
        match self.judge_cookie_change(sid, old, new, generation) {
            Ok(_) => None,
            Err(cause) => Some(cause),
        }
    }
}
