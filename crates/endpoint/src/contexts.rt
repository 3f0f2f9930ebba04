//! The context in which a datagram opens, and the keys by which sessions seal.

ghost use Rattle.std.specs.Prelude.{◌≡◌, ◌≤◌, ◌↔◌, IsTrue, Some, length, true};
ghost use Rattle.end_state.specs.NamedContext.{named_context};
ghost use Rattle.endpoint_laws.specs.Contexts.{generation_of};
ghost use Rattle.endpoint_laws.specs.OpensIn.{OpensByTheLog, opens_in};
ghost use Rattle.std.specs.Prelude.{option_copied};
ghost use Rattle.endpoint.specs.StreamKeys.{sealer_of, seals_in, stream_key};

use crate::endpoint::Endpoint;
use crypto_profile::{Context, StreamKey};
use endpoint_model::Row;

impl Endpoint {
    /// The first of the contexts of a datagram's session ID at this end in which the datagram opens:
    /// for session ID 0 startup in the current generation, and then in the next one where it is
    /// known; startup in the generation of an attempt or a search; and a session's own, towards
    /// this end. None exactly where it opens in none.
    ///
    /// A datagram whose number was taken before opens, too. It takes no memory, and changes
    /// nothing.
    pub fn opens_in(&self, datagram: &[u8]) -> Option<Context>
        requires { length datagram.now ≤ 2048 }
        ensures state { result ≡ opens_in self.now datagram.now }

        // It is the context by what the end has stated, whatever log it stands for.
        ensures log { OpensByTheLog self.now datagram.now result }
    {
        self.end.find_context(datagram)
    }

    /// Whether a datagram's session ID names this context at this end and no other, whether or not
    /// the datagram opens in it. It names none where the datagram has fewer than 36 bytes, and
    /// session ID 0 names two while a next generation is known.
    ///
    /// A datagram opens in no other then. The tag isn't computed.
    pub fn names(&self, datagram: &[u8], context: &Context) -> bool
        ensures named { IsTrue result ↔ (named_context self.now datagram.now ≡ Some context.now) }
        ensures opens { result ≡ true → (other : Context) →
            opens_in self.now datagram.now ≡ Some other → other ≡ context.now }
    {
        match self.end.find_named(datagram) {
            Some(named) => named == *context,
            None => false,
        }
    }

    /// The key of the keystream of a context under this secret, where a session of this end seals
    /// in the context, the context is of the current generation, and the secret is the group's in
    /// that. It isn't derived.
    pub fn stream_key(&self, secret: &[u8; 32], context: &Context) -> Option<&StreamKey>
        ensures { option_copied result ≡ stream_key self.now secret.now context.now }
    {
        let Some(row) = self.end.sessions.row(sealer_of(context)) else {
            return None;
        };
        if seals_in(row, context)
            && generation_of(context) == self.generation()
            && self.end.has_secret(secret)
        {
            Some(row.session.stream_key())
        } else {
            None
        }
    }
}

/// The generation of a context.
fn generation_of(context: &Context) -> u64
    ensures { result ≡ generation_of context.now }
{
    match context {
        Context::Startup { generation } => *generation,
        Context::Session { generation, .. } => *generation,
    }
}

/// The session ID of the end that seals in a context.
fn sealer_of(context: &Context) -> u32
    ensures { result ≡ sealer_of context.now }
{
    match context {
        Context::Startup { .. } => 0,
        Context::Session {
            sid_i,
            sid_r,
            to_responder,
            ..
        } => { if *to_responder { *sid_i } else { *sid_r } }
    }
}

/// Whether a session seals in this context.
fn seals_in(row: &Row, context: &Context) -> bool
    ensures { result ≡ seals_in context.now (Some row.now) }
{
    row.session.context(true).is_same(context)
}
