//! In which contexts an end takes datagrams that go under a session ID.

ghost use Rattle.std.specs.Prelude.{◌≡◌, ℕ, false, Some};
ghost use Rattle.std.specs.FinMap.{get};
ghost use Rattle.endpoint_model.specs.Event.{Setup};
ghost use Rattle.endpoint_laws.specs.Past.{Past, is_in_use};
ghost use Rattle.endpoint_laws.specs.Contexts.{Secrets};
ghost use Rattle.log_digest.specs.Digest.{IsDigestOf};
ghost use Rattle.log_digest.specs.Generations.{AreGenerationsOf};
ghost use Rattle.log_contexts.specs.Contexts.{AreContextsOf};
ghost use Rattle.log_contexts.specs.Kept.{generation_in, keying_at};
ghost use Rattle.log_contexts.specs.Taking.{IsTakingOf, attempt_in, closing_in, held_in, session_in, spot_in, taking_at};

use crate::contexts::Contexts;
use glare_core::Held;
use log_digest::{Digest, Generations, Spot};

/// How an end takes datagrams that go under a session ID (own): in which contexts of the group's
/// generations, or in which session.
#[derive(Clone, Copy)]
pub enum Taking {
    /// Nothing stands there, so it takes none.
    Nothing,
    /// Under session ID 0: in startup of the current generation, and then of the next one where it
    /// is known.
    Startup { current: u64, next: Option<u64> },
    /// For an attempt or a search: in startup of this generation.
    Attempt { generation: u64 },
    /// In this session, which began in this generation.
    Session { thing: Held, generation: u64 },
}

impl Taking {
    /// That under this session ID, by what is kept of an end. Nothing has session ID 0.
    pub fn of(sid: u32, generations: &Generations, digest: &Digest, contexts: &Contexts) -> Taking
        ensures value { result ≡ taking_at sid generations.now digest.now contexts.now }
        ensures log { (secrets : Secrets) (setup : Setup) (last : ℕ) (past : Past) →
            IsDigestOf last past digest.now → AreGenerationsOf setup past generations.now →
            AreContextsOf secrets setup past contexts.now → is_in_use 0 past ≡ false →
            IsTakingOf secrets setup past sid result }
    {
        Taking::at(sid, generations, digest, contexts)
    }

    /// Finds it.
    fn at(sid: u32, generations: &Generations, digest: &Digest, contexts: &Contexts) -> Taking
        ensures { result ≡ taking_at sid generations.now digest.now contexts.now }
    {
        if sid == 0 {
            return Taking::Startup {
                current: generations.current(),
                next: generations.next(),
            };
        }
        match digest.spot(sid) {
            None => Taking::Nothing,
            Some(spot) => Taking::under(sid, generations, digest, contexts, spot),
        }
    }

    /// Finds that of what stands under a session ID.
    fn under(
        sid: u32,
        generations: &Generations,
        digest: &Digest,
        contexts: &Contexts,
        spot: Spot,
    ) -> Taking
        ensures { result ≡ spot_in generations.now (keying_at sid contexts.now.threads)
            (generation_in (get contexts.now.sessions sid)) digest.now.roll (Some spot) }
    {
        match spot {
            Spot::Searching { .. } => Taking::attempt(generations, contexts.keying(sid)),
            Spot::Holding { peer, .. } => Taking::held(
                generations,
                contexts.keying(sid),
                contexts.generation(sid),
                digest.held(&peer),
            ),
            Spot::Closing { thing, .. } => Taking::closing(thing, contexts.generation(sid)),
        }
    }

    /// That of what is held with a peer.
    fn held(
        generations: &Generations,
        keying: Option<u64>,
        began: Option<u64>,
        thing: Option<Held>,
    ) -> Taking
        ensures { result ≡ held_in generations.now keying began thing }
    {
        match thing {
            None => Taking::Nothing,
            Some(Held::Opening { .. }) => Taking::attempt(generations, keying),
            Some(thing) => Taking::session(thing, began),
        }
    }

    /// That of a session that is closing.
    fn closing(thing: Held, began: Option<u64>) -> Taking
        ensures { result ≡ closing_in thing began }
    {
        match thing {
            Held::Opening { .. } => Taking::Nothing,
            _ => Taking::session(thing, began),
        }
    }

    /// That of an attempt or a search, by the generation of its keying.
    fn attempt(generations: &Generations, keying: Option<u64>) -> Taking
        ensures { result ≡ attempt_in generations.now keying }
    {
        match keying {
            Some(generation) => Taking::Attempt { generation },
            None => Taking::Attempt {
                generation: generations.current(),
            },
        }
    }

    /// That of a session, by the generation in which it began.
    fn session(thing: Held, began: Option<u64>) -> Taking
        ensures { result ≡ session_in thing began }
    {
        match began {
            Some(generation) => Taking::Session { thing, generation },
            None => Taking::Nothing,
        }
    }
}
