//! The rules of this crate on values at their edges. The functions do nothing: the contract of each
//! states rows.

ghost use Rattle.std.specs.Prelude.{◌≡◌, []};
ghost use Rattle.glare_core.specs.declared.facts.Held.TheVariants.{HalfOpen, KeptAsInitiator, KeptAsResponder, Opening};
ghost use Rattle.endpoint_model.specs.Event.{Introduce};
ghost use Rattle.log_events.specs.Underway.{KeepsGenerations, unconfirmed};
ghost use Rattle.log_events.specs.Edges.{advancing, learning, session};

/// Any call but a learn and an advance keeps the generations.
pub fn learns_and_advances_alone_change_generations()
    ensures other { KeepsGenerations Introduce }
    ensures learns { KeepsGenerations learning → ⊥ }
    ensures advances { KeepsGenerations advancing → ⊥ }
{}

/// A session that was born here was a half-open one before it was confirmed, and any other thing
/// was what it is.
pub fn a_confirmed_session_was_half_open()
    ensures confirmed { unconfirmed (KeptAsResponder session) ≡ HalfOpen session }
    ensures half_open { unconfirmed (HalfOpen session) ≡ HalfOpen session }
    ensures opened { unconfirmed (KeptAsInitiator session) ≡ KeptAsInitiator session }
    ensures attempt { unconfirmed (Opening 2 3 []) ≡ Opening 2 3 [] }
{}
