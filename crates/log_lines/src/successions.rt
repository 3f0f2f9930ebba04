//! Generations of the group's secret that are learnt and become the current ones.

ghost use Rattle.std.specs.Prelude.{◌≡◌, ℕ, List, true};
ghost use Rattle.endpoint_model.specs.Event.{Setup};
ghost use Rattle.endpoint_laws.specs.Past.{Past};
ghost use Rattle.endpoint_laws.specs.Lawful.{AdvancedLine, LearntLine};
ghost use Rattle.log_digest.specs.Generations.{AreGenerationsOf};
ghost use Rattle.log_values.specs.Events.{call_of};
ghost use Rattle.log_lines.specs.Decisions.{is_advanced, is_learnt, is_next};

use crate::calls::{advances, learns};
use crate::moments::is_after;
use log_digest::Generations;
use log_values::LoggedCall;

/// Whether a generation is learnt: by a learn, where no next one is known, and with the number
/// after the current one (own).
pub fn learnt(generations: &Generations, call: &LoggedCall, generation: u64) -> bool
    ensures yes { (setup : Setup) (nonce : List ℕ) (past : Past) →
        AreGenerationsOf setup past generations.now → result ≡ true →
        LearntLine setup (call_of nonce call.now) past generation }
    ensures no { (setup : Setup) (nonce : List ℕ) (past : Past) →
        AreGenerationsOf setup past generations.now →
        LearntLine setup (call_of nonce call.now) past generation → result ≡ true }
{
    is_learnt(generations, call, generation)
}

/// Whether the call learns the generation after the current one, and none is known.
fn is_learnt(generations: &Generations, call: &LoggedCall, generation: u64) -> bool
    ensures { result ≡ is_learnt call.now generations.now generation }
{
    learns(call) && generations.next().is_none() && is_after(generation, generations.current())
}

/// Whether a generation becomes the current one: by an advance, where it is the next one that is
/// known (own).
pub fn advanced(generations: &Generations, call: &LoggedCall, generation: u64) -> bool
    ensures yes { (setup : Setup) (nonce : List ℕ) (past : Past) →
        AreGenerationsOf setup past generations.now → result ≡ true →
        AdvancedLine (call_of nonce call.now) past generation }
    ensures no { (setup : Setup) (nonce : List ℕ) (past : Past) →
        AreGenerationsOf setup past generations.now →
        AdvancedLine (call_of nonce call.now) past generation → result ≡ true }
{
    is_advanced(generations, call, generation)
}

/// Whether this is the next generation that is known.
fn is_next(known: Option<u64>, generation: u64) -> bool
    ensures { result ≡ is_next known generation }
{
    match known {
        Some(next) => next == generation,
        None => false,
    }
}

/// Whether the call goes over to the generation that is known.
fn is_advanced(generations: &Generations, call: &LoggedCall, generation: u64) -> bool
    ensures { result ≡ is_advanced call.now generations.now generation }
{
    advances(call) && is_next(generations.next(), generation)
}
