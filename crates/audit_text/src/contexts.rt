//! Contexts, read from the front of what stands behind an address.
ghost use Rattle.std.specs.Prelude.{◌≡◌, None, Some, MatchOption};
ghost use Rattle.audit_text.specs.Readings.{context_at, context_by, session_at, startup_at};

use crate::fields::{first_nonce, first_number, first_number32, first_print, first_sender};
use crypto_profile::Context;
use rtmfp_script::split_word;

#[tactic(auto, unfolding(crate::specs::Readings::startup_at))]
fn first_startup(rest: &[u8]) -> Option<(Context, &[u8])>
    ensures { MatchOption result (startup_at rest.now ≡ None)
        (λ parts. startup_at rest.now ≡ Some (parts.0, parts.1.now)) }
{
    let (generation, rest) = first_number(rest)?;
    Some((Context::Startup { generation }, rest))
}

#[tactic(auto, unfolding(crate::specs::Readings::session_at))]
fn first_session(rest: &[u8]) -> Option<(Context, &[u8])>
    ensures { MatchOption result (session_at rest.now ≡ None)
        (λ parts. session_at rest.now ≡ Some (parts.0, parts.1.now)) }
{
    let (generation, rest) = first_number(rest)?;
    let (ni, rest) = first_nonce(rest)?;
    let (nr, rest) = first_nonce(rest)?;
    let (fp_i, rest) = first_print(rest)?;
    let (fp_r, rest) = first_print(rest)?;
    let (sid_i, rest) = first_number32(rest)?;
    let (sid_r, rest) = first_number32(rest)?;
    let (to_responder, rest) = first_sender(rest)?;
    let context = Context::Session {
        generation,
        ni,
        nr,
        fp_i,
        fp_r,
        sid_i,
        sid_r,
        to_responder,
    };
    Some((context, rest))
}

#[tactic(auto, unfolding(crate::specs::Readings::context_by))]
fn first_by_word<'a>(word: &[u8], rest: &'a [u8]) -> Option<(Context, &'a [u8])>
    ensures { MatchOption result (context_by word.now rest.now ≡ None)
        (λ parts. context_by word.now rest.now ≡ Some (parts.0, parts.1.now)) }
{
    if word == b"startup".as_slice() {
        return first_startup(rest);
    }
    if word == b"session".as_slice() {
        return first_session(rest);
    }
    None
}

/// The context that stands in front, and what stands behind it.
#[tactic(auto, unfolding(crate::specs::Readings::context_at))]
pub(crate) fn first_context(rest: &[u8]) -> Option<(Context, &[u8])>
    ensures { MatchOption result (context_at rest.now ≡ None)
        (λ parts. context_at rest.now ≡ Some (parts.0, parts.1.now)) }
{
    let (word, rest) = split_word(b' ', rest)?;
    first_by_word(word, rest)
}
