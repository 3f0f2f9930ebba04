//! Which attempt or search takes a hello: of those with its tag, the one with the lowest session
//! ID.

ghost use Rattle.std.specs.Prelude.{◌≡◌};
ghost use Rattle.log_contexts.specs.Lowest.{has_tag, is_attempt, is_before, is_underway};

use crate::threads::Thread;
use glare_core::Held;
use log_digest::{Digest, Spot};

/// Whether this is an attempt.
fn is_attempt(thing: Option<Held>) -> bool
    ensures { result ≡ is_attempt thing }
{
    match thing {
        Some(Held::Opening { .. }) => true,
        Some(Held::HalfOpen(_)) => false,
        Some(Held::KeptAsResponder(_)) => false,
        Some(Held::KeptAsInitiator(_)) => false,
        None => false,
    }
}

/// Whether an attempt or a search stands under a session ID.
fn is_underway(digest: &Digest, near: u32) -> bool
    ensures { result ≡ is_underway digest.now near }
{
    match digest.spot(near) {
        Some(Spot::Searching { .. }) => true,
        Some(Spot::Holding { peer, .. }) => is_attempt(digest.held(&peer)),
        Some(Spot::Closing { .. }) => false,
        None => false,
    }
}

/// Whether something began with this tag.
fn has_tag(thread: Thread, tag: &[u8; 16]) -> bool
    ensures { result ≡ has_tag thread tag.now }
{
    match thread.tag {
        Some(its) => its == *tag,
        None => false,
    }
}

/// Whether what began under a session ID with this tag is underway, and comes before this session
/// ID.
pub(crate) fn is_before(
    digest: &Digest,
    near: u32,
    tag: &[u8; 16],
    other: u32,
    thread: Thread,
) -> bool
    ensures { result ≡ is_before digest.now near tag.now other thread }
{
    other < near && (has_tag(thread, tag) && is_underway(digest, other))
}
