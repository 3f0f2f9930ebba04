//! How long ago things began, in milliseconds.

ghost use Rattle.std.specs.Prelude.{◌≡◌, ◌==◌, ◌+◌};
ghost use Rattle.log_lines.specs.Decisions.{closing_since, held_since, is_old, is_over, is_quiet};

use log_digest::{Digest, Spot};

/// How long an attempt and a search wait for an answer, in milliseconds (own).
pub(crate) const LIFETIME: u64 = 95_000;

/// Whether a number is the one after another.
pub(crate) fn is_after(next: u64, before: u64) -> bool
    ensures { result ≡ (next == before + 1) }
{
    before < next && next - before == 1
}

/// Whether so much time went by since a moment, where there is one.
pub(crate) fn is_over(span: u64, since: Option<u64>, now: u64) -> bool
    ensures { result ≡ is_over span since now }
{
    match since {
        Some(at) => at <= now && now - at >= span,
        None => false,
    }
}

/// Whether so much time went by since the last moment, if there was one.
pub(crate) fn is_quiet(span: u64, last: Option<u64>, now: u64) -> bool
    ensures { result ≡ is_quiet span last now }
{
    match last {
        Some(last) => last <= now && now - last >= span,
        None => true,
    }
}

/// Since when something is held that stands so.
fn held_since(spot: Option<Spot>) -> Option<u64>
    ensures { result ≡ held_since spot }
{
    match spot {
        Some(Spot::Holding { at, .. }) => Some(at),
        _ => None,
    }
}

/// Since when a session is closing that stands so.
pub(crate) fn closing_since(spot: Option<Spot>) -> Option<u64>
    ensures { result ≡ closing_since spot }
{
    match spot {
        Some(Spot::Closing { at, .. }) => Some(at),
        _ => None,
    }
}

/// Whether what is held under a session ID began so long ago.
pub(crate) fn is_old(span: u64, near: u32, digest: &Digest) -> bool
    ensures { result ≡ is_old span near digest.now }
{
    is_over(span, held_since(digest.spot(near)), digest.moment())
}
