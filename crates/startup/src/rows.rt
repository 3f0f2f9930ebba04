//! What is asked of an attempt, and how one ends.

ghost use Rattle.std.specs.Prelude.{◌≡◌, ◌+◌, Some, IsSome};
ghost use Rattle.std.specs.FinMap.{get, remove};
ghost use Rattle.glare_core.specs.Ledger.{noted_if};
ghost use Rattle.startup.specs.Aims.{IsHeldAs, end_of_aim};
ghost use Rattle.startup.specs.State.{AttemptState};
ghost use Rattle.startup.specs.Attempts.{has_cookie};
ghost use Rattle.startup.specs.Due.{gap_of, is_over};
ghost use Rattle.startup.specs.Keyings.{without};
ghost use Rattle.startup.specs.Sought.{fits};
ghost use Rattle.startup.specs.Table.{due_from};

use crate::aim::Aim;
use crate::attempt::{Attempt, Stage};
use crate::indexed::IndexedAttempts;
use glare_core::{Fact, Peers, Why};

/// How long an attempt lasts, in milliseconds (own).
const LIFETIME: u64 = 95_000;

/// What an attempt is sought by.
#[derive(Drop)]
pub(crate) enum Sought<'a> {
    /// Its number.
    Number(u64),
    /// Its tag.
    Tag(&'a [u8]),
    /// Its cookie, in the keying stage.
    Cookie(&'a [u8]),
}

/// An attempt that was found, and its near id.
#[derive(Clone, Copy)]
pub(crate) struct FoundAttempt<'a> {
    pub(crate) near: u32,
    pub(crate) attempt: &'a Attempt,
}

/// Whether the attempt has this cookie, which it has in the keying stage alone.
pub(crate) fn has_cookie(attempt: &Attempt, cookie: &[u8]) -> bool
    ensures { result ≡ has_cookie cookie.now attempt.now }
{
    match &attempt.stage {
        Stage::Hello => false,
        Stage::Keying { cookie: kept, .. } => kept.bytes() == cookie,
    }
}

/// The milliseconds before the repeat with this number.
fn gap_of(gap: u8) -> u64
    ensures { result ≡ gap_of gap }
{
    match gap {
        0 => 1000,
        1 => 1500,
        2 => 2250,
        3 => 3375,
        _ => 5062,
    }
}

/// Whether the attempt has lasted as long as it may.
pub(crate) fn is_over(attempt: &Attempt, moment: u64) -> bool
    ensures { result ≡ is_over moment attempt.now }
{
    moment.saturating_sub(attempt.start) >= LIFETIME
}

/// So many milliseconds after a moment.
fn after(moment: u64, wait: u64) -> u128
    ensures { result ≡ moment + wait }
{
    u128::from(moment) + u128::from(wait)
}

/// The moment from which on something is due of the attempt.
pub(crate) fn due_from(attempt: &Attempt) -> u128
    ensures { result ≡ due_from attempt.now }
{
    let end = after(attempt.start, LIFETIME);
    end.min(after(attempt.last, gap_of(attempt.gap)))
}

/// Whether the attempt is one that is sought.
pub(crate) fn fits(attempt: &Attempt, sought: &Sought<'_>) -> bool
    ensures { result ≡ fits sought.now attempt.now }
{
    match sought {
        Sought::Number(n) => attempt.aim.is_numbered(*n),
        Sought::Tag(tag) => attempt.tag.as_slice() == *tag,
        Sought::Cookie(cookie) => has_cookie(attempt, cookie),
    }
}

/// The attempt with this near id ends; its end is given, which a search hasn't.
fn end_of(peers: &mut Peers, attempt: &Attempt, near: u32, why: Why) -> Option<Fact>
    requires held { IsHeldAs peers.old near attempt.now.ni attempt.now.aim }
    ensures fact { result ≡ end_of_aim near why attempt.now.aim }
    ensures ledger { peers.new ≡ noted_if peers.old result }
{
    match &attempt.aim {
        Aim::AtPeer { peer, .. } => peers.end(peer, why),
        Aim::ByName { .. } => None,
    }
}

/// The attempt or search under this near id ends, and is forgotten; its end is given, which a
/// search hasn't.
pub(crate) fn end_at(
    peers: &mut Peers,
    attempts: &mut IndexedAttempts,
    near: u32,
    why: Why,
) -> Option<Fact>
    requires there { IsSome (get attempts.old.attempts near) }
    requires held { (a : AttemptState) → get attempts.old.attempts near ≡ Some a →
        IsHeldAs peers.old near a.ni a.aim }
    ensures fact { (a : AttemptState) → get attempts.old.attempts near ≡ Some a →
        result ≡ end_of_aim near why a.aim }
    ensures ledger { peers.new ≡ noted_if peers.old result }
    ensures gone { attempts.new.attempts ≡ remove attempts.old.attempts near }
{
    let Some(attempt) = attempts.get(near) else {
        unreachable!()
    };
    let fact = end_of(peers, attempt, near, why);
    attempts.forget(near);
    fact
}

/// The attempt under this near id, where there is one, is forgotten.
pub(crate) fn forget(attempts: &mut IndexedAttempts, near: Option<u32>)
    ensures { attempts.new.attempts ≡ without attempts.old.attempts near }
{
    match near {
        Some(near) => attempts.forget(near),
        None => {}
    }
}
