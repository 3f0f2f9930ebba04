//! Which attempt a chunk speaks of, and why it is discarded.

ghost use Rattle.std.specs.Prelude.{◌≡◌, ◌≤◌, length, drop, false, IfOk, IfErr, Some, None};
ghost use Rattle.std.specs.FinMap.{get};
ghost use Rattle.std.specs.Str.{bytes_eq};
ghost use Rattle.glare_core.specs.Ledger.{held_with};
ghost use Rattle.glare_core.specs.Things.{near_of};
ghost use Rattle.startup.specs.Attempts.{wide, changed, if_cookie, change_cause_among, is_under, held_cause, spent_cause, start_cause};
ghost use Rattle.startup.specs.Sought.{IsChosenNear, IsChosenAt};

use crate::attempt::Stage;
use crate::indexed::IndexedAttempts;
use crate::rows::{Sought, has_cookie};
use glare_core::{Held, Peers, StartRefusal};
use rtmfp_base::Cause;

/// The most bytes of a tag or a cookie that is taken from a peer (own).
const WIDTH: usize = 128;

/// A tag or a cookie of more than 128 bytes.
pub fn wide(bytes: &[u8]) -> Option<Cause>
    ensures { result ≡ wide bytes.now }
{
    if bytes.len() > WIDTH {
        Some(Cause::Wide(bytes.len() as u64))
    } else {
        None
    }
}

/// The bytes of a certificate before its name.
const INSTANCE: usize = 16;

/// Whether a certificate has this name: whether all that stands behind its 16 instance bytes is.
pub(crate) fn has_name(cert: &[u8], name: &[u8]) -> bool
    ensures { result ≡ bytes_eq name.now (drop 16 cert.now) }
{
    let start = cert.len().min(INSTANCE);
    name == &cert[start..]
}

/// The near id of what is held.
fn near_of(held: &Held) -> u32
    ensures { result ≡ near_of held.now }
{
    match held {
        Held::Opening { near, .. } => *near,
        Held::HalfOpen(joined) | Held::KeptAsResponder(joined) | Held::KeptAsInitiator(joined) =>
            joined.near,
    }
}

/// Why no attempt starts towards an end with which something is held.
pub(crate) fn held_cause(peers: &Peers, print: &[u8; 32]) -> Option<Cause>
    ensures { result ≡ held_cause (held_with peers.now print.now) }
{
    match peers.held(print) {
        Some(thing) => Some(Cause::AlreadyHeld(near_of(thing))),
        None => None,
    }
}

/// The cause that goes with a refusal of the ledger, where it is of the last two.
fn start_cause(refusal: Option<StartRefusal>) -> Option<Cause>
    ensures { result ≡ start_cause refusal }
{
    match refusal {
        Some(StartRefusal::AttemptsSpent) => Some(Cause::AttemptsSpent),
        Some(StartRefusal::PeersFull(count)) => Some(Cause::PeersFull(count)),
        Some(StartRefusal::OwnPrint) => None,
        Some(StartRefusal::Opening(_)) => None,
        Some(StartRefusal::Open(_)) => None,
        Some(StartRefusal::Memory) => None,
        None => None,
    }
}

/// Why no attempt starts towards another end with which nothing is held.
pub(crate) fn spent_cause(peers: &Peers, print: &[u8; 32]) -> Option<Cause>
    requires other { bytes_eq print.now peers.now.own ≡ false }
    requires unheld { held_with peers.now print.now ≡ None }
    ensures { result ≡ spent_cause peers.now print.now }
{
    start_cause(peers.start_refusal(print))
}

/// This near id, where its attempt has this cookie.
fn with_cookie(attempts: &IndexedAttempts, near: u32, cookie: &[u8]) -> Option<u32>
    ensures { IsChosenNear (if_cookie cookie.now near (get attempts.now.attempts near))
        attempts.now.attempts result }
{
    match attempts.get(near) {
        Some(attempt) => {
            if has_cookie(attempt, cookie) {
                Some(near)
            } else {
                None
            }
        }
        None => None,
    }
}

/// The near id of the attempt whose cookie a change under this session ID replaces.
fn chosen_near(attempts: &IndexedAttempts, sid: u32, old: &[u8]) -> Option<u32>
    ensures { IsChosenNear (changed attempts.now.attempts sid old.now) attempts.now.attempts
        result }
{
    if sid == 0 {
        match attempts.find(&Sought::Cookie(old)) {
            Some(found) => Some(found.near),
            None => None,
        }
    } else {
        with_cookie(attempts, sid, old)
    }
}

/// Whether keyings are sent in this generation.
fn is_under(stage: &Stage, generation: u64) -> bool
    ensures { result ≡ is_under generation stage.now }
{
    match stage {
        Stage::Hello => false,
        Stage::Keying { under, .. } => under.number() == generation,
    }
}

/// The near id of the attempt whose cookie a change under this session ID replaces that opened in
/// this generation, or why it is discarded.
pub(crate) fn changed_near(
    attempts: &IndexedAttempts,
    sid: u32,
    old: &[u8],
    new: &[u8],
    generation: u64,
) -> Result<u32, Cause>
    ensures ok { IfOk result (IsChosenAt (changed attempts.now.attempts sid old.now)
        attempts.now.attempts) }
    ensures cookie { IfOk result (λ _. length new.now ≤ 128) }
    ensures cause { IfOk result (λ _. change_cause_among attempts.now.attempts sid old.now new.now
        generation ≡ None) }
    ensures refused { IfErr result (λ e. change_cause_among attempts.now.attempts sid old.now
        new.now generation ≡ Some e) }
{
    match wide(old) {
        Some(cause) => return Err(cause),
        None => {}
    }
    match wide(new) {
        Some(cause) => return Err(cause),
        None => {}
    }
    let Some(near) = chosen_near(attempts, sid, old) else {
        return Err(Cause::NoAttempt);
    };
    match attempts.get(near) {
        Some(attempt) => {
            if is_under(&attempt.stage, generation) {
                Ok(near)
            } else {
                Err(Cause::NoAttempt)
            }
        }
        None => unreachable!(),
    }
}
