//! An event judged as a whole, and then its entries.

ghost use Rattle.std.specs.Prelude.{◌≡◌, ◌∷◌, ◌+◌, ℕ, IfOk, None, length};
ghost use Rattle.endpoint_model.specs.Event.{Setup, learn_in};
ghost use Rattle.endpoint_laws.specs.History.{History, nonces_in};
ghost use Rattle.log_values.specs.Events.{event_of};
ghost use Rattle.log_digest.specs.Nonces.{AreNonces};
ghost use Rattle.log_sent.specs.Sent.{IsSentOf};
ghost use Rattle.log_births.specs.Births.{IsPartyOf};
ghost use Rattle.log_verdict.specs.Checks.{LearnsCount};
ghost use Rattle.log_judging.specs.Judged.{IsJudged, IsWatchIn};

use crate::begun::judge_begun;
use crate::learning::learns_count;
use log_arrivals::{arrive_call, is_honest_call};
use log_births::Party;
use log_digest::Nonces;
use log_events::EndWatch;
use log_packets::{Opener, SecretMap};
use log_sent::Sent;
use log_values::Logged;
use log_verdict::{AuditFault, Finding};
use rtmfp_base::Memory;
use std::alloc::Global;

/// Opens the datagrams of an event: the one that it gives, and those that go out (own).
#[derive(Drop)]
pub struct Openers {
    arriving: Opener,
    leaving: Opener,
}

impl Openers {
    /// Openers that hold nothing. They take no memory.
    pub fn new(alloc: Global) -> Openers {
        Openers {
            arriving: Opener::new(alloc),
            leaving: Opener::new(alloc),
        }
    }
}

/// Judges an event whose call learns what counts: whether its datagram is honest, and its entries
/// pass.
fn judge_given(
    secrets: &SecretMap,
    party: &Party<'_>,
    watch: &mut EndWatch,
    sent: &Sent<'_>,
    nonces: &mut Nonces,
    openers: &mut Openers,
    number: u64,
    event: &Logged,
    alloc: Global,
) -> Result<Option<Finding>, Memory>
    ensures judged { (ends : ℕ → Setup) (who : ℕ) (earlier : History) →
        IsPartyOf (ends who) party.now → IsWatchIn secrets.now ends who earlier watch.old →
        IsSentOf earlier sent.now → AreNonces (nonces_in earlier) nonces.old →
        number ≡ length earlier + 1 →
        LearnsCount secrets.now (learn_in (event_of event.now).call) event.now.entries.items →
        IfOk result
        (IsJudged secrets.now ends (record { who = who; event = event_of event.now }) earlier) }
    ensures goes_on { (ends : ℕ → Setup) (who : ℕ) (earlier : History) →
        IsPartyOf (ends who) party.now → IsWatchIn secrets.now ends who earlier watch.old →
        IsSentOf earlier sent.now → AreNonces (nonces_in earlier) nonces.old →
        IfOk result (λ found. found ≡ None →
        IsWatchIn secrets.now ends who (record { who = who; event = event_of event.now } ∷ earlier)
        watch.new × AreNonces
        (nonces_in (record { who = who; event = event_of event.now } ∷ earlier)) nonces.new) }
{
    let Ok(arrived) = arrive_call(
        secrets,
        party.own,
        &watch.generations,
        &watch.digest,
        &watch.contexts,
        &mut openers.arriving,
        &event.call,
    ) else {
        return Err(Memory);
    };
    if !is_honest_call(&arrived, sent, &event.call) {
        return Ok(Some(Finding {
            event: number,
            entry: 0,
            fault: AuditFault::NotHonest,
        }));
    }
    judge_begun(
        secrets,
        party,
        watch,
        nonces,
        &arrived,
        &openers.arriving,
        &mut openers.leaving,
        number,
        event,
        alloc,
    )
}

/// Judges the next event of an audit, which is that of the end `party` and has this number, counted
/// from 1 in the order of the audit. It is added to what is kept of its end, and its nonces to
/// those of all ends; `sent` is what went out before it. The answer is the first check that fails
/// of it, in the order of the checks; None exactly where all pass (own).
///
/// Where one fails, or there is no memory, what is kept is that of no history any more.
pub fn judge_event(
    secrets: &SecretMap,
    party: &Party<'_>,
    watch: &mut EndWatch,
    sent: &Sent<'_>,
    nonces: &mut Nonces,
    openers: &mut Openers,
    number: u64,
    event: &Logged,
    alloc: Global,
) -> Result<Option<Finding>, Memory>
    ensures judged { (ends : ℕ → Setup) (who : ℕ) (earlier : History) →
        IsPartyOf (ends who) party.now → IsWatchIn secrets.now ends who earlier watch.old →
        IsSentOf earlier sent.now → AreNonces (nonces_in earlier) nonces.old →
        number ≡ length earlier + 1 → IfOk result
        (IsJudged secrets.now ends (record { who = who; event = event_of event.now }) earlier) }
    ensures goes_on { (ends : ℕ → Setup) (who : ℕ) (earlier : History) →
        IsPartyOf (ends who) party.now → IsWatchIn secrets.now ends who earlier watch.old →
        IsSentOf earlier sent.now → AreNonces (nonces_in earlier) nonces.old →
        IfOk result (λ found. found ≡ None →
        IsWatchIn secrets.now ends who (record { who = who; event = event_of event.now } ∷ earlier)
        watch.new × AreNonces
        (nonces_in (record { who = who; event = event_of event.now } ∷ earlier)) nonces.new) }
{
    if !learns_count(secrets, event) {
        return Ok(Some(Finding {
            event: number,
            entry: 0,
            fault: AuditFault::Secrets,
        }));
    }
    judge_given(
        secrets, party, watch, sent, nonces, openers, number, event, alloc,
    )
}
