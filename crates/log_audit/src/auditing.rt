//! The audit of logs.

ghost use Rattle.std.specs.Prelude.{◌≡◌, ◌∷◌, ◌+◌, ◌<◌, ◌↔◌, ℕ, List, [], IfOk, None, length};
ghost use Rattle.endpoint_model.specs.Event.{Setup};
ghost use Rattle.endpoint_laws.specs.History.{History, log_of};
ghost use Rattle.endpoint_laws.specs.Laws.{AreCalls};
ghost use Rattle.endpoint_laws.specs.Agreed.{IsAgreed};
ghost use Rattle.log_values.specs.Events.{event_of, setup_of};
ghost use Rattle.log_values.specs.Told.{IsOrder, history_of, logs_of};
ghost use Rattle.log_verdict.specs.Told.{end_of, secrets_in, setups_of};
ghost use Rattle.log_verdict.specs.Checks.{IsVerdict};
ghost use Rattle.log_verdict.specs.Audited.{IsAudited};
ghost use Rattle.log_judging.specs.Judged.{IsJudged};
ghost use Rattle.log_audit.specs.Ends.{AreEndsOf, IsEndOf};
ghost use Rattle.log_audit.specs.Found.{AreJudged, IsYes};
ghost use Rattle.log_audit.specs.Together.{IsBeforeSent, IsTogetherOf, happened};

use crate::calls::is_call;
use crate::ends::{KeptEnd, enter_all, kept_by};
use crate::places::{next_event, none_seen};
use crate::secrets::secrets_of;
use log_births::Party;
use log_digest::Nonces;
use log_judging::{Openers, judge_event};
use log_packets::SecretMap;
use log_sent::Sent;
use log_values::{EndLog, Logged};
use log_verdict::{Finding, Verdict};
use rtmfp_base::Memory;
use std::alloc::Global;

/// What an audit keeps of all ends together.
#[derive(Drop)]
struct Together<'a> {
    sent: Sent<'a>,
    nonces: Nonces,
    openers: Openers,
}

impl<'a> Together<'a> {
    /// That of no event. It takes no memory.
    fn new(alloc: Global) -> Together<'a>
        ensures { IsTogetherOf [] result }
    {
        Together {
            sent: Sent::new(alloc),
            nonces: Nonces::new(alloc),
            openers: Openers::new(alloc),
        }
    }
}

/// Judges the next event of an audit, which is one of this end and has this number, from 1. The
/// answer is the first check that fails of it; None exactly where all pass.
fn judge_at(
    secrets: &SecretMap,
    log: &EndLog,
    end: &mut KeptEnd,
    all: &mut Together<'_>,
    number: u64,
    event: &Logged,
    alloc: Global,
) -> Result<Option<Finding>, Memory>
    ensures judged { (setups : List Setup) (who : ℕ) (earlier : History) →
        end_of setups who ≡ setup_of log.now → IsEndOf secrets.now setups earlier who end.old →
        IsTogetherOf earlier all.old → number ≡ length earlier + 1 → IfOk result
        (IsJudged secrets.now (end_of setups) (happened who (event_of event.now)) earlier) }
    ensures goes_on { (setups : List Setup) (who : ℕ) (earlier : History) →
        end_of setups who ≡ setup_of log.now → IsEndOf secrets.now setups earlier who end.old →
        IsTogetherOf earlier all.old → number ≡ length earlier + 1 →
        IfOk result (λ found. found ≡ None →
        IsEndOf secrets.now setups (happened who (event_of event.now) ∷ earlier) who end.new ×
        IsBeforeSent (happened who (event_of event.now)) earlier all.new) }
{
    let party = Party {
        cert: log.cert.bytes(),
        own: &end.own,
        cookies: &end.cookies,
        max_peers: log.max_peers,
        max_sessions: log.max_sessions,
    };
    judge_event(
        secrets,
        &party,
        &mut end.watch,
        &all.sent,
        &mut all.nonces,
        &mut all.openers,
        number,
        event,
        alloc,
    )
}

/// The same of an event of the end with this number, from 0, among all ends.
fn judge_next(
    secrets: &SecretMap,
    logs: &[EndLog],
    ends: &mut Vec<KeptEnd>,
    who: usize,
    all: &mut Together<'_>,
    number: u64,
    event: &Logged,
    alloc: Global,
) -> Result<Option<Finding>, Memory>
    requires log { who < length logs.now }
    requires end { who < length ends.old.items }
    ensures judged { (earlier : History) →
        AreEndsOf secrets.now (setups_of logs.now) earlier ends.old.items →
        IsTogetherOf earlier all.old → number ≡ length earlier + 1 →
        IfOk result (IsJudged secrets.now (end_of (setups_of logs.now))
        (happened who (event_of event.now)) earlier) }
    ensures goes_on { (earlier : History) →
        AreEndsOf secrets.now (setups_of logs.now) earlier ends.old.items →
        IsTogetherOf earlier all.old → number ≡ length earlier + 1 →
        IfOk result (λ found. found ≡ None → AreEndsOf secrets.now (setups_of logs.now)
        (happened who (event_of event.now) ∷ earlier) ends.new.items ×
        IsBeforeSent (happened who (event_of event.now)) earlier all.new) }
{
    judge_at(
        secrets,
        &logs[who],
        &mut ends[who],
        all,
        number,
        event,
        alloc,
    )
}

/// Judges the events of the logs in their order. The answer is the first check that fails of them;
/// None exactly where all pass.
fn judge_all(
    secrets: &SecretMap,
    logs: &[EndLog],
    order: &[u32],
    ends: &mut Vec<KeptEnd>,
    alloc: Global,
) -> Result<Option<Finding>, Memory>
    requires order { IsOrder (logs_of logs.now) order.now }
    requires ends { AreEndsOf secrets.now (setups_of logs.now) [] ends.old.items }
    ensures judged { IfOk result (AreJudged secrets.now (end_of (setups_of logs.now))
        (history_of logs.now order.now)) }
    ensures ends { IfOk result (λ found. found ≡ None → AreEndsOf secrets.now
        (setups_of logs.now) (history_of logs.now order.now) ends.new.items) }
    ensures calls { IfOk result (λ found. found ≡ None → (who : ℕ) →
        AreCalls (log_of who (history_of logs.now order.now))) }
{
    let mut seen = none_seen(logs, alloc)?;
    let mut all = Together::new(alloc);
    let mut number = 0;
    let mut rest = order;
    while let [next, more @ ..] = rest {
        let who = *next as usize;
        let event = next_event(logs, &mut seen, who);
        is_call(event);
        number += 1;
        if let Some(found) = judge_next(secrets, logs, ends, who, &mut all, number, event, alloc)? {
            return Ok(Some(found));
        }
        all.sent.add(event)?;
        rest = more;
    }
    Ok(None)
}

/// Audits logs of ends in an order of their events that has each event once: whether the history
/// that they tell is lawful, honest and fresh, with one map of secrets, or else which check is the
/// first that fails (own). Who made the logs isn't trusted: ends whose logs pass agree, whoever
/// made them.
///
/// It goes over the events twice, first for the secrets alone, and copies no datagram. Where no
/// memory is found, that is the answer.
pub fn audit(logs: &[EndLog], order: &[u32], alloc: Global) -> Result<Verdict, Memory>
    requires { IsOrder (logs_of logs.now) order.now }
    ensures verdict { IfOk result (IsVerdict logs.now order.now) }
    ensures audited { IfOk result (λ v. IsYes v
        ↔ IsAudited (setups_of logs.now) (history_of logs.now order.now)) }
    ensures agreed { IfOk result (λ v. IsYes v →
        IsAgreed (secrets_in (setups_of logs.now) (history_of logs.now order.now))
        (end_of (setups_of logs.now)) (history_of logs.now order.now)) }
{
    let secrets = secrets_of(logs, order, alloc)?;
    let mut ends = Vec::new(alloc);
    if let Some(found) = enter_all(&secrets, logs, &mut ends, alloc)? {
        return Ok(Verdict::No(found));
    }
    if let Some(found) = judge_all(&secrets, logs, order, &mut ends, alloc)? {
        return Ok(Verdict::No(found));
    }
    Ok(Verdict::Yes {
        events: order.len() as u64,
        kept: kept_by(ends.as_slice())?,
    })
}
