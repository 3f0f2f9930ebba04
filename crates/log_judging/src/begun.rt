//! An event begins, and its entries are judged.

ghost use Rattle.std.specs.Prelude.{◌≡◌, ℕ, List, IfOk};
ghost use Rattle.endpoint_model.specs.Event.{Setup, moment_at, receive_in};
ghost use Rattle.endpoint_laws.specs.Past.{Past, with_begun};
ghost use Rattle.log_values.specs.Events.{event_of};
ghost use Rattle.log_digest.specs.Nonces.{AreNonces};
ghost use Rattle.log_arrivals.specs.Calls.{IsArrivedIn};
ghost use Rattle.log_births.specs.Births.{IsPartyOf};
ghost use Rattle.log_events.specs.Watch.{IsWatchOf};
ghost use Rattle.log_judging.specs.Entries.{AreJudged};

use crate::entries::judge_entries;
use log_arrivals::Arrived;
use log_births::Party;
use log_digest::Nonces;
use log_entries::Scene;
use log_events::EndWatch;
use log_packets::{Opener, SecretMap};
use log_values::{Logged, LoggedCall};
use log_verdict::Finding;
use rtmfp_base::Memory;
use std::alloc::Global;

/// The moment of an event, in milliseconds: the one that its call was given, 0 where it is given
/// none.
fn moment_of(event: &Logged) -> u64
    ensures { result ≡ (event_of event.now).moment }
{
    match &event.call {
        LoggedCall::Cancel { .. } => 0,
        LoggedCall::Unseek { .. } => 0,
        LoggedCall::Learn { .. } => 0,
        LoggedCall::Advance => 0,
        LoggedCall::Other => 0,
        _ => event.moment,
    }
}

/// An event begins, of whose datagram this is found, by what is kept of its end; `arriving` holds
/// its plain packet where it opens. Its entries are judged.
pub(crate) fn judge_begun(
    secrets: &SecretMap,
    party: &Party<'_>,
    watch: &mut EndWatch,
    nonces: &mut Nonces,
    arrived: &Arrived,
    arriving: &Opener,
    leaving: &mut Opener,
    number: u64,
    event: &Logged,
    alloc: Global,
) -> Result<Option<Finding>, Memory>
    ensures { (setup : Setup) (last : ℕ) (past : Past) (stated : List (List ℕ)) →
        IsPartyOf setup party.now → IsWatchOf secrets.now setup last past watch.old →
        AreNonces stated nonces.old →
        IsArrivedIn secrets.now setup past (receive_in (event_of event.now).call) arriving.now
        arrived.now →
        IfOk result (AreJudged secrets.now number setup (moment_at last (event_of event.now))
        (event_of event.now).call
        (with_begun (moment_at last (event_of event.now)) (event_of event.now) past) stated 0
        event.now.entries.items watch.new nonces.new) }
{
    let took = watch.begin_call(
        arrived,
        arriving,
        &event.call,
        &event.nonce,
        moment_of(event),
    );
    let scene = Scene {
        party: *party,
        call: &event.call,
        nonce: &event.nonce,
        arrival: arrived.arrival,
        plain: arriving.plain(),
        took,
    };
    let packet = arriving.reads();
    judge_entries(
        secrets,
        &scene,
        packet.as_ref(),
        watch,
        nonces,
        leaving,
        number,
        event.entries.as_slice(),
        alloc,
    )
}
