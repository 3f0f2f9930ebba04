//! The line of an entry, and the entry added to what is kept.

ghost use Rattle.std.specs.Prelude.{◌≡◌, ℕ, List, Option, IfOk, OnOk, OnErr, None, drop, true};
ghost use Rattle.std.specs.Option.{option_copied};
ghost use Rattle.crypto_profile.specs.Sealing.{number_of};
ghost use Rattle.packet_scramble.specs.Datagram.{sid_of};
ghost use Rattle.endpoint_model.specs.declared.entry.Entry.{Entry};
ghost use Rattle.endpoint_model.specs.Event.{Setup, Event, receive_in};
ghost use Rattle.endpoint_model.specs.Views.{out_in};
ghost use Rattle.endpoint_laws.specs.Past.{Past, with_entry};
ghost use Rattle.endpoint_laws.specs.Contexts.{Secrets};
ghost use Rattle.endpoint_laws.specs.Lawful.{Line, OutLine};
ghost use Rattle.log_contexts.specs.Contexts.{AreKeyingsOf};
ghost use Rattle.log_packets.specs.Asked.{Tells};
ghost use Rattle.log_packets.specs.Opening.{IsSealed};
ghost use Rattle.log_arrivals.specs.Arrivals.{ArrivesIn};
ghost use Rattle.log_births.specs.declared.party.Way.{Way};
ghost use Rattle.log_facts.specs.Coming.{IsRead};
ghost use Rattle.log_events.specs.Underway.{IsUnderway};
ghost use Rattle.log_events.specs.Watch.{IsWatchOf};
ghost use Rattle.log_entries.specs.Scenes.{HoldsSent, IsHere, IsSceneOf};

use crate::facts::fact_judged;
use crate::scene::Scene;
use crypto_profile::Context;
use endpoint_model::Entry;
use log_arrivals::Arrival;
use log_births::Way;
use log_events::EndWatch;
use log_facts::closed;
use log_lines::{advanced, learnt, sought, unsought};
use log_outs::{Cause, keyings_out, out_line};
use log_packets::{Opener, SecretMap};
use rtmfp_base::Memory;
use rtmfp_packet::Packet;
use std::alloc::Global;

/// Whether an entry that is no datagram that goes out meets its line. Of one that is neither a fact
/// nor the end of a closing, and neither of searches nor of generations, nothing is asked.
fn plain_line(
    secrets: &SecretMap,
    scene: &Scene<'_>,
    packet: Option<&Packet<'_>>,
    watch: &EndWatch,
    way: Option<Way>,
    rest: &[Entry],
    entry: &Entry,
) -> bool
    ensures { (setup : Setup) (now : ℕ) (e : Event) (before past : Past) →
        IsSceneOf secrets.now setup now e before scene.now →
        IsRead scene.now.arrival scene.now.plain.now (option_copied packet.entry) →
        IsHere secrets.now setup now e before past watch.now way → out_in entry.now ≡ None →
        Tells (Line secrets.now setup now e.call past rest.now entry.now) result }
{
    match entry {
        Entry::Fact(fact) => fact_judged(secrets, scene, packet, watch, way, rest, fact),
        Entry::Closed { near } => closed(&watch.digest, scene.call, packet, scene.took, *near),
        Entry::Sought { near, name } => sought(&watch.digest, scene.call, *near, name),
        Entry::Unsought { near, why } => unsought(&watch.digest, scene.call, *near, *why),
        Entry::Learnt { generation } => learnt(&watch.generations, scene.call, *generation),
        Entry::Advanced { generation } => advanced(&watch.generations, scene.call, *generation),
        _ => true,
    }
}

/// Whether a datagram that goes out in this context meets its line. Where it does, `leaving` holds
/// its plain packet.
fn sent_line(
    secrets: &SecretMap,
    scene: &Scene<'_>,
    watch: &EndWatch,
    leaving: &mut Opener,
    datagram: &[u8],
    context: &Context,
) -> Result<bool, Memory>
    ensures tells { (setup : Setup) (now : ℕ) (e : Event) (before past : Past)
        (way : Option Way) → IsSceneOf secrets.now setup now e before scene.now →
        IsHere secrets.now setup now e before past watch.now way →
        IfOk result (λ it. Tells (OutLine secrets.now setup e.call past datagram.now context.now)
        it) }
    ensures sealed { IfOk result (λ it. it ≡ true → IsSealed secrets.now context.now datagram.now
        (sid_of datagram.now) (number_of (drop 4 datagram.now)) leaving.new) }
    ensures err { OnErr result (leaving.new ≡ leaving.old) }
{
    let sender = watch.sender(scene.party.cert, scene.party.own);
    let why = Cause {
        call: scene.call,
        arrival: scene.arrival,
        plain: scene.plain,
    };
    out_line(secrets, &sender, &why, leaving, datagram, context)
}

/// Whether an entry meets its line of the table of lawful logs, by what is kept of its end before
/// it; `rest` are the entries of the event after it. `packet` is the packet that the event's
/// datagram is, where that opens. Where the entry is a datagram that goes out and meets its line,
/// `leaving` holds its plain packet then (own).
pub fn entry_line(
    secrets: &SecretMap,
    scene: &Scene<'_>,
    packet: Option<&Packet<'_>>,
    watch: &EndWatch,
    way: Option<Way>,
    leaving: &mut Opener,
    rest: &[Entry],
    entry: &Entry,
) -> Result<bool, Memory>
    ensures tells { (setup : Setup) (now : ℕ) (e : Event) (before past : Past) →
        IsSceneOf secrets.now setup now e before scene.now →
        IsRead scene.now.arrival scene.now.plain.now (option_copied packet.entry) →
        IsHere secrets.now setup now e before past watch.now way →
        IfOk result (λ it. Tells (Line secrets.now setup now e.call past rest.now entry.now) it) }
    ensures sealed { IfOk result (λ it. it ≡ true →
        HoldsSent secrets.now (out_in entry.now) leaving.new) }
    ensures err { OnErr result (leaving.new ≡ leaving.old) }
{
    match entry {
        Entry::Out {
            datagram,
            context,
            ..
        } => sent_line(secrets, scene, watch, leaving, datagram.bytes(), context),
        _ => Ok(plain_line(secrets, scene, packet, watch, way, rest, entry)),
    }
}

/// The session IDs of the attempts whose keyings go out with an entry. Where that is a datagram,
/// `leaving` holds its plain packet. Where there are none it takes no memory.
fn keyings_in(leaving: &Opener, entry: &Entry, alloc: Global) -> Result<Vec<u32>, Memory>
    ensures { (secrets : Secrets) → HoldsSent secrets (out_in entry.now) leaving.now →
        IfOk result (λ ids. AreKeyingsOf secrets (out_in entry.now) ids.items) }
{
    match entry {
        Entry::Out { context, .. } => keyings_out(leaving, context, alloc),
        _ => Ok(Vec::new(alloc)),
    }
}

/// Adds an entry that meets its line to what is kept of its end. Where it is a datagram that goes
/// out, `leaving` holds its plain packet. Where there is no memory what is kept is that of no log
/// any more.
pub fn add_entry(
    watch: &mut EndWatch,
    arrival: Arrival,
    leaving: &Opener,
    entry: &Entry,
    alloc: Global,
) -> Result<(), Memory>
    ensures { (secrets : Secrets) (setup : Setup) (now : ℕ) (e : Event) (before past : Past)
        (plain : List ℕ) (rest : List Entry) → IsUnderway secrets setup now e before past →
        IsWatchOf secrets setup now past watch.old →
        ArrivesIn secrets setup before (receive_in e.call) plain arrival →
        Line secrets setup now e.call past rest entry.now →
        HoldsSent secrets (out_in entry.now) leaving.now →
        OnOk result (IsWatchOf secrets setup now (with_entry now entry.now past) watch.new ×
        IsUnderway secrets setup now e before (with_entry now entry.now past)) }
{
    let Ok(keyings) = keyings_in(leaving, entry, alloc) else {
        return Err(Memory);
    };
    let opened = arrival.generation();
    watch.add(entry, keyings.as_slice(), opened)
}
