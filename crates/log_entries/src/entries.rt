//! One entry judged, and added where it passes.

ghost use Rattle.std.specs.Prelude.{◌≡◌, ◌++◌, ℕ, List, IfOk, OnOk, None};
ghost use Rattle.std.specs.Option.{option_copied};
ghost use Rattle.endpoint_model.specs.declared.entry.Entry.{Entry};
ghost use Rattle.endpoint_model.specs.Event.{Setup, Event, receive_in};
ghost use Rattle.endpoint_model.specs.Views.{out_in};
ghost use Rattle.endpoint_laws.specs.Past.{Past, with_entry};
ghost use Rattle.endpoint_laws.specs.Contexts.{Secrets};
ghost use Rattle.endpoint_laws.specs.Lawful.{Line};
ghost use Rattle.log_digest.specs.Nonces.{AreNonces};
ghost use Rattle.log_arrivals.specs.Arrivals.{ArrivesIn};
ghost use Rattle.log_facts.specs.Coming.{IsRead};
ghost use Rattle.log_verdict.specs.Checks.{AreNew, nonces_at};
ghost use Rattle.log_entries.specs.Found.{IsFoundOf};
ghost use Rattle.log_entries.specs.Scenes.{HoldsSent, IsHere, IsSceneOf};

use crate::lines::{add_entry, entry_line};
use crate::scene::Scene;
use endpoint_model::Entry;
use log_arrivals::Arrival;
use log_births::{Way, way_of};
use log_digest::Nonces;
use log_events::EndWatch;
use log_packets::{Opener, SecretMap};
use log_sent::{add_nonce, states_new};
use log_verdict::AuditFault;
use rtmfp_base::Memory;
use rtmfp_packet::Packet;
use std::alloc::Global;

/// What is wrong with an entry, as `judge_entry` answers it. Where nothing is, `leaving` holds the
/// plain packet of the datagram that goes out, if the entry is one.
fn fault_in(
    secrets: &SecretMap,
    scene: &Scene<'_>,
    packet: Option<&Packet<'_>>,
    watch: &EndWatch,
    way: Option<Way>,
    nonces: &Nonces,
    leaving: &mut Opener,
    rest: &[Entry],
    entry: &Entry,
) -> Result<Option<AuditFault>, Memory>
    ensures found { (setup : Setup) (now : ℕ) (e : Event) (before past : Past)
        (stated : List (List ℕ)) → IsSceneOf secrets.now setup now e before scene.now →
        IsRead scene.now.arrival scene.now.plain.now (option_copied packet.entry) →
        IsHere secrets.now setup now e before past watch.now way → AreNonces stated nonces.now →
        IfOk result (IsFoundOf (Line secrets.now setup now e.call past rest.now entry.now)
        (AreNew (nonces_at entry.now) stated)) }
    ensures sealed { IfOk result (λ fault. fault ≡ None →
        HoldsSent secrets.now (out_in entry.now) leaving.new) }
{
    let Ok(meets) = entry_line(secrets, scene, packet, watch, way, leaving, rest, entry) else {
        return Err(Memory);
    };
    if !meets {
        return Ok(Some(AuditFault::Unlawful));
    }
    if !states_new(nonces, entry) {
        return Ok(Some(AuditFault::NotFresh));
    }
    Ok(None)
}

/// Adds an entry that passes. Where it is a datagram that goes out, `leaving` holds its plain
/// packet.
fn pass_entry(
    watch: &mut EndWatch,
    way: &mut Option<Way>,
    nonces: &mut Nonces,
    arrival: Arrival,
    leaving: &Opener,
    entry: &Entry,
    alloc: Global,
) -> Result<(), Memory>
    ensures here { (secrets : Secrets) (setup : Setup) (now : ℕ) (e : Event) (before past : Past)
        (plain : List ℕ) (rest : List Entry) →
        IsHere secrets setup now e before past watch.old way.old →
        ArrivesIn secrets setup before (receive_in e.call) plain arrival →
        Line secrets setup now e.call past rest entry.now →
        HoldsSent secrets (out_in entry.now) leaving.now → OnOk result
        (IsHere secrets setup now e before (with_entry now entry.now past) watch.new way.new) }
    ensures stated { (stated : List (List ℕ)) → AreNonces stated nonces.old →
        OnOk result (AreNonces (nonces_at entry.now ++ stated) nonces.new) }
{
    let next = way_of(&watch.digest, entry);
    let Ok(()) = add_nonce(nonces, entry) else {
        return Err(Memory);
    };
    let Ok(()) = add_entry(watch, arrival, leaving, entry, alloc) else {
        return Err(Memory);
    };
    *way = next;
    Ok(())
}

/// Judges the next entry of an event, and adds it where it passes: to what is kept of its end, and
/// to the nonces that all ends stated. `way` is what a birth is told that comes next. The answer is
/// what is wrong; None exactly where the entry meets its line of the table of lawful logs and
/// states no nonce that was stated before (own). Where there is no memory what is kept of the end is
/// that of no log any more.
pub fn judge_entry(
    secrets: &SecretMap,
    scene: &Scene<'_>,
    packet: Option<&Packet<'_>>,
    watch: &mut EndWatch,
    way: &mut Option<Way>,
    nonces: &mut Nonces,
    leaving: &mut Opener,
    rest: &[Entry],
    entry: &Entry,
    alloc: Global,
) -> Result<Option<AuditFault>, Memory>
    ensures found { (setup : Setup) (now : ℕ) (e : Event) (before past : Past)
        (stated : List (List ℕ)) → IsSceneOf secrets.now setup now e before scene.now →
        IsRead scene.now.arrival scene.now.plain.now (option_copied packet.entry) →
        IsHere secrets.now setup now e before past watch.old way.old →
        AreNonces stated nonces.old →
        IfOk result (IsFoundOf (Line secrets.now setup now e.call past rest.now entry.now)
        (AreNew (nonces_at entry.now) stated)) }
    ensures goes_on { (setup : Setup) (now : ℕ) (e : Event) (before past : Past)
        (stated : List (List ℕ)) → IsSceneOf secrets.now setup now e before scene.now →
        IsRead scene.now.arrival scene.now.plain.now (option_copied packet.entry) →
        IsHere secrets.now setup now e before past watch.old way.old →
        AreNonces stated nonces.old → IfOk result (λ fault. fault ≡ None →
        IsHere secrets.now setup now e before (with_entry now entry.now past) watch.new way.new ×
        AreNonces (nonces_at entry.now ++ stated) nonces.new) }
{
    let found = fault_in(
        secrets, scene, packet, watch, *way, nonces, leaving, rest, entry,
    )?;
    if found.is_some() {
        return Ok(found);
    }
    pass_entry(watch, way, nonces, scene.arrival, leaving, entry, alloc)?;
    Ok(None)
}
