//! The line of a fact.

ghost use Rattle.std.specs.Prelude.{◌≡◌, ℕ, List};
ghost use Rattle.std.specs.FinMap.{get};
ghost use Rattle.std.specs.Option.{option_copied};
ghost use Rattle.glare_core.specs.declared.facts.Fact.TheVariants.{Born, Ended};
ghost use Rattle.glare_core.specs.declared.facts.Joined.{Joined};
ghost use Rattle.glare_core.specs.declared.facts.Why.{Why};
ghost use Rattle.endpoint_model.specs.Event.{Setup, Event};
ghost use Rattle.endpoint_laws.specs.Past.{Past};
ghost use Rattle.endpoint_laws.specs.Lawful.{BornLine};
ghost use Rattle.log_contexts.specs.Kept.{last_in};
ghost use Rattle.log_packets.specs.Asked.{Tells};
ghost use Rattle.log_facts.specs.Coming.{IsRead};
ghost use Rattle.log_facts.specs.Lines.{WholeLine};
ghost use Rattle.log_entries.specs.Scenes.{IsHere, IsSceneOf};

use crate::scene::Scene;
use endpoint_model::Entry;
use glare_core::Fact;
use log_births::{Way, born};
use log_events::EndWatch;
use log_facts::fact_line;
use log_packets::SecretMap;
use rtmfp_packet::Packet;

/// Whether the birth of a session meets what it asks of its event; false for any other fact, of
/// which nothing is asked so.
fn is_borne(
    secrets: &SecretMap,
    scene: &Scene<'_>,
    packet: Option<&Packet<'_>>,
    watch: &EndWatch,
    way: Option<Way>,
    fact: &Fact,
) -> bool
    ensures { (setup : Setup) (now : ℕ) (e : Event) (before past : Past) (j : Joined) →
        IsSceneOf secrets.now setup now e before scene.now →
        IsRead scene.now.arrival scene.now.plain.now (option_copied packet.entry) →
        IsHere secrets.now setup now e before past watch.now way → fact.now ≡ Born j →
        Tells (BornLine secrets.now setup now e.call past j) result }
{
    match fact {
        Fact::Born(joined) => born(
            secrets,
            &scene.party,
            &watch.digest,
            scene.call,
            scene.nonce,
            scene.arrival,
            packet,
            way,
            joined,
        ),
        _ => false,
    }
}

/// When the session took the last datagram whose end a fact states, in milliseconds; None for any
/// other fact.
fn last_taken(watch: &EndWatch, fact: &Fact) -> Option<u64>
    ensures { (peer : List ℕ) (near : ℕ) (why : Why) → fact.now ≡ Ended peer near why →
        result ≡ last_in (get watch.now.contexts.sessions near) }
{
    match fact {
        Fact::Ended { near, .. } => watch.contexts.last(*near),
        _ => None,
    }
}

/// Whether a fact meets its line of the table of lawful logs, by what is kept of its end before it;
/// `rest` are the entries of the event after it.
pub(crate) fn fact_judged(
    secrets: &SecretMap,
    scene: &Scene<'_>,
    packet: Option<&Packet<'_>>,
    watch: &EndWatch,
    way: Option<Way>,
    rest: &[Entry],
    fact: &Fact,
) -> bool
    ensures { (setup : Setup) (now : ℕ) (e : Event) (before past : Past) →
        IsSceneOf secrets.now setup now e before scene.now →
        IsRead scene.now.arrival scene.now.plain.now (option_copied packet.entry) →
        IsHere secrets.now setup now e before past watch.now way →
        Tells (WholeLine secrets.now setup now e.call past rest.now fact.now) result }
{
    let borne = is_borne(secrets, scene, packet, watch, way, fact);
    let last = last_taken(watch, fact);
    fact_line(
        secrets,
        &watch.digest,
        scene.party.own,
        scene.call,
        scene.nonce,
        scene.arrival,
        packet,
        scene.took,
        last,
        borne,
        rest,
        fact,
    )
}
