//! The entries of an event, judged one after another.

ghost use Rattle.std.specs.Prelude.{ℕ, List, IfOk, None};
ghost use Rattle.std.specs.Option.{option_copied};
ghost use Rattle.endpoint_model.specs.Event.{Setup, Event};
ghost use Rattle.endpoint_laws.specs.Past.{Past, with_begun};
ghost use Rattle.log_judging.specs.Entries.{AreJudged, IsGoingOn};

use endpoint_model::Entry;
use log_digest::Nonces;
use log_entries::{Scene, judge_entry};
use log_events::EndWatch;
use log_packets::{Opener, SecretMap};
use log_verdict::Finding;
use rtmfp_base::Memory;
use rtmfp_packet::Packet;
use std::alloc::Global;

/// Judges the entries of the event with this number, which has just begun; `packet` is the packet
/// that its datagram is, where that opens. They are added to what is kept of its end, and their
/// nonces to those of all ends. The answer is the first check that fails of them, and their places
/// are counted from 1; None exactly where all pass. Where there is no memory what is kept is that
/// of no log any more.
pub(crate) fn judge_entries(
    secrets: &SecretMap,
    scene: &Scene<'_>,
    packet: Option<&Packet<'_>>,
    watch: &mut EndWatch,
    nonces: &mut Nonces,
    leaving: &mut Opener,
    number: u64,
    entries: &[Entry],
    alloc: Global,
) -> Result<Option<Finding>, Memory>
    ensures { (setup : Setup) (now : ℕ) (e : Event) (before : Past) (stated : List (List ℕ)) →
        IsGoingOn secrets.now setup now e before (with_begun now e before) stated scene.now
        (option_copied packet.entry) watch.old None nonces.old →
        IfOk result (AreJudged secrets.now number setup now e.call (with_begun now e before)
        stated 0 entries.now watch.new nonces.new) }
{
    let mut way = None;
    let mut count = 0;
    let mut rest = entries;
    while let [entry, more @ ..] = rest {
        match judge_entry(
            secrets, scene, packet, watch, &mut way, nonces, leaving, more, entry, alloc,
        ) {
            Ok(None) => {}
            Ok(Some(fault)) => {
                return Ok(Some(Finding {
                    event: number,
                    entry: count + 1,
                    fault,
                }));
            }
            Err(Memory) => return Err(Memory),
        }
        count += 1;
        rest = more;
    }
    Ok(None)
}
