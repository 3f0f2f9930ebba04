//! The lines of a journal, as the text of logs tells them.
ghost use Rattle.std.specs.Prelude.{◌≡◌, ◌++◌, ℕ, List, map, OnOk};
ghost use Rattle.log_writing.specs.Written.{event_lines, said, text_of, written_call, written_nonce};
ghost use Rattle.rendezvous_world.specs.Deed.{deed_of};
ghost use Rattle.rendezvous_world.specs.Draws.{draws_of};
ghost use Rattle.rendezvous_world.specs.History.{bytes_or_none, call_by, event_of, peer_of};
ghost use Rattle.rendezvous_world.specs.Inside.{named_of};
ghost use Rattle.rendezvous_world.specs.Seen.{EndSeen, print_at};
ghost use Rattle.world_logs.specs.Given.{IsGivenTo};

use counted_secrets::secret_after;
use log_writing::{SaidCall, push_event};
use rendezvous_world::{JournalLine, Step, World};
use rtmfp_text::{Name, Named, Text};
use sha2::{Digest, Sha256};
use std::alloc::{AllocError, Global};

/// The datagram that reached the end; no bytes where none did.
fn datagram_in(line: &JournalLine) -> &[u8]
    ensures { result.now ≡ bytes_or_none line.now.datagram }
{
    match line.datagram() {
        Some(datagram) => datagram.bytes(),
        None => &[],
    }
}

/// The fingerprint of the end with this number; that of no bytes where there is no such end.
fn print_at(named: &[Named], end: usize) -> [u8; 32]
    ensures { (ends : List EndSeen) → named.now ≡ map named_of ends → result ≡ print_at ends end }
{
    match named.get(end) {
        Some(named) => named.print,
        None => Sha256::digest(&[]),
    }
}

/// The 32 bytes that the call of a step is given and that are written of it: the fingerprint of the
/// end that an open names, or, at an end in this generation, the secret that it learns. Of other
/// calls there are none, and zeros stand for them.
fn given_to(named: &[Named], generation: u64, step: &Step) -> [u8; 32]
    ensures { (ends : List EndSeen) → named.now ≡ map named_of ends →
        IsGivenTo (print_at ends (peer_of (deed_of step.now))) generation (deed_of step.now)
        result }
{
    match step {
        Step::Open { peer, .. } => print_at(named, *peer),
        Step::Learn { .. } => secret_after(generation),
        _ => [0; 32],
    }
}

/// The nonce that is written of the call of a step; `drawn` is what calls on its line draw.
fn nonce_for(step: &Step, drawn: [u8; 16]) -> [u8; 16]
    ensures { (given : List ℕ) (line : ℕ) (bytes : List ℕ) → drawn ≡ (draws_of line).nonce →
        written_nonce (call_by given line bytes (deed_of step.now)) ≡ result }
{
    match step {
        Step::Unseek { .. } => [0; 16],
        Step::Cancel { .. } => [0; 16],
        Step::Close { .. } => [0; 16],
        Step::Flow { .. } => [0; 16],
        Step::Queue { .. } => [0; 16],
        Step::Abandon { .. } => [0; 16],
        Step::Finish { .. } => [0; 16],
        Step::Introduce { .. } => [0; 16],
        Step::Narrow { .. } => [0; 16],
        Step::Redirect { .. } => [0; 16],
        Step::Learn { .. } => [0; 16],
        Step::Advance { .. } => [0; 16],
        _ => drawn,
    }
}

/// What is written of the call of a step, by what it was given and drew, and by the datagram.
fn said_call<'a>(
    step: &'a Step,
    given: &'a [u8; 32],
    tag: &'a [u8; 16],
    datagram: &'a [u8],
) -> SaidCall<'a>
    ensures { (line : ℕ) → tag.now ≡ (draws_of line).tag →
        written_call (call_by given.now line datagram.now (deed_of step.now)) ≡ said result }
{
    match step {
        Step::Open { .. } => SaidCall::Open { peer: given, tag },
        Step::Seek { name, .. } => SaidCall::Seek { name, tag },
        Step::Unseek { near, .. } => SaidCall::Unseek { near: *near },
        Step::Cancel { n, .. } => SaidCall::Cancel { n: *n },
        Step::Close { near, .. } => SaidCall::Close { near: *near },
        Step::Learn { .. } => SaidCall::Learn { secret: given },
        Step::Advance { .. } => SaidCall::Advance,
        Step::Deliver { from, .. } => SaidCall::Receive { from, datagram },
        Step::Bent { from, .. } => SaidCall::Receive { from, datagram },
        Step::Inject { from, .. } => SaidCall::Receive { from, datagram },
        Step::Forge { from, .. } => SaidCall::Receive { from, datagram },
        Step::Tick { .. } => SaidCall::Tick,
        Step::End { .. } => SaidCall::Tick,
        Step::At { .. } => SaidCall::Tick,
        Step::Flow { .. } => SaidCall::Other,
        Step::Queue { .. } => SaidCall::Other,
        Step::Abandon { .. } => SaidCall::Other,
        Step::Finish { .. } => SaidCall::Other,
        Step::Introduce { .. } => SaidCall::Other,
        Step::Narrow { .. } => SaidCall::Other,
        Step::Redirect { .. } => SaidCall::Other,
    }
}

/// Adds the lines of the event that a line of the world's journal tells: that of its call, and those
/// of what the end did in it.
///
/// `name` is what the text calls the end, and `moment` the largest moment, in milliseconds, that the
/// end was given so far, the event's own with it.
pub fn push_line(
    alloc: Global,
    world: &World,
    line: &JournalLine,
    name: &Name,
    moment: u64,
    text: &mut Text,
) -> Result<(), AllocError>
    ensures { OnOk result (text.new ≡ text.old
        ++ text_of (event_lines name.now moment (event_of world.now.ends line.now))) }
{
    let Ok(step) = line.step(alloc) else {
        return Err(AllocError);
    };
    let draws = line.draws();
    let given = given_to(world.named().as_slice(), line.generation(), &step);
    let nonce = nonce_for(&step, draws.nonce);
    let call = said_call(&step, &given, &draws.tag, datagram_in(line));
    push_event(name, moment, &nonce, &call, line.out().entries(), text)?;
    Ok(())
}
