//! The calls of the end, each with what is written of it.
ghost use Rattle.std.specs.Prelude.{◌≡◌, ◌≤◌, ◌∷◌, [], IsSome, OnErr, OnOk, drop, length};
ghost use Rattle.endpoint_model.specs.Event.{Done, Event, Receive, Tick};
ghost use Rattle.log_writing.specs.Written.{no_nonce, said};
ghost use Rattle.rtmfp_node.specs.Acting.{ActsIn, DidCall, DidOpen, IsSaid, Succeeded, added, noted_more};
ghost use Rattle.rtmfp_node.specs.Events.{advance_call, event_of, learn_call, opens_flow, queues};

use crate::notes::Notes;
use endpoint::sizes::{are_bytes, are_sized, are_thirty_two};
use endpoint::{Draws, Endpoint, MessageOptions, Outbox};
use identity::{Epd, ServiceName};
use log_writing::SaidCall;
use rtmfp_forms::Address;
use rtmfp_words::{OpeningWords, Whom};
use std::alloc::AllocError;

/// The priority of the flow of a node's message.
const PRIORITY: u8 = 4;

/// The metadata of that flow.
const METADATA: &[u8] = b"m";

/// What a call draws that draws nothing.
const NO_NONCE: [u8; 16] = [0; 16];

/// Notes an event that added the entries behind the first ones.
fn note(
    turn: u64,
    moment: u64,
    nonce: &[u8; 16],
    call: &SaidCall<'_>,
    before: usize,
    out: &Outbox,
    notes: &mut Notes,
) -> Result<(), AllocError>
    requires { before ≤ length out.now.entries }
    ensures { OnOk result ((e : Event) → IsSaid moment nonce.now (said call.now)
        (drop before out.now.entries) e → notes.new ≡ noted_more turn notes.old e []) }
{
    let (_, added) = out.entries().split_at(before);
    notes.add(turn, moment, nonce, call, added)
}

/// Notes an event whose call draws nothing and is given no moment.
fn note_bare(
    turn: u64,
    call: &SaidCall<'_>,
    before: usize,
    out: &Outbox,
    notes: &mut Notes,
) -> Result<(), AllocError>
    requires { before ≤ length out.now.entries }
    ensures { OnOk result ((e : Event) → IsSaid 0 no_nonce (said call.now)
        (drop before out.now.entries) e → notes.new ≡ noted_more turn notes.old e []) }
{
    note(turn, 0, &NO_NONCE, call, before, out, notes)
}

/// Takes a datagram.
pub(crate) fn receive(
    end: &mut Endpoint,
    from: Address,
    moment: u64,
    datagram: &mut [u8],
    draws: &Draws,
    turn: u64,
    out: &mut Outbox,
    notes: &mut Notes,
) -> Result<(), AllocError>
    requires { length datagram.old ≤ 2048 }
    ensures { OnOk result (ActsIn turn end.old end.new out.old.entries out.new.entries notes.old
        notes.new (event_of moment (Receive from datagram.old draws.now) Done
        (added out.old.entries out.new.entries) ∷ [])) }
{
    are_bytes(datagram);
    are_sized(draws);
    let before = out.entries().len();
    // The end opens a datagram in place, and a journal tells how it came.
    let mut room = [0; 2048];
    let (came, _) = room.split_at_mut(datagram.len());
    came.copy_from_slice(datagram);
    let Ok(()) = end.receive(from, moment, datagram, draws, out) else {
        return Err(AllocError);
    };
    let call = SaidCall::Receive {
        from: &from,
        datagram: came,
    };
    note(turn, moment, &draws.nonce, &call, before, out, notes)?;
    Ok(())
}

/// Does all that is due.
pub(crate) fn tick(
    end: &mut Endpoint,
    moment: u64,
    draws: &Draws,
    turn: u64,
    out: &mut Outbox,
    notes: &mut Notes,
) -> Result<(), AllocError>
    ensures { OnOk result (ActsIn turn end.old end.new out.old.entries out.new.entries notes.old
        notes.new (event_of moment (Tick draws.now) Done
        (added out.old.entries out.new.entries) ∷ [])) }
{
    let before = out.entries().len();
    let Ok(()) = end.tick(moment, draws, out) else {
        return Err(AllocError);
    };
    let call = SaidCall::Tick;
    note(turn, moment, &draws.nonce, &call, before, out, notes)?;
    Ok(())
}

/// Makes an opening in turn 0.
pub(crate) fn open(
    end: &mut Endpoint,
    opening: &OpeningWords,
    moment: u64,
    draws: &Draws,
    out: &mut Outbox,
    notes: &mut Notes,
) -> Result<(), AllocError>
    ensures { OnOk result (DidOpen opening.now.whom opening.now.at moment draws.now end.old
        end.new out.old.entries out.new.entries notes.old notes.new) }
{
    match &opening.whom {
        Whom::Print(print) => open_end(end, print, &opening.at, moment, draws, out, notes),
        Whom::Name(name) => seek_name(end, name, &opening.at, moment, draws, out, notes),
    }
}

/// Opens towards an end.
fn open_end(
    end: &mut Endpoint,
    print: &[u8; 32],
    at: &Address,
    moment: u64,
    draws: &Draws,
    out: &mut Outbox,
    notes: &mut Notes,
) -> Result<(), AllocError>
    ensures { OnOk result (DidOpen (Whom.Print print.now) at.now moment draws.now end.old
        end.new out.old.entries out.new.entries notes.old notes.new) }
{
    are_thirty_two(print);
    are_sized(draws);
    let before = out.entries().len();
    let candidates = [*at];
    let epd = Epd { print: *print };
    let answer = end.open(&epd, &candidates, moment, draws, out);
    let call = SaidCall::Open {
        peer: print,
        tag: &draws.tag,
    };
    note(0, moment, &draws.nonce, &call, before, out, notes)?;
    notes.settle_open(0, answer)?;
    Ok(())
}

/// Searches for an end with this name.
fn seek_name(
    end: &mut Endpoint,
    name: &ServiceName,
    at: &Address,
    moment: u64,
    draws: &Draws,
    out: &mut Outbox,
    notes: &mut Notes,
) -> Result<(), AllocError>
    ensures { OnOk result (DidOpen (Whom.Name name.now) at.now moment draws.now end.old
        end.new out.old.entries out.new.entries notes.old notes.new) }
{
    // Read for the prover alone, which finds here what a name keeps.
    let _bytes = name.bytes();
    are_sized(draws);
    let before = out.entries().len();
    let candidates = [*at];
    let answer = end.seek(name, &candidates, moment, draws, out);
    let call = SaidCall::Seek {
        name,
        tag: &draws.tag,
    };
    note(0, moment, &draws.nonce, &call, before, out, notes)?;
    notes.settle_seek(0, answer)?;
    Ok(())
}

/// Learns the secret of the next generation in turn 0, where there is one.
pub(crate) fn learn(
    end: &mut Endpoint,
    next: &Option<[u8; 32]>,
    out: &mut Outbox,
    notes: &mut Notes,
) -> Result<(), AllocError>
    ensures done { OnOk result (Succeeded (learn_call next.now) 0 end.old end.new out.old.entries
        out.new.entries notes.old notes.new) }
    ensures asked { OnErr result (IsSome next.now) }
{
    let Some(secret) = next else {
        return Ok(());
    };
    are_thirty_two(secret);
    let before = out.entries().len();
    let answer = end.learn(*secret, out);
    note_bare(0, &SaidCall::Learn { secret }, before, out, notes)?;
    notes.settle_succession(0, answer)?;
    Ok(())
}

/// Goes over to the next generation, where this is the turn for it.
pub(crate) fn advance(
    end: &mut Endpoint,
    at: Option<u64>,
    turn: u64,
    out: &mut Outbox,
    notes: &mut Notes,
) -> Result<(), AllocError>
    ensures done { OnOk result (Succeeded (advance_call at turn) turn end.old end.new
        out.old.entries out.new.entries notes.old notes.new) }
    ensures asked { OnErr result (IsSome (advance_call at turn)) }
{
    let Some(at) = at else {
        return Ok(());
    };
    if at != turn {
        return Ok(());
    }
    let before = out.entries().len();
    let answer = end.advance(out);
    note_bare(turn, &SaidCall::Advance, before, out, notes)?;
    notes.settle_succession(turn, answer)?;
    Ok(())
}

/// Opens the flow of the message in a session.
pub(crate) fn open_flow(
    end: &mut Endpoint,
    near: u32,
    turn: u64,
    out: &mut Outbox,
    notes: &mut Notes,
) -> Result<(), AllocError>
    ensures { OnOk result (DidCall near opens_flow turn end.old end.new out.old.entries
        out.new.entries notes.old notes.new) }
{
    let before = out.entries().len();
    let answer = end.open_flow(near, PRIORITY, METADATA, None, out);
    note_bare(turn, &SaidCall::Other, before, out, notes)?;
    notes.settle_call(turn, answer)?;
    Ok(())
}

/// Queues the message in that flow.
pub(crate) fn queue(
    end: &mut Endpoint,
    near: u32,
    message: &[u8],
    turn: u64,
    out: &mut Outbox,
    notes: &mut Notes,
) -> Result<(), AllocError>
    ensures { OnOk result (DidCall near (queues message.now) turn end.old end.new out.old.entries
        out.new.entries notes.old notes.new) }
{
    let before = out.entries().len();
    let options = MessageOptions {
        deadline: None,
        resends: None,
    };
    let answer = end.queue(near, 0, message, options, out);
    note_bare(turn, &SaidCall::Other, before, out, notes)?;
    notes.settle_call(turn, answer)?;
    Ok(())
}
