//! A receiver of a flow.

ghost use Rattle.std.specs.Prelude.{◌≡◌, ◌≤◌, false};

use flow_recv::{FlowReceiver, FlowRefusal, Took};
use rtmfp_base::Memory;
use rtmfp_data_chunks::{Part, UserData};
use rtmfp_forms::Outgoing;
use std::alloc::Global;

/// A message of one fragment whose forward number is 0. Number 0 is none.
fn whole(seq: u64, bytes: &[u8]) -> UserData<'_>
    ensures { (1 ≤ result.seq) × (result.forward ≡ 0) × (result.abandon ≡ false) }
{
    UserData {
        part: Part::Whole,
        abandon: false,
        last: false,
        flow: 2,
        seq: seq.max(1),
        forward: 0,
        options: None,
        bytes,
    }
}

/// Takes each second number of 1 to 2,000, from one of the first two on.
fn takes_each_second(flow: &mut FlowReceiver, first: u64) -> bool
    requires { first ≤ 2 }
{
    for at in 0..1000u64 {
        let seq = first + 2 * at;
        if flow.take(&whole(seq, &[(seq % 251) as u8])) != Ok(Took::New) {
            return false;
        }
    }
    true
}

/// The number and the first byte of the next message.
fn next(flow: &mut FlowReceiver) -> Option<(u64, u8)> {
    match flow.next_message() {
        Ok(Some((number, message))) => message.bytes().first().map(|byte| (number, *byte)),
        _ => None,
    }
}

/// Whether they come in their order, and nothing after them.
fn hands_two_thousand(flow: &mut FlowReceiver) -> bool {
    for seq in 1..2001u64 {
        if !flow.is_ready() || next(flow) != Some((seq, (seq % 251) as u8)) {
            return false;
        }
    }
    !flow.is_ready() && next(flow).is_none()
}

/// Takes a message of one fragment; whether it is new.
fn takes(flow: &mut FlowReceiver, seq: u64, bytes: &[u8]) -> bool {
    flow.take(&whole(seq, bytes)) == Ok(Took::New)
}

/// Whether a receiver holds no byte more.
fn is_full(flow: &mut FlowReceiver) -> bool {
    flow.take(&whole(7, &[0x55])) == Err(FlowRefusal::BeyondBuffer(2_097_152))
}

/// A message of the greatest length.
fn largest(alloc: Global) -> Result<Vec<u8>, Memory> {
    let mut bytes = Vec::new(alloc);
    bytes.resize(1_048_576, 0x55)?;
    Ok(bytes)
}

/// Whether a receiver holds its most bytes above the lowest missing number, and none more.
fn holds_two_messages(alloc: Global) -> Result<bool, Memory> {
    let mut flow = FlowReceiver::new(alloc, 0);
    let bytes = largest(alloc)?;
    Ok(
        takes(&mut flow, 3, bytes.as_slice())
            && takes(&mut flow, 5, bytes.as_slice())
            && is_full(&mut flow)
            && takes(&mut flow, 1, bytes.as_slice()),
    )
}

/// Puts so many bytes into a packet; whether they were taken.
fn is_filled(alloc: Global, count: usize, out: &mut Outgoing) -> Result<bool, Memory> {
    let mut filler = Vec::new(alloc);
    filler.resize(count, 0x55)?;
    Ok(out.put(filler.as_slice()).is_ok())
}

/// Whether an ack in a packet is so behind so many bytes, or isn't put where none is wanted.
fn is_put(flow: &FlowReceiver, filled: usize, out: &mut Outgoing, want: &[u8]) -> bool {
    let put = flow.ack_into(2, out).is_ok();
    put != want.is_empty() && out.bytes().get(filled.saturating_add(1)..) == Some(want)
}

/// Whether an ack behind so many bytes of a packet is so, or isn't put where none is wanted.
fn is_ack(alloc: Global, flow: &FlowReceiver, filled: usize, want: &[u8]) -> Result<bool, Memory> {
    let mut out = Outgoing::new(0x03);
    let is_filled = is_filled(alloc, filled, &mut out)?;
    Ok(is_filled && is_put(flow, filled, &mut out, want))
}

/// Takes numbers so that 2,047 blocks are free, 2 numbers are missing and 2 not, and then 194 are
/// missing and 1 not.
fn takes_with_gaps(flow: &mut FlowReceiver) -> bool {
    takes(flow, 1, &[0x55])
        && takes(flow, 4, &[0x55])
        && takes(flow, 5, &[0x55])
        && takes(flow, 200, &[0x55])
}

/// Whether an ack has both pairs, or the first, where there is room for them.
fn tells_pairs(alloc: Global, flow: &FlowReceiver) -> Result<bool, Memory> {
    let both = b"\x51\x00\x09\x02\x8f\x7f\x01\x01\x01\x81\x41\x00";
    let first = b"\x51\x00\x06\x02\x8f\x7f\x01\x01\x01";
    let has_both = is_ack(alloc, flow, 1151, both)?;
    let has_first = is_ack(alloc, flow, 1154, first)?;
    Ok(has_both && has_first)
}

/// Whether an ack has no pair where there is room for none, and isn't put where it has no room.
fn tells_none(alloc: Global, flow: &FlowReceiver) -> Result<bool, Memory> {
    let none = b"\x51\x00\x04\x02\x8f\x7f\x01";
    let has_none = is_ack(alloc, flow, 1156, none)?;
    let isnt_put = is_ack(alloc, flow, 1157, b"")?;
    Ok(has_none && isnt_put)
}

/// Whether an ack has as many pairs as fit.
fn tells_what_fits(alloc: Global) -> Result<bool, Memory> {
    let mut flow = FlowReceiver::new(alloc, 0);
    let took = takes_with_gaps(&mut flow);
    let pairs = tells_pairs(alloc, &flow)?;
    let none = tells_none(alloc, &flow)?;
    Ok(took && pairs && none)
}

/// Whether a receiver takes two thousand numbers, each second one from one of the first two on and
/// then the others, and hands them over.
fn takes_two_thousand(alloc: Global, first: u64, second: u64) -> bool
    requires { (first ≤ 2) × (second ≤ 2) }
{
    let mut flow = FlowReceiver::new(alloc, 0);
    takes_each_second(&mut flow, first)
        && takes_each_second(&mut flow, second)
        && hands_two_thousand(&mut flow)
}

#[test]
fn a_receiver_holds_and_hands_over(rt: HostRuntime) -> Result<(), Memory> {
    assert!(rt; takes_two_thousand(rt.alloc(), 1, 2));
    assert!(rt; takes_two_thousand(rt.alloc(), 2, 1));
    assert!(rt; holds_two_messages(rt.alloc())?);
    assert!(rt; tells_what_fits(rt.alloc())?);
    Ok(())
}
