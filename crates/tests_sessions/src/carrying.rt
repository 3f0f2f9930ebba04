//! What one session does with its flows, from the one end to the other.

ghost use Rattle.std.specs.Prelude.{◌≡◌, ◌<◌, ◌≤◌, false};

use crate::sending::PLAIN;
use crate::session::begun;
use flow_send::QueueRefusal;
use glare_core::Joined;
use rtmfp_data_chunks::{DataCursor, DataView, UserData};
use rtmfp_forms::Outgoing;
use rtmfp_packet::{Packet, read_packet};
use session_core::{Role, Session};
use session_flows::{CallRefusal, Flows};
use std::alloc::Global;

/// An open session, at its beginning.
fn session() -> Session {
    let joined = Joined {
        peer: [2; 32],
        n: 1,
        near: 3,
        far: 6,
        ni: [0; 16],
        nr: [0; 16],
        k: 0,
    };
    begun(&joined, [1; 32], Role::Initiator, [0; 32], 0)
}

/// Takes a data or next chunk, and tells whether it was taken.
fn takes_data(user: &UserData<'_>, session: &Session, flows: &mut Flows) -> bool
    requires low { user.now.forward ≤ user.now.seq }
    requires below { user.now.abandon ≡ false → user.now.forward < user.now.seq }
{
    match flows.judge_data(session, user) {
        Ok(judged) => flows.apply_data(judged, user).is_ok(),
        Err(_) => false,
    }
}

/// Takes a chunk, and tells whether it was taken.
fn takes(view: &DataView<'_>, session: &mut Session, flows: &mut Flows) -> bool {
    match view {
        DataView::Data(user) | DataView::Next(user) => {
            (user.forward < user.seq || (user.abandon && user.forward == user.seq))
                && takes_data(user, session, flows)
        }
        DataView::AckRanges {
            flow,
            blocks,
            upto,
            ..
        } => flows
            .take_ack(session, *flow, *blocks, *upto, view.acked())
            .is_ok(),
        _ => false,
    }
}

/// Takes the chunks of a packet, which are of these types. Each is read by a cursor of its own,
/// which goes on behind the one before it.
fn takes_all(packet: &Packet<'_>, kinds: &[u8], session: &mut Session, flows: &mut Flows) -> bool {
    let mut cursor = DataCursor::new();
    let mut left = kinds.iter();
    for chunk in packet.chunks() {
        if left.next() != Some(&chunk.kind) {
            return false;
        }
        cursor = DataCursor::behind(cursor.before());
        match cursor.read(chunk.kind, chunk.payload) {
            Ok(view) => {
                if !takes(&view, session, flows) {
                    return false;
                }
            }
            Err(_) => return false,
        }
    }
    left.next().is_none()
}

/// Takes a packet whose chunks are of these types.
fn delivers(out: &Outgoing, kinds: &[u8], session: &mut Session, flows: &mut Flows) -> bool {
    match read_packet(out.bytes()) {
        Ok(packet) => takes_all(&packet, kinds, session, flows),
        Err(_) => false,
    }
}

/// The packet of flow data that goes next.
fn filled(flows: &mut Flows, session: &Session, moment: u64) -> Outgoing {
    let mut out = Outgoing::new(0x01);
    flows.fill(session, moment, &mut out);
    out
}

/// The acks that are owed, in a packet.
fn acks(flows: &mut Flows) -> Outgoing {
    let mut out = Outgoing::new(0x01);
    flows.put_acks(&mut out);
    out
}

/// Whether a message of this length and number is handed over next.
fn hands(flows: &mut Flows, flow: u64, seq: u64, len: usize) -> bool {
    match flows.hand_next(flow) {
        Some((number, message)) => number == seq && message.len() == len,
        None => false,
    }
}

fn open_two(flows: &mut Flows) -> Result<(), CallRefusal> {
    flows.open_flow(1, &[0x6d], None)?;
    flows.open_flow(7, &[0x6d], None)?;
    Ok(())
}

fn queue_two(flows: &mut Flows) -> Result<(), CallRefusal> {
    flows.queue(0, &[0; 1000], PLAIN)?;
    flows.queue(1, &[0; 1001], PLAIN)?;
    Ok(())
}

/// Two flows, each with a message; the second one has the higher priority, and two fragments.
fn two_flows(alloc: Global) -> Result<Flows, CallRefusal> {
    let mut flows = Flows::new(alloc);
    open_two(&mut flows)?;
    queue_two(&mut flows)?;
    Ok(flows)
}

/// Whether the flow with the higher priority goes first, and the other one in the next packet.
fn goes_by_priority(from: &mut Flows, to: &mut Flows) -> bool {
    let mut here = session();
    let mut there = session();
    let first = filled(from, &here, 0);
    let second = filled(from, &here, 0);
    delivers(&first, &[0x10, 0x11], &mut there, to)
        && hands(to, 1, 1, 1001)
        && delivers(&acks(to), &[0x51], &mut here, from)
        && !to.owes_acks()
        && delivers(&second, &[0x10], &mut there, to)
        && hands(to, 0, 1, 1000)
        && !from.is_data_due(&here, 0)
}

#[test]
fn the_higher_priority_goes_first(rt: HostRuntime) -> Result<(), CallRefusal> {
    let mut from = two_flows(rt.alloc())?;
    let mut to = Flows::new(rt.alloc());
    assert!(rt; goes_by_priority(&mut from, &mut to));
    Ok(())
}

fn queue_first_two(flows: &mut Flows) -> Result<(), CallRefusal> {
    flows.queue(0, &[], PLAIN)?;
    flows.queue(0, &[0; 1000], PLAIN)?;
    Ok(())
}

fn queue_last_two(flows: &mut Flows) -> Result<(), CallRefusal> {
    flows.queue(0, &[0; 1001], PLAIN)?;
    flows.queue(0, &[0x4f, 0x4b], PLAIN)?;
    Ok(())
}

fn queue_four(flows: &mut Flows) -> Result<(), CallRefusal> {
    queue_first_two(flows)?;
    queue_last_two(flows)
}

/// A flow with four messages: one without bytes, one of one fragment, one of two, and one more.
fn four_messages(alloc: Global) -> Result<Flows, CallRefusal> {
    let mut flows = Flows::new(alloc);
    flows.open_flow(4, &[0x6d], None)?;
    queue_four(&mut flows)?;
    Ok(flows)
}

/// Whether all go over in order although the first of two packets is lost, and sent again after
/// the resend time.
fn goes_again(from: &mut Flows, to: &mut Flows) -> bool {
    let mut here = session();
    let mut there = session();
    let _lost = filled(from, &here, 0);
    let second = filled(from, &here, 0);
    let passed = delivers(&second, &[0x10, 0x11, 0x11], &mut there, to)
        && to.hand_next(0).is_none()
        && delivers(&acks(to), &[0x51], &mut here, from);
    from.lose_late(&mut here, 999);
    let early = from.is_data_due(&here, 999);
    from.lose_late(&mut here, 1000);
    let again = filled(from, &here, 1000);
    passed && !early && delivers(&again, &[0x10, 0x11], &mut there, to)
}

/// Whether all four are handed over, in their order.
fn hands_four(to: &mut Flows) -> bool {
    hands(to, 0, 1, 0)
        && hands(to, 0, 2, 1000)
        && hands(to, 0, 3, 1001)
        && hands(to, 0, 5, 2)
        && to.hand_next(0).is_none()
}

#[test]
fn what_is_lost_goes_again(rt: HostRuntime) -> Result<(), CallRefusal> {
    let mut from = four_messages(rt.alloc())?;
    let mut to = Flows::new(rt.alloc());
    assert!(rt; goes_again(&mut from, &mut to) && hands_four(&mut to));
    Ok(())
}

/// Whether an exception abandons all messages that wait, and finishes the flow.
fn rejects(from: &mut Flows, abandoned: &mut Vec<u64>) -> bool {
    let here = session();
    let Ok(count) = from.judge_exception(&here, 0) else {
        return false;
    };
    count == 5
        && from.apply_exception(0, abandoned) == Ok(Some(6))
        && abandoned.as_slice() == [1, 2, 3, 5].as_slice()
        && from.queue_refusal(0, 0) == Some(CallRefusal::Queue(QueueRefusal::Finished))
}

#[test]
fn an_exception_abandons_all(rt: HostRuntime) -> Result<(), CallRefusal> {
    let mut from = four_messages(rt.alloc())?;
    let mut abandoned = Vec::new(rt.alloc());
    assert!(rt; rejects(&mut from, &mut abandoned));
    Ok(())
}

/// How many flows of a session can be opened.
fn opened(flows: &mut Flows) -> u64 {
    let mut count = 0u64;
    for _ in 0..300u32 {
        if flows.open_flow(0, &[], None).is_ok() {
            count = count.saturating_add(1);
        }
    }
    count
}

#[test]
fn a_session_opens_256_flows(rt: HostRuntime) -> Result<(), CallRefusal> {
    let mut flows = Flows::new(rt.alloc());
    assert!(rt; opened(&mut flows) == 256);
    Ok(())
}
