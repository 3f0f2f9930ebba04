//! Moves messages from a sender to a receiver in memory. A line is a word and five numbers, and the
//! answer to it is the word, how many chunks there were, and how many messages were handed over, sent
//! again, told, abandoned, found or refused.
//!
//! - `move SIZE COUNT WAITING LOST WINDOW` moves so many messages of a size, of which so many wait
//!   at once, within a window of so many bytes, and every LOST-th chunk is lost (0: none). Each turn
//!   the sender hears the acks of the turn before and sends what the window allows, and the receiver
//!   acks every second chunk.
//!
//! A receiver takes so many chunks (`COUNT` is the second word of the line):
//!
//! - `holes`: the odd numbers, and then the even ones.
//! - `halves`: in arrival order the beginnings of messages of two fragments, and then their ends,
//!   each of which makes a message ready.
//! - `passed`: the same beginnings, and then forward numbers that pass them, one after another.
//! - `descending`: the fragments of one message, of 32 bytes, the last one first.
//! - `joined`: those in pairs from the last one on, each pair the lower one first, so that the upper
//!   one joins two runs.
//! - `full`: with a full buffer, chunks that it refuses, each of which would pass as many beginnings
//!   of messages. These are at most 31,000: each second number is one, and no number is taken that is
//!   65,536 above the lowest missing one.
//!
//! A sender has so many messages of a byte:
//!
//! - `late`: all are lost by time at once, and sent again.
//! - `renewed`: the same, after as many that were sent and abandoned one after another. A notice of
//!   those goes first, and again after the resend time.
//! - `beyond`: the same, behind as many that were told, while number 1 stays missing.
//! - `wide`: they are told in acks of 250 stretches, of which each newly tells a number.
//! - `abandons`: they are in flight, and are abandoned from the middle on.
//! - `deadlines`: they become overdue one after another, the last one first.
//! - `limits`: all are lost by time twice, every second of which may be sent again once, and before
//!   each sending it is asked which is overdue.
//! - `unsent`: behind one in flight they are abandoned unsent, and after each the next chunk is
//!   looked for.
//! - `early`: the highest in flight is lost; then the lower ones are, one after another, and are sent
//!   again, with such a look after each.
//! - `stale`: all are lost by time, each 64th is abandoned, which may not be sent again, and it is
//!   asked as often whether one is overdue.
//! - `cut`: so many acks of 250 single numbers of a message of 1,049 fragments are heard, whose first
//!   half was told. The number before it is lost by the third ack, and sent again.

ghost use Rattle.std.specs.Prelude.{◌≡◌, ◌+◌, ◌<◌, ◌≤◌, false, true};
ghost use Rattle.flow_send.specs.Picked.{IsThere};

use crate::number;
use flow_recv::FlowReceiver;
use flow_send::{FlowSender, MessageOptions, Pick};
use rtmfp_base::{Memory, Message};
use rtmfp_data_chunks::{AckedSpans, DataCursor, DataView, Part, UserData};
use rtmfp_forms::Outgoing;
use std::alloc::AllocError;
use std::collections::VecDeque;
use std::io;

const BUFFER_LEN: usize = 1_048_576;

const FLOW: u64 = 2;

/// After so many milliseconds a number is lost.
const RESEND_AFTER: u64 = 250;

const PLAIN: MessageOptions = MessageOptions {
    deadline: None,
    resends: None,
};

/// What is to be moved.
#[derive(Clone, Copy)]
struct Job {
    size: usize,
    count: u64,
    waiting: u64,
    lost: u64,
    window: u64,
}

/// What was moved.
#[derive(Clone, Copy)]
struct Moved {
    queued: u64,
    chunks: u64,
    handed: u64,
}

/// A sender and a receiver, the acks on their way, and the chunks that were sent.
#[derive(Drop)]
struct Pair {
    from: FlowSender,
    to: FlowReceiver,
    acks: VecDeque<Message>,
    moved: Moved,
}

/// Answers a line.
pub(crate) fn answer(rt: &HostRuntime, word: &str, line: &str) -> io::Result<()> {
    let mut bytes = Vec::new(rt.alloc());
    if bytes.resize(BUFFER_LEN, 0x55).is_err() {
        return Ok(());
    }
    match by_receiver(rt, word, line, bytes.as_slice()) {
        Ok(moved) => println!(rt; "{word} {} {}", moved.chunks, moved.handed),
        Err(_) => Ok(()),
    }
}

/// Does what a line tells, if it is of a receiver.
fn by_receiver(
    rt: &impl AllocGlobal,
    word: &str,
    line: &str,
    bytes: &[u8],
) -> Result<Moved, Memory> {
    let size = number(line, 1);
    match word {
        "holes" => holes(rt, size),
        "halves" => halves(rt, size),
        "passed" => passed(rt, size),
        "descending" => descending(rt, size),
        "joined" => joined(rt, size),
        "full" => full(rt, size),
        _ => by_sender(rt, word, line, bytes),
    }
}

/// Does what a line tells, if it is of a sender whose messages are given up or told.
fn by_sender(rt: &impl AllocGlobal, word: &str, line: &str, bytes: &[u8]) -> Result<Moved, Memory> {
    let size = number(line, 1);
    match word {
        "wide" => wide(rt, size),
        "abandons" => abandons(rt, size),
        "limits" => limits(rt, size),
        "deadlines" => deadlines(rt, size),
        "unsent" => unsent(rt, size),
        _ => by_late_sender(rt, word, line, bytes),
    }
}

/// Does what a line tells, if it is of a sender whose messages are sent again, or moves messages.
fn by_late_sender(
    rt: &impl AllocGlobal,
    word: &str,
    line: &str,
    bytes: &[u8],
) -> Result<Moved, Memory> {
    let size = number(line, 1);
    match word {
        "late" => late(rt, size),
        "early" => early(rt, size),
        "renewed" => renewed(rt, size),
        "beyond" => beyond(rt, size),
        "stale" => stale(rt, size),
        "cut" => cut(rt, size, bytes),
        _ => move_all(rt, bytes, job_of(line)),
    }
}

/// What a line tells to move.
fn job_of(line: &str) -> Job {
    Job {
        size: number(line, 1).min(1_048_576) as usize,
        count: number(line, 2),
        waiting: number(line, 3),
        lost: number(line, 4),
        window: number(line, 5),
    }
}

/// Moves the messages of a job, in turns of a millisecond.
fn move_all(rt: &impl AllocGlobal, bytes: &[u8], job: Job) -> Result<Moved, Memory> {
    let mut pair = Pair {
        from: FlowSender::new(rt.alloc(), FLOW, &[], None, 0, 1)?,
        to: FlowReceiver::new(rt.alloc(), 0),
        acks: VecDeque::new(rt.alloc()),
        moved: Moved {
            queued: 0,
            chunks: 0,
            handed: 0,
        },
    };
    let message = bytes.get(..job.size).unwrap_or(&[]);
    for moment in 0..u64::MAX {
        hear(&mut pair);
        queue(&mut pair, message, job);
        let _ = pair.from.find_lost(moment, RESEND_AFTER);
        let _ = pair.from.overdue(moment);
        send_turn(rt, &mut pair, moment, job)?;
        if pair.moved.handed >= job.count {
            break;
        }
    }
    Ok(pair.moved)
}

/// Queues messages while fewer than so many wait.
fn queue(pair: &mut Pair, message: &[u8], job: Job) {
    for _ in 0..65_536 {
        if pair.moved.queued >= job.count || pair.from.waiting() >= job.waiting {
            break;
        }
        if pair.from.queue(message, PLAIN).is_err() {
            break;
        }
        pair.moved.queued = pair.moved.queued.wrapping_add(1);
    }
}

/// Sends what the limits allow.
fn send_turn(rt: &impl AllocGlobal, pair: &mut Pair, moment: u64, job: Job) -> Result<(), Memory> {
    for _ in 0..u64::MAX {
        let flight = pair.from.flight();
        let chosen = pair
            .from
            .next_chunk(false, 1164, flight, job.window, moment, RESEND_AFTER);
        let Ok(pick) = chosen else {
            break;
        };
        pair.moved.chunks = pair.moved.chunks.wrapping_add(1);
        let chunks = pair.moved.chunks;
        if job.lost == 0 || chunks % job.lost != 0 {
            deliver(pair, pick);
        }
        if chunks % 2 == 0 {
            ack(rt, pair)?;
        }
    }
    ack(rt, pair)
}

/// Has the receiver take a chunk, and hand over what is ready then.
fn deliver(pair: &mut Pair, pick: Pick)
    requires { IsThere pair.old.from.sender pick }
{
    let chunk = pair.from.chunk(pick, false);
    if chunk.forward < chunk.seq {
        let _ = pair.to.take(&chunk);
    }
    pair.moved.handed = pair.moved.handed.wrapping_add(hand_over(&mut pair.to));
}

/// How many messages a receiver hands over.
fn hand_over(to: &mut FlowReceiver) -> u64 {
    for count in 0..u64::MAX {
        match to.next_message() {
            Ok(Some(_)) => {}
            _ => return count,
        }
    }
    0
}

/// Puts what the receiver has on its way.
fn ack(rt: &impl AllocGlobal, pair: &mut Pair) -> Result<(), Memory> {
    let mut out = Outgoing::new(0);
    if pair.to.ack_into(FLOW, &mut out).is_ok() {
        let message = Message::copy_of(rt.alloc(), out.bytes())?;
        pair.acks.push_back(message).map_err(AllocError::from)?;
    }
    Ok(())
}

/// The sender hears the acks that are on their way.
fn hear(pair: &mut Pair) {
    for _ in 0..u64::MAX {
        let Some(out) = pair.acks.pop_front() else {
            break;
        };
        hear_one(&mut pair.from, out.bytes());
    }
}

/// A sender hears an ack.
fn hear_one(from: &mut FlowSender, packet: &[u8]) {
    let payload = packet.get(4..).unwrap_or(&[]);
    let mut cursor = DataCursor::new();
    let read = cursor.read(0x51, payload);
    if let Ok(
        DataView::AckRanges {
            blocks,
            upto,
            pairs,
            ..
        },
    ) = read
    {
        let _ = from.take_ack(blocks, upto, AckedSpans::of_pairs(upto, pairs));
    }
}

/// A receiver takes the odd numbers from 3 on, and then the even ones, and hands over all. Number 1
/// comes last.
fn holes(rt: &impl AllocGlobal, count: u64) -> Result<Moved, Memory> {
    let mut to = FlowReceiver::new(rt.alloc(), 0);
    let half = count.min(65_534) / 2;
    for at in 0..half {
        take_byte(&mut to, 3 + 2 * at, Part::Whole);
    }
    for at in 0..half {
        take_byte(&mut to, 2 + 2 * at, Part::Whole);
    }
    take_byte(&mut to, 1, Part::Whole);
    Ok(Moved {
        queued: 0,
        chunks: 2 * half + 1,
        handed: hand_over(&mut to),
    })
}

/// A receiver in arrival order takes the beginnings of messages of two fragments, and then their
/// ends, the last one first, and hands each over as it comes.
fn halves(rt: &impl AllocGlobal, count: u64) -> Result<Moved, Memory> {
    let mut to = FlowReceiver::new(rt.alloc(), 0x61);
    let half = count.min(65_534) / 2;
    let mut handed: u64 = 0;
    for at in 0..half {
        take_byte(&mut to, 2 + 2 * at, Part::Begin);
    }
    for at in 0..half {
        take_byte(&mut to, 2 * half + 1 - 2 * at, Part::End);
        handed = handed.wrapping_add(hand_over(&mut to));
    }
    Ok(Moved {
        queued: 0,
        chunks: 2 * half,
        handed,
    })
}

/// A receiver takes the beginnings of messages of two fragments, and then forward numbers, each of
/// which passes the end of one more.
fn passed(rt: &impl AllocGlobal, count: u64) -> Result<Moved, Memory> {
    let mut to = FlowReceiver::new(rt.alloc(), 0);
    let half = count.min(65_534) / 2;
    for at in 0..half {
        take_byte(&mut to, 2 + 2 * at, Part::Begin);
    }
    for at in 0..half {
        let _ = to.take(&notice(3 + 2 * at));
    }
    Ok(Moved {
        queued: 0,
        chunks: 2 * half,
        handed: hand_over(&mut to),
    })
}

/// A receiver takes the fragments of one message, the last one first.
fn descending(rt: &impl AllocGlobal, count: u64) -> Result<Moved, Memory> {
    let mut to = FlowReceiver::new(rt.alloc(), 0);
    let count = count.min(65_534);
    for at in 0..count {
        take_piece(&mut to, count - at, count);
    }
    Ok(Moved {
        queued: 0,
        chunks: count,
        handed: hand_over(&mut to),
    })
}

/// A receiver takes the fragments of one message in pairs, the last pair first, and of each pair
/// the lower one first.
fn joined(rt: &impl AllocGlobal, count: u64) -> Result<Moved, Memory> {
    let mut to = FlowReceiver::new(rt.alloc(), 0);
    let half = count.min(65_534) / 2;
    for at in 0..half {
        take_piece(&mut to, 2 * (half - at) - 1, 2 * half);
        take_piece(&mut to, 2 * (half - at), 2 * half);
    }
    Ok(Moved {
        queued: 0,
        chunks: 2 * half,
        handed: hand_over(&mut to),
    })
}

/// A sender of so many messages of a byte, each with a deadline of its own, the last one the first.
fn sender_of(rt: &impl AllocGlobal, count: u64) -> Result<FlowSender, Memory> {
    let mut from = FlowSender::new(rt.alloc(), FLOW, &[], None, 0, 1)?;
    for at in 0..count {
        let options = MessageOptions {
            deadline: Some(count - at),
            resends: None,
        };
        let _ = from.queue(&[0x55], options);
    }
    Ok(from)
}

/// Sends all that there is to send, and tells how many chunks.
fn send_all(from: &mut FlowSender, moment: u64) -> u64 {
    for count in 0..u64::MAX {
        let sent = from.next_chunk(false, 1164, 0, u64::MAX, moment, RESEND_AFTER);
        if sent.is_err() {
            return count;
        }
    }
    0
}

/// All numbers are lost by time at once, and sent again.
fn late(rt: &impl AllocGlobal, count: u64) -> Result<Moved, Memory> {
    let mut from = sender_of(rt, count.min(65_000))?;
    let (first, again) = send_twice(&mut from, 0);
    Ok(Moved {
        queued: 0,
        chunks: first.wrapping_add(again),
        handed: again,
    })
}

/// All numbers are sent, and then told in 250 stretches at once, each of which grows by a number
/// with each ack. Number 1 stays missing.
fn wide(rt: &impl AllocGlobal, count: u64) -> Result<Moved, Memory> {
    let count = count.min(65_000);
    let step = count / 250;
    let mut from = sender_of(rt, count)?;
    let mut to = FlowReceiver::new(rt.alloc(), 0);
    let chunks = send_all(&mut from, 0);
    for round in 2..step {
        for stretch in 0..250u64 {
            take_byte(
                &mut to,
                stretch.saturating_mul(step).saturating_add(round),
                Part::Whole,
            );
        }
        hear_all(&mut from, &mut to, 1);
    }
    Ok(Moved {
        queued: 0,
        chunks,
        handed: chunks.wrapping_sub(from.waiting()),
    })
}

/// Messages in flight are abandoned from the middle on.
fn abandons(rt: &impl AllocGlobal, count: u64) -> Result<Moved, Memory> {
    let count = count.min(65_000);
    let mut from = sender_of(rt, count)?;
    let _ = send_all(&mut from, 0);
    let middle = count / 2;
    for at in 0..middle {
        let _ = from.abandon(middle + 1 + at);
        let _ = from.abandon(middle - at);
    }
    Ok(Moved {
        queued: 0,
        chunks: count,
        handed: count.wrapping_sub(from.waiting()),
    })
}

/// Messages become overdue one after another, the last one first.
fn deadlines(rt: &impl AllocGlobal, count: u64) -> Result<Moved, Memory> {
    let count = count.min(65_000);
    let mut from = sender_of(rt, count)?;
    for moment in 0..count {
        let _ = from.overdue(moment.saturating_add(2));
    }
    Ok(Moved {
        queued: 0,
        chunks: count,
        handed: count.wrapping_sub(from.waiting()),
    })
}

/// Messages are lost by time twice, every second of which may be sent again once. Before each
/// sending those are abandoned that are overdue.
fn limits(rt: &impl AllocGlobal, count: u64) -> Result<Moved, Memory> {
    let count = count.min(65_000);
    let mut from = FlowSender::new(rt.alloc(), FLOW, &[], None, 0, 1)?;
    for at in 0..count {
        let options = MessageOptions {
            deadline: None,
            resends: if at % 2 == 0 { None } else { Some(1) },
        };
        let _ = from.queue(&[0x55], options);
    }
    let first = send_all(&mut from, 0);
    let again = lose_and_send(&mut from, RESEND_AFTER);
    let last = lose_and_send(&mut from, 2 * RESEND_AFTER);
    Ok(Moved {
        queued: 0,
        chunks: first.wrapping_add(again).wrapping_add(last),
        handed: count.wrapping_sub(from.waiting()),
    })
}

/// All is lost by time and sent again, but for what is overdue. Tells how many chunks are sent.
fn lose_and_send(from: &mut FlowSender, moment: u64) -> u64 {
    let _ = from.find_lost(moment, RESEND_AFTER);
    let mut sent: u64 = 0;
    for _ in 0..u64::MAX {
        if from.overdue(moment).is_some() {
            continue;
        }
        let next = from.next_chunk(false, 1164, 0, u64::MAX, moment, RESEND_AFTER);
        if next.is_err() {
            return sent;
        }
        sent = sent.wrapping_add(1);
    }
    sent
}

/// One number is in flight and is never told. The messages behind it but the last one are
/// abandoned, and after each the next chunk is looked for.
fn unsent(rt: &impl AllocGlobal, count: u64) -> Result<Moved, Memory> {
    let count = count.min(65_000);
    let mut from = sender_of(rt, count)?;
    let _ = from.next_chunk(false, 1164, 0, u64::MAX, 0, RESEND_AFTER);
    let mut found: u64 = 0;
    for seq in 2..count {
        let _ = from.abandon(seq);
        if from
            .offers(false, 1164, 0, u64::MAX, 0, RESEND_AFTER)
            .is_ok()
        {
            found = found.wrapping_add(1);
        }
    }
    Ok(Moved {
        queued: 0,
        chunks: count,
        handed: found,
    })
}

/// The highest number in flight is lost. Then the lower ones are, one after another, and are sent
/// again, and after each the next chunk is looked for.
fn early(rt: &impl AllocGlobal, count: u64) -> Result<Moved, Memory> {
    let count = count.min(65_000);
    // All are sent again before the first of them is lost again, and moments don't go back.
    let wait = RESEND_AFTER.saturating_add(count);
    let mut from = sender_of(rt, count)?;
    let chunks = send_all(&mut from, 0);
    let _ = from.find_lost(wait, wait);
    for at in 1..count {
        let moment = wait.saturating_add(at);
        let _ = from.next_chunk(false, 1164, 0, u64::MAX, moment, wait);
    }
    let mut again: u64 = 0;
    for at in 1..count {
        let moment = wait.saturating_add(wait).saturating_add(at);
        let _ = from.find_lost(moment, wait);
        let _ = from.next_chunk(false, 1164, 0, u64::MAX, moment, wait);
        if from.offers(false, 1164, 0, u64::MAX, moment, wait).is_ok() {
            again = again.wrapping_add(1);
        }
    }
    Ok(Moved {
        queued: 0,
        chunks,
        handed: again,
    })
}

/// Queues so many messages of a byte.
fn queue_bytes(from: &mut FlowSender, count: u64) {
    for _ in 0..count {
        let _ = from.queue(&[0x55], PLAIN);
    }
}

/// Sends all that waits, which is lost by time at once, and sends it again. Tells how many chunks
/// were sent first, and how many again.
fn send_twice(from: &mut FlowSender, moment: u64) -> (u64, u64) {
    let first = send_all(from, moment);
    let late = moment.saturating_add(RESEND_AFTER);
    let _ = from.find_lost(late, RESEND_AFTER);
    (first, send_all(from, late))
}

/// Messages are sent and abandoned, one after another, so that nothing is in flight after each.
/// Then as many are lost by time at once, and sent again.
fn renewed(rt: &impl AllocGlobal, count: u64) -> Result<Moved, Memory> {
    let count = count.min(65_000);
    let mut from = FlowSender::new(rt.alloc(), FLOW, &[], None, 0, 1)?;
    for at in 0..count {
        queue_bytes(&mut from, 1);
        let _ = from.next_chunk(false, 1164, 0, u64::MAX, at, RESEND_AFTER);
        let _ = from.abandon(at + 1);
    }
    queue_bytes(&mut from, count);
    let (first, again) = send_twice(&mut from, count);
    Ok(Moved {
        queued: 0,
        chunks: count.wrapping_add(first).wrapping_add(again),
        handed: again,
    })
}

/// All numbers but the first are told. Then as many behind them are lost by time with it, and sent
/// again.
fn beyond(rt: &impl AllocGlobal, count: u64) -> Result<Moved, Memory> {
    let count = count.min(65_000);
    let mut from = FlowSender::new(rt.alloc(), FLOW, &[], None, 0, 1)?;
    let mut to = FlowReceiver::new(rt.alloc(), 0);
    queue_bytes(&mut from, count);
    let told = send_all(&mut from, 0);
    for at in 1..count {
        take_byte(&mut to, at + 1, Part::Whole);
    }
    hear_all(&mut from, &mut to, 1);
    queue_bytes(&mut from, count);
    let (first, again) = send_twice(&mut from, 0);
    Ok(Moved {
        queued: 0,
        chunks: told.wrapping_add(first).wrapping_add(again),
        handed: again,
    })
}

/// All numbers are lost by time. Each 64th message may not be sent again, and is abandoned by its
/// number. After a look for what is late it is asked as often whether a message is overdue.
fn stale(rt: &impl AllocGlobal, count: u64) -> Result<Moved, Memory> {
    let count = count.min(65_000);
    let mut from = FlowSender::new(rt.alloc(), FLOW, &[], None, 0, 1)?;
    for at in 0..count {
        let options = MessageOptions {
            deadline: None,
            resends: if at % 64 == 0 { Some(0) } else { None },
        };
        let _ = from.queue(&[0x55], options);
    }
    let _ = send_all(&mut from, 0);
    let _ = from.find_lost(RESEND_AFTER, RESEND_AFTER);
    for at in 0..count / 64 + 1 {
        let _ = from.abandon(64 * at + 1);
    }
    let _ = from.find_lost(RESEND_AFTER, RESEND_AFTER);
    let mut found: u64 = 0;
    for _ in 0..count {
        if from.any_overdue(RESEND_AFTER) {
            found = found.wrapping_add(1);
        }
    }
    Ok(Moved {
        queued: 0,
        chunks: count,
        handed: found,
    })
}

/// Number 1 stays missing, and behind it is a message of 1,049 fragments. Its first half is told,
/// and then again and again 250 single numbers of the rest.
fn cut(rt: &impl AllocGlobal, count: u64, bytes: &[u8]) -> Result<Moved, Memory> {
    let count = count.min(65_000);
    let mut from = FlowSender::new(rt.alloc(), FLOW, &[], None, 0, 1)?;
    let mut to = FlowReceiver::new(rt.alloc(), 0);
    queue_bytes(&mut from, 1);
    let _ = from.queue(bytes, PLAIN);
    let mut sent: u64 = 0;
    for seq in 2..522u64 {
        // The first ack tells how much more the receiver takes.
        sent = sent.wrapping_add(send_all(&mut from, 0));
        take_byte(
            &mut to,
            seq,
            if seq == 2 { Part::Begin } else { Part::Middle },
        );
        hear_all(&mut from, &mut to, 1);
    }
    for at in 0..250u64 {
        take_byte(&mut to, 523 + 2 * at, Part::Middle);
    }
    hear_all(&mut from, &mut to, count);
    Ok(Moved {
        queued: 0,
        chunks: count * 250,
        handed: sent,
    })
}

/// A sender hears the receiver's ack so often.
fn hear_all(from: &mut FlowSender, to: &mut FlowReceiver, times: u64) {
    let mut out = Outgoing::new(0);
    if to.ack_into(FLOW, &mut out).is_ok() {
        for _ in 0..times {
            hear_one(from, out.bytes());
        }
    }
}

/// A receiver whose buffer a whole message fills holds so many beginnings of others, and refuses as
/// many chunks whose forward number would pass all of them.
fn full(rt: &impl AllocGlobal, count: u64) -> Result<Moved, Memory> {
    let mut to = FlowReceiver::new(rt.alloc(), 0);
    let count = count.min(31_000);
    for seq in 2..2101u64 {
        let part = if seq == 2 {
            Part::Begin
        } else if seq == 2100 {
            Part::End
        } else {
            Part::Middle
        };
        let _ = to.take(&fragment(seq, part, &[0x55; 999]));
    }
    for at in 0..count {
        let seq = at.saturating_mul(2).saturating_add(2102);
        let _ = to.take(&fragment(seq, Part::Begin, &[]));
    }
    let last = count.saturating_mul(2).saturating_add(2200);
    let mut refused: u64 = 0;
    for _ in 0..count {
        let mut chunk = fragment(last + 3, Part::Whole, &[0x55; 1000]);
        chunk.forward = last;
        if to.take(&chunk).is_err() {
            refused = refused.wrapping_add(1);
        }
    }
    Ok(Moved {
        queued: 0,
        chunks: count,
        handed: refused,
    })
}

/// Takes one of so many fragments of a message that begins at 1.
fn take_piece(to: &mut FlowReceiver, seq: u64, count: u64)
    requires { 1 ≤ seq }
{
    let part = if seq == 1 {
        Part::Begin
    } else if seq == count {
        Part::End
    } else {
        Part::Middle
    };
    let _ = to.take(&fragment(seq, part, &[0x55; 32]));
}

/// A chunk that tells a forward number alone.
fn notice(forward: u64) -> UserData<'static>
    ensures forward { result.forward ≡ forward }
    ensures seq { result.seq ≡ forward }
    ensures abandon { result.abandon ≡ true }
{
    UserData {
        part: Part::Whole,
        abandon: true,
        last: false,
        flow: FLOW,
        seq: forward,
        forward,
        options: None,
        bytes: &[],
    }
}

/// Takes a fragment of one byte.
fn take_byte(to: &mut FlowReceiver, seq: u64, part: Part)
    requires { 1 ≤ seq }
{
    let _ = to.take(&fragment(seq, part, &[0x55]));
}

/// A chunk with a fragment.
fn fragment(seq: u64, part: Part, bytes: &[u8]) -> UserData<'_>
    ensures forward { result.forward ≡ 0 }
    ensures seq { result.seq ≡ seq }
{
    UserData {
        part,
        abandon: false,
        last: false,
        flow: FLOW,
        seq,
        forward: 0,
        options: None,
        bytes,
    }
}
