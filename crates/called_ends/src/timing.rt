//! The calls of an end with many sessions or attempts, timed.

mod calls;
mod datagrams;
mod side;

use crate::timing::calls::Kind::{
    Birth, Cancel, Change, Close, Confirm, Discard, Empty, EndAll, ExpireAll, Flow, Forget, Hello,
    LoseAll, Open, Ping, Queue, Seek, Send, SendAll, Tick, Unknown, Unseek,
};
use crate::timing::calls::{Batch, Kind};
use crate::timing::side::{Side, Taken};
use std::io;

/// A tick with nothing due is short, so there are many.
const TICKS: u32 = 10_000;

/// The kinds of calls that are timed with many sessions, in their order.
const OF_SESSIONS: &[Kind] = &[Ping, Discard, Tick, Birth, Close, Forget];

/// Those that are timed with many attempts.
const OF_ATTEMPTS: &[Kind] = &[Open, Hello, Empty, Change, Unknown, Tick, Cancel];

/// Those that are timed with many searches.
const OF_SEARCHES: &[Kind] = &[Seek, Hello, Tick, Unseek];

/// Those that are timed with many sessions that have a sending flow.
const OF_SENDING: &[Kind] = &[Send, Queue, SendAll, LoseAll];

/// What a line asks for.
#[derive(Clone, Copy)]
struct Job {
    size: u32,
    count: u32,
    timed: bool,
    alike: bool,
}

impl Job {
    fn batch(&self, kind: Kind, first: u32, count: u32) -> Batch {
        Batch {
            kind,
            first,
            count,
            alike: self.alike,
        }
    }

    /// The calls of a kind that are timed. What is new comes from further ends.
    fn timed_batch(&self, kind: Kind) -> Batch {
        let further = self.size.saturating_add(1);
        match kind {
            Tick => self.batch(kind, 1, TICKS),
            Birth => self.batch(kind, further, self.count),
            Open | Seek => self.batch(kind, further, self.count),
            Hello => self.batch(kind, further, self.count),
            Queue => self.batch(kind, 1, self.size),
            SendAll | LoseAll | ExpireAll | EndAll => self.batch(kind, 1, 1),
            _ => self.batch(kind, 1, self.count),
        }
    }
}

/// The word of a line at this place.
fn word(line: &str, index: usize) -> &str {
    line.split_whitespace().nth(index).unwrap_or("")
}

/// The number of a line at this place, 0 where there is none.
fn number(line: &str, index: usize) -> u32 {
    word(line, index).parse().unwrap_or(0)
}

/// Whether a line asks for calls that are timed.
pub(crate) fn is_timed(line: &str) -> bool {
    matches!(
        word(line, 0),
        "sessions"
            | "attempts"
            | "alike"
            | "searches"
            | "sending"
            | "expiring"
            | "seeking"
            | "ending"
    )
}

/// What a line asks for.
fn job_of(line: &str) -> Job {
    Job {
        size: number(line, 1),
        count: number(line, 2),
        timed: number(line, 3) != 0,
        alike: word(line, 0) == "alike",
    }
}

/// Answers a line.
pub(crate) fn answer(rt: &HostRuntime, line: &str) -> io::Result<()> {
    let (word, job) = (word(line, 0), job_of(line));
    println!(rt; "{word} {}", job.size)?;
    if do_job(rt, word, job).is_none() {
        println!(rt; "stopped")?;
    }
    Ok(())
}

/// Does what a line asks for.
fn do_job(rt: &HostRuntime, word: &str, job: Job) -> Option<()> {
    let Some(mut side) = Side::new(rt.alloc()) else {
        return None;
    };
    match word {
        "sessions" => run(rt, &mut side, job, &[Birth, Confirm], OF_SESSIONS),
        "sending" => run(rt, &mut side, job, &[Birth, Confirm, Flow], OF_SENDING),
        "expiring" => run(rt, &mut side, job, &[Open], &[ExpireAll]),
        "searches" => run(rt, &mut side, job, &[Seek], OF_SEARCHES),
        "seeking" => run(rt, &mut side, job, &[Seek], &[ExpireAll]),
        "ending" => run(rt, &mut side, job, &[Birth], &[EndAll]),
        _ => run(rt, &mut side, job, &[Open, Hello], OF_ATTEMPTS),
    }
}

/// Has the end make as many calls of some kinds as there are to be sessions or attempts, and times
/// others.
fn run(rt: &HostRuntime, side: &mut Side, job: Job, before: &[Kind], timed: &[Kind]) -> Option<()> {
    for kind in before {
        make(rt, side, job.batch(*kind, 1, job.size))?;
    }
    for kind in timed {
        let taken = make(rt, side, job.timed_batch(*kind))?;
        tell(rt, *kind, taken, job.timed);
    }
    Some(())
}

/// Has the end make calls.
fn make(rt: &HostRuntime, side: &mut Side, batch: Batch) -> Option<Taken> {
    let Some(mut calls) = batch.calls(rt.alloc()) else {
        return None;
    };
    Some(side.make_all(rt, calls.as_mut_slice()))
}

/// Tells what calls of a kind added; the time of one, or of each entry of one that is for all, only
/// where it is asked for.
fn tell(rt: &HostRuntime, kind: Kind, taken: Taken, timed: bool) {
    let done = if kind.is_for_all() {
        taken.entries
    } else {
        taken.calls
    };
    let each = if timed {
        taken.nanos.checked_div(done as u128).unwrap_or(0)
    } else {
        0
    };
    let _ = println!(rt;
        "{kind:?} {} {} {} {each}",
        taken.calls, taken.entries, taken.discards
    );
}
