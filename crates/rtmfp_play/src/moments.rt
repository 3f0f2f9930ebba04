//! The largest moments that the ends of a world were given so far, in milliseconds.

ghost use Rattle.std.specs.Prelude.{◌≡◌, ◌<◌, ◌≤◌, length, max, OnOk, slice_get, slice_index, slice_set};
ghost use Rattle.rendezvous_world.specs.Deed.{deed_of};
ghost use Rattle.rendezvous_world.specs.History.{moment_given};
ghost use Rattle.rendezvous_world.specs.Seen.{Seen};
ghost use Rattle.rtmfp_play.specs.Moments.{AreMomentsOf, moment_of, raised};

use placed_world::PlacedStep;
use rendezvous_world::{JournalLine, Step};
use std::alloc::AllocError;

/// The moment that the call of a step is given, in a world at this one; 0 where it is given none.
pub(crate) fn moment_of(moment: u64, step: &PlacedStep) -> u64
    ensures { result ≡ moment_of moment step.now }
{
    match step {
        PlacedStep::World(step) => moment_given(moment, step),
        _ => moment,
    }
}

/// The same of a step of the world.
fn moment_given(moment: u64, step: &Step) -> u64
    ensures { result ≡ moment_given moment (deed_of step.now) }
{
    match step {
        Step::Unseek { .. } => 0,
        Step::Cancel { .. } => 0,
        Step::Flow { .. } => 0,
        Step::Queue { .. } => 0,
        Step::Abandon { .. } => 0,
        Step::Finish { .. } => 0,
        Step::Introduce { .. } => 0,
        Step::Narrow { .. } => 0,
        Step::Redirect { .. } => 0,
        Step::Learn { .. } => 0,
        Step::Advance { .. } => 0,
        _ => moment,
    }
}

/// Finds memory for the moment of one end more than there are, which is 0: so none comes for which
/// there is no memory.
pub(crate) fn find_room(ends: usize, moments: &mut Vec<u64>) -> Result<(), AllocError>
    requires { ends ≤ length moments.old.items }
    ensures keeps { (w : Seen) → AreMomentsOf moments.old.items w →
        AreMomentsOf moments.new.items w }
    ensures room { OnOk result (ends < length moments.new.items) }
{
    if moments.len() == ends {
        moments.push(0)?;
    }
    Ok(())
}

/// The moments when the end of the line of the journal with this index, if there is one, is given
/// this one.
pub(crate) fn raise(lines: &[JournalLine], at: usize, given: u64, moments: &mut Vec<u64>)
    ensures { moments.new.items ≡ raised moments.old.items given (slice_get lines.now at) }
{
    match lines.get(at) {
        Some(line) => raise_at(line.end(), given, moments),
        None => {}
    }
}

fn raise_at(end: usize, given: u64, moments: &mut Vec<u64>)
    ensures { moments.new.items ≡ slice_set moments.old.items end
        (max (slice_index moments.old.items end) given) }
{
    if end < moments.len() {
        let before = moments[end];
        moments[end] = before.max(given);
    }
}

/// The largest moment that the end with this number was given so far; 0 where there is none.
pub(crate) fn moment_at(moments: &[u64], end: usize) -> u64
    ensures { result ≡ slice_index moments.now end }
{
    if end < moments.len() { moments[end] } else { 0 }
}
