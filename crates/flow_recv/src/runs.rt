//! The runs of a flow: how a fragment joins them, which are dropped, and which is next.

ghost use Rattle.std.specs.Prelude.{◌≡◌, ◌+◌, ◌<◌, ◌^◌, ◌∷◌, []};
ghost use Rattle.std.specs.Prelude.{OnOk, OnErr, length, not, ◌||◌, ◌==◌, None, true};
ghost use Rattle.std.specs.List.{filter};
ghost use Rattle.std.specs.Option.{IsSomeAnd, is_some};
ghost use Rattle.rtmfp_data_chunks.specs.Runs.{fits, single};
ghost use Rattle.flow_recv.specs.Order.{InOrder, AllOpen};
ghost use Rattle.flow_recv.specs.Keyed.{run_at, IsFree, IsFollowed, IsFollowing, is_between, stays};
ghost use Rattle.flow_recv.specs.Keyed.{stays_at, dead_bytes, Reaches, followed_at, following_at};
ghost use Rattle.flow_recv.specs.Keyed.{ready_at};
ghost use Rattle.flow_recv.specs.Receiver.{Apart, held_in, add_run, span, hands, first_of};
ghost use Rattle.flow_recv.specs.Receiver.{without_first};

use crate::above::Above;
use crate::newest::NewestRuns;
use crate::run::HeldRun;
use rtmfp_data_chunks::Part;
use std::alloc::{AllocError, Global};

/// The number that the run begins with which a fragment follows and fits.
fn followed(runs: &NewestRuns, number: u64, part: Part) -> Option<u64>
    requires { InOrder 0 runs.now }
    ensures { IsFollowed (single number part []) runs.now result }
{
    let Some(first) = runs.below(number) else {
        return None;
    };
    if is_followed_at(runs, first, number, part) {
        return Some(first);
    }
    None
}

/// Whether a fragment follows and fits the run that begins with a number.
fn is_followed_at(runs: &NewestRuns, first: u64, number: u64, part: Part) -> bool
    ensures { result ≡ followed_at (single number part []) (run_at first runs.now) }
{
    match runs.at(first) {
        Some(run) => run.is_followed_by(number, part),
        None => false,
    }
}

/// The number that the run begins with which follows a fragment and fits.
fn following(runs: &NewestRuns, number: u64, part: Part) -> Option<u64>
    requires { InOrder 0 runs.now }
    ensures { IsFollowing (single number part []) runs.now result }
{
    let Some(first) = runs.after(number) else {
        return None;
    };
    if follows_at(runs, first, number, part) {
        return Some(first);
    }
    None
}

/// Whether the run that begins with a number follows a fragment and fits.
fn follows_at(runs: &NewestRuns, first: u64, number: u64, part: Part) -> bool
    ensures { result ≡ following_at (single number part []) (run_at first runs.now) }
{
    match runs.at(first) {
        Some(run) => run.follows(number, part),
        None => false,
    }
}

/// Joins a fragment to the run that it follows and fits, and both to the run after it where that
/// one fits.
fn extend(
    alloc: Global,
    runs: &mut NewestRuns,
    first: u64,
    number: u64,
    part: Part,
    bytes: &[u8],
) -> Result<(), AllocError>
    requires order { InOrder 0 runs.old }
    requires free { IsFree number runs.old }
    requires fits { IsSomeAnd (run_at first runs.old) (λ y. fits y (single number part []) ≡ true) }
    requires few { held_in runs.old + length bytes.now < 2 ^ 32 }
    ensures added { OnOk result (runs.new ≡ add_run (single number part bytes.now) runs.old) }
    ensures unchanged { OnErr result (runs.new ≡ runs.old) }
{
    let Some(later) = following(runs, number, part) else {
        return runs.append(alloc, first, number, part, bytes);
    };
    runs.join(alloc, first, later, bytes)
}

/// Adds a fragment that follows and fits no run, joined to the run after it where that one fits.
fn put(
    alloc: Global,
    runs: &mut NewestRuns,
    number: u64,
    part: Part,
    bytes: &[u8],
) -> Result<(), AllocError>
    requires order { InOrder 0 runs.old }
    requires free { IsFree number runs.old }
    requires apart { IsFollowed (single number part []) runs.old None }
    requires few { held_in runs.old + length bytes.now < 2 ^ 32 }
    ensures added { OnOk result (runs.new ≡ add_run (single number part bytes.now) runs.old) }
    ensures unchanged { OnErr result (runs.new ≡ runs.old) }
{
    let Some(later) = following(runs, number, part) else {
        return runs.insert(HeldRun::single(alloc, number, part, bytes)?);
    };
    runs.insert(HeldRun::single(alloc, number, part, bytes)?)?;
    if runs.join(alloc, number, later, &[]).is_ok() {
        return Ok(());
    }
    runs.remove(number);
    Err(AllocError)
}

/// Adds a fragment whose number no run has, and joins it to the runs that it fits. One that follows
/// a run is appended in place.
pub fn add_run(
    alloc: Global,
    runs: &mut NewestRuns,
    number: u64,
    part: Part,
    bytes: &[u8],
) -> Result<(), AllocError>
    requires order { InOrder 0 runs.old }
    requires free { IsFree number runs.old }
    requires few { held_in runs.old + length bytes.now < 2 ^ 32 }
    ensures added { OnOk result (runs.new ≡ add_run (single number part bytes.now) runs.old) }
    ensures unchanged { OnErr result (runs.new ≡ runs.old) }
{
    match followed(runs, number, part) {
        Some(first) => extend(alloc, runs, first, number, part, bytes),
        None => put(alloc, runs, number, part, bytes),
    }
}

/// Where a walk begins that looks at the runs from a number on, and at the one directly before it.
fn reaching(runs: &NewestRuns, low: u64) -> Option<u64>
    requires { InOrder 0 runs.now }
    ensures { Reaches low runs.now result }
{
    match runs.below(low) {
        Some(first) => Some(first),
        None => runs.from(low),
    }
}

/// Whether the run that begins with a number stays, if these numbers came to be known.
fn stays_at(runs: &NewestRuns, first: u64, low: u64, high: u64, through: u64, above: &Above) -> bool
    requires { Apart above.now }
    ensures { result ≡ stays_at (span 0 through ∷ above.now) low high (run_at first runs.now) }
{
    match runs.at(first) {
        Some(run) => !run.is_between(low, high) || run.is_alive(through, above),
        None => true,
    }
}

/// Drops the run that begins with a number, unless it stays. The answer is how many bytes it held.
fn drop_unless_stays(
    runs: &mut NewestRuns,
    first: u64,
    low: u64,
    high: u64,
    through: u64,
    above: &Above,
) -> u64
    requires apart { Apart above.now }
    requires order { InOrder 0 runs.old }
    ensures kept { runs.new ≡ filter (λ y. not (y.first == first)
        || stays (span 0 through ∷ above.now) low high y) runs.old }
    ensures dropped { held_in runs.new + result ≡ held_in runs.old }
{
    if stays_at(runs, first, low, high, through, above) {
        return 0;
    }
    match runs.remove(first) {
        Some(run) => run.len() as u64,
        None => 0,
    }
}

/// How many bytes the run that begins with a number holds, unless it stays.
fn bytes_unless_stays(
    runs: &NewestRuns,
    first: u64,
    low: u64,
    high: u64,
    through: u64,
    above: &Above,
) -> u64
    requires { Apart above.now }
    ensures { result ≡ dead_bytes (stays (span 0 through ∷ above.now) low high)
        (run_at first runs.now) }
{
    match runs.at(first) {
        Some(run) => {
            if run.is_between(low, high) && !run.is_alive(through, above) {
                return run.len() as u64;
            }
            0
        }
        None => 0,
    }
}

/// Drops those of the runs that have one of the numbers between two or lie beside one, and that
/// can't become messages any more. The answer is how many bytes they held. A whole run is a message
/// already.
pub fn drop_dead(runs: &mut NewestRuns, low: u64, high: u64, through: u64, above: &Above) -> u64
    requires apart { Apart above.now }
    requires order { InOrder 0 runs.old }
    requires few { held_in runs.old < 2 ^ 32 }
    ensures kept { runs.new ≡ filter (stays (span 0 through ∷ above.now) low high) runs.old }
    ensures dropped { held_in runs.new + result ≡ held_in runs.old }
{
    if runs.are_whole() {
        return 0;
    }
    let mut next = reaching(runs, low);
    let mut dropped = 0;
    while let Some(first) = next {
        if first.saturating_sub(1) > high {
            break;
        }
        dropped += drop_unless_stays(runs, first, low, high, through, above);
        next = runs.after(first);
    }
    dropped
}

/// How many bytes those runs hold.
pub fn dying_bytes(runs: &NewestRuns, low: u64, high: u64, through: u64, above: &Above) -> u64
    requires apart { Apart above.now }
    requires order { InOrder 0 runs.now }
    requires few { held_in runs.now < 2 ^ 32 }
    ensures { held_in (filter (stays (span 0 through ∷ above.now) low high) runs.now) + result
        ≡ held_in runs.now }
{
    if runs.are_whole() {
        return 0;
    }
    let mut next = reaching(runs, low);
    let mut dying = 0;
    while let Some(first) = next {
        if first.saturating_sub(1) > high {
            break;
        }
        dying += bytes_unless_stays(runs, first, low, high, through, above);
        next = runs.after(first);
    }
    dying
}

/// Whether the run that begins with a number may be handed over in queueing order.
fn is_ready_at(runs: &NewestRuns, first: u64, through: u64) -> bool
    ensures { result ≡ ready_at through (run_at first runs.now) }
{
    match runs.at(first) {
        Some(run) => run.is_ready(through),
        None => false,
    }
}

/// Whether a run may be handed over.
pub fn any_ready(runs: &NewestRuns, arriving: bool, through: u64) -> bool
    requires order { InOrder 0 runs.now }
    requires open { AllOpen through runs.now }
    ensures { result ≡ is_some (first_of (hands arriving through) runs.now) }
{
    if arriving {
        return runs.any_whole();
    }
    match runs.from(0) {
        Some(first) => is_ready_at(runs, first, through),
        None => false,
    }
}

/// Takes out the first run that may be handed over. In queueing order that is the first run, or
/// none is.
pub fn take_ready(runs: &mut NewestRuns, arriving: bool, through: u64) -> Option<HeldRun>
    requires order { InOrder 0 runs.old }
    requires open { AllOpen through runs.old }
    ensures run { result ≡ first_of (hands arriving through) runs.old }
    ensures rest { runs.new ≡ without_first (hands arriving through) runs.old }
{
    if arriving {
        return runs.take_whole();
    }
    let Some(first) = runs.from(0) else {
        return None;
    };
    if !is_ready_at(runs, first, through) {
        return None;
    }
    runs.remove(first)
}
