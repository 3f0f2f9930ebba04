//! The runs of a flow, of which the one that came last stands apart. As a rule the next fragment
//! follows it, or its message is handed over before another one comes: then no map is searched.

ghost use Rattle.std.specs.Prelude.{◌≡◌, ◌<◌, ◌≤◌, ◌+◌, ◌^◌, [], IfSome, IsSome, OnOk};
ghost use Rattle.std.specs.Prelude.{OnErr, List, None, Some, true, false, ◌==◌, length, ◌&&◌};
ghost use Rattle.std.specs.Prelude.{if◌then◌else◌};
ghost use Rattle.std.specs.Option.{option_copied, is_some, IsSomeAnd, option_map};
ghost use Rattle.rtmfp_data_chunks.specs.Runs.{Run, single, joined, fits, is_whole};
ghost use Rattle.flow_recv.specs.Receiver.{first_of, without_first, held_in};
ghost use Rattle.flow_recv.specs.Order.{InOrder};
ghost use Rattle.flow_recv.specs.Keyed.{AllWhole, run_at, without_run, with_run, changed_run, over};
ghost use Rattle.flow_recv.specs.Keyed.{IsFirstFrom, IsLastBelow, with_newest, begins, least, most};
ghost use Rattle.flow_recv.specs.Keyed.{is_foremost, is_before};
ghost use Rattle.flow_recv.specs.Sums.{open_before, AllEndNear};

use crate::run::HeldRun;
use crate::summed::SummedRuns;
use rtmfp_data_chunks::Part;
use std::alloc::{AllocError, Global};
use std::marker::Model;

/// The runs of a flow by rising number.
#[derive(Drop)]
pub struct NewestRuns {
    newest: Option<HeldRun>,
    older: SummedRuns,
}

impl Model for NewestRuns {
    ghost use Rattle.std.specs.Prelude.{List};
    ghost use Rattle.rtmfp_data_chunks.specs.Runs.{Run};
    ghost use Rattle.flow_recv.specs.Keyed.{with_newest, IsNewest};

    ghost Value = { List Run };

    ghost view = { λ r. with_newest r.newest r.older };

    ghost invariant = { λ r. IsNewest r.newest r.older };
}

impl NewestRuns {
    pub fn new(alloc: Global, indexed: bool) -> NewestRuns
        ensures { result ≡ [] }
    {
        NewestRuns {
            newest: None,
            older: SummedRuns::new(alloc, indexed),
        }
    }

    /// How many there are.
    pub fn len(&self) -> usize
        ensures value { result ≡ length self.now }
        ensures small { result ≤ 2 ^ 63 }
    {
        let older = self.older.len();
        match &self.newest {
            Some(_) => 1 + older,
            None => older,
        }
    }

    /// Whether each run is known to be whole.
    pub fn are_whole(&self) -> bool
        ensures { result ≡ true → AllWhole self.now }
    {
        match &self.newest {
            Some(run) => run.is_whole() && self.older.are_whole(),
            None => self.older.are_whole(),
        }
    }

    /// The run that begins with a number.
    pub fn at(&self, first: u64) -> Option<&HeldRun>
        ensures { option_copied result ≡ run_at first self.now }
    {
        match &self.newest {
            Some(run) => {
                if run.first() == first {
                    return Some(run);
                }
                self.older.at(first)
            }
            None => self.older.at(first),
        }
    }

    /// The number that the last run below a number begins with.
    pub fn below(&self, number: u64) -> Option<u64>
        ensures { IsLastBelow number self.now result }
    {
        let older = self.older.below(number);
        match &self.newest {
            Some(run) => later_of(run.first() < number, run.first(), older),
            None => older,
        }
    }

    /// The number that the first run from a number on begins with.
    pub fn from(&self, number: u64) -> Option<u64>
        ensures { IsFirstFrom number self.now result }
    {
        let older = self.older.from(number);
        match &self.newest {
            Some(run) => earlier_of(number <= run.first(), run.first(), older),
            None => older,
        }
    }

    /// The number that the first run after one begins with.
    pub fn after(&self, first: u64) -> Option<u64>
        ensures { IsFirstFrom (first + 1) self.now result }
    {
        let older = self.older.after(first);
        match &self.newest {
            Some(run) => earlier_of(first < run.first(), run.first(), older),
            None => older,
        }
    }

    /// Takes out the run that begins with a number.
    pub fn remove(&mut self, first: u64) -> Option<HeldRun>
        requires { InOrder 0 self.old }
        ensures run { result ≡ run_at first self.old }
        ensures rest { self.new ≡ without_run first self.old }
    {
        if begins(&self.newest, first) {
            return self.newest.take();
        }
        self.older.remove(first)
    }

    /// Adds a run.
    pub fn insert(&mut self, run: HeldRun) -> Result<(), AllocError>
        requires free { run_at run.first self.old ≡ None }
        requires few { held_in self.old + length run.bytes < 2 ^ 32 }
        ensures added { OnOk result (self.new ≡ with_run run self.old) }
        ensures unchanged { OnErr result (self.new ≡ self.old) }
    {
        settle(&mut self.newest, &mut self.older)?;
        self.newest = Some(run);
        Ok(())
    }

    /// Appends a fragment to the run that begins with a number and that it follows and fits.
    pub fn append(
        &mut self,
        alloc: Global,
        first: u64,
        number: u64,
        part: Part,
        bytes: &[u8],
    ) -> Result<(), AllocError>
        requires fits { IfSome (run_at first self.old)
            (λ y. fits y (single number part []) ≡ true) }
        requires few { held_in self.old + length bytes.now < 2 ^ 32 }
        ensures appended { OnOk result (self.new
            ≡ changed_run (λ y. joined y (single number part bytes.now)) first self.old) }
        ensures unchanged { OnErr result (self.new ≡ self.old) }
    {
        if begins(&self.newest, first) {
            return append_to(alloc, &mut self.newest, number, part, bytes);
        }
        self.older.append(alloc, first, number, part, bytes)
    }

    /// Joins a fragment and the run after it to the run that it follows and fits.
    pub fn join(
        &mut self,
        alloc: Global,
        first: u64,
        later: u64,
        bytes: &[u8],
    ) -> Result<(), AllocError>
        requires apart { (first == later) ≡ false }
        requires open { IfSome (run_at first self.old) (λ y. is_whole y ≡ false) }
        requires there { IsSome (run_at later self.old) }
        requires few { held_in self.old + length bytes.now < 2 ^ 32 }
        ensures joined { OnOk result (IsSomeAnd (run_at later self.old) (λ z. self.new
            ≡ without_run later (changed_run (λ y. over y bytes.now z) first self.old))) }
        ensures unchanged { OnErr result (self.new ≡ self.old) }
    {
        settle(&mut self.newest, &mut self.older)?;
        self.older.join(alloc, first, later, bytes)
    }

    /// Whether a run is whole.
    pub fn any_whole(&self) -> bool
        ensures { result ≡ is_some (first_of is_whole self.now) }
    {
        match &self.newest {
            Some(run) => run.is_whole() || self.older.any_whole(),
            None => self.older.any_whole(),
        }
    }

    /// Takes out the first run that is whole.
    pub fn take_whole(&mut self) -> Option<HeldRun>
        requires { InOrder 0 self.old }
        ensures run { result ≡ first_of is_whole self.old }
        ensures rest { self.new ≡ without_first is_whole self.old }
    {
        if is_foremost(&self.newest, self.older.first_whole()) {
            return self.newest.take();
        }
        self.older.take_whole()
    }

    /// The bytes of the runs that aren't whole and end in a block before one, where each that isn't
    /// whole ends from a number on and at most 65,537 above it.
    pub fn open_before(&self, through: u64, block: u64) -> u64
        requires near { AllEndNear through self.now }
        requires few { held_in self.now < 2 ^ 32 }
        ensures { result ≡ open_before block self.now }
    {
        let older = self.older.open_before(through, block);
        match &self.newest {
            Some(run) => run.open_before(block) + older,
            None => older,
        }
    }
}

/// Puts the newest run among the older ones.
fn settle(newest: &mut Option<HeldRun>, older: &mut SummedRuns) -> Result<(), AllocError>
    requires free { IfSome newest.old (λ x. run_at x.first older.old ≡ None) }
    requires few { held_in (with_newest newest.old older.old) < 2 ^ 32 }
    ensures none { OnOk result (newest.new ≡ None) }
    ensures among { OnOk result (older.new ≡ with_newest newest.old older.old) }
    ensures same { OnErr result (newest.new ≡ newest.old) }
    ensures unchanged { OnErr result (older.new ≡ older.old) }
{
    let Some(run) = newest.take() else {
        return Ok(());
    };
    match older.insert(run) {
        Ok(()) => Ok(()),
        Err(run) => {
            *newest = Some(run);
            Err(AllocError)
        }
    }
}

/// Whether there is a run and it begins with a number.
fn begins(run: &Option<HeldRun>, first: u64) -> bool
    ensures { result ≡ begins first run.now }
{
    match run {
        Some(run) => run.first() == first,
        None => false,
    }
}

/// Appends a fragment to a run.
fn append_to(
    alloc: Global,
    run: &mut Option<HeldRun>,
    number: u64,
    part: Part,
    bytes: &[u8],
) -> Result<(), AllocError>
    ensures joined { OnOk result (run.new
        ≡ option_map (λ y. joined y (single number part bytes.now)) run.old) }
    ensures unchanged { OnErr result (run.new ≡ run.old) }
{
    match run {
        Some(run) => run.append(alloc, number, part, bytes),
        None => Ok(()),
    }
}

/// Whether a run is whole and begins before a number.
fn is_foremost(run: &Option<HeldRun>, other: Option<u64>) -> bool
    ensures { result ≡ is_foremost other run.now }
{
    match run {
        Some(run) => run.is_whole() && is_before(run.first(), other),
        None => false,
    }
}

/// Whether a number is below another one, or there is no other one.
fn is_before(first: u64, other: Option<u64>) -> bool
    ensures { result ≡ is_before first other }
{
    match other {
        Some(other) => first < other,
        None => true,
    }
}

/// The lower one of two numbers, of which the first counts where it is ahead.
fn earlier_of(is_ahead: bool, first: u64, other: Option<u64>) -> Option<u64>
    ensures { result ≡ (if is_ahead then Some (least first other) else other) }
{
    if !is_ahead {
        return other;
    }
    match other {
        Some(other) => Some(first.min(other)),
        None => Some(first),
    }
}

/// The higher one of two numbers, of which the first counts where it is behind.
fn later_of(is_behind: bool, first: u64, other: Option<u64>) -> Option<u64>
    ensures { result ≡ (if is_behind then Some (most first other) else other) }
{
    if !is_behind {
        return other;
    }
    match other {
        Some(other) => Some(first.max(other)),
        None => Some(first),
    }
}
