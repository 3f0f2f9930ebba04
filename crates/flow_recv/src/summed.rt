//! The runs of a flow, with sums of the bytes of those that aren't whole.

ghost use Rattle.std.specs.Prelude.{◌≡◌, ◌<◌, ◌+◌, ◌^◌, ◌/◌, [], IfSome, IsSome, OnOk};
ghost use Rattle.std.specs.Prelude.{OnErr, IfErr, List, None, true, false, ◌==◌, length};
ghost use Rattle.std.specs.Option.{option_copied, option_map, is_some, IsSomeAnd};
ghost use Rattle.rtmfp_data_chunks.specs.Runs.{single, joined, fits, is_whole};
ghost use Rattle.flow_recv.specs.Receiver.{first_of, without_first, held_in};
ghost use Rattle.flow_recv.specs.Keyed.{AllWhole, run_at, without_run, with_run, changed_run, over};
ghost use Rattle.flow_recv.specs.Keyed.{IsFirstFrom, IsLastBelow};
ghost use Rattle.flow_recv.specs.Sums.{open_at, open_before, AllEndNear};

use crate::held::HeldRuns;
use crate::run::HeldRun;
use crate::sums::{Open, Sums, block_of};
use rtmfp_data_chunks::Part;
use std::alloc::{AllocError, Global};
use std::marker::Model;

/// The runs of a flow by rising number. Beside them stand sums by which it is told at once how many
/// bytes a forward number would drop.
#[derive(Drop)]
pub struct SummedRuns {
    runs: HeldRuns,
    sums: Sums,
}

impl Model for SummedRuns {
    ghost use Rattle.std.specs.Prelude.{List};
    ghost use Rattle.rtmfp_data_chunks.specs.Runs.{Run};
    ghost use Rattle.flow_recv.specs.Sums.{AreSums};

    ghost Value = { List Run };

    ghost view = { λ r. r.runs };

    ghost invariant = { λ r. AreSums r.sums r.runs };
}

impl SummedRuns {
    pub fn new(alloc: Global, indexed: bool) -> SummedRuns
        ensures { result ≡ [] }
    {
        SummedRuns {
            runs: HeldRuns::new(alloc, indexed),
            sums: Sums::new(alloc),
        }
    }

    /// How many there are.
    pub fn len(&self) -> usize
        ensures value { result ≡ length self.now }
        ensures small { result < 2 ^ 63 }
    {
        self.runs.len()
    }

    /// Whether each run is known to be whole.
    pub fn are_whole(&self) -> bool
        ensures { result ≡ true → AllWhole self.now }
    {
        self.runs.are_whole()
    }

    /// The run that begins with a number.
    pub fn at(&self, first: u64) -> Option<&HeldRun>
        ensures { option_copied result ≡ run_at first self.now }
    {
        self.runs.at(first)
    }

    /// The number that the last run below a number begins with.
    pub fn below(&self, number: u64) -> Option<u64>
        ensures { IsLastBelow number self.now result }
    {
        self.runs.below(number)
    }

    /// The number that the first run from a number on begins with.
    pub fn from(&self, number: u64) -> Option<u64>
        ensures { IsFirstFrom number self.now result }
    {
        self.runs.from(number)
    }

    /// The number that the first run after one begins with.
    pub fn after(&self, first: u64) -> Option<u64>
        ensures { IsFirstFrom (first + 1) self.now result }
    {
        self.runs.after(first)
    }

    /// Takes out the run that begins with a number.
    pub fn remove(&mut self, first: u64) -> Option<HeldRun>
        ensures run { result ≡ run_at first self.old }
        ensures rest { self.new ≡ without_run first self.old }
    {
        let gone = open_at(&self.runs, first);
        self.sums.take(gone);
        self.runs.remove(first)
    }

    /// Adds a run. Where there is no memory it comes back.
    pub fn insert(&mut self, run: HeldRun) -> Result<(), HeldRun>
        requires free { run_at run.first self.old ≡ None }
        requires few { held_in self.old + length run.bytes < 2 ^ 32 }
        ensures added { OnOk result (self.new ≡ with_run run self.old) }
        ensures unchanged { OnErr result (self.new ≡ self.old) }
        ensures back { IfErr result (λ y. y ≡ run) }
    {
        let more = run.open();
        if self.sums.make(more.bytes).is_err() {
            return Err(run);
        }
        self.runs.insert(run)?;
        self.sums.add(more);
        Ok(())
    }

    /// Appends a fragment to the run that begins with a number and that it follows and fits.
    pub fn append(
        &mut self,
        alloc: Global,
        first: u64,
        number: u64,
        part: Part,
        bytes: &[u8],
    ) -> Result<(), AllocError>
        requires fits { IfSome (run_at first self.old)
            (λ y. fits y (single number part []) ≡ true) }
        requires few { held_in self.old + length bytes.now < 2 ^ 32 }
        ensures appended { OnOk result (self.new
            ≡ changed_run (λ y. joined y (single number part bytes.now)) first self.old) }
        ensures unchanged { OnErr result (self.new ≡ self.old) }
    {
        let before = open_at(&self.runs, first);
        self.sums.make(1)?;
        self.runs.append(alloc, first, number, part, bytes)?;
        let after = open_at(&self.runs, first);
        self.sums.take(before);
        self.sums.add(after);
        Ok(())
    }

    /// Joins a fragment and the run after it to the run that it follows and fits.
    pub fn join(
        &mut self,
        alloc: Global,
        first: u64,
        later: u64,
        bytes: &[u8],
    ) -> Result<(), AllocError>
        requires apart { (first == later) ≡ false }
        requires open { IfSome (run_at first self.old) (λ y. is_whole y ≡ false) }
        requires there { IsSome (run_at later self.old) }
        requires few { held_in self.old + length bytes.now < 2 ^ 32 }
        ensures joined { OnOk result (IsSomeAnd (run_at later self.old) (λ z. self.new
            ≡ without_run later (changed_run (λ y. over y bytes.now z) first self.old))) }
        ensures unchanged { OnErr result (self.new ≡ self.old) }
    {
        let before = open_at(&self.runs, first);
        let gone = open_at(&self.runs, later);
        self.sums.make(1)?;
        self.runs.join(alloc, first, later, bytes)?;
        let after = open_at(&self.runs, first);
        self.sums.take(before);
        self.sums.take(gone);
        self.sums.add(after);
        Ok(())
    }

    /// Whether a run is whole.
    pub fn any_whole(&self) -> bool
        ensures { result ≡ is_some (first_of is_whole self.now) }
    {
        self.runs.any_whole()
    }

    /// The number that the first run that is whole begins with.
    pub fn first_whole(&self) -> Option<u64>
        ensures { result ≡ option_map (λ y. y.first) (first_of is_whole self.now) }
    {
        self.runs.first_whole()
    }

    /// Takes out the first run that is whole.
    pub fn take_whole(&mut self) -> Option<HeldRun>
        ensures run { result ≡ first_of is_whole self.old }
        ensures rest { self.new ≡ without_first is_whole self.old }
    {
        self.runs.take_whole()
    }

    /// The bytes of the runs that aren't whole and end in a block before one, where each that isn't
    /// whole ends from a number on and at most 65,537 above it.
    pub fn open_before(&self, through: u64, block: u64) -> u64
        requires near { AllEndNear through self.now }
        requires few { held_in self.now < 2 ^ 32 }
        ensures { result ≡ open_before block self.now }
    {
        let first = block_of(through);
        let count = block.saturating_sub(first).min(1_028);
        self.sums.sum_from(first, count)
    }
}

/// What the run that begins with a number gives to the sums.
fn open_at(runs: &HeldRuns, first: u64) -> Open
    ensures { result ≡ open_at (run_at first runs.now) }
{
    match runs.at(first) {
        Some(run) => run.open(),
        None => Open { last: 0, bytes: 0 },
    }
}
