//! The runs of a flow as a map, by the number that each begins with.

ghost use Rattle.std.specs.Prelude.{◌≡◌, ◌<◌, ◌+◌, [], IfSome, IsSome, OnOk};
ghost use Rattle.std.specs.Prelude.{OnErr, IfErr, List, true, false, ◌==◌, if◌then◌else◌, ◌&&◌};
ghost use Rattle.std.specs.Prelude.{◌^◌, length};
ghost use Rattle.std.specs.Option.{option_copied, option_map, is_some, IsSomeAnd};
ghost use Rattle.std.specs.Map.{remove_entry, values_of};
ghost use Rattle.std.specs.Ordering.{nat_cmp};
ghost use Rattle.std.specs.BTreeMap.{get, is_at, IsOrdered};
ghost use Rattle.std.specs.BTreeSet.{insert_key};
ghost use Rattle.rtmfp_data_chunks.specs.Runs.{single, joined, fits, is_whole};
ghost use Rattle.flow_recv.specs.Receiver.{first_of, without_first};
ghost use Rattle.flow_recv.specs.Keyed.{AllWhole, run_at, without_run, with_run, changed_run};
ghost use Rattle.flow_recv.specs.Keyed.{changed_entry, front_of, rear_of, emptied, over};
ghost use Rattle.flow_recv.specs.Keyed.{IsFirstFrom, IsLastBelow, IsKept};

use crate::run::{HeldRun, has_rear};
use rtmfp_data_chunks::Part;
use std::alloc::{AllocError, Global};
use std::collections::{BTreeMap, BTreeSet};
use std::marker::Model;
use std::ops::Bound;

/// The runs of a flow. Contracts see them by rising number. Where they are indexed, the first whole
/// one is found at once; else all before it are gone through.
#[derive(Drop)]
pub struct HeldRuns {
    map: BTreeMap<u64, HeldRun>,
    indexed: bool,
    whole: BTreeSet<u64>,
}

impl Model for HeldRuns {
    ghost use Rattle.std.specs.Prelude.{List};
    ghost use Rattle.std.specs.Map.{values_of};
    ghost use Rattle.rtmfp_data_chunks.specs.Runs.{Run};
    ghost use Rattle.flow_recv.specs.Keyed.{IsKept};

    ghost Value = { List Run };

    ghost view = { λ r. values_of r.map.entries };

    ghost invariant = { λ r. IsKept r.indexed r.map.entries r.whole.keys };
}

impl HeldRuns {
    pub fn new(alloc: Global, indexed: bool) -> HeldRuns
        ensures { result ≡ [] }
    {
        HeldRuns {
            map: BTreeMap::new(alloc),
            indexed,
            whole: BTreeSet::new(alloc),
        }
    }

    /// How many there are.
    pub fn len(&self) -> usize
        ensures value { result ≡ length self.now }
        ensures small { result < 2 ^ 63 }
    {
        self.map.len()
    }

    /// Whether each run is known to be whole. Where they aren't indexed it isn't known.
    pub fn are_whole(&self) -> bool
        ensures { result ≡ true → AllWhole self.now }
    {
        if !self.indexed {
            return false;
        }
        self.map.len() == self.whole.len()
    }

    /// The run that begins with a number.
    pub fn at(&self, first: u64) -> Option<&HeldRun>
        ensures { option_copied result ≡ run_at first self.now }
    {
        self.map.get(&first)
    }

    /// The number that the last run below a number begins with.
    pub fn below(&self, number: u64) -> Option<u64>
        ensures { IsLastBelow number self.now result }
    {
        if self.map.is_empty() {
            return None;
        }
        match self.map.range(..number).next_back() {
            Some((first, _)) => Some(*first),
            None => None,
        }
    }

    /// The number that the first run from a number on begins with.
    pub fn from(&self, number: u64) -> Option<u64>
        ensures { IsFirstFrom number self.now result }
    {
        if self.map.is_empty() {
            return None;
        }
        match self.map.range(number..).next() {
            Some((first, _)) => Some(*first),
            None => None,
        }
    }

    /// The number that the first run after one begins with.
    pub fn after(&self, first: u64) -> Option<u64>
        ensures { IsFirstFrom (first + 1) self.now result }
    {
        if self.map.is_empty() {
            return None;
        }
        match self
            .map
            .range((Bound::Excluded(first), Bound::Unbounded))
            .next()
        {
            Some((first, _)) => Some(*first),
            None => None,
        }
    }

    /// Takes out the run that begins with a number.
    pub fn remove(&mut self, first: u64) -> Option<HeldRun>
        ensures run { result ≡ run_at first self.old }
        ensures rest { self.new ≡ without_run first self.old }
    {
        self.whole.remove(&first);
        self.map.remove(&first)
    }

    /// Adds a run. Where there is no memory it comes back.
    pub fn insert(&mut self, run: HeldRun) -> Result<(), HeldRun>
        requires { run_at run.first self.old ≡ None }
        ensures added { OnOk result (self.new ≡ with_run run self.old) }
        ensures unchanged { OnErr result (self.new ≡ self.old) }
        ensures back { IfErr result (λ y. y ≡ run) }
    {
        let first = run.first();
        let Ok(()) = mark_whole(&mut self.whole, self.indexed, first, run.is_whole()) else {
            return Err(run);
        };
        match self.map.insert(first, run) {
            Ok(_) => Ok(()),
            Err(refused) => {
                self.whole.remove(&first);
                Err(refused.value.1)
            }
        }
    }

    /// Appends a fragment to the run that begins with a number and that it follows and fits.
    pub fn append(
        &mut self,
        alloc: Global,
        first: u64,
        number: u64,
        part: Part,
        bytes: &[u8],
    ) -> Result<(), AllocError>
        requires { IfSome (run_at first self.old) (λ y. fits y (single number part []) ≡ true) }
        ensures appended { OnOk result (self.new
            ≡ changed_run (λ y. joined y (single number part bytes.now)) first self.old) }
        ensures unchanged { OnErr result (self.new ≡ self.old) }
    {
        let whole = becomes_whole(&self.map, first, has_rear(part));
        mark_whole(&mut self.whole, self.indexed, first, whole)?;
        if append_at(&mut self.map, alloc, first, number, part, bytes).is_ok() {
            return Ok(());
        }
        self.whole.remove(&first);
        Err(AllocError)
    }

    /// Joins a fragment and the run after it to the run that it follows and fits.
    pub fn join(
        &mut self,
        alloc: Global,
        first: u64,
        later: u64,
        bytes: &[u8],
    ) -> Result<(), AllocError>
        requires apart { (first == later) ≡ false }
        requires open { IfSome (run_at first self.old) (λ y. is_whole y ≡ false) }
        requires there { IsSome (run_at later self.old) }
        ensures joined { OnOk result (IsSomeAnd (run_at later self.old) (λ z. self.new
            ≡ without_run later (changed_run (λ y. over y bytes.now z) first self.old))) }
        ensures unchanged { OnErr result (self.new ≡ self.old) }
    {
        let rear = has_rear_at(&self.map, later);
        let whole = becomes_whole(&self.map, first, rear);
        mark_whole(&mut self.whole, self.indexed, first, whole)?;
        if join_at(&mut self.map, alloc, first, later, bytes).is_ok() {
            self.whole.remove(&later);
            return Ok(());
        }
        self.whole.remove(&first);
        Err(AllocError)
    }

    /// Whether a run is whole.
    pub fn any_whole(&self) -> bool
        ensures { result ≡ is_some (first_of is_whole self.now) }
    {
        self.first_whole().is_some()
    }

    /// The number that the first run that is whole begins with.
    pub fn first_whole(&self) -> Option<u64>
        ensures { result ≡ option_map (λ y. y.first) (first_of is_whole self.now) }
    {
        if !self.indexed {
            return first_whole_in(&self.map);
        }
        match self.whole.first() {
            Some(first) => Some(*first),
            None => None,
        }
    }

    /// Takes out the first run that is whole.
    pub fn take_whole(&mut self) -> Option<HeldRun>
        ensures run { result ≡ first_of is_whole self.old }
        ensures rest { self.new ≡ without_first is_whole self.old }
    {
        if !self.indexed {
            return take_whole_in(&mut self.map);
        }
        let Some(first) = self.whole.pop_first() else {
            return None;
        };
        self.map.remove(&first)
    }
}

/// The number that the first run that is whole begins with.
fn first_whole_in(map: &BTreeMap<u64, HeldRun>) -> Option<u64>
    ensures { result ≡ option_map (λ y. y.first) (first_of is_whole (values_of map.now.entries)) }
{
    for run in map.values() {
        if run.is_whole() {
            return Some(run.first());
        }
    }
    None
}

/// Takes out the first run that is whole.
fn take_whole_in(map: &mut BTreeMap<u64, HeldRun>) -> Option<HeldRun>
    requires { IsKept false map.old.entries [] }
    ensures run { result ≡ first_of is_whole (values_of map.old.entries) }
    ensures rest { values_of map.new.entries ≡ without_first is_whole (values_of map.old.entries) }
    ensures kept { IsKept false map.new.entries [] }
{
    let Some(first) = first_whole_in(map) else {
        return None;
    };
    map.remove(&first)
}

/// Whether the run that begins with a number is whole with a rear like this.
fn becomes_whole(map: &BTreeMap<u64, HeldRun>, first: u64, rear: bool) -> bool
    ensures { result ≡ (front_of (get nat_cmp map.now first) && rear) }
{
    match map.get(&first) {
        Some(run) => run.has_front() && rear,
        None => false,
    }
}

/// Notes that the run which begins with a number is whole, where it is and where that is noted.
fn mark_whole(
    whole: &mut BTreeSet<u64>,
    indexed: bool,
    first: u64,
    is_whole: bool,
) -> Result<(), AllocError>
    ensures marked { OnOk result (whole.new.keys ≡ (if indexed && is_whole
        then insert_key nat_cmp whole.old.keys first else whole.old.keys)) }
    ensures unchanged { OnErr result (whole.new.keys ≡ whole.old.keys) }
{
    if indexed && is_whole {
        whole.insert(first)?;
    }
    Ok(())
}

/// Appends a fragment to the run that begins with a number.
fn append_at(
    map: &mut BTreeMap<u64, HeldRun>,
    alloc: Global,
    first: u64,
    number: u64,
    part: Part,
    bytes: &[u8],
) -> Result<(), AllocError>
    ensures appended { OnOk result (map.new.entries
        ≡ changed_entry (λ y. joined y (single number part bytes.now)) first map.old.entries) }
    ensures unchanged { OnErr result (map.new.entries ≡ map.old.entries) }
{
    match map.get_mut(&first) {
        Some(run) => run.append(alloc, number, part, bytes),
        None => Ok(()),
    }
}

/// Whether the run that begins with a number ends a message.
fn has_rear_at(map: &BTreeMap<u64, HeldRun>, first: u64) -> bool
    ensures { result ≡ rear_of (get nat_cmp map.now first) }
{
    match map.get(&first) {
        Some(run) => run.has_rear(),
        None => false,
    }
}

/// Takes out the run that begins with a number. A fragment without bytes stays there.
fn take_out_at(map: &mut BTreeMap<u64, HeldRun>, first: u64) -> Option<HeldRun>
    ensures run { result ≡ get nat_cmp map.old first }
    ensures left { map.new.entries ≡ changed_entry emptied first map.old.entries }
{
    match map.get_mut(&first) {
        Some(run) => Some(run.take_out()),
        None => None,
    }
}

/// Puts a run back where it was taken out.
fn put_back_at(map: &mut BTreeMap<u64, HeldRun>, first: u64, run: HeldRun)
    ensures { map.new.entries ≡ changed_entry (λ y. run) first map.old.entries }
{
    match map.get_mut(&first) {
        Some(left) => *left = run,
        None => {}
    }
}

/// Appends a fragment and a later run to the run that begins with a number.
fn append_both_at(
    map: &mut BTreeMap<u64, HeldRun>,
    alloc: Global,
    first: u64,
    bytes: &[u8],
    later: &mut HeldRun,
) -> Result<(), AllocError>
    ensures appended { OnOk result (map.new.entries
        ≡ changed_entry (λ y. over y bytes.now later.old) first map.old.entries) }
    ensures unchanged { OnErr result (map.new.entries ≡ map.old.entries) }
    ensures later { OnErr result (later.new ≡ later.old) }
{
    match map.get_mut(&first) {
        Some(run) => run.append_both(alloc, bytes, later),
        None => Ok(()),
    }
}

/// Joins a fragment and the run that begins with a later number to the run that begins with a
/// number.
fn join_at(
    map: &mut BTreeMap<u64, HeldRun>,
    alloc: Global,
    first: u64,
    later: u64,
    bytes: &[u8],
) -> Result<(), AllocError>
    requires apart { (first == later) ≡ false }
    requires there { IsSome (get nat_cmp map.old later) }
    ensures joined { OnOk result (IsSomeAnd (get nat_cmp map.old later) (λ z. map.new.entries
        ≡ remove_entry (is_at (nat_cmp later)) (changed_entry (λ y. over y bytes.now z) first
        map.old.entries))) }
    ensures ordered { OnOk result (IsOrdered nat_cmp map.new) }
    ensures unchanged { OnErr result (map.new.entries ≡ map.old.entries) }
{
    let Some(mut run) = take_out_at(map, later) else {
        return Err(AllocError);
    };
    match append_both_at(map, alloc, first, bytes, &mut run) {
        Ok(()) => {
            map.remove(&later);
            Ok(())
        }
        Err(refused) => {
            put_back_at(map, later, run);
            Err(refused)
        }
    }
}
