//! Spawners in memory: children whose ends are told before.
ghost use Rattle.std.specs.Prelude.{◌≡◌, ◌↔◌, IsTrue, [], Some, None, map, string_bytes};
ghost use Rattle.std.specs.Option.{option_map};
ghost use Rattle.rtmfp_host.specs.Faults.{CountsBegun, CountsRan};
ghost use Rattle.rtmfp_host.specs.Spawning.{Starts, Waits, IsStarted, Appended, IsBelow, status_after};
ghost use Rattle.std.specs.List.{All};
ghost use Rattle.rtmfp_host.specs.Ends.{end_at};

use crate::child_end::copy_end;
use crate::plan::Plan;
use crate::spawner::first_status;
use crate::word_list::WordList;
use crate::{Begun, ChildEnd, Ran, SpawnCall, Spawner};
use rtmfp_base::{Memory, Message};
use std::alloc::Global;

/// How children end, and the starts and waits that were made. The first child that is started ends
/// as the first of the list, and so on; one that has no place in the list ends with status 0 and no
/// text. It never fails: its count of faults is 0. It tells the calls for as long as there was
/// memory to keep them all.
#[derive(Drop)]
pub struct MemorySpawner {
    alloc: Global,
    ends: Vec<ChildEnd>,
    started: u32,
    calls: Vec<SpawnCall>,
    whole: bool,
    status: Option<i32>,
    ghost numbered: { All (IsBelow started) calls.items },
}

impl MemorySpawner {
    ghost use Rattle.rtmfp_host.specs.Children.{spawner_calls, spawner_ends, spawner_status, next_child};

    /// A spawner whose children end so.
    pub fn new(alloc: Global, ends: Vec<ChildEnd>) -> MemorySpawner
        ensures calls { spawner_calls result ≡ Some [] }
        ensures ends { spawner_ends result ≡ ends.items }
        ensures next { next_child result ≡ 0 }
        ensures status { spawner_status result ≡ None }
    {
        MemorySpawner {
            alloc,
            ends,
            started: 0,
            calls: Vec::new(alloc),
            whole: true,
            status: None,
        }
    }

    /// The starts and waits that were made; none where there was no memory to keep them.
    pub fn calls(&self) -> Option<&[SpawnCall]>
        ensures { option_map (λ calls. calls.now) result ≡ spawner_calls self.now }
    {
        if self.whole {
            Some(self.calls.as_slice())
        } else {
            None
        }
    }

    /// Keeps a start, where there is memory for it.
    fn note_start(&mut self, words: &[String], child: Option<u32>)
        requires { IsBelow (next_child self.old)
            (SpawnCall.Start (map string_bytes words.now) child) }
        ensures calls { Appended (spawner_calls self.old) (spawner_calls self.new)
            (SpawnCall.Start (map string_bytes words.now) child) }
        ensures ends { spawner_ends self.new ≡ spawner_ends self.old }
        ensures next { next_child self.new ≡ next_child self.old }
        ensures status { spawner_status self.new ≡ spawner_status self.old }
    {
        match WordList::copy_of(self.alloc, words) {
            Ok(words) => {
                let call = SpawnCall::Start { words, child };
                self.whole = self.whole && self.calls.push(call).is_ok();
            }
            Err(_) => self.whole = false,
        }
    }

    /// Keeps a wait, where there is memory for it.
    fn note_wait(&mut self, child: u32, status: i32, text: &[u8])
        ensures calls { Appended (spawner_calls self.old) (spawner_calls self.new)
            (SpawnCall.Wait child status text.now) }
        ensures ends { spawner_ends self.new ≡ spawner_ends self.old }
        ensures next { next_child self.new ≡ next_child self.old }
        ensures status { spawner_status self.new ≡ spawner_status self.old }
    {
        match Message::copy_of(self.alloc, text) {
            Ok(text) => {
                let call = SpawnCall::Wait {
                    child,
                    status,
                    text,
                };
                self.whole = self.whole && self.calls.push(call).is_ok();
            }
            Err(_) => self.whole = false,
        }
    }
}

impl Spawner for MemorySpawner {
    ghost use Rattle.rtmfp_host.specs.Children.{spawner_calls, spawner_ends, spawner_seen, spawner_status, next_child, Gives, Numbers};

    ghost seen = { spawner_seen };

    fn start(&mut self, words: &[String]) -> Begun
        ensures call { Starts (spawner_calls self.old) (spawner_calls self.new)
            (map string_bytes words.now) result }
        ensures status { spawner_status self.new ≡ spawner_status self.old }
        ensures faults { CountsBegun result 0 0 }

        // The children's numbers are 0, 1, 2 and so on.
        ensures number { Numbers result (next_child self.old) (next_child self.new) }
        ensures ends { spawner_ends self.new ≡ spawner_ends self.old }
    {
        if self.started == u32::MAX {
            self.note_start(words, None);
            return Begun::Memory;
        }
        let child = self.started;
        self.started += 1;
        self.note_start(words, Some(child));
        Begun::Child(child)
    }

    fn wait(&mut self, child: u32) -> Ran
        requires { IsStarted (spawner_calls self.old) child }
        ensures call { Waits (spawner_calls self.old) (spawner_calls self.new) child result }
        ensures status { spawner_status self.new ≡ status_after (spawner_status self.old) result }
        ensures faults { CountsRan result 0 0 }

        // The child's own end is given.
        ensures gives { Gives result (end_at child (spawner_ends self.old)) }
        ensures number { next_child self.new ≡ next_child self.old }
        ensures ends { spawner_ends self.new ≡ spawner_ends self.old }
    {
        match copy_end(self.alloc, &self.ends, child) {
            Ok(end) => {
                self.status = first_status(self.status, end.status);
                self.note_wait(child, end.status, end.text.bytes());
                Ran::Ended {
                    status: end.status,
                    text: end.text,
                }
            }
            Err(Memory) => Ran::Memory,
        }
    }
}

/// A spawner in memory with two lists of calls that are to fail, each counted from 1: one of starts
/// and one of waits. A start that fails stands among the calls and takes no number.
#[derive(Drop)]
pub struct FaultySpawner {
    spawner: MemorySpawner,
    starts: Plan,
    waits: Plan,
    faults: u64,
}

impl FaultySpawner {
    ghost use Rattle.rtmfp_host.specs.Children.{spawner_calls, spawner_ends, spawner_status, faulty_spawner_calls, faulty_spawner_ends, faulty_spawner_status, start_plan, wait_plan, spawner_faults};

    /// A spawner whose children end as those of `spawner`, and whose starts and waits with these
    /// numbers fail.
    pub fn new(spawner: MemorySpawner, starts: Vec<u64>, waits: Vec<u64>) -> FaultySpawner
        ensures calls { faulty_spawner_calls result ≡ spawner_calls spawner }
        ensures ends { faulty_spawner_ends result ≡ spawner_ends spawner }
        ensures status { faulty_spawner_status result ≡ spawner_status spawner }
        ensures starts { start_plan result ≡ record { failing = starts.items; calls = 0 } }
        ensures waits { wait_plan result ≡ record { failing = waits.items; calls = 0 } }
        ensures faults { spawner_faults result ≡ 0 }
    {
        FaultySpawner {
            spawner,
            starts: Plan::new(starts),
            waits: Plan::new(waits),
            faults: 0,
        }
    }

    /// The starts and waits that were made; none where there was no memory to keep them.
    pub fn calls(&self) -> Option<&[SpawnCall]>
        ensures { option_map (λ calls. calls.now) result ≡ faulty_spawner_calls self.now }
    {
        self.spawner.calls()
    }
}

impl Spawner for FaultySpawner {
    ghost use Rattle.rtmfp_host.specs.Children.{faulty_spawner_calls, faulty_spawner_ends, faulty_spawner_seen, faulty_spawner_status, start_plan, wait_plan, spawner_faults, GivesUnless};
    ghost use Rattle.rtmfp_host.specs.Plan.{fails_now, after_call};

    ghost seen = { faulty_spawner_seen };

    fn start(&mut self, words: &[String]) -> Begun
        ensures call { Starts (faulty_spawner_calls self.old) (faulty_spawner_calls self.new)
            (map string_bytes words.now) result }
        ensures status { faulty_spawner_status self.new ≡ faulty_spawner_status self.old }
        ensures faults { CountsBegun result (spawner_faults self.old) (spawner_faults self.new) }

        // It fails exactly where it was to.
        ensures fails { (result ≡ Begun.Failed) ↔ IsTrue (fails_now (start_plan self.old)) }
        ensures starts { start_plan self.new ≡ after_call (start_plan self.old) }
        ensures waits { wait_plan self.new ≡ wait_plan self.old }
        ensures ends { faulty_spawner_ends self.new ≡ faulty_spawner_ends self.old }
    {
        if self.starts.next_fails() {
            self.faults = self.faults.saturating_add(1);
            self.spawner.note_start(words, None);
            return Begun::Failed;
        }
        self.spawner.start(words)
    }

    fn wait(&mut self, child: u32) -> Ran
        requires { IsStarted (faulty_spawner_calls self.old) child }
        ensures call { Waits (faulty_spawner_calls self.old) (faulty_spawner_calls self.new) child
            result }
        ensures status { faulty_spawner_status self.new ≡
            status_after (faulty_spawner_status self.old) result }
        ensures faults { CountsRan result (spawner_faults self.old) (spawner_faults self.new) }

        // It fails exactly where it was to, and else gives the child's own end.
        ensures fails { (result ≡ Ran.Failed) ↔ IsTrue (fails_now (wait_plan self.old)) }
        ensures gives { GivesUnless result (end_at child (faulty_spawner_ends self.old)) }
        ensures starts { start_plan self.new ≡ start_plan self.old }
        ensures waits { wait_plan self.new ≡ after_call (wait_plan self.old) }
        ensures ends { faulty_spawner_ends self.new ≡ faulty_spawner_ends self.old }
    {
        if self.waits.next_fails() {
            self.faults = self.faults.saturating_add(1);
            return Ran::Failed;
        }
        self.spawner.wait(child)
    }
}
