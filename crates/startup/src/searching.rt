//! Searches: attempts towards each end whose certificate has a name (own). The end that answers
//! first is the peer of the attempt that a search becomes.

ghost use Rattle.std.specs.Prelude.{◌≡◌, ◌≢◌, ◌≤◌, length, None, IfOk, OnErr};
ghost use Rattle.std.specs.FinMap.{get};
ghost use Rattle.startup.specs.Attempts.{after_seek, after_unseek, has_search, seek_spread};

use crate::aim::Aim;
use crate::answer::Spread;
use crate::attempt::{Attempt, Stage};
use crate::candidates::{Candidates, distinct_candidates};
use crate::sending::hello_spread;
use crate::startup::Startup;
use identity::ServiceName;
use rtmfp_base::Memory;
use rtmfp_forms::Address;

impl Startup {
    /// Begins a search for ends whose certificate has the name, under a near id that isn't 0 and
    /// that no attempt or search has, with 1 to 16 candidate addresses; candidates at the same place
    /// count once.
    ///
    /// It gives the hello for all candidates, in order. Nothing is started or counted by it. Where
    /// there is no memory for it, all is as before.
    pub fn seek(
        &mut self,
        name: &ServiceName,
        candidates: &[Address],
        near: u32,
        ni: [u8; 16],
        tag: [u8; 16],
        moment: u64,
    ) -> Result<Spread, Memory>
        requires some { 1 ≤ length candidates.now }
        requires few { length candidates.now ≤ 16 }
        requires near { near ≢ 0 }
        requires free { get self.old.attempts near ≡ None }
        ensures spread { IfOk result (λ spread. spread
            ≡ seek_spread name.now candidates.now ni tag moment) }
        ensures after { IfOk result (λ _. self.new
            ≡ after_seek self.old name.now candidates.now near ni tag moment) }
        ensures err { OnErr result (self.new ≡ self.old) }
    {
        match self.attempts.reserve() {
            Ok(()) => {}
            Err(Memory) => return Err(Memory),
        }
        let Candidates { to, count } = distinct_candidates(candidates);
        let search = Attempt {
            aim: Aim::ByName { name: *name },
            ni,
            tag,
            start: moment,
            candidates: to,
            count,
            stage: Stage::Hello,
            last: moment,
            gap: 0,
        };
        let spread = hello_spread(&search);
        self.attempts.keep(near, search);
        Ok(spread)
    }

    /// Gives up the search with this near id; false exactly where no search has it, and then all is
    /// as before. It takes no memory.
    pub fn unseek(&mut self, near: u32) -> bool
        ensures found { result ≡ has_search self.old near }
        ensures after { self.new ≡ after_unseek self.old near }
    {
        if !self.has_search(near) {
            return false;
        }
        self.attempts.forget(near);
        true
    }

    /// Whether a search has this near id.
    pub fn has_search(&self, near: u32) -> bool
        ensures { result ≡ has_search self.now near }
    {
        match self.attempts.get(near) {
            Some(attempt) => attempt.aim.is_search(),
            None => false,
        }
    }
}
