//! What an end asks before it changes anything. No call here takes memory.

ghost use Rattle.std.specs.Prelude.{◌≡◌, ◌<◌, ◌^◌, is_some, option_copied};
ghost use Rattle.std.specs.FinMap.{contains_key, len};
ghost use Rattle.startup.specs.Due.{due_sends, sends};
ghost use Rattle.startup.specs.Attempts.{cancel_fact, secret_in, secret_of};

use crate::attempt::{Attempt, Stage};
use crate::rows::{Sought, is_over};
use crate::startup::Startup;
use crypto_profile::Generation;

impl Startup {
    /// How many attempts there are, searches among them.
    pub fn attempts(&self) -> usize
        ensures value { result ≡ len self.now.attempts }
        ensures small { result < 2 ^ 63 }
    {
        self.attempts.count()
    }

    /// Whether an attempt or a search has this near id.
    pub fn has_attempt(&self, near: u32) -> bool
        ensures { result ≡ contains_key self.now.attempts near }
    {
        self.attempts.get(near).is_some()
    }

    /// Whether an attempt has this number, which `cancel` would give up.
    pub fn has_number(&self, n: u64) -> bool
        ensures { result ≡ is_some (cancel_fact self.now n) }
    {
        self.attempts.find(&Sought::Number(n)).is_some()
    }

    /// The generation of the attempt in the keying stage with this near id, which was hashed before
    /// the attempt was answered; None exactly where there is none.
    pub fn secret_of(&self, near: u32) -> Option<&Generation>
        ensures { option_copied result ≡ secret_of self.now near }
    {
        match self.attempts.get(near) {
            Some(attempt) => secret_in(&attempt.stage),
            None => None,
        }
    }

    /// How many datagrams the first thing sends that `due` would give; None exactly where nothing
    /// is due.
    pub fn due_sends(&self, moment: u64) -> Option<usize>
        ensures { result ≡ due_sends self.now moment }
    {
        match self.attempts.due(moment) {
            Some(found) => Some(sends(found.attempt, moment)),
            None => None,
        }
    }
}

/// The generation that an attempt keeps in the keying stage.
fn secret_in(stage: &Stage) -> Option<&Generation>
    ensures { option_copied result ≡ secret_in stage.now }
{
    match stage {
        Stage::Hello => None,
        Stage::Keying { under, .. } => Some(under),
    }
}

/// How many datagrams are sent for an attempt that is due.
fn sends(attempt: &Attempt, moment: u64) -> usize
    ensures { result ≡ sends moment attempt.now }
{
    if is_over(attempt, moment) {
        return 0;
    }
    match &attempt.stage {
        Stage::Hello => attempt.addresses().len(),
        Stage::Keying { .. } => 1,
    }
}
