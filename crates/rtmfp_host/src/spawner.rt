//! Programs that are started and waited for.
ghost use Rattle.std.specs.Prelude.{◌≡◌, map, string_bytes};
ghost use Rattle.rtmfp_host.specs.Faults.{CountsBegun, CountsRan};
ghost use Rattle.rtmfp_host.specs.Spawning.{SpawnerSeen, Starts, Waits, IsStarted, kept_status, status_after};

use crate::word_list::WordList;
use rtmfp_base::Message;

/// What one start did.
#[derive(Clone, Copy, Debug, PartialEq, Eq)]
pub enum Begun {
    /// The child of this number was started.
    Child(u32),
    /// The outside failed, and its count of faults has risen.
    Failed,
    /// There was no memory for it.
    Memory,
}

/// What one wait gave.
#[derive(Drop)]
pub enum Ran {
    /// The child has ended.
    Ended {
        /// Its exit status.
        status: i32,
        /// What it wrote.
        text: Message,
    },
    /// The outside failed, and its count of faults has risen.
    Failed,
    /// There was no memory for its text.
    Memory,
}

/// A call of a spawner.
#[derive(Drop)]
pub enum SpawnCall {
    /// A start.
    Start {
        /// The words.
        words: WordList,
        /// The child that it gave, where it gave one.
        child: Option<u32>,
    },
    /// A wait that gave a child's end.
    Wait {
        /// The child.
        child: u32,
        /// Its exit status.
        status: i32,
        /// What it wrote.
        text: Message,
    },
}

/// What starts programs (own). Which program it starts is its own; the words are what follows the
/// program's name.
pub trait Spawner {
    /// The starts and the waits of it, where it tells them; the first status other than 0 that a
    /// wait gave; and how often it has failed, a count that stands still at the end of a `u64`. A
    /// spawner that has told may stop telling; it doesn't begin again.
    ghost seen: { Self → SpawnerSeen };

    /// Starts a child with these words. Where it tells, no earlier start gave the same number.
    fn start(&mut self, words: &[String]) -> Begun
        ensures call { Starts (seen self.old).calls (seen self.new).calls
            (map string_bytes words.now) result }
        ensures status { (seen self.new).status ≡ (seen self.old).status }
        ensures faults { CountsBegun result (seen self.old).faults (seen self.new).faults };

    /// Waits until a child has ended. Where it tells, an earlier start gave this child.
    fn wait(&mut self, child: u32) -> Ran
        requires { IsStarted (seen self.old).calls child }
        ensures call { Waits (seen self.old).calls (seen self.new).calls child result }
        ensures status { (seen self.new).status ≡ status_after (seen self.old).status result }
        ensures faults { CountsRan result (seen self.old).faults (seen self.new).faults };
}

/// The first status other than 0, with this one.
pub fn first_status(kept: Option<i32>, status: i32) -> Option<i32>
    ensures { result ≡ kept_status kept status }
{
    if kept.is_some() || status == 0 {
        return kept;
    }
    Some(status)
}
