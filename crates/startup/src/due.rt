//! What time makes due of the attempts.

ghost use Rattle.std.specs.Prelude.{◌≡◌};
ghost use Rattle.startup.specs.Due.{due_by};

use crate::answer::Due;
use crate::attempt::Change;
use crate::rows::{end_at, is_over};
use crate::sending::repeat_of;
use crate::startup::Startup;
use glare_core::{Fact, Why};

/// What is done at an end with this fact: without one it is that of a search.
fn due_by(near: u32, end: Option<Fact>) -> Due
    ensures { result ≡ due_by near end }
{
    match end {
        Some(fact) => Due::Ended(fact),
        None => Due::Unsought(near),
    }
}

impl Startup {
    ghost use Rattle.std.specs.Prelude.{◌≡◌, ◌<◌, IfSome};
    ghost use Rattle.startup.specs.Due.{due, after_due, due_count};

    /// Tells that a moment has come, so that `due` and `due_sends` find at once what is due then,
    /// however much it is. It changes nothing that contracts see, and takes no memory.
    pub fn advance(&mut self, moment: u64)
        ensures { self.new ≡ self.old }
    {
        self.attempts.advance(moment);
    }

    /// The first thing that is due at this moment, by rising near id: an attempt ends 95,000 ms
    /// after its start, and before that it repeats what it sends. A search is given up 95,000 ms
    /// after it began, and before that it repeats its hellos. None exactly where nothing is due. It
    /// takes no memory.
    ///
    /// A keying is repeated in the generation of its attempt, which the attempt keeps hashed. What
    /// is given isn't due any more at this moment, so calls until None give all that is.
    pub fn due(&mut self, moment: u64) -> Option<Due>
        ensures due { result ≡ due self.old moment }
        ensures after { self.new ≡ after_due self.old moment }
        ensures falls { IfSome result (λ _. due_count moment self.new < due_count moment self.old) }
    {
        let Some(found) = self.attempts.due(moment) else {
            return None;
        };
        let near = found.near;
        if is_over(found.attempt, moment) {
            let end = end_at(&mut self.peers, &mut self.attempts, near, Why::Expired);
            return Some(due_by(near, end));
        }
        let repeat = repeat_of(near, found.attempt, &self.cert);
        self.attempts.change(near, &Change::Repeated, moment);
        Some(repeat)
    }
}
