//! What is known of the messages of a session that wait without a look at each.

ghost use Rattle.std.specs.Prelude.{◌≡◌};
ghost use Rattle.session_flows.specs.Bound.{bound_at, bound_with, may_pass, no_bound};

use flow_send::MessageOptions;

/// Of the messages that wait.
#[derive(Clone, Copy, Debug, PartialEq, Eq)]
pub struct Bound {
    /// None has a deadline before this moment.
    pub soonest: u64,
    /// Whether one may have a limit of resends.
    pub limited: bool,
}

impl Bound {
    /// Where none waits.
    pub fn new() -> Bound
        ensures { result ≡ no_bound }
    {
        Bound {
            soonest: u64::MAX,
            limited: false,
        }
    }

    /// Where none that waits is overdue at a moment, and none has a limit.
    pub fn at(moment: u64) -> Bound
        ensures { result ≡ bound_at moment }
    {
        Bound {
            soonest: moment,
            limited: false,
        }
    }

    /// With one more message.
    pub fn with(self, options: MessageOptions) -> Bound
        ensures { result ≡ bound_with self options }
    {
        let soonest = match options.deadline {
            Some(deadline) => self.soonest.min(deadline),
            None => self.soonest,
        };
        Bound {
            soonest,
            limited: self.limited || options.resends.is_some(),
        }
    }

    /// Whether the deadline or the limit of one may be passed.
    pub fn may_pass(self, moment: u64) -> bool
        ensures { result ≡ may_pass self moment }
    {
        self.limited || self.soonest < moment
    }
}
