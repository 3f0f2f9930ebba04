//! Which calls of an object in memory are to fail.
ghost use Rattle.std.specs.Prelude.{◌≡◌, ◌==◌};
ghost use Rattle.std.specs.List.{list_any};

use std::marker::Model;

/// The calls that are to fail, counted from 1, and how many there were.
#[derive(Drop)]
pub(crate) struct Plan {
    failing: Vec<u64>,
    calls: u64,
}

impl Model for Plan {
    ghost use Rattle.rtmfp_host.specs.Plan.{Planned};

    ghost Value = { Planned };

    ghost view = { λ p. record { failing = p.failing.items; calls = p.calls } };
}

impl Plan {
    ghost use Rattle.rtmfp_host.specs.Plan.{fails_now, after_call};

    pub(crate) fn new(failing: Vec<u64>) -> Plan
        ensures { result ≡ record { failing = failing.items; calls = 0 } }
    {
        Plan { failing, calls: 0 }
    }

    /// Counts a call, and tells whether it is to fail.
    pub(crate) fn next_fails(&mut self) -> bool
        ensures fails { result ≡ fails_now self.old }
        ensures after { self.new ≡ after_call self.old }
    {
        self.calls = self.calls.saturating_add(1);
        is_among(&self.failing, self.calls)
    }
}

fn is_among(numbers: &[u64], number: u64) -> bool
    ensures { result ≡ list_any (λ n. n == number) numbers.now }
{
    numbers.contains(&number)
}
