//! The machine's clock.
ghost use Rattle.std.specs.Prelude.{None};

use rtmfp_host::Moments;
use std::time::Clock;

/// The clock that never goes back, from a start of its own. Where it can't be read it stands still.
#[derive(Drop)]
pub struct SystemClock<C: Clock + Drop> {
    clock: C,
    last: u64,
}

impl<C: Clock + Drop> SystemClock<C> {
    /// The moments of a clock.
    pub fn new(clock: C) -> SystemClock<C> {
        SystemClock { clock, last: 0 }
    }
}

impl<C: Clock + Drop> Moments for SystemClock<C> {
    ghost seen = { λ _. None };

    fn now(&mut self) -> u64 {
        if let Some(moment) = read_clock(&self.clock) {
            self.last = self.last.max(moment);
        }
        self.last
    }
}

/// The milliseconds that a clock shows.
pub(crate) fn read_clock(clock: &impl Clock) -> Option<u64> {
    match clock.monotonic() {
        Ok(time) => u64::try_from(time.as_millis()).ok(),
        Err(_) => None,
    }
}
