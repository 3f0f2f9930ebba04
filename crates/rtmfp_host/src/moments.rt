//! The clock.
ghost use Rattle.std.specs.Prelude.{Option};
ghost use Rattle.rtmfp_host.specs.Ticking.{Clock, Ticks};

/// A clock (own). It has no fault.
pub trait Moments {
    /// The moments that it has still to give and the last one that it gave, where it tells them. A
    /// clock that has told may stop telling; it doesn't begin again.
    ghost seen: { Self → Option Clock };

    /// The moment, in milliseconds.
    fn now(&mut self) -> u64
        ensures { Ticks (seen self.old) (seen self.new) result };
}
