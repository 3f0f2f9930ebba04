//! Sums over the rows of a flow.

ghost use Rattle.std.specs.Prelude.{◌≡◌, ◌+◌, ◌-◌, ◌<◌};
ghost use Rattle.flow_send.specs.Moved.{moved, IsWithin, Fit};

/// The bytes and the number of rows in flight, the bytes that all rows hold, and how many rows are
/// lost.
#[derive(Clone, Copy, Debug, PartialEq, Eq)]
pub struct Totals {
    pub flight: u64,
    pub flying: u64,
    pub stored: u64,
    pub lost: u64,
}

impl Totals {
    pub const NONE: Totals = Totals {
        flight: 0,
        flying: 0,
        stored: 0,
        lost: 0,
    };

    /// The sums with those of one row in exchange for what it gave before.
    pub fn moved(self, before: Totals, after: Totals) -> Totals
        requires within { IsWithin before self }
        requires fits { Fit (moved self before after) }
        ensures { result ≡ moved self before after }
    {
        Totals {
            flight: self.flight - before.flight + after.flight,
            flying: self.flying - before.flying + after.flying,
            stored: self.stored - before.stored + after.stored,
            lost: self.lost - before.lost + after.lost,
        }
    }
}
