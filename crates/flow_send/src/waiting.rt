//! A message that waits to be acknowledged.

ghost use Rattle.std.specs.Prelude.{◌≡◌, ◌+◌, ◌-◌, ◌<◌, ◌≤◌, ◌^◌, length, false, None, nat_lt};
ghost use Rattle.flow_send.specs.Sender.{is_past, is_spent, is_overdue, give_up};
ghost use Rattle.flow_send.specs.Acks.{still_waits};
ghost use Rattle.flow_send.specs.Messages.{touches};
ghost use Rattle.flow_send.specs.Marks.{is_reached};
ghost use Rattle.flow_send.specs.Deadlines.{IsNotBefore};
ghost use Rattle.flow_send.specs.Rows.{map_rows};

use crate::rows::Rows;

/// How long a message is sent.
#[derive(Clone, Copy, Debug, PartialEq, Eq)]
pub struct MessageOptions {
    /// The moment in milliseconds after which the message is abandoned.
    pub deadline: Option<u64>,
    /// How often a lost fragment of it is sent again at most.
    pub resends: Option<u32>,
}

/// A message that is neither abandoned nor wholly acknowledged.
#[derive(Clone, Copy, Debug, PartialEq, Eq)]
pub struct Waiting {
    /// The number of its first fragment.
    pub number: u64,
    /// How many fragments it has.
    pub count: u64,
    /// How many bytes it has.
    pub size: u64,
    pub options: MessageOptions,
}

impl Waiting {
    /// Where its rows begin, above a forward number.
    fn from(&self, forward: u64) -> usize
        ensures { result ≡ self.now.number - (forward + 1) }
    {
        self.number.saturating_sub(forward).saturating_sub(1) as usize
    }

    /// Where they end.
    fn to(&self, forward: u64) -> usize
        requires { self.now.number + self.now.count - (forward + 1) < 2 ^ 64 }
        ensures { result ≡ self.now.number + self.now.count - (forward + 1) }
    {
        let end = u128::from(self.number) + u128::from(self.count);
        end.saturating_sub(u128::from(forward) + 1) as usize
    }

    /// Whether one of its numbers isn't settled.
    pub fn waits(&self, rows: &mut Rows, forward: u64) -> bool
        requires { self.now.number + self.now.count ≤ forward + 1 + length rows.old.rows }
        ensures waits { result ≡ still_waits (forward + 1) rows.old.rows self.now }
        ensures same { rows.new ≡ rows.old }
    {
        // Read for the prover alone: so many rows fit a `usize`.
        let _all = rows.len();
        rows.waits(self.from(forward), self.to(forward))
    }

    /// Whether it has one of the numbers between two.
    pub fn touches(&self, low: u64, high: u64) -> bool
        ensures { result ≡ touches low high self.now }
    {
        self.number <= high && u128::from(low) < u128::from(self.number) + u128::from(self.count)
    }

    /// Whether it has a number behind one, or lies behind it.
    pub fn passes(&self, number: u64) -> bool
        ensures { result ≡ nat_lt number (self.now.number + self.now.count) }
    {
        u128::from(number) < u128::from(self.number) + u128::from(self.count)
    }

    /// Abandons those of its numbers that aren't acknowledged.
    pub fn give_up(&self, rows: &mut Rows, forward: u64)
        requires { self.now.number + self.now.count ≤ forward + 1 + length rows.old.rows }
        ensures rows { rows.new.rows ≡ map_rows (give_up self.now) (forward + 1) rows.old.rows }
        ensures room { rows.new.room ≡ rows.old.room }
    {
        // Read for the prover alone: so many rows fit a `usize`.
        let _all = rows.len();
        rows.give_up(self.from(forward), self.to(forward));
    }

    /// Whether its deadline is passed, or a lost fragment of it was sent again as often as its
    /// limit allows.
    pub fn is_overdue(&self, rows: &Rows, forward: u64, moment: u64) -> bool
        requires { self.now.number + self.now.count ≤ forward + 1 + length rows.now.rows }
        ensures { result ≡ is_overdue moment (forward + 1) rows.now.rows self.now }
    {
        self.is_past(moment) || self.is_spent(rows, forward)
    }

    /// Its deadline, or the last moment where it has none.
    pub fn latest(&self) -> u64
        ensures { IsNotBefore result self.now.options.deadline }
    {
        self.options.deadline.unwrap_or(u64::MAX)
    }

    /// Whether it has a limit of resends.
    pub fn is_limited(&self) -> bool
        ensures { result ≡ false → self.now.options.resends ≡ None }
    {
        self.options.resends.is_some()
    }

    /// Whether so many resends are as many as its limit allows.
    pub fn is_reached(&self, resends: u32) -> bool
        ensures { result ≡ is_reached self.now.options.resends resends }
    {
        match self.options.resends {
            Some(limit) => limit <= resends,
            None => false,
        }
    }

    fn is_past(&self, moment: u64) -> bool
        ensures { result ≡ is_past self.now.options.deadline moment }
    {
        match self.options.deadline {
            Some(deadline) => deadline < moment,
            None => false,
        }
    }

    fn is_spent(&self, rows: &Rows, forward: u64) -> bool
        requires { self.now.number + self.now.count ≤ forward + 1 + length rows.now.rows }
        ensures { result ≡ is_spent self.now.options.resends self.now (forward + 1) rows.now.rows }
    {
        // Read for the prover alone: so many rows fit a `usize`.
        let _all = rows.len();
        match self.options.resends {
            Some(limit) => rows.is_spent(self.from(forward), self.to(forward), limit),
            None => false,
        }
    }
}
