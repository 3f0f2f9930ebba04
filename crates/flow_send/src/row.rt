//! A number with its fragment.

ghost use Rattle.std.specs.Prelude.{◌≡◌, ◌+◌, ◌<◌, IfOk, true, false};
ghost use Rattle.flow_send.specs.Rows.{let_go, end_row, row_totals};
ghost use Rattle.flow_send.specs.Sender.{lost_if_late, is_late, give_up_row, is_spent_row};
ghost use Rattle.flow_send.specs.Sender.{fresh_row};
ghost use Rattle.flow_send.specs.Choice.{sent_row};
ghost use Rattle.flow_send.specs.Acks.{acknowledge_row, count_ack, is_third};
ghost use Rattle.flow_send.specs.Marks.{is_losing};

use crate::loss::Loss;
use crate::state::State;
use crate::totals::Totals;
use rtmfp_data_chunks::Part;
use std::alloc::{AllocError, Global};
use std::marker::Model;

/// A number above the forward number.
#[derive(Drop)]
pub struct HeldRow {
    ends: bool,
    part: Part,
    bytes: Vec<u8>,
    state: State,
    moment: u64,
    ordinal: u64,
    resends: u32,
    acks: u8,
}

impl Model for HeldRow {
    ghost use Rattle.flow_send.specs.Rows.{Row};

    ghost Value = { Row };

    ghost view = { λ r. record {
      ends = r.ends;
      fragment = record { part = r.part; bytes = r.bytes.items };
      state = r.state;
      moment = r.moment;
      ordinal = r.ordinal;
      resends = r.resends;
      acks = r.acks;
    } };
}

impl HeldRow {
    /// A fragment that was never sent.
    pub fn fragment(alloc: Global, part: Part, bytes: &[u8]) -> Result<HeldRow, AllocError>
        ensures { IfOk result (λ r. r ≡ fresh_row part bytes.now) }
    {
        Ok(HeldRow {
            ends: false,
            part,
            bytes: Vec::from_slice(alloc, bytes)?,
            state: State::Unsent,
            moment: 0,
            ordinal: 0,
            resends: 0,
            acks: 0,
        })
    }

    /// The number of finish.
    pub fn end(alloc: Global) -> HeldRow
        ensures { result ≡ end_row }
    {
        HeldRow {
            ends: true,
            part: Part::Whole,
            bytes: Vec::new(alloc),
            state: State::Unsent,
            moment: 0,
            ordinal: 0,
            resends: 0,
            acks: 0,
        }
    }

    pub fn ends(&self) -> bool
        ensures { result ≡ self.now.ends }
    {
        self.ends
    }

    pub fn part(&self) -> Part
        ensures { result ≡ self.now.fragment.part }
    {
        self.part
    }

    pub fn bytes(&self) -> &[u8]
        ensures { result.now ≡ self.now.fragment.bytes }
    {
        self.bytes.as_slice()
    }

    pub fn state(&self) -> State
        ensures { result ≡ self.now.state }
    {
        self.state
    }

    pub fn ordinal(&self) -> u64
        ensures { result ≡ self.now.ordinal }
    {
        self.ordinal
    }

    pub fn resends(&self) -> u32
        ensures { result ≡ self.now.resends }
    {
        self.resends
    }

    /// What it gives to the sums.
    pub fn totals(&self) -> Totals
        ensures { result ≡ row_totals self.now }
    {
        let stored = self.bytes.len() as u64;
        let flies = self.state == State::Flying;
        Totals {
            flight: if flies { stored } else { 0 },
            flying: if flies { 1 } else { 0 },
            stored,
            lost: if self.state == State::Lost { 1 } else { 0 },
        }
    }

    /// Settles it and lets its bytes go.
    fn let_go(&mut self, state: State)
        ensures { self.new ≡ let_go state self.old }
    {
        let alloc = *self.bytes.allocator();
        self.bytes = Vec::new(alloc);
        self.state = state;
    }

    /// Abandons it, unless it is acknowledged.
    pub fn give_up(&mut self)
        ensures { self.new ≡ give_up_row self.old }
    {
        if self.state != State::Acknowledged {
            self.let_go(State::Abandoned);
        }
    }

    pub fn acknowledge(&mut self)
        ensures { self.new ≡ acknowledge_row self.old }
    {
        if self.state != State::Acknowledged {
            self.let_go(State::Acknowledged);
        }
    }

    /// It is sent, again where it was lost.
    pub fn send(&mut self, moment: u64, ordinal: u64)
        ensures { self.new ≡ sent_row moment ordinal self.old }
    {
        if self.state == State::Lost {
            self.resends = self.resends.saturating_add(1);
        }
        self.state = State::Flying;
        self.moment = moment;
        self.ordinal = ordinal;
        self.acks = 0;
    }

    /// Whether it is in flight and its resend time has passed.
    pub fn is_late(&self, moment: u64, resend_after: u64) -> bool
        ensures { result ≡ is_late moment resend_after self.now }
    {
        self.state == State::Flying && self.moment <= moment && resend_after <= moment - self.moment
    }

    pub fn lose_if_late(&mut self, moment: u64, resend_after: u64)
        ensures { self.new ≡ lost_if_late moment resend_after self.old }
    {
        if self.is_late(moment, resend_after) {
            self.state = State::Lost;
        }
    }

    /// Whether it is lost and was sent again as often as a limit allows.
    pub fn is_spent(&self, limit: u32) -> bool
        ensures { result ≡ is_spent_row limit self.now }
    {
        self.state == State::Lost && limit <= self.resends
    }

    /// Whether an ack that newly acknowledges the sending with an ordinal makes it lost, by being
    /// the third.
    pub fn is_third(&self, ordinal: u64) -> bool
        ensures { result ≡ is_third ordinal self.now }
    {
        self.state == State::Flying && self.ordinal < ordinal && 2 <= self.acks
    }

    /// Whether it will be lost.
    pub fn is_losing(&self, loss: Loss) -> bool
        ensures { result ≡ is_losing loss self.now }
    {
        match loss {
            Loss::Late {
                moment,
                resend_after,
            } => self.is_late(moment, resend_after),
            Loss::Third { ordinal } => self.is_third(ordinal),
        }
    }

    /// Counts an ack that newly acknowledges the sending with an ordinal.
    pub fn count_ack(&mut self, ordinal: u64)
        ensures { self.new ≡ count_ack ordinal self.old }
    {
        if self.state == State::Flying && self.ordinal < ordinal {
            if self.acks < 2 {
                self.acks += 1;
            } else {
                self.state = State::Lost;
            }
        }
    }
}
