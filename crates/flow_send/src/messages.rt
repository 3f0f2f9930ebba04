//! The messages that wait, by the number that each begins with.

ghost use Rattle.std.specs.Prelude.{◌≡◌, ◌+◌, ◌<◌, ◌∷◌, ◌++◌, [], OnOk, OnErr, length, slice_get};
ghost use Rattle.flow_send.specs.Sender.{message_at, without_message, first_number};
ghost use Rattle.flow_send.specs.Messages.{IsFirstFrom, InLine, Reaches};
ghost use Rattle.flow_send.specs.Steady.{Line};

use crate::slots::{Slot, behind, found, lengthen, next, place, slot_at, start, trim_back};
use crate::waiting::Waiting;
use std::alloc::{AllocError, Global};
use std::collections::VecDeque;
use std::marker::Model;

/// The messages that wait. Contracts see them by rising number. One that is taken out from among
/// others leaves its slot, so that none is moved; slots at the front are taken away with what was
/// before them. So what is done at an end takes few steps, a search the logarithm of the slots.
#[derive(Drop)]
pub struct Messages {
    slots: VecDeque<Slot>,
    waiting: usize,
    /// How many slots were taken away at the front.
    taken: usize,
    /// Where a message was taken out last. The next search is often near it.
    near: usize,
}

impl Model for Messages {
    ghost use Rattle.std.specs.Prelude.{◌≡◌, List, length};
    ghost use Rattle.flow_send.specs.declared.waiting.Waiting.{Waiting};
    ghost use Rattle.flow_send.specs.Slots.{waiting_in, IsLine};

    ghost Value = { List Waiting };

    ghost view = { λ m. waiting_in m.slots.items };

    ghost invariant = { λ m. IsLine m.slots.items × (m.waiting ≡ length (waiting_in m.slots.items)) };
}

impl Messages {
    pub fn new(alloc: Global) -> Messages
        ensures { result ≡ [] }
    {
        Messages {
            slots: VecDeque::new(alloc),
            waiting: 0,
            taken: 0,
            near: 0,
        }
    }

    pub fn len(&self) -> usize
        ensures { result ≡ length self.now }
    {
        self.waiting
    }

    /// The message that begins at a number.
    pub fn at(&self, number: u64) -> Option<Waiting>
        ensures { result ≡ message_at number self.now }
    {
        found(&self.slots, place(&self.slots, number, self.near), number)
    }

    /// The first message.
    pub fn front(&self) -> Option<Waiting>
        ensures { result ≡ slice_get self.now 0 }
    {
        next(&self.slots, 0)
    }

    /// The number of the first message.
    pub fn first(&self) -> Option<u64>
        ensures { result ≡ first_number self.now }
    {
        match next(&self.slots, 0) {
            Some(message) => Some(message.number),
            None => None,
        }
    }

    /// The number of the first message that begins from a number on.
    pub fn from(&self, number: u64) -> Option<u64>
        ensures { IsFirstFrom number self.now result }
    {
        match next(&self.slots, place(&self.slots, number, self.near)) {
            Some(message) => Some(message.number),
            None => None,
        }
    }

    /// The number of the first message that begins after a number.
    pub fn after(&self, number: u64) -> Option<u64>
        ensures { IsFirstFrom (number + 1) self.now result }
    {
        let at = behind(&self.slots, place(&self.slots, number, self.near), number);
        match next(&self.slots, at) {
            Some(message) => Some(message.number),
            None => None,
        }
    }

    /// Where a walk begins that looks at the messages from a number on, and at the one directly
    /// before it.
    pub fn reaching(&self, low: u64) -> Option<u64>
        requires { InLine 0 self.now }
        ensures { Reaches low self.now result }
    {
        let place = place(&self.slots, low, self.near);
        match next(&self.slots, start(&self.slots, place, low)) {
            Some(message) => Some(message.number),
            None => None,
        }
    }

    /// Adds a message behind the others.
    pub fn push(&mut self, message: Waiting) -> Result<(), AllocError>
        requires last { Line 0 message.number self.old }
        requires some { 0 < message.count }
        ensures pushed { OnOk result (self.new ≡ self.old ++ message ∷ []) }
        ensures err { OnErr result (self.new ≡ self.old) }
    {
        trim_back(&mut self.slots);
        self.slots.push_back(Slot { message, gone: 0 })?;
        self.waiting += 1;
        Ok(())
    }

    /// Takes out the message that begins at a number.
    pub fn remove(&mut self, number: u64) -> Option<Waiting>
        ensures message { result ≡ message_at number self.old }
        ensures rest { self.new ≡ without_message number self.old }
    {
        let at = place(&self.slots, number, self.near);
        let Some(message) = found(&self.slots, at, number) else {
            return None;
        };
        self.slots[at] = Slot { message, gone: 1 };
        self.waiting -= 1;
        self.near = at;
        self.tidy(at);
        Some(message)
    }

    /// After the one at an index waits no more.
    fn tidy(&mut self, at: usize)
        ensures { self.new ≡ self.old }
    {
        if at == 0 {
            self.trim_front();
            return;
        }
        self.join(at);
    }

    /// Takes away the slots at the front that wait no more.
    fn trim_front(&mut self)
        ensures { self.new ≡ self.old }
    {
        while let Some(front) = slot_at(&self.slots, 0) {
            if front.gone == 0 {
                return;
            }
            let _ = self.slots.pop_front();
            self.taken = self.taken.wrapping_add(1);
        }
    }

    /// Of each stretch around a slot that wait no more, where it is as long as a power of two and
    /// begins at a multiple of that, the first one tells all. So from any slot on the next message
    /// that waits is few steps away.
    fn join(&mut self, at: usize)
        ensures { self.new ≡ self.old }
    {
        let slot = self.taken.wrapping_add(at);
        let mut half: usize = 1;
        while half < self.slots.len() {
            let back = slot % half.saturating_mul(2);
            if back > at || !lengthen(&mut self.slots, at - back, half) {
                return;
            }
            half = half.saturating_mul(2);
        }
    }
}
