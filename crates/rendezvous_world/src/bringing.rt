//! Steps that bring a datagram to an end.

ghost use Rattle.std.specs.Prelude.{◌≡◌, ◌<◌, ◌≤◌, ◌^◌, IfOk, IfSome, Some, false, length, take, true};
ghost use Rattle.std.specs.List.{list_any};
ghost use Rattle.endpoint_laws.specs.Laws.{AreBytes};
ghost use Rattle.rendezvous_world.specs.Datagrams.{nth};
ghost use Rattle.rendezvous_world.specs.Entering.{bringing, IsBringing, IsDone, IsFetched, IsFetchedFor};
ghost use Rattle.rendezvous_world.specs.Faults.{is_forged_by, is_sent};
ghost use Rattle.rendezvous_world.specs.Inside.{sent_found};
ghost use Rattle.rendezvous_world.specs.Seen.{generation_at};
ghost use Rattle.rendezvous_world.specs.Sent.{sent_in};
ghost use Rattle.rendezvous_world.specs.Sound.{AreBelow};

use crate::forgery::{PLAIN_AT, forge};
use crate::sent::{Letter, find};
use crate::step::{Source, Step, StepFault};
use crate::world::World;
use crypto_profile::Context;
use rtmfp_base::limits::{PLAIN, SENT, TAKEN};
use rtmfp_base::{Memory, Message};
use rtmfp_forms::Address;
use std::alloc::Global;

/// A sent datagram, for an end that it is brought to.
#[derive(Clone, Copy)]
pub(crate) enum Fetched {
    /// It isn't there.
    Missing,
    /// It is forged.
    Forged,
    /// It isn't, and has this many bytes.
    Sent(usize),
}

/// A copy of a datagram.
fn keep(alloc: Global, datagram: &[u8]) -> Result<Message, Memory>
    ensures kept { IfOk result (λ message. message ≡ datagram.now) }
    ensures bytes { AreBytes datagram.now }
{
    Message::copy_of(alloc, datagram)
}

/// Copies a datagram to the front of a buffer, in which it fits, and tells its length.
fn copy_front(datagram: &[u8], room: &mut [u8]) -> usize
    requires { length datagram.now ≤ length room.old }
    ensures size { result ≡ length datagram.now }
    ensures front { take (length datagram.now) room.new ≡ datagram.now }
    ensures room { length room.new ≡ length room.old }
{
    let (front, _) = room.split_at_mut(datagram.len());
    front.copy_from_slice(datagram);
    datagram.len()
}

impl World {
    /// The datagram that was sent as this one, counted from 1.
    pub(crate) fn letter(&self, number: u64) -> Option<Letter<'_>>
        ensures letter { sent_found result ≡ nth (sent_in self.now.lines) number }
        ensures short { IfSome result (λ letter. length letter.datagram.now ≤ 1200) }
    {
        find(
            self.journal.lines(),
            &self.starts,
            &self.lines_of,
            u128::from(number),
        )
    }

    /// Copies a sent datagram to the front of a buffer, in which each fits, and tells its length.
    fn fetch(&self, number: u64, room: &mut [u8]) -> Option<usize>
        requires { length room.old ≡ 1200 }
        ensures { IsFetched (nth (sent_in self.now.lines) number) result room.new }
    {
        match self.letter(number) {
            None => None,
            Some(letter) => Some(copy_front(letter.datagram, room)),
        }
    }

    /// The same for an end that it is brought to, where it isn't forged.
    fn fetch_for(&self, end: usize, number: u64, room: &mut [u8]) -> Fetched
        requires there { end < length self.now.ends }
        requires room { length room.old ≡ 1200 }
        ensures { IsFetchedFor self.now end (nth (sent_in self.now.lines) number) result
            room.new }
    {
        match self.letter(number) {
            None => Fetched::Missing,
            Some(letter) => {
                if self.is_forged(end, letter.datagram, letter.context) {
                    return Fetched::Forged;
                }
                Fetched::Sent(copy_front(letter.datagram, room))
            }
        }
    }

    /// Whether a datagram that was sent in a context is forged at an end. It isn't where its
    /// session ID names this context there, whatever its tag; only of others the tag is computed.
    fn is_forged(&self, end: usize, bytes: &[u8], context: &Context) -> bool
        requires there { end < length self.now.ends }
        requires short { length bytes.now ≤ 2048 }
        requires sent { list_any (is_sent bytes.now context.now) (sent_in self.now.lines) ≡ true }
        ensures { result ≡ is_forged_by self.now end (Some bytes.now) }
    {
        let there = &self.ends[end];
        if there.endpoint.names(bytes, context) {
            return false;
        }
        self.is_unsent(end, bytes)
    }

    /// Whether a datagram opens at an end in some context, in which it wasn't sent.
    fn is_unsent(&self, end: usize, bytes: &[u8]) -> bool
        requires there { end < length self.now.ends }
        requires short { length bytes.now ≤ 2048 }
        ensures { result ≡ is_forged_by self.now end (Some bytes.now) }
    {
        let there = &self.ends[end];
        match there.endpoint.opens_in(bytes) {
            None => false,
            Some(context) => !self.was_sent(bytes, &context),
        }
    }

    /// The current generation of the group's secret at an end.
    fn generation_at(&self, end: usize) -> u64
        requires { end < length self.now.ends }
        ensures { result ≡ generation_at self.now.ends end }
    {
        let there = &self.ends[end];
        there.endpoint.generation()
    }

    /// Brings a datagram to an end, if it isn't forged.
    fn bring(
        &mut self,
        line: u64,
        end: usize,
        step: &Step,
        bytes: &mut [u8],
    ) -> Result<(), StepFault>
        requires { IsBringing self.old line end step.now bytes.old }
        ensures { IsDone self.old line step.now result self.new }
    {
        self.note_keys();
        if self.is_unsent(end, bytes) {
            return Err(StepFault::Forged);
        }
        self.bring_unforged(line, end, step, bytes)
    }

    /// Brings a datagram to an end, which isn't forged.
    fn bring_unforged(
        &mut self,
        line: u64,
        end: usize,
        step: &Step,
        bytes: &mut [u8],
    ) -> Result<(), StepFault>
        requires bringing { IsBringing self.old line end step.now bytes.old }
        requires unforged { is_forged_by self.old end (Some bytes.old) ≡ false }
        ensures { IsDone self.old line step.now result self.new }
    {
        let datagram = match keep(self.alloc(), bytes) {
            Ok(datagram) => datagram,
            Err(_) => return Err(StepFault::Memory),
        };
        self.enter(line, end, end, step, Some(datagram), bytes)
    }

    /// Brings a datagram to an end, as it is had.
    pub(crate) fn bring_by(
        &mut self,
        line: u64,
        end: usize,
        from: &Address,
        source: &Source<'_>,
        step: &Step,
    ) -> Result<(), StepFault>
        requires above { AreBelow self.old.lines line }
        requires fits { line < 2 ^ 32 }
        requires step { step.now ≡ bringing end from.now source.now }
        ensures { IsDone self.old line step.now result self.new }
    {
        match source {
            Source::Delivered(number) => self.deliver(line, step, *number, end, from),
            Source::Turned(number, place) => self.bend(line, step, *number, *place, end, from),
            Source::Injected(bytes) => self.inject(line, step, end, from, bytes),
            Source::Sealed(plain) => self.forge(line, step, end, from, plain),
        }
    }

    /// Brings a sent datagram to an end.
    fn deliver(
        &mut self,
        line: u64,
        step: &Step,
        number: u64,
        end: usize,
        from: &Address,
    ) -> Result<(), StepFault>
        requires above { AreBelow self.old.lines line }
        requires fits { line < 2 ^ 32 }
        requires step { step.now ≡ Step.Deliver number end from.now }
        ensures { IsDone self.old line (Step.Deliver number end from.now) result self.new }
    {
        if self.lacks(end) {
            return Err(StepFault::NoEnd);
        }
        let mut room = [0; SENT];
        let length = match self.fetch_for(end, number, &mut room) {
            Fetched::Missing => return Err(StepFault::NoDatagram),
            Fetched::Forged => return Err(StepFault::Forged),
            Fetched::Sent(length) => length,
        };
        let (bytes, _) = room.split_at_mut(length);
        self.bring_unforged(line, end, step, bytes)
    }

    /// Brings a sent datagram with one bit turned to an end.
    fn bend(
        &mut self,
        line: u64,
        step: &Step,
        number: u64,
        place: usize,
        end: usize,
        from: &Address,
    ) -> Result<(), StepFault>
        requires above { AreBelow self.old.lines line }
        requires fits { line < 2 ^ 32 }
        requires step { step.now ≡ Step.Bent number place end from.now }
        ensures { IsDone self.old line (Step.Bent number place end from.now) result self.new }
    {
        if self.lacks(end) {
            return Err(StepFault::NoEnd);
        }
        let mut room = [0; SENT];
        let length = match self.fetch(number, &mut room) {
            Some(length) => length,
            None => return Err(StepFault::NoDatagram),
        };
        if place >= length {
            return Err(StepFault::NoDatagram);
        }
        let (bytes, _) = room.split_at_mut(length);
        bytes[place] ^= 1;
        self.bring(line, end, step, bytes)
    }

    /// Brings bytes to an end.
    fn inject(
        &mut self,
        line: u64,
        step: &Step,
        end: usize,
        from: &Address,
        bytes: &Message,
    ) -> Result<(), StepFault>
        requires above { AreBelow self.old.lines line }
        requires fits { line < 2 ^ 32 }
        requires step { step.now ≡ Step.Inject end from.now bytes.now }
        ensures { IsDone self.old line (Step.Inject end from.now bytes.now) result self.new }
    {
        if self.lacks(end) {
            return Err(StepFault::NoEnd);
        }
        if bytes.len() > TAKEN {
            return Err(StepFault::BadStep);
        }
        let mut room = [0; TAKEN];
        let (datagram, _) = room.split_at_mut(bytes.len());
        datagram.copy_from_slice(bytes.bytes());
        self.bring(line, end, step, datagram)
    }

    /// Brings a plain packet to an end, sealed by somebody who is no end.
    fn forge(
        &mut self,
        line: u64,
        step: &Step,
        end: usize,
        from: &Address,
        plain: &Message,
    ) -> Result<(), StepFault>
        requires above { AreBelow self.old.lines line }
        requires fits { line < 2 ^ 32 }
        requires step { step.now ≡ Step.Forge end from.now plain.now }
        ensures { IsDone self.old line (Step.Forge end from.now plain.now) result self.new }
    {
        if self.lacks(end) {
            return Err(StepFault::NoEnd);
        }
        if plain.len() > PLAIN {
            return Err(StepFault::BadStep);
        }
        let mut room = [0; TAKEN];
        let (datagram, _) = room.split_at_mut(PLAIN_AT + plain.len());
        let generation = self.generation_at(end);
        forge(datagram, generation, plain.bytes());
        self.bring(line, end, step, datagram)
    }
}
