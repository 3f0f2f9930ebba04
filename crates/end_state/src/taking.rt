//! What a datagram leaves at the place where it was opened, and how one is discarded.

ghost use Rattle.std.specs.Prelude.{◌≡◌, ◌<◌, ◌≤◌, ◌^◌, IsOk, OnErr, OnOk, length, true};
ghost use Rattle.std.specs.FinMap.{get};
ghost use Rattle.endpoint_model.specs.Admission.{confirming, confirming_by, confirms, confirms_by};
ghost use Rattle.endpoint_model.specs.Admission.{counted_at, counted_by, timed_at, timed_by};
ghost use Rattle.endpoint_model.specs.Effects.{discarded};
ghost use Rattle.endpoint_model.specs.State.{Done, nothing};
ghost use Rattle.end_state.specs.Steps.{Gives};

use crate::end_state::EndState;
use crate::outbox::{Outbox, fact_entry};
use endpoint_model::{Entry, Place};
use rtmfp_base::Cause;
use rtmfp_packet::PacketHead;
use std::alloc::AllocError;

impl EndState {
    /// Takes the number of a sealed part that was opened at a place.
    pub fn count(&mut self, place: Place, part: &[u8])
        requires { 32 ≤ length part.now }
        ensures { self.new ≡ counted_at self.old place part.now }
    {
        match place {
            Place::Startup { .. } => {}
            Place::Attempt { .. } => {}
            Place::Session(near) => self.count_in(near, part),
        }
    }

    fn count_in(&mut self, near: u32, part: &[u8])
        requires { 32 ≤ length part.now }
        ensures { self.new ≡ counted_by self.old near part.now (get self.old.sessions near) }
    {
        self.sessions.take_number(near, part);
    }

    /// Counts a datagram with this head as taken at a place.
    pub fn time(&mut self, place: Place, head: &PacketHead)
        ensures { self.new ≡ timed_at self.old place head.now }
    {
        match place {
            Place::Startup { .. } => {}
            Place::Attempt { .. } => {}
            Place::Session(near) => self.time_in(near, head),
        }
    }

    fn time_in(&mut self, near: u32, head: &PacketHead)
        ensures { self.new ≡ timed_by self.old near head.now (get self.old.sessions near) }
    {
        self.sessions.take_stamps(near, head, self.moment);
    }

    /// Whether a datagram at a place confirms a session.
    pub fn confirms(&self, place: Place) -> bool
        ensures { result ≡ confirms self.now place }
    {
        match place {
            Place::Startup { .. } => false,
            Place::Attempt { .. } => false,
            Place::Session(near) => self.confirms_in(near),
        }
    }

    fn confirms_in(&self, near: u32) -> bool
        ensures { result ≡ confirms_by (get self.now.sessions near) }
    {
        match self.sessions.row(near) {
            Some(row) => row.session.is_half_open(),
            None => false,
        }
    }

    /// Confirms the session at a place, where it is half-open, and gives the entry that tells it
    /// then.
    pub fn confirm(&mut self, place: Place) -> Option<Entry>
        ensures { Gives (confirming self.old place) self.new result }
    {
        match place {
            Place::Startup { .. } => None,
            Place::Attempt { .. } => None,
            Place::Session(near) => {
                if self.confirms_in(near) {
                    self.confirm_in(near)
                } else {
                    None
                }
            }
        }
    }

    fn confirm_in(&mut self, near: u32) -> Option<Entry>
        requires { confirms_by (get self.old.sessions near) ≡ true }
        ensures { Gives (confirming_by self.old near (get self.old.sessions near)) self.new result }
    {
        match self.sessions.row(near) {
            Some(row) => {
                let peer = row.session.joined().peer;
                self.sessions.confirm(near);
                let fact = self.startup.confirm(&peer);
                fact_entry(fact)
            }
            None => None,
        }
    }

    /// Discards a chunk, or at place 0 a whole datagram.
    pub fn discard(&mut self, at: usize, cause: Cause, out: &mut Outbox) -> Result<(), AllocError>
        requires { at < 2 ^ 32 }
        ensures ok { OnOk result (Done (discarded self.old at cause) self.new out.old out.new) }
        ensures err { OnErr result (Done (nothing self.old) self.new out.old out.new) }
        ensures enough { 0 < out.old.free → IsOk result }
    {
        out.make_room(1)?;
        out.add(Entry::Discard {
            place: at as u32,
            cause,
        });
        Ok(())
    }
}
