//! Links in memory.
ghost use Rattle.std.specs.Prelude.{◌≡◌, ◌≤◌, ◌↔◌, IsTrue, [], length, Some};
ghost use Rattle.std.specs.List.{All};
ghost use Rattle.std.specs.Option.{option_map};
ghost use Rattle.rtmfp_host.specs.Faults.{CountsBound, CountsGot, CountsSent};
ghost use Rattle.rtmfp_host.specs.Linking.{Calls, Receives, Fits, IsShortGiven, given_by, is_done};

use crate::plan::Plan;
use crate::{Bound, Given, Got, Link, LinkCall, Sent};
use rtmfp_base::Message;
use rtmfp_forms::Address;
use std::alloc::Global;

/// Datagrams and quiets in memory, and the calls that were made. It never fails: its two counts are
/// 0. It tells what it holds for as long as there was memory to keep all calls.
#[derive(Drop)]
pub struct MemoryLink {
    alloc: Global,
    left: Vec<Given>,
    at: usize,
    calls: Vec<LinkCall>,
    whole: bool,
    ghost within: { at ≤ length left.items },
    ghost short: { All IsShortGiven left.items },
}

impl MemoryLink {
    ghost use Rattle.rtmfp_host.specs.InMemory.{link_line, link_calls};

    /// A link that gives these places, of which no datagram is longer than 2,048 bytes.
    pub fn new(alloc: Global, left: Vec<Given>) -> MemoryLink
        requires { All IsShortGiven left.items }
        ensures { link_line result ≡ Some (record { left = left.items; calls = [] }) }
    {
        MemoryLink {
            alloc,
            left,
            at: 0,
            calls: Vec::new(alloc),
            whole: true,
        }
    }

    /// The calls that were made; none where there was no memory to keep them.
    pub fn calls(&self) -> Option<&[LinkCall]>
        ensures { option_map (λ calls. calls.now) result ≡ link_calls self.now }
    {
        if self.whole {
            Some(self.calls.as_slice())
        } else {
            None
        }
    }

    /// Keeps a call, where there is memory for it.
    fn note(&mut self, call: LinkCall)
        ensures { Calls (link_line self.old) (link_line self.new) call }
    {
        self.whole = self.whole && self.calls.push(call).is_ok();
    }

    /// Keeps a send, where there is memory for it.
    fn note_send(&mut self, to: &Address, bytes: &[u8], done: bool)
        ensures { Calls (link_line self.old) (link_line self.new)
            (LinkCall.Send to.now bytes.now done) }
    {
        match Message::copy_of(self.alloc, bytes) {
            Ok(bytes) => self.note(LinkCall::Send {
                to: *to,
                bytes,
                done,
            }),
            Err(_) => self.whole = false,
        }
    }
}

impl Link for MemoryLink {
    ghost use Rattle.rtmfp_host.specs.InMemory.{link_seen};

    ghost seen = { link_seen };

    fn bind(&mut self, at: &Address) -> Bound {
        self.note(LinkCall::Bind { at: *at });
        Bound::Done
    }

    fn receive(&mut self, until: u64, buf: &mut [u8; 2048]) -> Got {
        self.note(LinkCall::Receive { until });
        match self.left.get(self.at) {
            Some(Given::Datagram { from, bytes }) => {
                let length = bytes.len();
                buf[..length].copy_from_slice(bytes.bytes());
                self.at += 1;
                Got::Datagram {
                    from: *from,
                    length,
                }
            }
            Some(Given::Quiet) => {
                self.at += 1;
                Got::Quiet
            }
            None => Got::Quiet,
        }
    }

    fn send(&mut self, to: &Address, bytes: &[u8]) -> Sent {
        self.note_send(to, bytes, true);
        Sent::Done
    }
}

/// A link in memory with two lists of calls that are to fail, each counted from 1: one of binds and
/// receives together, and one of sends. A call that fails stands among the calls; a receive that
/// fails takes no place.
#[derive(Drop)]
pub struct FaultyLink {
    link: MemoryLink,
    failing: Plan,
    losing: Plan,
    faults: u64,
    losses: u64,
}

impl FaultyLink {
    ghost use Rattle.rtmfp_host.specs.InMemory.{link_line, link_calls, faulty_link_line, faulty_link_calls, link_plan, loss_plan, link_faults, link_losses};

    /// A link that gives what `link` gives, and whose calls with these numbers fail.
    pub fn new(link: MemoryLink, failing: Vec<u64>, losing: Vec<u64>) -> FaultyLink
        ensures line { faulty_link_line result ≡ link_line link }
        ensures failing { link_plan result ≡ record { failing = failing.items; calls = 0 } }
        ensures losing { loss_plan result ≡ record { failing = losing.items; calls = 0 } }
        ensures faults { link_faults result ≡ 0 }
        ensures losses { link_losses result ≡ 0 }
    {
        FaultyLink {
            link,
            failing: Plan::new(failing),
            losing: Plan::new(losing),
            faults: 0,
            losses: 0,
        }
    }

    /// The calls that were made; none where there was no memory to keep them.
    pub fn calls(&self) -> Option<&[LinkCall]>
        ensures { option_map (λ calls. calls.now) result ≡ faulty_link_calls self.now }
    {
        self.link.calls()
    }
}

impl Link for FaultyLink {
    ghost use Rattle.rtmfp_host.specs.InMemory.{faulty_link_line, faulty_link_seen, link_plan, loss_plan, link_faults, link_losses};
    ghost use Rattle.rtmfp_host.specs.Plan.{fails_now, after_call};

    ghost seen = { faulty_link_seen };

    fn bind(&mut self, at: &Address) -> Bound
        ensures call { Calls (faulty_link_line self.old) (faulty_link_line self.new)
            (LinkCall.Bind at.now) }
        ensures faults { CountsBound result (link_faults self.old) (link_faults self.new) }
        ensures losses { link_losses self.new ≡ link_losses self.old }

        // It fails exactly where it was to.
        ensures fails { (result ≡ Bound.Failed) ↔ IsTrue (fails_now (link_plan self.old)) }
        ensures failing { link_plan self.new ≡ after_call (link_plan self.old) }
        ensures losing { loss_plan self.new ≡ loss_plan self.old }
    {
        if self.failing.next_fails() {
            self.faults = self.faults.saturating_add(1);
            self.link.note(LinkCall::Bind { at: *at });
            return Bound::Failed;
        }
        self.link.bind(at)
    }

    fn receive(&mut self, until: u64, buf: &mut [u8; 2048]) -> Got
        ensures call { Receives (faulty_link_line self.old) (faulty_link_line self.new) until
            (given_by result buf.new) }
        ensures fits { Fits result }
        ensures faults { CountsGot result (link_faults self.old) (link_faults self.new) }
        ensures losses { link_losses self.new ≡ link_losses self.old }

        // It fails exactly where it was to.
        ensures fails { (result ≡ Got.Failed) ↔ IsTrue (fails_now (link_plan self.old)) }
        ensures failing { link_plan self.new ≡ after_call (link_plan self.old) }
        ensures losing { loss_plan self.new ≡ loss_plan self.old }
    {
        if self.failing.next_fails() {
            self.faults = self.faults.saturating_add(1);
            self.link.note(LinkCall::Receive { until });
            return Got::Failed;
        }
        self.link.receive(until, buf)
    }

    fn send(&mut self, to: &Address, bytes: &[u8]) -> Sent
        ensures call { Calls (faulty_link_line self.old) (faulty_link_line self.new)
            (LinkCall.Send to.now bytes.now (is_done result)) }
        ensures faults { link_faults self.new ≡ link_faults self.old }
        ensures losses { CountsSent result (link_losses self.old) (link_losses self.new) }

        // It fails exactly where it was to.
        ensures fails { (result ≡ Sent.Failed) ↔ IsTrue (fails_now (loss_plan self.old)) }
        ensures failing { link_plan self.new ≡ link_plan self.old }
        ensures losing { loss_plan self.new ≡ after_call (loss_plan self.old) }
    {
        if self.losing.next_fails() {
            self.losses = self.losses.saturating_add(1);
            self.link.note_send(to, bytes, false);
            return Sent::Failed;
        }
        self.link.send(to, bytes)
    }
}
