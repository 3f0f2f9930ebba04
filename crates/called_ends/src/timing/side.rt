//! An end, and its calls timed.

use crate::timing::calls::{Call, Kind, cert_of, draws, place_of, word_of};
use crate::timing::datagrams::{COOKIE_SECRET, GENERATION, GROUP};
use endpoint::{Config, Endpoint, Entry, MessageOptions, Outbox};
use identity::{Certificate, ServiceName};
use std::alloc::Global;
use std::time::CpuClock;

/// All is done at this moment, but for what comes with time.
const MOMENT: u64 = 0;

/// A moment at which what was sent at first is lost, before any keepalive.
const LOST: u64 = 9_000;

/// One at which a half-open session ends that was born at first.
const UNCONFIRMED: u64 = 20_000;

/// One at which an attempt expires that was opened at first.
const EXPIRED: u64 = 95_000;

/// An end, and what its last call added.
#[derive(Drop)]
pub struct Side {
    end: Endpoint,
    out: Outbox,
}

/// What calls of one kind added, and how long they took.
#[derive(Clone, Copy)]
pub struct Taken {
    pub calls: usize,
    pub entries: usize,
    pub discards: usize,
    pub nanos: u128,
}

impl Side {
    /// The end with number 0.
    pub fn new(alloc: Global) -> Option<Side> {
        let Ok(cert) = Certificate::read(&cert_of(0)) else {
            return None;
        };
        let Ok(out) = Outbox::new(alloc, 8) else {
            return None;
        };
        let end = end_of(alloc, cert, GROUP, COOKIE_SECRET);
        Some(Side { end, out })
    }

    /// Makes calls, and takes the time.
    pub fn make_all(&mut self, clock: &impl CpuClock, calls: &mut [Call]) -> Taken {
        let start = now(clock);
        let mut entries = 0_usize;
        let mut discards = 0_usize;
        for call in calls.iter_mut() {
            self.make(call);
            entries = entries.saturating_add(self.out.entries().len());
            discards = discards.saturating_add(discards_in(self.out.entries()));
        }
        Taken {
            calls: calls.len(),
            entries,
            discards,
            nanos: now(clock).saturating_sub(start),
        }
    }

    fn make(&mut self, call: &mut Call) {
        self.out.clear();
        match call.kind {
            Kind::Open => self.open(call),
            Kind::Seek => self.seek(call.number),
            Kind::Tick | Kind::SendAll => self.tick(MOMENT),
            Kind::LoseAll => self.tick(LOST),
            Kind::EndAll => self.tick(UNCONFIRMED),
            Kind::ExpireAll => self.tick(EXPIRED),
            Kind::Flow => self.open_flow(call.number),
            Kind::Queue => self.queue(call.number),
            Kind::Send => {
                self.queue(call.number);
                self.tick(MOMENT)
            }
            Kind::Cancel => self.cancel(call.number),
            Kind::Unseek => self.unseek(call.number),
            Kind::Close => self.close(call.number),
            _ => self.take(call.number, call.datagram.as_mut_slice()),
        }
    }

    fn open(&mut self, call: &Call) {
        let at = [place_of(call.number)];
        let drawn = draws(call.number);
        let _ = self.end.open(&call.epd, &at, MOMENT, &drawn, &mut self.out);
    }

    fn seek(&mut self, number: u32) {
        let cert = cert_of(number);
        let (_, name) = cert.split_at(16);
        let Some(name) = ServiceName::read(name) else {
            return;
        };
        let at = [place_of(number)];
        let drawn = draws(number);
        let _ = self.end.seek(&name, &at, MOMENT, &drawn, &mut self.out);
    }

    fn unseek(&mut self, number: u32) {
        let _ = self.end.unseek(word_of(number), &mut self.out);
    }

    fn tick(&mut self, moment: u64) {
        let _ = self.end.tick(moment, &draws(0), &mut self.out);
    }

    fn open_flow(&mut self, number: u32) {
        let near = word_of(number);
        let _ = self.end.open_flow(near, 0, &[], None, &mut self.out);
    }

    fn queue(&mut self, number: u32) {
        let near = word_of(number);
        let options = MessageOptions {
            deadline: None,
            resends: None,
        };
        let _ = self.end.queue(near, 0, &[0x61], options, &mut self.out);
    }

    fn cancel(&mut self, number: u32) {
        let _ = self.end.cancel(u64::from(number), &mut self.out);
    }

    fn close(&mut self, number: u32) {
        let _ = self.end.close(word_of(number), MOMENT, &mut self.out);
    }

    fn take(&mut self, number: u32, datagram: &mut [u8]) {
        if datagram.len() > 2048 {
            return;
        }
        let from = place_of(number);
        let drawn = draws(number);
        let _ = self
            .end
            .receive(from, MOMENT, datagram, &drawn, &mut self.out);
    }
}

/// An end with this certificate and secrets, and room for many others.
fn end_of(alloc: Global, cert: Certificate, secret: [u8; 32], cookie_secret: [u8; 32]) -> Endpoint {
    let config = Config {
        max_peers: 200_000,
        max_sessions: 65_536,
        introduces: false,
    };
    Endpoint::new(alloc, config, cert, GENERATION, secret, cookie_secret)
}

/// How many of these entries are discards.
fn discards_in(entries: &[Entry]) -> usize {
    let mut count = 0_usize;
    for entry in entries {
        if let Entry::Discard { .. } = entry {
            count = count.saturating_add(1);
        }
    }
    count
}

/// The nanoseconds that the processor has worked.
fn now(clock: &impl CpuClock) -> u128 {
    match clock.process_cpu_time() {
        Ok(time) => time.as_nanos(),
        Err(_) => 0,
    }
}
