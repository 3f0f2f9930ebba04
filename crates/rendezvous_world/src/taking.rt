//! Steps that bring no datagram.

ghost use Rattle.std.specs.Prelude.{◌≡◌, ◌<◌, ◌^◌, ◌||◌, length, map, nat_le};
ghost use Rattle.std.specs.List.{list_any};
ghost use Rattle.identity.specs.Certificates.{IsCertificate};
ghost use Rattle.sha2.specs.Sha256.{sha256};
ghost use Rattle.rendezvous_world.specs.Deed.{deed_of};
ghost use Rattle.rendezvous_world.specs.Entering.{IsCallOf, IsDone};
ghost use Rattle.rendezvous_world.specs.Faults.{is_missing, is_outside, lacks_peer};
ghost use Rattle.rendezvous_world.specs.History.{peer_or};
ghost use Rattle.rendezvous_world.specs.Inside.{named_of};
ghost use Rattle.rendezvous_world.specs.Sound.{AreBelow};
ghost use Rattle.rtmfp_text.specs.Names.{is_like as is_like_named};

use crate::end::End;
use crate::entering::put;
use crate::step::{Step, StepFault};
use crate::world::World;
use counted_secrets::counted_secret;
use endpoint::{Config, Endpoint};
use identity::Certificate;
use rtmfp_base::limits::{PEERS, SESSIONS};
use rtmfp_text::{Name, Named};
use std::alloc::Global;

/// The number of the generation with which every end begins (own).
pub(crate) const FIRST_GENERATION: u64 = 0;

/// The most ends of a world (own).
const MOST_ENDS: usize = 1024;

/// Whether a limit is outside its own limits.
fn is_outside(most: u32, count: u32) -> bool
    ensures { result ≡ is_outside most count }
{
    count == 0 || most < count
}

/// The fingerprint of a certificate.
fn certified_print(cert: &Certificate) -> [u8; 32]
    ensures print { result ≡ sha256 cert.now }
    ensures form { IsCertificate cert.now }
{
    // Read for the prover alone, which has from it what form the bytes have.
    let _bytes = cert.bytes();
    cert.print()
}

/// The number of the peer that a call names, or of the end itself.
fn peer_or(end: usize, peer: Option<usize>) -> usize
    ensures { result ≡ peer_or end peer }
{
    match peer {
        None => end,
        Some(peer) => peer,
    }
}

impl World {
    /// Whether a new end is outside its limits, or like another.
    fn is_bad_end(&self, name: &Name, print: &[u8; 32], max_peers: u32, max_sessions: u32) -> bool
        ensures { result ≡ (list_any (is_like_named name.now print.now) (map named_of self.now.ends)
            || nat_le 1024 (length self.now.ends) || is_outside 1048576 max_peers
            || is_outside 65536 max_sessions) }
    {
        self.named().has_like(name, print)
            || self.count() >= MOST_ENDS
            || is_outside(PEERS, max_peers)
            || is_outside(SESSIONS, max_sessions)
    }

    /// How many ends there are.
    fn count(&self) -> usize
        ensures { result ≡ length self.now.ends }
    {
        self.ends.len()
    }

    /// Adds an end.
    pub(crate) fn add_end(
        &mut self,
        line: u64,
        name: &Name,
        max_peers: u32,
        max_sessions: u32,
        cert: &Certificate,
    ) -> Result<(), StepFault>
        ensures { IsDone self.old line (Step.End name.now max_peers max_sessions cert.now) result
            self.new }
    {
        let print = certified_print(cert);
        if self.is_bad_end(name, &print, max_peers, max_sessions) {
            return Err(StepFault::BadStep);
        }
        if self.ends.reserve(1).is_err() {
            return Err(StepFault::Memory);
        }
        let named = Named {
            print,
            name: name.again(),
        };
        let Ok(()) = self.named.push(named) else {
            return Err(StepFault::Memory);
        };
        let config = Config {
            max_peers,
            max_sessions,
            introduces: false,
        };
        put(
            &mut self.ends,
            End {
                name: name.again(),
                config,
                cert: *cert,
                endpoint: Endpoint::new(
                    self.alloc,
                    config,
                    *cert,
                    FIRST_GENERATION,
                    counted_secret(FIRST_GENERATION),
                    print,
                ),
            },
        );
        Ok(())
    }

    /// Sets the moment of all ends.
    pub(crate) fn set_moment(&mut self, line: u64, moment: u64) -> Result<(), StepFault>
        ensures { IsDone self.old line (Step.At moment) result self.new }
    {
        if moment < self.moment {
            return Err(StepFault::BadStep);
        }
        self.moment = moment;
        Ok(())
    }

    /// Lets an end make the call of a step, which may name a peer.
    pub(crate) fn call(
        &mut self,
        line: u64,
        end: usize,
        peer: Option<usize>,
        step: &Step,
    ) -> Result<(), StepFault>
        requires above { AreBelow self.old.lines line }
        requires fits { line < 2 ^ 32 }
        requires deed { IsCallOf end peer (deed_of step.now) }
        ensures { IsDone self.old line step.now result self.new }
    {
        if self.lacks_one(end, peer) {
            return Err(StepFault::NoEnd);
        }
        if step.narrows_beyond() {
            return Err(StepFault::BadStep);
        }
        self.enter(line, end, peer_or(end, peer), step, None, &mut [])
    }

    /// Whether there is no end with this number.
    pub(crate) fn lacks(&self, end: usize) -> bool
        ensures { result ≡ is_missing self.now end }
    {
        self.count() <= end
    }

    /// Whether there is no end with this number, or none with that of the peer that is named.
    fn lacks_one(&self, end: usize, peer: Option<usize>) -> bool
        ensures { result ≡ (lacks_peer self.now peer || is_missing self.now end) }
    {
        match peer {
            None => self.lacks(end),
            Some(peer) => self.lacks(peer) || self.lacks(end),
        }
    }

    /// The world's allocator.
    pub(crate) fn alloc(&self) -> Global {
        self.alloc
    }
}
