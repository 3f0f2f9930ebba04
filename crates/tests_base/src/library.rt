//! An end as a library, in the lines that README shows.

use crate::by_hand::{ANSWERER, CALLER, GENERATION, GROUP, draws};
use endpoint::{Config, Endpoint, Entry, Outbox};
use identity::{CertFault, Certificate, Epd};
use rtmfp_forms::Address;
use std::alloc::Global;
use std::test::Fail;

/// What an outbox holds.
#[derive(Clone, Copy)]
pub struct Counted {
    /// Datagrams that are to be sent.
    pub sent: u8,
    /// Facts.
    pub told: u8,
    /// Discards.
    pub dropped: u8,
}

/// An end of the caller.
fn caller(alloc: Global) -> Result<Endpoint, CertFault> {
    let config = Config {
        max_peers: 16,
        max_sessions: 16,
        introduces: false,
    };
    let certificate = Certificate::read(CALLER)?;
    Ok(Endpoint::new(alloc, config, certificate, GENERATION, GROUP, [9; 32]))
}

/// An attempt is opened.
fn opens(end: &mut Endpoint, address: Address, out: &mut Outbox) -> Result<(), Fail> {
    let peer = Certificate::read(ANSWERER)?.print();
    end.open(&Epd { print: peer }, &[address], 0, &draws(3), out)?;
    Ok(())
}

/// A datagram comes.
fn hears(end: &mut Endpoint, from: Address, out: &mut Outbox) -> Result<(), Fail> {
    let mut datagram = [0; 40];
    end.receive(from, 10, &mut datagram, &draws(3), out)?;
    Ok(())
}

/// Time goes on.
fn ticks(end: &mut Endpoint, out: &mut Outbox) -> Result<(), Fail> {
    end.tick(1000, &draws(3), out)?;
    Ok(())
}

/// What README shows, a call a function: a check takes a minute for the three in one, and some
/// seconds for each alone.
fn goes_on(end: &mut Endpoint, address: Address, out: &mut Outbox) -> Result<(), Fail> {
    opens(end, address, out)?;
    hears(end, address, out)?;
    ticks(end, out)
}

/// How many of each there are in an outbox. Each datagram is to be for this address.
fn count_in(out: &Outbox, address: Address) -> Result<Counted, Fail> {
    let (mut sent, mut told, mut dropped) = (0_u8, 0_u8, 0_u8);
    for entry in out.entries() {
        match entry {
            Entry::Out { to, .. } => {
                if *to != address {
                    return Err(Fail::from("a datagram to another address"));
                }
                sent = sent.saturating_add(1);
            }
            Entry::Fact(_) => told = told.saturating_add(1),
            Entry::Discard { .. } => dropped = dropped.saturating_add(1),
            _ => {}
        }
    }
    Ok(Counted {
        sent,
        told,
        dropped,
    })
}

/// What is to be sent and what happened at an end that opens an attempt, gets 40 bytes that no
/// member of the group sealed, and is ticked after the first repeat of its hello is due.
pub fn counted_of_an_end(alloc: Global) -> Result<Counted, Fail> {
    let address = Address::v4([10, 0, 0, 2], 1935);
    let mut end = caller(alloc)?;
    let mut out = Outbox::new(alloc, 8)?;
    goes_on(&mut end, address, &mut out)?;
    count_in(&out, address)
}
