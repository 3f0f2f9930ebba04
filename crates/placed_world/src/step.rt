//! The steps of a placed world.

use end_places::Lost;
use rendezvous_world::Step;
use rtmfp_forms::Address;
use rtmfp_text::Name;
use translators::Rule;

/// One step of a run with translators and places.
#[derive(Drop)]
pub enum PlacedStep {
    /// A new translator; the first of its ports is at least 1.
    Translator {
        name: Name,
        /// Which mappings it makes.
        mapping: Rule,
        /// What it lets in.
        filter: Rule,
        /// Its public host.
        host: [u8; 4],
        first: u16,
    },
    /// The end with this number stands at a place from now on, behind the translator with this
    /// number or without one.
    Place {
        end: usize,
        at: Address,
        behind: Option<usize>,
    },
    /// The datagram that was sent as this one, counted from 1, goes from the place where its sender
    /// stands to the address that it was sent to.
    Carry {
        number: u64,
    },
    /// A step of the world.
    World(Step),
}

/// A datagram that was carried and didn't arrive.
#[derive(Clone, Copy, Debug, PartialEq, Eq)]
pub struct LostLine {
    /// The number of the end that sent it.
    pub end: usize,
    /// Its number, counted from 1.
    pub number: u64,
    /// Why it was lost.
    pub lost: Lost,
}
