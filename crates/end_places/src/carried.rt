//! What becomes of a datagram, and what isn't taken.

use rtmfp_forms::Address;

/// Why a datagram doesn't arrive (own).
#[derive(Clone, Copy, Debug, PartialEq, Eq)]
pub enum Lost {
    /// It was to go out through a translator, and one of its addresses is IPv6.
    Family,
    /// The translator that it was to go out through needs a new mapping and has no port left; it
    /// has this many mappings.
    PortsFull(u64),
    /// The translator that it comes to has no mapping with that port.
    Unmapped,
    /// The translator that it comes to doesn't let it in.
    Filtered,
    /// No end stands at the place that it comes to.
    Nobody,
}

/// What becomes of a datagram.
#[derive(Clone, Copy, Debug, PartialEq, Eq)]
pub enum Carried {
    /// It reaches the end with this number, and comes from this address.
    Arrives { end: usize, from: Address },
    /// It reaches no end.
    Lost(Lost),
}

/// Why a translator, a place or a datagram isn't taken: the first of these that stands. All is as
/// before then.
#[derive(Clone, Copy, Debug, PartialEq, Eq)]
pub enum PlacesRefusal {
    /// It is outside its limits, or against what is there; each call says when.
    Bad,
    /// No memory was found.
    Memory,
}
