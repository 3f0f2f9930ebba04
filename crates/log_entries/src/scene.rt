//! The event whose entries are judged.

use log_arrivals::Arrival;
use log_births::Party;
use log_values::LoggedCall;

/// The event whose entries are judged, its end, and what was found of its datagram when it began
/// (own).
#[derive(Clone, Copy)]
pub struct Scene<'a> {
    /// The end, and what it was given.
    pub party: Party<'a>,
    /// The call.
    pub call: &'a LoggedCall,
    /// The nonce that the call drew.
    pub nonce: &'a [u8; 16],
    /// Where the datagram opens that the call gives.
    pub arrival: Arrival,
    /// The plain packet that it opens to. Where it opens nowhere nothing is asked of this.
    pub plain: &'a [u8],
    /// Whether the session under the datagram's session ID takes it.
    pub took: bool,
}
