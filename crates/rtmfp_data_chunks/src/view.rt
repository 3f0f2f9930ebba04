//! The chunks of flows.

use crate::user_data::UserData;
use thiserror::Error;

/// A chunk of a flow, as a view of its payload.
#[derive(Drop)]
pub enum DataView<'a> {
    /// User data (RFC 7016 section 2.3.11).
    Data(UserData<'a>),
    /// User data whose numbers follow from the chunk before it (RFC 7016 section 2.3.12).
    Next(UserData<'a>),
    /// An ack by bits (RFC 7016 section 2.3.13).
    AckBitmap {
        flow: u64,
        /// The room for more, in blocks of 1,024 bytes.
        blocks: u64,
        /// All numbers up to this one are acknowledged.
        upto: u64,
        /// The least significant bit of the first byte speaks of `upto` + 2, and each further one
        /// of the next number.
        bits: &'a [u8],
    },
    /// An ack by spans (RFC 7016 section 2.3.14).
    AckRanges {
        flow: u64,
        /// The room for more, in blocks of 1,024 bytes.
        blocks: u64,
        /// All numbers up to this one are acknowledged.
        upto: u64,
        /// Pairs of numbers that walk upward from `upto`: one less than the count of those that are
        /// missing, and one less than the count of those that are there.
        pairs: &'a [u8],
    },
    /// Asks the receiver of a flow for an ack (RFC 7016 section 2.3.15).
    Probe {
        flow: u64,
    },
    /// The receiver of a flow rejects it (RFC 7016 section 2.3.16).
    Exception {
        flow: u64,
        code: u64,
    },
}

/// Why a payload is no chunk of a flow.
#[derive(Clone, Copy, Debug, PartialEq, Eq, Error)]
pub enum DataFault {
    /// No chunk of flows has this type.
    #[error("unknown chunk type {0}")]
    Unknown(u8),
    /// The field at this offset of the payload can't be read.
    #[error("malformed at offset {0}")]
    Malformed(usize),
    /// The offset of the forward number, at this offset of the payload, passes the sequence number,
    /// or is 0 without abandon.
    #[error("a bad forward number at offset {0}")]
    BadOffset(usize),
}
