//! Packets that are split into pieces, and put together again from pieces that come in any order
//! (RFC 7016 section 2.3.1; the use inside sessions and all limits are own).
#![tactic(auto)]

pub mod edges;
mod held;
pub mod laws;
mod outcome;
mod pieces;
mod reassembly;

pub use outcome::{Gathered, PieceRefusal, Plain, SplitRefusal};
pub use pieces::{Piece, Pieces, split};
pub use reassembly::Reassembly;
