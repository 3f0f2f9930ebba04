//! Messages cut into fragments.

ghost use Rattle.std.specs.Prelude.{◌≡◌, ◌+◌, ◌<◌, ◌≤◌, ◌∷◌, ℕ, IfOk, length};
ghost use Rattle.rtmfp_data_chunks.specs.Fragments.{fragments_of_length, part_of};
ghost use Rattle.flow_send.specs.Sender.{rows_of};

use crate::row::HeldRow;
use rtmfp_data_chunks::Part;
use std::alloc::{AllocError, Global};
use std::collections::VecDeque;

/// The bytes of each fragment but the last.
const FRAGMENT: usize = 1000;

/// The first fragment of a message, and those after it.
#[derive(Drop)]
pub struct Pieces {
    pub first: HeldRow,
    pub more: VecDeque<HeldRow>,
}

/// How many fragments a message of a length has.
pub fn fragments_of(length: u64) -> u64
    requires { length ≤ 1048576 }
    ensures { result ≡ fragments_of_length length }
{
    if length == 0 {
        return 1;
    }
    (length + 999) / 1000
}

/// The part of one of so many fragments.
fn part_of(count: u64, at: u64) -> Part
    requires { at < count }
    ensures { result ≡ part_of count at }
{
    if count == 1 {
        return Part::Whole;
    }
    if at == 0 {
        return Part::Begin;
    }
    if at + 1 == count {
        return Part::End;
    }
    Part::Middle
}

/// The fragments of a message, whatever the number of the first one. That one stands apart, so that
/// a message which has no other asks for no list.
pub fn cut(alloc: Global, message: &[u8], count: u64) -> Result<Pieces, AllocError>
    requires count { count ≡ fragments_of_length (length message.now) }
    ensures rows { (n : ℕ) →
        IfOk result (λ cut. cut.first ∷ cut.more.items
        ≡ rows_of (record { number = n; bytes = message.now }) n count) }
{
    let (piece, mut rest) = message.split_at(message.len().min(FRAGMENT));
    let first = HeldRow::fragment(alloc, part_of(count, 0), piece)?;
    let mut more = VecDeque::with_capacity(alloc, count as usize - 1)?;
    for at in 1..count {
        let (piece, behind) = rest.split_at(rest.len().min(FRAGMENT));
        more.push_back(HeldRow::fragment(alloc, part_of(count, at), piece)?)?;
        rest = behind;
    }
    Ok(Pieces { first, more })
}
