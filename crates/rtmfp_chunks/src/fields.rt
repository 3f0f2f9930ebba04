//! The fields that chunks are made of, each read with what follows it. An `Err` has the number of
//! bytes from the field that can't be read to the end.
ghost use Rattle.rtmfp_chunks.specs.FieldReading.{Shows, split_of, value_of, number_then, bytes_then, counted_then, id_then, more_then, address_then, list_at};

use rtmfp_forms::{Address, read_address};
use rtmfp_vlu::read_vlu;

/// Reads a VLU.
#[tactic(auto, unfolding(crate::specs::FieldReading::number_then))]
pub(crate) fn number(bytes: &[u8]) -> Result<(u64, &[u8]), usize>
    ensures { Shows value_of result (number_then bytes.now) }
{
    match read_vlu(bytes) {
        Ok((number, used)) => Ok((number, &bytes[used..])),
        Err(_) => Err(bytes.len()),
    }
}

/// Reads bytes that stand behind their length in a VLU.
#[tactic(auto, unfolding(crate::specs::FieldReading::counted_then))]
pub(crate) fn counted(bytes: &[u8]) -> Result<(&[u8], &[u8]), usize>
    ensures { Shows split_of result (counted_then bytes.now) }
{
    let (len, rest) = number(bytes)?;
    split(len, rest)
}

/// Reads so many bytes.
#[tactic(auto, unfolding(crate::specs::FieldReading::bytes_then))]
fn split(len: u64, bytes: &[u8]) -> Result<(&[u8], &[u8]), usize>
    ensures { Shows split_of result (bytes_then len bytes.now) }
{
    if (bytes.len() as u64) < len {
        return Err(bytes.len());
    }
    Ok(bytes.split_at(len as usize))
}

/// Reads a session ID.
#[tactic(auto, unfolding(crate::specs::FieldReading::id_then))]
pub(crate) fn session_id(bytes: &[u8]) -> Result<(u32, &[u8]), usize>
    ensures { Shows value_of result (id_then bytes.now) }
{
    match bytes.split_first_chunk::<4>() {
        Some((id, rest)) => Ok((u32::from_be_bytes(*id), rest)),
        None => Err(bytes.len()),
    }
}

/// Reads the flags of a fragment: whether more follow.
#[tactic(auto, unfolding(crate::specs::FieldReading::more_then))]
pub(crate) fn more_flag(bytes: &[u8]) -> Result<(bool, &[u8]), usize>
    ensures { Shows value_of result (more_then bytes.now) }
{
    match bytes.split_first() {
        Some((flags, rest)) => Ok((*flags >= 0x80, rest)),
        None => Err(0),
    }
}

/// Reads an address.
#[tactic(auto, unfolding(crate::specs::FieldReading::address_then))]
pub(crate) fn address(bytes: &[u8]) -> Result<(Address, &[u8]), usize>
    ensures { Shows value_of result (address_then bytes.now) }
{
    match read_address(bytes) {
        Ok((address, used)) => Ok((address, &bytes[used..])),
        Err(_) => Err(bytes.len()),
    }
}

/// Reads addresses up to the end, and gives their bytes.
pub(crate) fn addresses(bytes: &[u8]) -> Result<&[u8], usize>
    ensures { Shows (λ list. list.now) result (list_at bytes.now) }
{
    let mut rest = bytes;
    while !rest.is_empty() {
        match address(rest) {
            Ok((_, after)) => rest = after,
            Err(left) => return Err(left),
        }
    }
    Ok(bytes)
}
