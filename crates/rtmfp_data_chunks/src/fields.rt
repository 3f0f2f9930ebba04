//! The fields that chunks of flows are made of. Each reader is told the size of the payload beside
//! the bytes of it that are left, and gives what it read and the bytes after it.
ghost use Rattle.std.specs.Prelude.{◌≡◌, ◌/◌, ◌%◌, ◌<◌, ◌≤◌, length, IfOk};
ghost use Rattle.rtmfp_data_chunks.specs.Fields.{flag};
ghost use Rattle.rtmfp_data_chunks.specs.Chunk.{user_parts};
ghost use Rattle.rtmfp_data_chunks.specs.Reader.{Shows, number_then, numbers_then, options_at, part_numbered, user_then};

use crate::user_data::{Numbers, Part, UserData};
use crate::view::DataFault;
use rtmfp_forms::{Options, read_options};
use rtmfp_vlu::read_vlu;

/// The bits of the flags, counted from the lowest.
const OPTIONS: u32 = 7;

const ABANDON: u32 = 1;

const LAST: u32 = 0;

/// Reads a number.
#[tactic(auto, unfolding(crate::specs::Reader::number_then))]
pub(crate) fn number(size: usize, bytes: &[u8]) -> Result<(u64, &[u8]), DataFault>
    requires { length bytes.now ≤ size }
    ensures exact { Shows (λ found. (found.0, found.1.now)) result (number_then size bytes.now) }
    ensures shorter { IfOk result (λ found. length found.1.now < length bytes.now) }
{
    match read_vlu(bytes) {
        Ok((value, used)) => Ok((value, &bytes[used..])),
        Err(_) => Err(DataFault::Malformed(size - bytes.len())),
    }
}

/// Reads one number behind another.
#[tactic(auto, unfolding(crate::specs::Reader::numbers_then))]
pub(crate) fn two_numbers(size: usize, bytes: &[u8]) -> Result<([u64; 2], &[u8]), DataFault>
    requires { length bytes.now ≤ size }
    ensures exact { Shows (λ found. (found.0, found.1.now)) result (numbers_then 2 size bytes.now) }
    ensures shorter { IfOk result (λ found. length found.1.now < length bytes.now) }
{
    let (first, bytes) = number(size, bytes)?;
    let (second, bytes) = number(size, bytes)?;
    Ok(([first, second], bytes))
}

/// Reads three numbers, one behind another.
#[tactic(auto, unfolding(crate::specs::Reader::numbers_then))]
pub(crate) fn three_numbers(size: usize, bytes: &[u8]) -> Result<([u64; 3], &[u8]), DataFault>
    requires { length bytes.now ≤ size }
    ensures exact { Shows (λ found. (found.0, found.1.now)) result (numbers_then 3 size bytes.now) }
    ensures shorter { IfOk result (λ found. length found.1.now < length bytes.now) }
{
    let (first, bytes) = number(size, bytes)?;
    let ([second, third], bytes) = two_numbers(size, bytes)?;
    Ok(([first, second, third], bytes))
}

/// Reads options where they are flagged.
#[tactic(auto, unfolding(crate::specs::Reader::options_at))]
fn options(
    flagged: bool,
    size: usize,
    bytes: &[u8],
) -> Result<(Option<Options<'_>>, &[u8]), DataFault>
    requires { length bytes.now ≤ size }
    ensures { Shows (λ found. (found.0, found.1.now)) result (options_at flagged size bytes.now) }
{
    if !flagged {
        return Ok((None, bytes));
    }
    match read_options(bytes) {
        Ok((options, used)) => Ok((Some(options), &bytes[used..])),
        Err(_) => Err(DataFault::Malformed(size - bytes.len())),
    }
}

/// Whether this bit of the flags is set.
fn is_flagged(flags: u8, bit: u32) -> bool
    requires { bit < 8 }
    ensures { result ≡ flag flags bit }
{
    flags >> bit & 1 == 1
}

/// Whether the flags say that the chunk gives its number up.
pub(crate) fn abandons(flags: u8) -> bool
    ensures { result ≡ flag flags 1 }
{
    is_flagged(flags, ABANDON)
}

/// The part that the flags tell.
fn part(flags: u8) -> Part
    ensures { result ≡ part_numbered (flags / 16 % 4) }
{
    match flags >> 4 & 3 {
        0 => Part::Whole,
        1 => Part::Begin,
        2 => Part::End,
        _ => Part::Middle,
    }
}

/// Reads what follows the flags and the numbers of a user data chunk.
#[tactic(auto, unfolding(crate::specs::Reader::user_then))]
pub(crate) fn user_data<'a>(
    flags: u8,
    numbers: Numbers,
    size: usize,
    bytes: &'a [u8],
) -> Result<UserData<'a>, DataFault>
    requires { length bytes.now ≤ size }
    ensures { Shows user_parts result (user_then flags numbers size bytes.now) }
{
    let (options, bytes) = options(is_flagged(flags, OPTIONS), size, bytes)?;
    Ok(UserData {
        part: part(flags),
        abandon: is_flagged(flags, ABANDON),
        last: is_flagged(flags, LAST),
        flow: numbers.flow,
        seq: numbers.seq,
        forward: numbers.forward,
        options,
        bytes,
    })
}
