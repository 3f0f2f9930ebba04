//! The bytes that a line has in hexadecimal digits.
ghost use Rattle.std.specs.Prelude.{◌≡◌, ◌/◌, true, false, length, MatchResult};
ghost use Rattle.hex.specs.Hex.{decode_of};

use uuid::Uuid;

/// The digits of a piece: as many as a UUID has.
const DIGITS: usize = 32;

/// The bytes of a piece.
const BYTES: usize = DIGITS / 2;

/// Decodes digits of either case. It is `false` where they have half a byte, or another character
/// among them, and then nothing is said of what `bytes` holds.
///
/// `hex` finds the value of a digit by comparing, and a processor guesses one random digit in three
/// wrongly. The reader of UUIDs looks each up in a table. So it reads the pieces that are as long
/// as a UUID, and `hex` what is left.
pub fn decode(digits: &[u8], bytes: &mut [u8]) -> bool
    requires { length bytes.old ≡ length digits.now / 2 }
    ensures { MatchResult (decode_of digits.now)
        (λ read. (result ≡ true) × (bytes.new ≡ read))
        (λ _. result ≡ false) }
{
    let pieces = digits.len() / DIGITS;
    for piece in 0..pieces {
        let from = &digits[piece * DIGITS..(piece + 1) * DIGITS];
        let to = &mut bytes[piece * BYTES..(piece + 1) * BYTES];
        if !decode_piece(from, to) {
            return false;
        }
    }
    let rest = &digits[pieces * DIGITS..];
    hex::decode_to_slice(rest, &mut bytes[pieces * BYTES..]).is_ok()
}

/// Decodes a piece.
fn decode_piece(digits: &[u8], bytes: &mut [u8]) -> bool
    requires digits { length digits.now ≡ DIGITS }
    requires bytes { length bytes.old ≡ BYTES }
    ensures { MatchResult (decode_of digits.now)
        (λ read. (result ≡ true) × (bytes.new ≡ read))
        (λ _. result ≡ false) }
{
    match Uuid::try_parse_ascii(digits) {
        Ok(read) => {
            bytes.copy_from_slice(read.as_bytes());
            true
        }
        Err(_) => false,
    }
}
