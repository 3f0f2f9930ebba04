//! The random values of a call, which the number of its line decides.

ghost use Rattle.std.specs.Prelude.{◌≡◌, ◌<◌, ◌^◌};
ghost use Rattle.rendezvous_world.specs.Draws.{draws_of, two_numbers};

use endpoint::Draws;

/// Two numbers of 64 bits, one after the other.
fn two_numbers(first: u64, second: u64) -> [u8; 16]
    ensures { result ≡ two_numbers first second }
{
    let mut bytes = [0; 16];
    let (front, back) = bytes.split_at_mut(8);
    front.copy_from_slice(&first.to_be_bytes());
    back.copy_from_slice(&second.to_be_bytes());
    bytes
}

/// The random values of the call of a line (own).
pub(crate) fn draws_of(line: u64) -> Draws
    requires { line < 2 ^ 32 }
    ensures { result ≡ draws_of line }
{
    Draws {
        nonce: two_numbers(0, line),
        tag: two_numbers(2, line),
        token: two_numbers(1, line),
        word: line as u32,
    }
}
