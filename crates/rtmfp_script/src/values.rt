//! Values that stand in other texts, too.
ghost use Rattle.std.specs.Prelude.{◌≡◌, length, Some, None, MatchOption, IfOk, IfErr, IsSome};
ghost use Rattle.rtmfp_script.specs.Fields.{address_of, digits_of, service_of, split_of};

use crate::address::address;
use crate::bytes::{digits, service, sixteen, thirty_two};
use crate::fields::split;
use identity::ServiceName;
use rtmfp_base::{Memory, Message};
use rtmfp_forms::Address;
use std::alloc::Global;

/// The address that a word is: `1.2.3.4:5`, or 32 digits in brackets, a colon and the port.
pub fn read_address(word: &[u8]) -> Option<Address>
    ensures { result ≡ address_of word.now }
{
    address(word)
}

/// The 16 bytes of 32 lower-case digits.
pub fn read_sixteen(word: &[u8]) -> Option<[u8; 16]>
    requires { length word.now ≡ 32 }
    ensures { result ≡ digits_of word.now }
{
    sixteen(word)
}

/// The 32 bytes of 64 lower-case digits.
pub fn read_thirty_two(word: &[u8]) -> Option<[u8; 32]>
    requires { length word.now ≡ 64 }
    ensures { result ≡ digits_of word.now }
{
    thirty_two(word)
}

/// The name of a service, 1 to 64 ASCII bytes, in lower-case digits.
pub fn read_service(word: &[u8]) -> Option<ServiceName>
    ensures { result ≡ service_of word.now }
{
    service(word)
}

/// The bytes of an even number of lower-case digits.
pub fn read_digits(alloc: Global, word: &[u8]) -> Result<Option<Message>, Memory>
    ensures value { IfOk result (λ bytes. bytes ≡ digits_of word.now) }
    ensures memory { IfErr result (λ _. IsSome (digits_of word.now)) }
{
    digits(alloc, word)
}

/// What stands in front of the first such byte, and what stands behind it.
pub fn split_word(byte: u8, text: &[u8]) -> Option<(&[u8], &[u8])>
    ensures { MatchOption result (split_of byte text.now ≡ None) (λ parts. split_of byte text.now
        ≡ Some (parts.0.now, parts.1.now)) }
{
    split(byte, text)
}
