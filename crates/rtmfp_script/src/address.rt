//! Addresses.
ghost use Rattle.std.specs.Prelude.{◌≡◌, ◌==◌};
ghost use Rattle.rtmfp_script.specs.Fields.{address_at, address_of, addresses_of, v4_of, v6_address, v6_of};

use crate::bytes::sixteen;
use crate::fields::{number8, number16, split};
use crate::line::{Candidates, MOST_CANDIDATES};
use rtmfp_forms::Address;

/// The address that a word is: `1.2.3.4:5`, or 32 digits in brackets, a colon and the port.
#[tactic(auto, unfolding(crate::specs::Fields::address_of))]
pub(crate) fn address(word: &[u8]) -> Option<Address>
    ensures { result ≡ address_of word.now }
{
    let (host, port) = split(b':', word)?;
    address_at(host, number16(port)?)
}

#[tactic(auto, unfolding(crate::specs::Fields::address_at))]
fn address_at(host: &[u8], port: u16) -> Option<Address>
    ensures { result ≡ address_at host.now port }
{
    if !host.is_empty() && host[0] == b'[' {
        let (_, rest) = host.split_at(1);
        return Some(v6(v6_host(rest)?, port));
    }
    Some(Address::v4(v4_host(host)?, port))
}

fn v6(host: [u8; 16], port: u16) -> Address
    ensures { result ≡ v6_address port host }
{
    Address {
        v6: true,
        origin: 0,
        host,
        port,
    }
}

/// The host whose digits, and a bracket, these are.
#[tactic(auto, unfolding(crate::specs::Fields::v6_of))]
fn v6_host(rest: &[u8]) -> Option<[u8; 16]>
    ensures { result ≡ v6_of rest.now }
{
    let (digits, after) = split(b']', rest)?;
    if !after.is_empty() || digits.len() != 32 {
        return None;
    }
    sixteen(digits)
}

/// The host of four numbers with points between them.
#[tactic(auto, unfolding(crate::specs::Fields::v4_of))]
pub(crate) fn v4_host(host: &[u8]) -> Option<[u8; 4]>
    ensures { result ≡ v4_of host.now }
{
    let (first, rest) = split(b'.', host)?;
    let (second, rest) = split(b'.', rest)?;
    let (third, fourth) = split(b'.', rest)?;
    Some([
        number8(first)?,
        number8(second)?,
        number8(third)?,
        number8(fourth)?,
    ])
}

/// The addresses that are the rest of a line: one to 32, with spaces between them.
pub(crate) fn addresses(text: &[u8]) -> Option<Candidates>
    ensures { result ≡ addresses_of text.now }
{
    let mut addresses = Candidates::new();
    let mut rest = text;
    'words: for at in 0..MOST_CANDIDATES {
        match split(b' ', rest) {
            Some((word, behind)) => {
                addresses.push(address(word)?);
                rest = behind;
            }
            None => {
                addresses.push(address(rest)?);
                return Some(addresses);
            }
        }
    }
    None
}
