//! The addresses of a redirect.
ghost use Rattle.std.specs.Prelude.{◌≡◌, List};
ghost use Rattle.std.specs.Iterator.{YieldsFirstBy, item_count};
ghost use Rattle.rtmfp_forms.specs.Address.{AddressParts};
ghost use Rattle.rtmfp_chunks.specs.Fields.{AddressesSpell};
ghost use Rattle.rtmfp_chunks.specs.FieldReading.{addresses_in};

use rtmfp_forms::{Address, read_address};
use std::marker::Model;

/// The addresses in the list of a redirect, one after another: the whole ones that its bytes begin
/// with.
#[derive(Drop)]
pub struct Addresses<'a> {
    rest: &'a [u8],
}

impl<'a> Model for Addresses<'a> {
    ghost use Rattle.std.specs.Prelude.{List};
    ghost use Rattle.rtmfp_forms.specs.Address.{AddressParts};
    ghost use Rattle.rtmfp_chunks.specs.FieldReading.{addresses_in};

    ghost Value = { List AddressParts };

    ghost view = { λ a. addresses_in a.rest.now };
}

impl<'a> Addresses<'a> {
    /// The addresses in a list.
    pub fn new(list: &'a [u8]) -> Addresses<'a>
        ensures exact { result ≡ addresses_in list.now }
        // Of whole addresses, all.
        ensures whole { (addresses : List AddressParts) → AddressesSpell addresses list.now →
            result ≡ addresses }
    {
        Addresses { rest: list }
    }
}

impl<'a> Iterator for Addresses<'a> {
    type Item = Address;

    ghost next_gives = { YieldsFirstBy (λ a. a) (λ s. s) };

    ghost remaining = { item_count (λ s. s) };

    fn next(&mut self) -> Option<Address> {
        match read_address(self.rest) {
            Ok((first, used)) => {
                self.rest = &self.rest[used..];
                Some(first)
            }
            Err(_) => None,
        }
    }
}
