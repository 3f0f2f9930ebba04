//! Addresses that a program hands in.

ghost use Rattle.std.specs.Prelude.{◌≡◌, IfOk, map};
ghost use Rattle.std.specs.List.{list_all};
ghost use Rattle.c_shapes.specs.Shapes.{is_address, placed};

use crate::shapes::{CAddress, address_of};
use rtmfp_base::Memory;
use rtmfp_forms::Address;
use std::alloc::Global;

/// Whether a struct is an address: its family is 4 or 6, and its origin at most 3.
pub fn is_address(given: &CAddress) -> bool
    ensures { result ≡ is_address given.now }
{
    (given.family == 4 || given.family == 6) && given.origin <= 3
}

/// Whether each of them is.
pub fn are_addresses(given: &[CAddress]) -> bool
    ensures { result ≡ list_all is_address given.now }
{
    given.iter().all(|one| (one.family == 4 || one.family == 6) && one.origin <= 3)
}

/// The addresses that they tell, in their order.
pub fn addresses_of(alloc: Global, given: &[CAddress]) -> Result<Vec<Address>, Memory>
    ensures { IfOk result (λ places. places.items ≡ map placed given.now) }
{
    let mut places = Vec::with_capacity(alloc, given.len())?;
    for one in given {
        match places.push(address_of(one)) {
            Ok(()) => {}
            Err(_) => return Err(Memory),
        }
    }
    Ok(places)
}
