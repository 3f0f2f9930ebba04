//! A test of an address, and what a datagram means for it.

ghost use Rattle.std.specs.Prelude.{◌≡◌};
ghost use Rattle.mobility.specs.Tests.{is_young, is_answered};

use rtmfp_forms::Address;

/// For so many milliseconds after a ping no other one goes to the same place (own).
const YOUNG: u64 = 1000;

/// A test that is pending: a ping with this token went to this address at this moment.
#[derive(Clone, Copy, Debug, Drop)]
pub struct Test {
    pub address: Address,
    pub token: [u8; 16],
    pub moment: u64,
}

/// Whether a test of the place `from` is pending that was begun less than 1,000 ms before a moment.
pub(crate) fn is_young(pending: &Option<Test>, from: &Address, moment: u64) -> bool
    ensures { result ≡ is_young pending.now from.now moment }
{
    match pending {
        Some(test) => {
            test.address.same_place(from) && moment.saturating_sub(test.moment) < YOUNG
        }
        None => false,
    }
}

/// Whether bytes that came from an address answer the pending test.
pub(crate) fn is_answered(pending: &Option<Test>, from: &Address, bytes: &[u8]) -> bool
    ensures { result ≡ is_answered pending.now from.now bytes.now }
{
    match pending {
        Some(test) => test.address.same_place(from) && test.token.as_slice() == bytes,
        None => false,
    }
}
