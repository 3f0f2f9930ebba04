//! What is asked of one translator, of one place, and of all of them.

ghost use Rattle.std.specs.Prelude.{◌≡◌};
ghost use Rattle.std.specs.List.{find};
ghost use Rattle.rtmfp_forms.specs.Address.{is_same_place};
ghost use Rattle.end_places.specs.Seen.{is_on, has_public_host, is_called, has_host_of, is_plain_on, is_same_side, stands_at, is_anothers, has_number};

use crate::standing::{NamedTranslator, Standing};
use rtmfp_forms::Address;
use rtmfp_text::Name;

/// Whether an address has this IPv4 host.
fn is_on(host: [u8; 4], at: &Address) -> bool
    ensures { result ≡ is_on host at.now }
{
    let public = Address::v4(host, 0);
    !at.v6 && at.host == public.host
}

/// Whether an address has the host of a translator.
pub(crate) fn has_public_host(named: &NamedTranslator, at: &Address) -> bool
    ensures { result ≡ has_public_host at.now named.now }
{
    is_on(named.translator.host(), at)
}

/// Whether a translator has this name.
pub(crate) fn is_called(named: &NamedTranslator, name: &Name) -> bool
    ensures { result ≡ is_called name.now named.now }
{
    named.name.bytes() == name.bytes()
}

/// Whether a translator has this host.
pub(crate) fn has_host_of(named: &NamedTranslator, host: [u8; 4]) -> bool
    ensures { result ≡ has_host_of host named.now }
{
    named.translator.host() == host
}

/// Whether an end stands on this host without a translator.
pub(crate) fn is_plain_on(standing: &Standing, host: [u8; 4]) -> bool
    ensures { result ≡ is_plain_on host standing.now }
{
    standing.behind.is_none() && is_on(host, &standing.at)
}

/// Whether two places are behind the same translator, or both without one.
fn is_same_side(one: Option<usize>, other: Option<usize>) -> bool
    ensures { result ≡ is_same_side one other }
{
    match one {
        None => other.is_none(),
        Some(number) => match other {
            None => false,
            Some(same) => number == same,
        },
    }
}

/// Whether two addresses are at one place.
fn is_same_place(a: &Address, b: &Address) -> bool
    ensures { result ≡ is_same_place a.now b.now }
{
    a.same_place(b)
}

/// Whether it is the place where an end stands.
fn stands_at(standing: &Standing, at: &Address, behind: Option<usize>) -> bool
    ensures { result ≡ stands_at at.now behind standing.now }
{
    is_same_side(standing.behind, behind) && is_same_place(&standing.at, at)
}

/// Whether another end than this one stands there.
pub(crate) fn is_anothers(
    standing: &Standing,
    end: usize,
    at: &Address,
    behind: Option<usize>,
) -> bool
    ensures { result ≡ is_anothers end at.now behind standing.now }
{
    standing.end != end && stands_at(standing, at, behind)
}

/// Whether it is the place of the end with this number.
pub(crate) fn has_number(standing: &Standing, end: usize) -> bool
    ensures { result ≡ has_number end standing.now }
{
    standing.end == end
}

/// Where the end with this number stands.
pub(crate) fn find_end(ends: &[Standing], end: usize) -> Option<Standing>
    ensures { result ≡ find (has_number end) ends.now }
{
    let mut rest = ends;
    while let [first, others @ ..] = rest {
        if has_number(first, end) {
            return Some(*first);
        }
        rest = others;
    }
    None
}

/// The first end that stands at a place.
pub(crate) fn find_at(ends: &[Standing], at: &Address, behind: Option<usize>) -> Option<Standing>
    ensures { result ≡ find (stands_at at.now behind) ends.now }
{
    let mut rest = ends;
    while let [first, others @ ..] = rest {
        if stands_at(first, at, behind) {
            return Some(*first);
        }
        rest = others;
    }
    None
}
