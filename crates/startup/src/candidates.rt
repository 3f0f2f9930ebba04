//! Candidate addresses, no two at one place.

ghost use Rattle.std.specs.Prelude.{◌≡◌, ◌<◌, ◌≤◌, ◌+◌, ◌∷◌, length, take, true, false, IfNone, IfSome};
ghost use Rattle.std.specs.List.{list_any};
ghost use Rattle.rtmfp_forms.specs.Address.{is_same_place};
ghost use Rattle.startup.specs.Attempts.{joined, distinct_candidates};
ghost use Rattle.startup.specs.Redirects.{joined_beside, new_candidates, told_addresses};

use rtmfp_base::limits::CANDIDATES;
use rtmfp_chunks::Addresses;
use rtmfp_forms::Address;

/// Addresses: the first `count` of these.
#[derive(Drop)]
pub(crate) struct Candidates {
    pub(crate) to: [Address; CANDIDATES],
    pub(crate) count: usize,
}

/// Whether two addresses are at one place.
fn is_same_place(a: &Address, b: &Address) -> bool
    ensures { result ≡ is_same_place a.now b.now }
{
    a.same_place(b)
}

/// Whether one of the addresses is at the same place as this one.
fn has_address(addresses: &[Address], address: &Address) -> bool
    ensures { result ≡ list_any (is_same_place address.now) addresses.now }
{
    addresses.iter().any(|other| is_same_place(address, other))
}

/// An address joins the first `count` of these, unless one of them is at its place; how many there
/// are then.
fn join(to: &mut [Address; CANDIDATES], count: usize, address: &Address) -> usize
    requires { count < 16 }
    ensures joined { take result to.new ≡ joined (take count to.old) address.now }
    ensures one_more { result ≤ count + 1 }
{
    if has_address(&to[..count], address) {
        return count;
    }
    to[count] = *address;
    count + 1
}

/// Of the candidates at one place the first, in their order.
pub(crate) fn distinct_candidates(candidates: &[Address]) -> Candidates
    requires { length candidates.now ≤ 16 }
    ensures distinct { take result.count result.to ≡ distinct_candidates candidates.now }
    ensures few { result.count ≤ 16 }
{
    let mut to = [Address::v4([0; 4], 0); CANDIDATES];
    let mut count = 0;
    for candidate in candidates {
        count = join(&mut to, count, candidate);
    }
    Candidates { to, count }
}

/// An address joins the new ones, unless a candidate or one of them is at its place. False where it
/// would be one too many beside the candidates; then it didn't join.
fn join_beside(held: &[Address], new: &mut Candidates, address: &Address) -> bool
    requires few { length held.now + new.old.count ≤ 16 }
    requires counted { length (take new.old.count new.old.to) ≡ new.old.count }
    ensures joined { result ≡ true → take new.new.count new.new.to
        ≡ joined_beside held.now (take new.old.count new.old.to) address.now }
    ensures few { result ≡ true → length held.now + new.new.count ≤ 16 }
    ensures counted { result ≡ true → length (take new.new.count new.new.to) ≡ new.new.count }
    ensures many { result ≡ false → 16 < length held.now
        + length (joined_beside held.now (take new.old.count new.old.to) address.now) }
{
    if has_address(held, address) || has_address(&new.to[..new.count], address) {
        return true;
    }
    if held.len() + new.count == CANDIDATES {
        return false;
    }
    new.to[new.count] = *address;
    new.count += 1;
    true
}

/// Those of an address and the ones behind it that aren't candidates yet, of those at one place the
/// first; None where they would pass 16 beside the candidates.
fn new_among(held: &[Address], first: &Address, others: Addresses<'_>) -> Option<Candidates>
    requires { length held.now ≤ 16 }
    ensures some { IfSome result (λ new. take new.count new.to
        ≡ new_candidates held.now (first.now ∷ others.entry)) }
    ensures few { IfSome result (λ new. length held.now + new.count ≤ 16) }
    ensures counted { IfSome result (λ new. length (take new.count new.to) ≡ new.count) }
    ensures none { IfNone result (16 < length held.now
        + length (new_candidates held.now (first.now ∷ others.entry))) }
{
    let mut new = Candidates {
        to: [Address::v4([0; 4], 0); CANDIDATES],
        count: 0,
    };
    if !join_beside(held, &mut new, first) {
        return None;
    }
    for address in others {
        if !join_beside(held, &mut new, &address) {
            return None;
        }
    }
    Some(new)
}

/// The new candidates in the list of a redirect that came from an address, which counts where the
/// list is empty; None where they would pass 16 beside the candidates.
pub(crate) fn new_candidates(held: &[Address], list: &[u8], from: &Address) -> Option<Candidates>
    requires { length held.now ≤ 16 }
    ensures some { IfSome result (λ new. take new.count new.to
        ≡ new_candidates held.now (told_addresses list.now from.now)) }
    ensures few { IfSome result (λ new. length held.now + new.count ≤ 16) }
    ensures counted { IfSome result (λ new. length (take new.count new.to) ≡ new.count) }
    ensures none { IfNone result (16 < length held.now
        + length (new_candidates held.now (told_addresses list.now from.now))) }
{
    let mut addresses = Addresses::new(list);
    match addresses.next() {
        Some(first) => new_among(held, &first, addresses),
        None => new_among(held, from, Addresses::new(&[])),
    }
}
