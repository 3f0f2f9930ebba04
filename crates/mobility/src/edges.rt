//! Tests of an address at their edges and one beside. The functions do nothing: the contract of
//! each states what the definitions that the other contracts cite are there.

ghost use Rattle.std.specs.Prelude.{◌≡◌, ℕ, List, true, false, Some, None, Option, replicate};
ghost use Rattle.rtmfp_forms.specs.Address.{AddressParts};
ghost use Rattle.mobility.specs.declared.pending.Test.{Test};
ghost use Rattle.mobility.specs.Tests.{address_for, after_reply, after_seen, asks, token_for};
ghost use Rattle.mobility.specs.Edges.{v4, tested};

/// A test is young for 1,000 ms. What asks at a moment before it finds it young, too.
pub fn a_test_is_young_for_a_second()
    ensures last { asks (tested 1 7 5000) (v4 0 1 9) (v4 0 1 1) 5999 ≡ false }
    ensures over { asks (tested 1 7 5000) (v4 0 1 9) (v4 0 1 1) 6000 ≡ true }
    ensures before { asks (tested 1 7 5000) (v4 0 1 9) (v4 0 1 1) 4999 ≡ false }
{}

/// A datagram from the session's own place asks for nothing, whatever is pending; the origin of an
/// address doesn't count. A test of one place holds up no test of another one.
pub fn another_place_is_another_host_or_port()
    ensures own_place { (pending : Option Test) (moment : ℕ) →
        asks pending (v4 0 1 1) (v4 2 1 1) moment ≡ false }
    ensures port { asks None (v4 0 1 1) (v4 0 1 2) 0 ≡ true }
    ensures host { asks None (v4 0 1 1) (v4 0 2 1) 0 ≡ true }
    ensures same_test { asks (tested 1 7 5000) (v4 0 1 9) (v4 2 1 1) 5001 ≡ false }
    ensures other_test { asks (tested 1 7 5000) (v4 0 1 9) (v4 0 1 2) 5001 ≡ true }
{}

/// The later test replaces the earlier one, whose token then counts no more.
pub fn a_later_test_replaces_an_earlier_one()
    ensures token { token_for (tested 1 7 5000) (v4 0 1 9) (v4 0 1 2) (replicate 16 8) 5001
        ≡ Some (replicate 16 8) }
    ensures pending { after_seen (tested 1 7 5000) (v4 0 1 9) (v4 0 1 2) (replicate 16 8) 5001
        ≡ tested 2 8 5001 }
    ensures waits { after_seen (tested 1 7 5000) (v4 0 1 9) (v4 0 1 1) (replicate 16 8) 5999
        ≡ tested 1 7 5000 }
    ensures earlier { address_for (tested 2 8 5001) (v4 0 1 1) (replicate 16 7) ≡ None }
{}

/// A reply moves the session from the place that was pinged alone, with the whole token alone, and
/// once. The new address is that of the reply, its origin with it.
pub fn a_reply_moves_from_its_place_with_its_token()
    ensures moves { address_for (tested 1 7 0) (v4 2 1 1) (replicate 16 7) ≡ Some (v4 2 1 1) }
    ensures over { after_reply (tested 1 7 0) (v4 2 1 1) (replicate 16 7) ≡ None }
    ensures other_token { address_for (tested 1 7 0) (v4 0 1 1) (replicate 16 8) ≡ None }
    ensures part_of_token { address_for (tested 1 7 0) (v4 0 1 1) (replicate 15 7) ≡ None }
    ensures more_than_token { address_for (tested 1 7 0) (v4 0 1 1) (replicate 17 7) ≡ None }
    ensures other_place { address_for (tested 1 7 0) (v4 0 1 2) (replicate 16 7) ≡ None }
    ensures stays { after_reply (tested 1 7 0) (v4 0 1 2) (replicate 16 7) ≡ tested 1 7 0 }
    ensures without_a_test { (from : AddressParts) (bytes : List ℕ) →
        address_for None from bytes ≡ None }
{}
