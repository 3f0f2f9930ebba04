//! What a cookie is made of, and its test, at their edges and one beside. The functions do nothing:
//! the contract of each states what the definitions that the other contracts cite are there.

ghost use Rattle.std.specs.Prelude.{◌≡◌, ◌∷◌, ◌++◌, ℕ, List, [], true, false, None, replicate, take};
ghost use Rattle.rtmfp_forms.specs.Address.{AddressParts, is_same_place};
ghost use Rattle.crypto_profile.specs.Hmac.{hmac};
ghost use Rattle.cookies.specs.declared.CookieTest.TheVariants.{Bad, Moved, Expired, Current};
ghost use Rattle.cookies.specs.Cookie.{cookie_body, cookie_of, good_cookie_test, test_of};
ghost use Rattle.cookies.specs.Edges.{v4, v6};

/// A cookie is the moment, the address with origin 2 whatever its own is, and 16 bytes of the HMAC
/// of these.
pub fn a_cookie_has_its_moment_its_address_and_its_tag()
    ensures v4 { (origin : ℕ) → cookie_body (v4 origin 1) 1000 ≡ replicate 6 0
        ++ 3 ∷ 232 ∷ 0x02 ∷ 10 ∷ 0 ∷ 0 ∷ 1 ∷ 0x07 ∷ 0x8f ∷ [] }
    ensures v6 { (origin : ℕ) → cookie_body (v6 origin) 1 ≡ replicate 7 0
        ++ 1 ∷ 0x82 ∷ replicate 16 9 ++ 0x07 ∷ 0x8f ∷ [] }
    ensures tagged { (secret : List ℕ) (to : AddressParts) (moment : ℕ) →
        cookie_of secret to moment ≡ cookie_body to moment
        ++ take 16 (hmac secret (cookie_body to moment)) }
{}

/// From its own place a cookie is good until 95,000 ms after its issue. Elsewhere it has moved,
/// however old it is.
pub fn a_cookie_is_good_for_95_seconds()
    ensures before { good_cookie_test (v4 2 1) 1000 (v4 0 1) 0 ≡ Current }
    ensures last { good_cookie_test (v4 2 1) 1000 (v4 0 1) 96000 ≡ Current }
    ensures expired { good_cookie_test (v4 2 1) 1000 (v4 0 1) 96001 ≡ Expired }
    ensures moved { good_cookie_test (v4 2 1) 1000 (v4 0 2) 96000 ≡ Moved }
    ensures moved_and_expired { good_cookie_test (v4 2 1) 1000 (v4 0 2) 96001 ≡ Moved }
    ensures bad { (from : AddressParts) (now : ℕ) → test_of None from now ≡ Bad }
{}

/// Two addresses are the same place where family, host and port are the same; the origin doesn't
/// count.
pub fn a_place_is_family_host_and_port()
    ensures origin { is_same_place (v4 2 1) (v4 3 1) ≡ true }
    ensures host { is_same_place (v4 2 1) (v4 2 2) ≡ false }
    ensures port { is_same_place (v4 2 1) (record (v4 2 1) { port = 1936 }) ≡ false }
    ensures family { is_same_place (v4 2 1) (record (v4 2 1) { v6 = true }) ≡ false }
{}
