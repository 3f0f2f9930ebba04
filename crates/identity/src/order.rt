//! The order of fingerprints (own rule).

ghost use Rattle.std.specs.Prelude.{◌≡◌};
ghost use Rattle.identity.specs.Order.{is_above};

/// Whether the end with the fingerprint `a` prevails over the end with the fingerprint `b`: whether
/// `a` is above `b` in byte order.
#[tactic(auto, using(crate::proofs::Above::gt_is_above))]
pub fn prevails(a: &[u8; 32], b: &[u8; 32]) -> bool
    ensures { result ≡ is_above a.now b.now }
{
    *a > *b
}
