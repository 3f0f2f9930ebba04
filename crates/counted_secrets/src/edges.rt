//! The rules of counted secrets at their edges. The function does nothing: its contract states what
//! the definitions are there that the other contracts cite. All of it is own.

ghost use Rattle.std.specs.Prelude.{◌≡◌, ◌-◌, ◌^◌, ◌++◌, ◌∷◌, ◌<◌, ℕ, [], Some, None, replicate};
ghost use Rattle.std.specs.FinMap.{get};
ghost use Rattle.counted_secrets.specs.Secrets.{counted_secret, counted_secrets, secret_after};
ghost use Rattle.counted_secrets.specs.Secrets.{secrets_below};

/// The secrets at their edges: that of generation 0 is 32 bytes 0, and after the last number comes
/// 0. Each generation whose number is below the bound has its secret among them, and no other has one.
pub fn secrets_are_counted()
    ensures first { counted_secret 0 ≡ replicate 32 0 }
    ensures bytes { counted_secret 258 ≡ replicate 30 0 ++ 1 ∷ 2 ∷ [] }
    ensures last { counted_secret (2 ^ 64 - 1) ≡ replicate 24 0 ++ replicate 8 255 }
    ensures after { secret_after 7 ≡ counted_secret 8 }
    ensures round { secret_after (2 ^ 64 - 1) ≡ counted_secret 0 }
    ensures known { (generation : ℕ) → generation < 2 ^ 64 →
        get counted_secrets generation ≡ Some (counted_secret generation) }
    ensures none { get (secrets_below 7) 7 ≡ None }
{}
