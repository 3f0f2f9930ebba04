//! The forms of certificates, discriminators and targets, and the order of fingerprints, at their edges and
//! one beside. The functions do nothing: the contract of each states what the definitions that the
//! other contracts cite are there.

ghost use Rattle.std.specs.Prelude.{◌≡◌, ◌∷◌, ◌++◌, ℕ, List, [], true, false, Some, None, replicate};
ghost use Rattle.identity.specs.declared.cert.CertFault.TheVariants.{Short, LongName, NotAscii};
ghost use Rattle.identity.specs.Certificates.{certificate_fault};
ghost use Rattle.identity.specs.Discriminators.{discriminator_of};
ghost use Rattle.identity.specs.Order.{is_above};
ghost use Rattle.identity.specs.ServiceNames.{service_name_of};
ghost use Rattle.identity.specs.Targets.{selects, target_of};
ghost use Rattle.identity.specs.declared.target.Target.TheVariants.{Print, Name};

/// A certificate has 16 instance bytes of any value and a name of 1 to 64 bytes below 0x80. The
/// first fault counts, in the order of short, long and not ASCII.
pub fn a_certificate_has_17_to_80_bytes()
    ensures none { certificate_fault [] ≡ Some Short }
    ensures short { certificate_fault (replicate 16 0x61) ≡ Some Short }
    ensures shortest { certificate_fault (replicate 17 0x61) ≡ None }
    ensures longest { certificate_fault (replicate 80 0x61) ≡ None }
    ensures long { certificate_fault (replicate 81 0x61) ≡ Some LongName }
    ensures instance { certificate_fault (replicate 16 0xff ++ 0x7f ∷ []) ≡ None }
    ensures first_of_name { certificate_fault (replicate 16 0 ++ 0x80 ∷ []) ≡ Some NotAscii }
    ensures last_of_name { certificate_fault (replicate 79 0 ++ 0x80 ∷ []) ≡ Some NotAscii }
    ensures short_before_ascii { certificate_fault (replicate 16 0x80) ≡ Some Short }
    ensures long_before_ascii { certificate_fault (replicate 81 0x80) ≡ Some LongName }
{}

/// A discriminator is the byte 1 and the 32 bytes of a fingerprint.
pub fn a_discriminator_has_33_bytes()
    ensures none { discriminator_of [] ≡ None }
    ensures short { discriminator_of (1 ∷ replicate 31 7) ≡ None }
    ensures right { discriminator_of (1 ∷ replicate 32 7)
        ≡ Some (record { print = replicate 32 7 }) }
    ensures long { discriminator_of (1 ∷ replicate 33 7) ≡ None }
    ensures below { discriminator_of (0 ∷ replicate 32 7) ≡ None }
    ensures above { discriminator_of (2 ∷ replicate 32 7) ≡ None }
{}

/// A service name has 1 to 64 bytes below 0x80.
pub fn a_service_name_has_1_to_64_bytes()
    ensures none { service_name_of [] ≡ None }
    ensures shortest { service_name_of (0 ∷ []) ≡ Some (0 ∷ []) }
    ensures longest { service_name_of (replicate 64 0x7f) ≡ Some (replicate 64 0x7f) }
    ensures long { service_name_of (replicate 65 0x61) ≡ None }
    ensures last { service_name_of (replicate 63 0x61 ++ 0x7f ∷ [])
        ≡ Some (replicate 63 0x61 ++ 0x7f ∷ []) }
    ensures first_above { service_name_of (0x80 ∷ replicate 63 0x61) ≡ None }
    ensures last_above { service_name_of (replicate 63 0x61 ++ 0x80 ∷ []) ≡ None }
{}

/// A target is the byte 1 and the 32 bytes of a fingerprint, or the byte 2 and a service name.
pub fn a_target_is_a_print_or_a_name()
    ensures none { target_of [] ≡ None }
    ensures print { target_of (1 ∷ replicate 32 7)
        ≡ Some (Print (record { print = replicate 32 7 })) }
    ensures short_print { target_of (1 ∷ replicate 31 7) ≡ None }
    ensures long_print { target_of (1 ∷ replicate 33 7) ≡ None }
    ensures name { target_of (2 ∷ replicate 32 7) ≡ Some (Name (replicate 32 7)) }
    ensures shortest_name { target_of (2 ∷ 0x41 ∷ []) ≡ Some (Name (0x41 ∷ [])) }
    ensures no_name { target_of (2 ∷ []) ≡ None }
    ensures longest_name { target_of (2 ∷ replicate 64 7) ≡ Some (Name (replicate 64 7)) }
    ensures long_name { target_of (2 ∷ replicate 65 7) ≡ None }
    ensures below { target_of (0 ∷ replicate 32 7) ≡ None }
    ensures above { target_of (3 ∷ replicate 32 7) ≡ None }
{}

/// A name selects a certificate by all bytes behind the 16 instance bytes, and by no others. What is
/// no target selects nothing.
pub fn a_name_selects_by_the_whole_name()
    ensures same { selects (Some (Name (0x41 ∷ 0x42 ∷ [])))
        (replicate 16 9 ++ 0x41 ∷ 0x42 ∷ []) ≡ true }
    ensures other_instance { selects (Some (Name (0x41 ∷ 0x42 ∷ [])))
        (replicate 16 0 ++ 0x41 ∷ 0x42 ∷ []) ≡ true }
    ensures longer { selects (Some (Name (0x41 ∷ 0x42 ∷ [])))
        (replicate 16 9 ++ 0x41 ∷ 0x42 ∷ 0x43 ∷ []) ≡ false }
    ensures shorter { selects (Some (Name (0x41 ∷ 0x42 ∷ [])))
        (replicate 16 9 ++ 0x41 ∷ []) ≡ false }
    ensures capital { selects (Some (Name (0x61 ∷ 0x42 ∷ [])))
        (replicate 16 9 ++ 0x41 ∷ 0x42 ∷ []) ≡ false }
    ensures instance_too { selects (Some (Name (replicate 16 0x41 ++ 0x42 ∷ [])))
        (replicate 16 0x41 ++ 0x42 ∷ []) ≡ false }
    ensures nothing { (cert : List ℕ) → selects None cert ≡ false }
{}

/// The first byte that differs decides, and bytes have no sign.
pub fn the_first_byte_that_differs_decides()
    ensures equal { is_above (5 ∷ 5 ∷ []) (5 ∷ 5 ∷ []) ≡ false }
    ensures first { is_above (6 ∷ 0 ∷ []) (5 ∷ 255 ∷ []) ≡ true }
    ensures first_below { is_above (5 ∷ 255 ∷ []) (6 ∷ 0 ∷ []) ≡ false }
    ensures second { is_above (5 ∷ 6 ∷ []) (5 ∷ 5 ∷ []) ≡ true }
    ensures second_below { is_above (5 ∷ 5 ∷ []) (5 ∷ 6 ∷ []) ≡ false }
    ensures high { is_above (128 ∷ []) (127 ∷ []) ≡ true }
{}
