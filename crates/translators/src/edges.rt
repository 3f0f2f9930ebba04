//! Translators at their edges and one beside. The functions do nothing: the contract of each states
//! what the definitions that the other contracts cite are there.

ghost use Rattle.std.specs.Prelude.{◌≡◌, ◌∷◌, [], Some, None, Ok, Err};
ghost use Rattle.translators.specs.declared.refusal.OutRefusal.TheVariants.{Family, PortsFull};
ghost use Rattle.translators.specs.declared.refusal.InRefusal.TheVariants.{Unmapped, Filtered};
ghost use Rattle.translators.specs.Mappings.{from_to};
ghost use Rattle.translators.specs.Translator.{v4, out_refusal, public_of, inward_of};
ghost use Rattle.translators.specs.Edges.{public_host, inside, outside, local, v6_like, to_nine, to_eight, one_port, two_ports, cone, by_hosts, open_cone};

/// A translator by hosts with one port, 65535, one call and datagram after another.
pub fn one_port_serves_one_host()
    ensures goes { out_refusal (one_port []) to_nine ≡ None }
    ensures address { public_of (one_port []) to_nine ≡ v4 public_host 65535 }
    ensures goes_again { out_refusal (one_port (to_nine ∷ [])) to_nine ≡ None }
    ensures same { public_of (one_port (to_nine ∷ [])) to_nine ≡ v4 public_host 65535 }
    ensures full { out_refusal (one_port (to_nine ∷ to_nine ∷ [])) to_eight ≡ Some (PortsFull 1) }
    ensures comes { inward_of (one_port (to_nine ∷ to_nine ∷ [])) (v4 public_host 65535)
        (outside 9 7) ≡ Ok (inside 2 1935) }
    ensures filtered { inward_of (one_port (to_nine ∷ to_nine ∷ [])) (v4 public_host 65535)
        (outside 8 1) ≡ Err Filtered }
    ensures unmapped { inward_of (one_port (to_nine ∷ to_nine ∷ [])) (v4 public_host 4)
        (outside 8 1) ≡ Err Unmapped }
    ensures family { out_refusal (one_port (to_nine ∷ to_nine ∷ []))
        (from_to (v6_like 192 168 0 2 1935) (outside 8 1)) ≡ Some Family }
{}

/// Ports go from the first one up to 65535. A call that has a mapping needs none.
pub fn ports_have_their_limits()
    ensures last { public_of (two_ports (to_nine ∷ [])) to_eight ≡ v4 public_host 65535 }
    ensures last_goes { out_refusal (two_ports (to_nine ∷ [])) to_eight ≡ None }
    ensures full { out_refusal (two_ports (to_eight ∷ to_nine ∷ []))
        (from_to (inside 2 1935) (outside 7 1)) ≡ Some (PortsFull 2) }
    ensures first { public_of (cone []) to_nine ≡ v4 public_host 40000 }
    ensures next { public_of (cone (to_nine ∷ [])) (from_to (inside 3 1935) (outside 9 1935))
        ≡ v4 public_host 40001 }
    ensures after_next { public_of
        (cone (from_to (inside 3 1935) (outside 9 1935) ∷ to_nine ∷ []))
        (from_to (inside 3 1936) (outside 9 1935)) ≡ v4 public_host 40002 }
    ensures new_again { public_of (one_port (to_nine ∷ []))
        (from_to (inside 2 1935) (outside 9 7)) ≡ v4 public_host 65535 }
{}

/// A mapping is that of an inner place, whatever its origin, and where mappings are dependent that
/// of the other host as well, whatever its port.
pub fn mappings_are_told_apart()
    ensures one { public_of (cone (to_nine ∷ [])) to_eight ≡ v4 public_host 40000 }
    ensures other_port { public_of (cone (to_nine ∷ []))
        (from_to (inside 2 1936) (outside 9 1935)) ≡ v4 public_host 40001 }
    ensures origin { public_of (cone (to_nine ∷ [])) (from_to (local 2 1935) (outside 9 1935))
        ≡ v4 public_host 40000 }
    ensures by_host { public_of (by_hosts (to_nine ∷ [])) to_eight ≡ v4 public_host 40001 }
    ensures same_host { public_of (by_hosts (to_nine ∷ []))
        (from_to (inside 2 1935) (outside 9 7)) ≡ v4 public_host 40000 }
    ensures other_inner { public_of (by_hosts (to_nine ∷ []))
        (from_to (inside 3 1935) (outside 9 1935)) ≡ v4 public_host 40001 }
    ensures back { public_of (by_hosts (to_eight ∷ to_nine ∷ [])) to_nine ≡ v4 public_host 40000 }
{}

/// An IPv6 address on either side is refused first, where no port is left as well.
pub fn families_are_asked_first()
    ensures inner { out_refusal (one_port (to_nine ∷ []))
        (from_to (v6_like 192 168 0 2 1935) (outside 8 1)) ≡ Some Family }
    ensures to { out_refusal (one_port (to_nine ∷ []))
        (from_to (inside 2 1935) (v6_like 10 0 0 8 1)) ≡ Some Family }
    ensures mapped { out_refusal (one_port (to_nine ∷ []))
        (from_to (inside 2 1935) (v6_like 10 0 0 9 1935)) ≡ Some Family }
{}

/// What comes in comes to a mapped port of the public host, whatever its own port is; the place is
/// asked before the filter. An IPv6 host was never used, though its bytes be those of one that was.
pub fn what_comes_in()
    ensures unfiltered { inward_of (open_cone (to_nine ∷ [])) (v4 public_host 40000) (outside 8 1)
        ≡ Ok (inside 2 1935) }
    ensures any_family { inward_of (open_cone (to_nine ∷ [])) (v4 public_host 40000)
        (v6_like 10 0 0 9 1935) ≡ Ok (inside 2 1935) }
    ensures another_family { inward_of (cone (to_nine ∷ [])) (v4 public_host 40000)
        (v6_like 10 0 0 9 1935) ≡ Err Filtered }
    ensures port_before { inward_of (cone (to_nine ∷ [])) (v4 public_host 39999) (outside 8 1)
        ≡ Err Unmapped }
    ensures port_after { inward_of (cone (to_nine ∷ [])) (v4 public_host 40001) (outside 8 1)
        ≡ Err Unmapped }
    ensures another_host { inward_of (cone (to_nine ∷ [])) (outside 9 40000) (outside 8 1)
        ≡ Err Unmapped }
    ensures public_family { inward_of (cone (to_nine ∷ [])) (v6_like 10 1 0 1 40000) (outside 9 1935)
        ≡ Err Unmapped }
    ensures none_yet { inward_of (cone []) (v4 public_host 40000) (outside 9 1935) ≡ Err Unmapped }
    ensures origin { inward_of (cone (from_to (local 2 1935) (outside 9 1935) ∷ []))
        (v4 public_host 40000) (outside 9 1935) ≡ Ok (inside 2 1935) }
{}

/// A mapping lets in the hosts that it was used towards itself, the first and the last of them.
pub fn a_mapping_has_its_own_hosts()
    ensures first { inward_of (cone (to_eight ∷ to_nine ∷ [])) (v4 public_host 40000) (outside 9 7)
        ≡ Ok (inside 2 1935) }
    ensures last { inward_of (cone (to_eight ∷ to_nine ∷ [])) (v4 public_host 40000) (outside 8 2)
        ≡ Ok (inside 2 1935) }
    ensures stranger { inward_of (cone (to_eight ∷ to_nine ∷ [])) (v4 public_host 40000)
        (outside 7 1) ≡ Err Filtered }
    ensures not_of_another { inward_of (by_hosts (to_eight ∷ to_nine ∷ [])) (v4 public_host 40000)
        (outside 8 1) ≡ Err Filtered }
    ensures its_own { inward_of (by_hosts (to_eight ∷ to_nine ∷ [])) (v4 public_host 40001)
        (outside 8 2) ≡ Ok (inside 2 1935) }
    ensures not_of_a_neighbour { inward_of
        (cone (from_to (inside 3 1935) (outside 8 1) ∷ to_nine ∷ [])) (v4 public_host 40000)
        (outside 8 1) ≡ Err Filtered }
    ensures the_neighbours { inward_of
        (cone (from_to (inside 3 1935) (outside 8 1) ∷ to_nine ∷ [])) (v4 public_host 40001)
        (outside 8 1) ≡ Ok (inside 3 1935) }
{}
