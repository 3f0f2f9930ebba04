//! What calls on a translator keep, for callers' proofs: by the calls alone, whatever its mappings
//! are. The functions do nothing: the contract of each is its law.

ghost use Rattle.std.specs.Prelude.{ℕ, List};
ghost use Rattle.translators.specs.declared.rule.Rule.{Rule as R};
ghost use Rattle.translators.specs.Happenings.{MakesTheMap, HaveTheirOwnAddress, KeepTheirAddress, TakesTheNextPort, AreRefusedByCalls, ComesInByCallsAlone};

/// The mappings of a translator are those that its calls make, in their order.
pub fn calls_make_the_mappings()
    ensures { (mapping filter : R) (host : List ℕ) (first : ℕ) →
        MakesTheMap mapping filter host first }
{}

/// Two different inner places never have the same public address, whenever they called; where
/// mappings are dependent, nor have calls to two different hosts.
pub fn each_inner_place_has_its_own_address()
    ensures { (mapping filter : R) (host : List ℕ) (first : ℕ) →
        HaveTheirOwnAddress mapping filter host first }
{}

/// An inner place has the same public address whenever it calls; where mappings are dependent,
/// whenever it calls the same host.
pub fn each_inner_place_keeps_its_address()
    ensures { (mapping filter : R) (host : List ℕ) (first : ℕ) →
        KeepTheirAddress mapping filter host first }
{}

/// The ports are given from the first one on, one to each call that has no mapping yet, up to 65535.
pub fn ports_are_given_in_their_order()
    ensures next { (mapping filter : R) (host : List ℕ) (first : ℕ) →
        TakesTheNextPort mapping filter host first }
    ensures refused { (mapping filter : R) (host : List ℕ) (first : ℕ) →
        AreRefusedByCalls mapping filter host first }
{}

/// What comes to a public place goes to the inner place whose calls had it as their answer; through
/// a dependent filter exactly where such a call went to the host that it comes from. Nothing else
/// comes in.
pub fn what_comes_in_was_called_for()
    ensures { (mapping filter : R) (host : List ℕ) (first : ℕ) →
        ComesInByCallsAlone mapping filter host first }
{}
