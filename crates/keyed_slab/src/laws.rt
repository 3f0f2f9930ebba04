//! What keys keep, for callers' proofs. The functions do nothing: the contract of each is its law.

ghost use Rattle.keyed_slab.specs.Calls.{EachKeyIsGivenOnce, RemovedIsNamedNoMore};

/// Whatever is called, no two things are put under one key. So a slot whose generations are spent
/// isn't given again.
pub fn each_key_is_given_once<T>()
    ensures { EachKeyIsGivenOnce T }
{}

/// Once the thing that a key names is taken away, the key names nothing, whatever is called then.
pub fn a_removed_key_names_nothing_again<T>()
    ensures { RemovedIsNamedNoMore T }
{}
