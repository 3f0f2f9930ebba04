//! The rules of a world at their edges, each with the value beside it. The functions do nothing:
//! the contract of each states what the definitions are there that the other contracts cite. All of
//! it is own.

ghost use Rattle.std.specs.Prelude.{◌≡◌, ℕ, List, [], ◌∷◌, replicate, Some, None, true, false};
ghost use Rattle.sha2.specs.Sha256.{sha256};
ghost use Rattle.rtmfp_forms.specs.Address.{AddressParts};
ghost use Rattle.endpoint_model.specs.Event.{Setup};
ghost use Rattle.endpoint_model.specs.State.{State};
ghost use Rattle.rendezvous_world.specs.Seen.{EndSeen};
ghost use Rattle.rendezvous_world.specs.Draws.{draws_of};
ghost use Rattle.rendezvous_world.specs.Datagrams.{nth, bent, forged_number};
ghost use Rattle.rendezvous_world.specs.Faults.{is_bad, step_fault};
ghost use Rattle.rendezvous_world.specs.Stepping.{new_setup};
ghost use Rattle.rendezvous_world.specs.Edges.{world_of, called_a, AreOthers};

use crate::step::{Step, StepFault};

/// The random values of line 258: the numbers 0, 1 or 2 and the line, of 64 bits each, for the
/// nonce, the token and the tag; and the line as the word.
pub fn random_values()
    ensures nonce { (draws_of 258).nonce ≡ 0 ∷ 0 ∷ 0 ∷ 0 ∷ 0 ∷ 0 ∷ 0 ∷ 0 ∷ 0 ∷ 0 ∷ 0 ∷ 0 ∷ 0 ∷ 0 ∷ 1
        ∷ 2 ∷ [] }
    ensures token { (draws_of 258).token ≡ 0 ∷ 0 ∷ 0 ∷ 0 ∷ 0 ∷ 0 ∷ 0 ∷ 1 ∷ 0 ∷ 0 ∷ 0 ∷ 0 ∷ 0 ∷ 0 ∷ 1
        ∷ 2 ∷ [] }
    ensures tag { (draws_of 258).tag ≡ 0 ∷ 0 ∷ 0 ∷ 0 ∷ 0 ∷ 0 ∷ 0 ∷ 2 ∷ 0 ∷ 0 ∷ 0 ∷ 0 ∷ 0 ∷ 0 ∷ 1 ∷ 2
        ∷ [] }
    ensures word { (draws_of 258).word ≡ 258 }
{}

/// A new end is given the counted secret of generation 0, which is 32 bytes 0, and its fingerprint
/// as the secret of its cookies.
pub fn secrets()
    ensures generation { (new_setup 3 4 (7 ∷ [])).generation ≡ 0 }
    ensures of_the_group { (new_setup 3 4 (7 ∷ [])).secret ≡ replicate 32 0 }
    ensures of_cookies { (new_setup 3 4 (7 ∷ [])).cookie_secret ≡ sha256 (7 ∷ []) }
    ensures most_peers { (new_setup 3 4 (7 ∷ [])).config.max_peers ≡ 3 }
    ensures most_sessions { (new_setup 3 4 (7 ∷ [])).config.max_sessions ≡ 4 }
    ensures forged { forged_number ≡ 255 ∷ 255 ∷ 255 ∷ 255 ∷ 255 ∷ 255 ∷ 255 ∷ 255 ∷ 255 ∷ 255 ∷ 255
        ∷ 255 ∷ 255 ∷ 255 ∷ 255 ∷ 255 ∷ [] }
{}

/// An end knows 1 to 1,048,576 peers and has 1 to 65,536 attempts and sessions, there are at most
/// 1,024 ends, and no two have one name.
pub fn new_ends()
    ensures least { is_bad (world_of []) (Step.End (98 ∷ []) 1 1 (7 ∷ [])) ≡ false }
    ensures no_peer { is_bad (world_of []) (Step.End (98 ∷ []) 0 1 (7 ∷ [])) ≡ true }
    ensures no_session { is_bad (world_of []) (Step.End (98 ∷ []) 1 0 (7 ∷ [])) ≡ true }
    ensures most { is_bad (world_of []) (Step.End (98 ∷ []) 1048576 65536 (7 ∷ [])) ≡ false }
    ensures one_peer_more { is_bad (world_of []) (Step.End (98 ∷ []) 1048577 1 (7 ∷ [])) ≡ true }
    ensures one_session_more { is_bad (world_of []) (Step.End (98 ∷ []) 1 65537 (7 ∷ [])) ≡ true }
    ensures same_name { (setup : Setup) (state : State) →
        is_bad (world_of (called_a setup state ∷ [])) (Step.End (97 ∷ []) 1 1 (7 ∷ [])) ≡ true }
    ensures last { (ends : List EndSeen) → AreOthers 1023 (7 ∷ []) ends →
        is_bad (world_of ends) (Step.End (98 ∷ []) 1 1 (7 ∷ [])) ≡ false }
    ensures one_end_more { (ends : List EndSeen) → AreOthers 1024 (7 ∷ []) ends →
        is_bad (world_of ends) (Step.End (98 ∷ []) 1 1 (7 ∷ [])) ≡ true }
{}

/// An end is narrowed to a limit of 96 to 1,164, the moment doesn't go back, and at most 2,048 bytes
/// reach an end, or a plain packet of at most 1,164 that is forged.
pub fn other_limits()
    ensures least_limit { is_bad (world_of []) (Step.Narrow 0 96) ≡ false }
    ensures below { is_bad (world_of []) (Step.Narrow 0 95) ≡ true }
    ensures most_limit { is_bad (world_of []) (Step.Narrow 0 1164) ≡ false }
    ensures above { is_bad (world_of []) (Step.Narrow 0 1165) ≡ true }
    ensures same_moment { is_bad (world_of []) (Step.At 5) ≡ false }
    ensures earlier { is_bad (world_of []) (Step.At 4) ≡ true }
    ensures most_bytes { (from : AddressParts) →
        is_bad (world_of []) (Step.Inject 0 from (replicate 2048 7)) ≡ false }
    ensures more_bytes { (from : AddressParts) →
        is_bad (world_of []) (Step.Inject 0 from (replicate 2049 7)) ≡ true }
    ensures most_plain { (from : AddressParts) →
        is_bad (world_of []) (Step.Forge 0 from (replicate 1164 7)) ≡ false }
    ensures more_plain { (from : AddressParts) →
        is_bad (world_of []) (Step.Forge 0 from (replicate 1165 7)) ≡ true }
{}

/// Of two reasons an end that isn't there comes first, then a datagram that isn't there, then what
/// is outside its limits.
pub fn order_of_faults()
    ensures end_before_datagram { (from : AddressParts) →
        step_fault (world_of []) (Step.Deliver 1 0 from) ≡ Some StepFault.NoEnd }
    ensures end_before_limits { (from : AddressParts) →
        step_fault (world_of []) (Step.Inject 0 from (replicate 2049 7)) ≡ Some StepFault.NoEnd }
    ensures end_before_limit { step_fault (world_of []) (Step.Narrow 0 95)
        ≡ Some StepFault.NoEnd }
    ensures peer { (setup : Setup) (state : State) (list : List AddressParts) →
        step_fault (world_of (called_a setup state ∷ [])) (Step.Open 0 1 list)
        ≡ Some StepFault.NoEnd }
    ensures datagram { (setup : Setup) (state : State) (from : AddressParts) →
        step_fault (world_of (called_a setup state ∷ [])) (Step.Deliver 1 0 from)
        ≡ Some StepFault.NoDatagram }
    ensures bent_datagram { (setup : Setup) (state : State) (from : AddressParts) →
        step_fault (world_of (called_a setup state ∷ [])) (Step.Bent 1 0 0 from)
        ≡ Some StepFault.NoDatagram }
    ensures limits_before_forged { (setup : Setup) (state : State) (from : AddressParts) →
        step_fault (world_of (called_a setup state ∷ [])) (Step.Inject 0 from (replicate 2049 7))
        ≡ Some StepFault.BadStep }
{}

/// Datagrams are counted from 1, and bytes from 0; the lowest bit of a byte is turned.
pub fn counting()
    ensures none { nth {A = ℕ} (7 ∷ 8 ∷ []) 0 ≡ None }
    ensures first { nth {A = ℕ} (7 ∷ 8 ∷ []) 1 ≡ Some 7 }
    ensures second { nth {A = ℕ} (7 ∷ 8 ∷ []) 2 ≡ Some 8 }
    ensures behind { nth {A = ℕ} (7 ∷ 8 ∷ []) 3 ≡ None }
    ensures first_byte { bent 0 (Some (254 ∷ 6 ∷ [])) ≡ Some (255 ∷ 6 ∷ []) }
    ensures last_byte { bent 1 (Some (254 ∷ 7 ∷ [])) ≡ Some (254 ∷ 6 ∷ []) }
    ensures no_byte { bent 2 (Some (254 ∷ 7 ∷ [])) ≡ None }
{}
