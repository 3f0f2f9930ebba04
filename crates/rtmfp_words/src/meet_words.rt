//! The words of `meet`.
ghost use Rattle.std.specs.Prelude.{◌≡◌, ◌⊎◌, ℕ, Some, None, Ok, Err, MatchResult, IfOk, map, string_bytes};
ghost use Rattle.rtmfp_words.specs.Node.{IsMeet};
ghost use Rattle.rtmfp_words.specs.NodeReading.{is_bare, meet_from, meet_of, port_of, turns_of};

use crate::fault::WordsFault;
use crate::scan::{Scan, scan_behind};
use crate::values::needed;
use std::alloc::Global;

/// What `meet` is told (own).
#[derive(Clone, Copy, Debug, PartialEq, Eq)]
pub struct MeetWords {
    /// The first of three ports that follow each other.
    pub port: u16,
    /// How many turns each node takes.
    pub turns: u64,
}

/// What the words after the program's name tell `meet` (own).
///
/// They are `meet` with the options `--port P` and `--turns N`, each once, in either order. P is 1
/// to 65,533, and N is 1 to 1,000,000.
pub fn read_meet_words(alloc: Global, words: &[String]) -> Result<MeetWords, WordsFault>
    // What is read is said.
    ensures reads { IfOk result (λ m. IsMeet words.now m.port m.turns) }
    // What is said is read, unless there is no memory.
    ensures only { (port turns : ℕ) → IsMeet words.now port turns →
        (result ≡ Ok (record { port = port; turns = turns })) ⊎ (result ≡ Err WordsFault.Memory) }
{
    find_meet(alloc, words)
}

#[tactic(auto, unfolding(crate::specs::NodeReading::meet_of))]
fn find_meet(alloc: Global, words: &[String]) -> Result<MeetWords, WordsFault>
    ensures { MatchResult result (λ m. meet_of (map string_bytes words.now) ≡ Some m)
        (λ fault. fault ≡ WordsFault.Faulty → meet_of (map string_bytes words.now) ≡ None) }
{
    match scan_behind(alloc, b"meet", words) {
        Ok(scan) => match meet_from(&scan) {
            Some(meet) => Ok(meet),
            None => Err(WordsFault::Faulty),
        },
        Err(fault) => Err(fault),
    }
}

#[tactic(auto, unfolding(crate::specs::NodeReading::meet_from))]
fn meet_from(scan: &Scan) -> Option<MeetWords>
    ensures { result ≡ meet_from scan.now }
{
    if !is_bare(scan) {
        return None;
    }
    let port = port_of(scan)?;
    let turns = turns_of(scan)?;
    Some(MeetWords { port, turns })
}

/// Whether there is nothing but `--port` and `--turns`.
fn is_bare(scan: &Scan) -> bool
    ensures { result ≡ is_bare scan.now }
{
    scan.plain.is_empty()
        && scan.instance.is_none()
        && scan.send.is_none()
        && scan.next.is_none()
        && scan.advance.is_none()
        && scan.journal.is_none()
        && !scan.introduce
}

/// The first port.
fn port_of(scan: &Scan) -> Option<u16>
    ensures { result ≡ port_of scan.now }
{
    match needed(1, 65_533, &scan.port) {
        Some(port) => Some(port as u16),
        None => None,
    }
}

/// The count of turns.
pub(crate) fn turns_of(scan: &Scan) -> Option<u64>
    ensures { result ≡ turns_of scan.now }
{
    needed(1, 1_000_000, &scan.turns)
}
