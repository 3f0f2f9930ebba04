//! How many pairs of an end and a peer keep a session.

ghost use Rattle.std.specs.Prelude.{◌≡◌, ◌≤◌, ◌*◌, length, map};
ghost use Rattle.rendezvous_world.specs.Inside.{end_seen};
ghost use Rattle.rendezvous_world.specs.Pairs.{kept_pairs, kept_with};

use crate::end::End;
use crate::world::World;

impl World {
    /// How many pairs of an end and a peer keep a session.
    pub fn kept_pairs(&self) -> u128
        ensures { result ≡ kept_pairs self.now.ends self.now.ends }
    {
        kept_pairs(&self.ends, &self.ends)
    }
}

/// How many pairs of an end of these, and of another of all.
fn kept_pairs(ends: &[End], all: &[End]) -> u128
    ensures count { result ≡ kept_pairs (map end_seen ends.now) (map end_seen all.now) }
    ensures few { result ≤ length ends.now * length all.now }
{
    let mut count = 0;
    let mut rest = ends;
    while let [end, more @ ..] = rest {
        count += kept_with(end, all) as u128;
        rest = more;
    }
    count
}

/// With how many of these an end keeps one.
fn kept_with(end: &End, others: &[End]) -> usize
    ensures count { result ≡ kept_with (end_seen end.now) (map end_seen others.now) }
    ensures few { result ≤ length others.now }
{
    let mut count = 0;
    let mut rest = others;
    while let [other, more @ ..] = rest {
        if end.endpoint.keeps(&other.cert.print()) {
            count += 1;
        }
        rest = more;
    }
    count
}
