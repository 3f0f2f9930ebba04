//! What makes way for a birth.

ghost use Rattle.std.specs.Prelude.{◌≡◌, ℕ, List};
ghost use Rattle.endpoint_laws.specs.Past.{Past, with_entry};
ghost use Rattle.endpoint_model.specs.Views.{fact_in};
ghost use Rattle.log_digest.specs.Changes.{MayCome};
ghost use Rattle.log_digest.specs.Digest.{IsDigestOf};
ghost use Rattle.log_births.specs.Births.{IsWay};
ghost use Rattle.log_births.specs.Ways.{is_for_born, way_by, way_from};

use crate::party::Way;
use endpoint_model::Entry;
use glare_core::{Fact, Held, Why};
use log_digest::Digest;

/// Whether what ends by this cause makes way for a birth.
fn is_for_born(why: Why) -> bool
    ensures { result ≡ is_for_born why }
{
    match why {
        Why::Glare => true,
        Why::Override => true,
        Why::Cancelled => false,
        Why::Expired => false,
        Why::Unconfirmed => false,
        Why::Near => false,
        Why::Far => false,
        Why::Idle => false,
    }
}

/// What was before the end of what is held with a peer, where so many session IDs are in use.
fn way_from(peer: &[u8; 32], thing: Option<Held>, uses: usize) -> Option<Way>
    ensures { result ≡ way_from peer.now thing uses }
{
    match thing {
        Some(thing) => Some(Way {
            peer: *peer,
            thing,
            uses,
        }),
        None => None,
    }
}

/// What was before an entry, where that is an end that makes way.
fn way_by(digest: &Digest, entry: &Entry) -> Option<Way>
    ensures { result ≡ way_by digest.now (fact_in entry.now) }
{
    match entry {
        Entry::Fact(Fact::Ended { peer, why, .. }) => {
            if !is_for_born(*why) {
                return None;
            }
            way_from(peer, digest.held(peer), digest.uses())
        }
        _ => None,
    }
}

/// What `born` is told of this entry, where it judges the entry directly after it. The digest is
/// that of the end before it, and the entry is one that may come. After the beginning of an event
/// it is told of nothing.
pub fn way_of(digest: &Digest, entry: &Entry) -> Option<Way>
    ensures { (own : List ℕ) (now : ℕ) (past : Past) → IsDigestOf now past digest.now →
        MayCome own past entry.now → IsWay now (with_entry now entry.now past) result }
{
    way_by(digest, entry)
}
