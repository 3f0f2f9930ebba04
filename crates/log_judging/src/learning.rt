//! Whether the secrets that a call learns count.

ghost use Rattle.std.specs.Prelude.{◌≡◌, ℕ, List, Some};
ghost use Rattle.endpoint_model.specs.Event.{learn_in};
ghost use Rattle.endpoint_model.specs.Views.{learnt_in};
ghost use Rattle.log_values.specs.Events.{call_of, event_of};
ghost use Rattle.log_packets.specs.Asked.{Tells};
ghost use Rattle.log_verdict.specs.Checks.{Counts, LearntCounts, LearnsCount};

use endpoint_model::Entry;
use log_packets::SecretMap;
use log_values::{Logged, LoggedCall};

/// The secret that a call learns; None where it learns none.
fn learnt_by(call: &LoggedCall) -> Option<[u8; 32]>
    ensures { (nonce : List ℕ) → result ≡ learn_in (call_of nonce call.now) }
{
    match call {
        LoggedCall::Learn { secret } => Some(*secret),
        _ => None,
    }
}

/// Whether this is the secret that counts for this number.
fn counts(secrets: &SecretMap, generation: u64, secret: &[u8; 32]) -> bool
    ensures { Tells (Counts secrets.now generation secret.now) result }
{
    match secrets.get(generation) {
        Some(group) => *group.secret().bytes() == *secret,
        None => false,
    }
}

/// Whether the secret that a call learns counts for the number of an entry, if that is a Learnt.
fn entry_counts(secrets: &SecretMap, secret: &[u8; 32], entry: &Entry) -> bool
    ensures { Tells (LearntCounts secrets.now (Some secret.now) (learnt_in entry.now)) result }
{
    match entry {
        Entry::Learnt { generation } => counts(secrets, *generation, secret),
        _ => true,
    }
}

/// The same of each of these entries.
fn all_count(secrets: &SecretMap, secret: &[u8; 32], entries: &[Entry]) -> bool
    ensures { Tells (LearnsCount secrets.now (Some secret.now) entries.now) result }
{
    let mut rest = entries;
    while let [entry, more @ ..] = rest {
        if !entry_counts(secrets, secret, entry) {
            return false;
        }
        rest = more;
    }
    true
}

/// Whether the secret that the call of an event learns, if it learns one, counts for the number of
/// each Learnt among its entries (own).
pub(crate) fn learns_count(secrets: &SecretMap, event: &Logged) -> bool
    ensures { Tells (LearnsCount secrets.now (learn_in (event_of event.now).call)
        event.now.entries.items) result }
{
    match learnt_by(&event.call) {
        Some(secret) => all_count(secrets, &secret, event.entries.as_slice()),
        None => true,
    }
}
