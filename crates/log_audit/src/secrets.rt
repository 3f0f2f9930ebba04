//! The secrets of a group that logs tell.

ghost use Rattle.std.specs.Prelude.{◌≡◌, IfOk, OnOk};
ghost use Rattle.endpoint_model.specs.Event.{learn_in};
ghost use Rattle.log_values.specs.Events.{event_of};
ghost use Rattle.log_values.specs.Told.{IsOrder, history_of, logs_of};
ghost use Rattle.log_verdict.specs.Told.{secrets_in, setups_of, with_entries, with_firsts};

use crate::places::{next_event, none_seen};
use endpoint_model::Entry;
use log_packets::SecretMap;
use log_values::{EndLog, Logged, LoggedCall};
use rtmfp_base::Memory;
use std::alloc::Global;

/// Adds those that ends were given first.
fn add_firsts(secrets: &mut SecretMap, logs: &[EndLog]) -> Result<(), Memory>
    ensures { OnOk result (secrets.new ≡ with_firsts (setups_of logs.now) secrets.old) }
{
    let mut rest = logs;
    while let [log, more @ ..] = rest {
        rest = more;
        let _is_it = secrets.add(log.generation, &log.secret)?;
    }
    Ok(())
}

/// Adds what an event learns.
fn add_learnt(secrets: &mut SecretMap, event: &Logged) -> Result<(), Memory>
    ensures { OnOk result (secrets.new ≡ with_entries (learn_in (event_of event.now).call)
        (event_of event.now).entries secrets.old) }
{
    let LoggedCall::Learn { secret } = &event.call else {
        return Ok(());
    };
    let mut rest = event.entries.as_slice();
    while let [entry, more @ ..] = rest {
        rest = more;
        if let Entry::Learnt { generation } = entry {
            let _is_it = secrets.add(*generation, secret)?;
        }
    }
    Ok(())
}

/// The secrets that count in an audit: of two for one number it is the first one, those that ends
/// were given first before those that were learnt.
pub(crate) fn secrets_of(logs: &[EndLog], order: &[u32], alloc: Global) -> Result<SecretMap, Memory>
    requires { IsOrder (logs_of logs.now) order.now }
    ensures { IfOk result (λ secrets.
        secrets ≡ secrets_in (setups_of logs.now) (history_of logs.now order.now)) }
{
    let mut secrets = SecretMap::new(alloc);
    add_firsts(&mut secrets, logs)?;
    let mut seen = none_seen(logs, alloc)?;
    let mut rest = order;
    while let [who, more @ ..] = rest {
        let event = next_event(logs, &mut seen, *who as usize);
        add_learnt(&mut secrets, event)?;
        rest = more;
    }
    Ok(secrets)
}
