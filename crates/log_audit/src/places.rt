//! The events of logs, one after another, as an order tells them.

ghost use Rattle.std.specs.Prelude.{◌≡◌, ◌<◌, ◌+◌, ◌^◌, [], IfOk, length, get_or, slice_index, slice_set};
ghost use Rattle.log_values.specs.Events.{event_of};
ghost use Rattle.log_values.specs.Told.{events_in, logs_of, no_event};
ghost use Rattle.log_audit.specs.Places.{AreSeen};

use log_sent::event_at;
use log_values::{EndLog, Logged};
use rtmfp_base::Memory;
use std::alloc::Global;

/// How many events of each end went by where none did yet.
pub(crate) fn none_seen(logs: &[EndLog], alloc: Global) -> Result<Vec<usize>, Memory>
    ensures { IfOk result (λ seen. AreSeen logs.now [] seen.items) }
{
    Ok(vec![in alloc; 0; logs.len()]?)
}

/// The next event of an end, by how many of each end went by; it is one of them then.
pub(crate) fn next_event<'a>(logs: &'a [EndLog], seen: &mut Vec<usize>, who: usize) -> &'a Logged
    requires end { who < length seen.old.items }
    requires there { slice_index seen.old.items who < length (events_in (logs_of logs.now) who) }
    requires room { slice_index seen.old.items who + 1 < 2 ^ 64 }
    ensures event { event_of result.now
        ≡ get_or (events_in (logs_of logs.now) who) (slice_index seen.old.items who) no_event }
    ensures seen { seen.new.items ≡ slice_set seen.old.items who (slice_index seen.old.items who + 1) }
{
    let at = seen[who];
    let Some(event) = event_at(logs, who, at) else {
        unreachable!();
    };
    seen[who] = at + 1;
    event
}
