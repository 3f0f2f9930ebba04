//! The events of logs by their places.

ghost use Rattle.std.specs.Prelude.{◌≡◌, ◌<◌, ◌≤◌, IfSome, None, get_or, length};
ghost use Rattle.log_values.specs.Events.{event_of};
ghost use Rattle.log_values.specs.Told.{events_in, logs_of, no_event};

use log_values::{EndLog, Logged};

/// The event with this index in the log of this end; None exactly where there is none (own).
pub fn event_at(logs: &[EndLog], who: usize, at: usize) -> Option<&Logged>
    ensures there { IfSome result (λ event. at < length (events_in (logs_of logs.now) who)) }
    ensures event { IfSome result (λ event.
        event_of event.now ≡ get_or (events_in (logs_of logs.now) who) at no_event) }
    ensures none { result ≡ None → length (events_in (logs_of logs.now) who) ≤ at }
{
    match logs.get(who) {
        Some(log) => log.events.as_slice().get(at),
        None => None,
    }
}
