//! What lines say, as values of logs.

ghost use Rattle.std.specs.Prelude.{◌≡◌, []};
ghost use Rattle.log_values.specs.Events.{event_of, events_of, setup_of};
ghost use Rattle.log_reading.specs.Said.{call_said, entry_said, event_said, setup_said};

use audit_text::{LogCall, LogEntry, LogEvent, LogHead};
use endpoint_model::Entry;
use log_values::{EndLog, Logged, LoggedCall};
use std::alloc::Global;

/// The call that a line tells.
fn call_of(call: LogCall) -> LoggedCall
    ensures { result ≡ call_said call }
{
    match call {
        LogCall::Open { peer, tag } => LoggedCall::Open { peer, tag },
        LogCall::Seek { name, tag } => LoggedCall::Seek { name, tag },
        LogCall::Cancel { n } => LoggedCall::Cancel { n },
        LogCall::Unseek { near } => LoggedCall::Unseek { near },
        LogCall::Close { near } => LoggedCall::Close { near },
        LogCall::Learn { secret } => LoggedCall::Learn { secret },
        LogCall::Advance => LoggedCall::Advance,
        LogCall::Receive { from, datagram } => LoggedCall::Receive { from, datagram },
        LogCall::Tick => LoggedCall::Tick,
        LogCall::Other => LoggedCall::Other,
    }
}

/// The event that a line tells, so far without entries. It takes no memory.
pub(crate) fn event_of(alloc: Global, event: LogEvent) -> Logged
    ensures { event_of result ≡ event_said event }
{
    let nonce = event.nonce;
    Logged {
        moment: event.moment,
        nonce,
        call: call_of(event.call),
        entries: Vec::new(alloc),
    }
}

/// The entry that a line tells.
pub(crate) fn entry_of(entry: LogEntry) -> Entry
    ensures { result ≡ entry_said entry }
{
    match entry {
        LogEntry::Fact(fact) => Entry::Fact(fact),
        LogEntry::Closed { near } => Entry::Closed { near },
        LogEntry::Sought { near, name } => Entry::Sought { near, name },
        LogEntry::Unsought { near, why } => Entry::Unsought { near, why },
        LogEntry::Learnt { generation } => Entry::Learnt { generation },
        LogEntry::Advanced { generation } => Entry::Advanced { generation },
        LogEntry::Out {
            to,
            datagram,
            context,
        } => Entry::Out {
            to,
            datagram,
            context,
        },
    }
}

/// The log of an end that a line tells of, so far without events. It takes no memory.
pub(crate) fn log_of(alloc: Global, head: LogHead) -> EndLog
    ensures setup { setup_of result ≡ setup_said head }
    ensures events { events_of result ≡ [] }
{
    let secret = head.secret;
    let cookie_secret = head.cookie_secret;
    EndLog {
        max_peers: head.max_peers,
        max_sessions: head.max_sessions,
        generation: head.generation,
        secret,
        cookie_secret,
        cert: head.cert,
        events: Vec::new(alloc),
    }
}
