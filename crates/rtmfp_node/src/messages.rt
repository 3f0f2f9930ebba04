//! The message for each session that a node opens.
ghost use Rattle.std.specs.Prelude.{◌≡◌, ◌∷◌, [], IfSome, None, OnOk};
ghost use Rattle.endpoint_model.specs.Views.{fact_in};
ghost use Rattle.rtmfp_node.specs.Acting.{Messages, SendCalls};
ghost use Rattle.rtmfp_node.specs.Events.{opened_by};

use crate::calls::{open_flow, queue};
use crate::notes::Notes;
use endpoint::{Endpoint, Entry, Outbox};
use glare_core::Fact;
use rtmfp_base::Message;
use std::alloc::AllocError;

/// Makes the calls for each session that entries tell as opened, where there is a message.
pub(crate) fn send_calls(
    end: &mut Endpoint,
    message: &Option<Message>,
    heard: &[Entry],
    turn: u64,
    out: &mut Outbox,
    notes: &mut Notes,
) -> Result<(), AllocError>
    ensures { OnOk result (SendCalls message.now heard.now turn end.old end.new out.old.entries
        out.new.entries notes.old notes.new) }
{
    match message {
        None => Ok(()),
        Some(message) => {
            send_messages(end, message.bytes(), heard, turn, out, notes)?;
            Ok(())
        }
    }
}

/// Opens a flow and queues the message, for each session that entries tell as opened.
fn send_messages(
    end: &mut Endpoint,
    message: &[u8],
    heard: &[Entry],
    turn: u64,
    out: &mut Outbox,
    notes: &mut Notes,
) -> Result<(), AllocError>
    ensures { OnOk result (SendCalls (Some message.now) heard.now turn end.old end.new
        out.old.entries out.new.entries notes.old notes.new) }
{
    for entry in heard {
        send_for(end, message, entry, turn, out, notes)?;
    }
    Ok(())
}

/// The same for what one entry tells.
fn send_for(
    end: &mut Endpoint,
    message: &[u8],
    entry: &Entry,
    turn: u64,
    out: &mut Outbox,
    notes: &mut Notes,
) -> Result<(), AllocError>
    ensures { OnOk result (SendCalls (Some message.now) (entry.now ∷ []) turn end.old end.new
        out.old.entries out.new.entries notes.old notes.new) }
{
    match opened_in(entry) {
        None => Ok(()),
        Some(near) => {
            send_message(end, message, near, turn, out, notes)?;
            Ok(())
        }
    }
}

/// The same for one session.
fn send_message(
    end: &mut Endpoint,
    message: &[u8],
    near: u32,
    turn: u64,
    out: &mut Outbox,
    notes: &mut Notes,
) -> Result<(), AllocError>
    ensures { OnOk result (Messages message.now (near ∷ []) turn end.old end.new out.old.entries
        out.new.entries notes.old notes.new) }
{
    open_flow(end, near, turn, out, notes)?;
    queue(end, near, message, turn, out, notes)?;
    Ok(())
}

/// The session that an entry tells as opened.
fn opened_in(entry: &Entry) -> Option<u32>
    ensures some { IfSome result (λ near. opened_by (fact_in entry.now) ≡ near ∷ []) }
    ensures none { result ≡ None → opened_by (fact_in entry.now) ≡ [] }
{
    let Entry::Fact(fact) = entry else {
        return None;
    };
    opened_by(fact)
}

/// The session that a fact tells as opened.
fn opened_by(fact: &Fact) -> Option<u32>
    ensures some { IfSome result (λ near. opened_by (Some fact.now) ≡ near ∷ []) }
    ensures none { result ≡ None → opened_by (Some fact.now) ≡ [] }
{
    match fact {
        Fact::Opened(joined) => Some(joined.near),
        Fact::Started { .. } => None,
        Fact::Born(_) => None,
        Fact::Confirmed { .. } => None,
        Fact::Ended { .. } => None,
    }
}
