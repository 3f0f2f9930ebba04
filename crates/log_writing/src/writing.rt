//! The lines of ends and events, added to a text.
ghost use Rattle.std.specs.Prelude.{◌≡◌, ◌++◌, ◌∷◌, [], is_some, OnOk};
ghost use Rattle.endpoint_model.specs.Event.{Event, Setup};
ghost use Rattle.audit_text.specs.Grammar.{call_text};
ghost use Rattle.log_writing.specs.Written.{entry_lines, event_lines, head_line, said, text_of, written_call, written_entry, written_nonce};
ghost use Rattle.log_writing.specs.Texts.{text_in};

use crate::said::SaidCall;
use audit_text::LogHead;
use audit_text::pushing::{
    push_advanced, push_cancel, push_close, push_closed, push_fact, push_front, push_learn,
    push_learnt, push_log, push_open, push_out, push_receive, push_seek, push_sought, push_unseek,
    push_unsought,
};
use endpoint_model::Entry;
use identity::Certificate;
use rtmfp_text::{Name, Text};
use std::alloc::AllocError;

/// Adds a call.
#[tactic(auto, unfolding(audit_text::specs::Grammar::call_text))]
fn push_call(call: &SaidCall<'_>, text: &mut Text) -> Result<(), AllocError>
    ensures { OnOk result (text.new ≡ text.old ++ call_text (said call.now)) }
{
    match call {
        SaidCall::Open { peer, tag } => push_open(peer, tag, text),
        SaidCall::Seek { name, tag } => push_seek(name, tag, text),
        SaidCall::Cancel { n } => push_cancel(*n, text),
        SaidCall::Unseek { near } => push_unseek(*near, text),
        SaidCall::Close { near } => push_close(*near, text),
        SaidCall::Learn { secret } => push_learn(secret, text),
        SaidCall::Advance => text.push("advance"),
        SaidCall::Receive { from, datagram } => push_receive(from, datagram, text),
        SaidCall::Tick => text.push("tick"),
        SaidCall::Other => text.push("other"),
    }
}

/// Whether an entry is written.
fn is_written(entry: &Entry) -> bool
    ensures { result ≡ is_some (written_entry entry.now) }
{
    match entry {
        Entry::Fact(_) => true,
        Entry::Closed { .. } => true,
        Entry::Sought { .. } => true,
        Entry::Unsought { .. } => true,
        Entry::Learnt { .. } => true,
        Entry::Advanced { .. } => true,
        Entry::Out { .. } => true,
        _ => false,
    }
}

/// Adds what stands in the line of an entry; nothing for one that isn't written.
#[tactic(auto, unfolding(audit_text::specs::Grammar::entry_text))]
fn push_told(entry: &Entry, text: &mut Text) -> Result<(), AllocError>
    ensures { OnOk result (text.new ≡ text.old ++ text_in (written_entry entry.now)) }
{
    match entry {
        Entry::Fact(fact) => push_fact(fact, text),
        Entry::Closed { near } => push_closed(*near, text),
        Entry::Sought { near, name } => push_sought(*near, name, text),
        Entry::Unsought { near, why } => push_unsought(*near, *why, text),
        Entry::Learnt { generation } => push_learnt(*generation, text),
        Entry::Advanced { generation } => push_advanced(*generation, text),
        Entry::Out {
            to,
            datagram,
            context,
        } => push_out(to, datagram.bytes(), context, text),
        _ => text.push(""),
    }
}

/// Adds the line of an entry; none for one that isn't written.
fn push_entry(entry: &Entry, text: &mut Text) -> Result<(), AllocError>
    ensures { OnOk result (text.new ≡ text.old ++ text_of (entry_lines (entry.now ∷ []))) }
{
    if !is_written(entry) {
        return Ok(());
    }
    text.push("+ ")?;
    push_told(entry, text)?;
    text.push("\n")?;
    Ok(())
}

/// Adds the lines of entries, in their order.
fn push_entries(entries: &[Entry], text: &mut Text) -> Result<(), AllocError>
    ensures { OnOk result (text.new ≡ text.old ++ text_of (entry_lines entries.now)) }
{
    let mut rest = entries;
    while let [entry, others @ ..] = rest {
        push_entry(entry, text)?;
        rest = others;
    }
    Ok(())
}

/// Adds the lines of an event: that of its call, and those of its entries in their order, without
/// those that aren't written.
///
/// `moment` is the largest moment, in milliseconds, that the end was given so far, the event's own
/// with it. `nonce` is what the call drew; it is 16 zeros for a call that draws nothing.
pub fn push_event(
    name: &Name,
    moment: u64,
    nonce: &[u8; 16],
    call: &SaidCall<'_>,
    entries: &[Entry],
    text: &mut Text,
) -> Result<(), AllocError>
    ensures { OnOk result ((e : Event) → written_nonce e.call ≡ nonce.now →
        written_call e.call ≡ said call.now → e.entries ≡ entries.now →
        text.new ≡ text.old ++ text_of (event_lines name.now moment e)) }
{
    push_front(name, moment, nonce, text)?;
    push_call(call, text)?;
    text.push("\n")?;
    push_entries(entries, text)?;
    Ok(())
}

/// Adds the line of what an end was given first: its limits, the number of its first generation,
/// the secret of its group in that, the secret of its cookies, and its certificate.
pub fn push_head(
    name: &Name,
    max_peers: u32,
    max_sessions: u32,
    generation: u64,
    secret: &[u8; 32],
    cookie_secret: &[u8; 32],
    cert: &Certificate,
    text: &mut Text,
) -> Result<(), AllocError>
    ensures { OnOk result ((setup : Setup) → setup.config.max_peers ≡ max_peers →
        setup.config.max_sessions ≡ max_sessions → setup.generation ≡ generation →
        setup.secret ≡ secret.now → setup.cookie_secret ≡ cookie_secret.now →
        setup.cert ≡ cert.now →
        text.new ≡ text.old ++ text_of (head_line name.now setup ∷ [])) }
{
    let head = LogHead {
        max_peers,
        max_sessions,
        generation,
        secret: *secret,
        cookie_secret: *cookie_secret,
        cert: *cert,
    };
    push_log(name, &head, text)?;
    text.push("\n")?;
    Ok(())
}
