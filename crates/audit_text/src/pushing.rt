//! What stands in the lines of a log's text, added to a text piece by piece. Each function that
//! adds a call or an entry gives just what stands for it in its line.
ghost use Rattle.std.specs.Prelude.{◌≡◌, ◌++◌, codes, OnOk};
ghost use Rattle.rtmfp_text.specs.Words.{bytes_text};
ghost use Rattle.audit_text.specs.declared.line.LogCall.{LogCall};
ghost use Rattle.audit_text.specs.Grammar.{call_text, context_text, entry_text, fact_text, joined_text, line_text};

use crate::line::{LogCall, LogEntry, LogHead, LogLine};
use crate::texts::{
    push_bytes, push_cert, push_digits, push_name, push_number, push_number32, push_place,
    push_sender, push_service, push_why,
};
use crypto_profile::Context;
use glare_core::{Fact, Joined, Why};
use identity::ServiceName;
use rtmfp_forms::Address;
use rtmfp_text::{Name, Text};
use std::alloc::AllocError;

/// Adds `open`, the fingerprint of the end that is called, and the tag.
pub fn push_open(peer: &[u8; 32], tag: &[u8; 16], text: &mut Text) -> Result<(), AllocError>
    ensures { OnOk result (text.new ≡ text.old ++ call_text (LogCall.Open peer.now tag.now)) }
{
    text.push("open")?;
    push_digits(peer, text)?;
    push_digits(tag, text)?;
    Ok(())
}

/// Adds `seek`, the name that is looked for, and the tag.
pub fn push_seek(name: &ServiceName, tag: &[u8; 16], text: &mut Text) -> Result<(), AllocError>
    ensures { OnOk result (text.new ≡ text.old ++ call_text (LogCall.Seek name.now tag.now)) }
{
    text.push("seek")?;
    push_service(name, text)?;
    push_digits(tag, text)?;
    Ok(())
}

/// Adds `cancel` and the number of an attempt.
pub fn push_cancel(n: u64, text: &mut Text) -> Result<(), AllocError>
    ensures { OnOk result (text.new ≡ text.old ++ call_text (LogCall.Cancel n)) }
{
    text.push("cancel")?;
    push_number(n, text)?;
    Ok(())
}

/// Adds `unseek` and the ID of a search.
pub fn push_unseek(near: u32, text: &mut Text) -> Result<(), AllocError>
    ensures { OnOk result (text.new ≡ text.old ++ call_text (LogCall.Unseek near)) }
{
    text.push("unseek")?;
    push_number32(near, text)?;
    Ok(())
}

/// Adds `close` and the ID of a session.
pub fn push_close(near: u32, text: &mut Text) -> Result<(), AllocError>
    ensures { OnOk result (text.new ≡ text.old ++ call_text (LogCall.Close near)) }
{
    text.push("close")?;
    push_number32(near, text)?;
    Ok(())
}

/// Adds `learn` and a secret.
pub fn push_learn(secret: &[u8; 32], text: &mut Text) -> Result<(), AllocError>
    ensures { OnOk result (text.new ≡ text.old ++ call_text (LogCall.Learn secret.now)) }
{
    text.push("learn")?;
    push_digits(secret, text)?;
    Ok(())
}

/// Adds `receive`, where a datagram came from, and its bytes.
pub fn push_receive(from: &Address, datagram: &[u8], text: &mut Text) -> Result<(), AllocError>
    ensures { OnOk result (text.new ≡ text.old
        ++ call_text (LogCall.Receive from.now datagram.now)) }
{
    text.push("receive")?;
    push_place(from, text)?;
    push_bytes(datagram, text)?;
    Ok(())
}

/// Adds the fact that an attempt was started.
pub fn push_started(
    peer: &[u8; 32],
    n: u64,
    near: u32,
    ni: &[u8; 16],
    text: &mut Text,
) -> Result<(), AllocError>
    ensures { OnOk result (text.new ≡ text.old ++ fact_text (Fact.Started peer.now n near ni.now)) }
{
    text.push("started")?;
    push_digits(peer, text)?;
    push_number(n, text)?;
    push_number32(near, text)?;
    push_digits(ni, text)?;
    Ok(())
}

/// Adds a space and the values of a session.
fn push_joined(joined: &Joined, text: &mut Text) -> Result<(), AllocError>
    ensures { OnOk result (text.new ≡ text.old ++ (codes " " ++ joined_text joined.now)) }
{
    push_digits(&joined.peer, text)?;
    push_number(joined.n, text)?;
    push_number32(joined.near, text)?;
    push_number32(joined.far, text)?;
    push_digits(&joined.ni, text)?;
    push_digits(&joined.nr, text)?;
    push_number(joined.k, text)?;
    Ok(())
}

/// Adds the fact that a session was born.
pub fn push_born(joined: &Joined, text: &mut Text) -> Result<(), AllocError>
    ensures { OnOk result (text.new ≡ text.old ++ fact_text (Fact.Born joined.now)) }
{
    text.push("born")?;
    push_joined(joined, text)?;
    Ok(())
}

/// Adds the fact that a session was opened.
pub fn push_opened(joined: &Joined, text: &mut Text) -> Result<(), AllocError>
    ensures { OnOk result (text.new ≡ text.old ++ fact_text (Fact.Opened joined.now)) }
{
    text.push("opened")?;
    push_joined(joined, text)?;
    Ok(())
}

/// Adds the fact that a session was confirmed.
pub fn push_confirmed(peer: &[u8; 32], near: u32, text: &mut Text) -> Result<(), AllocError>
    ensures { OnOk result (text.new ≡ text.old ++ fact_text (Fact.Confirmed peer.now near)) }
{
    text.push("confirmed")?;
    push_digits(peer, text)?;
    push_number32(near, text)?;
    Ok(())
}

/// Adds the fact that what was held ended, and why.
pub fn push_ended(peer: &[u8; 32], near: u32, why: Why, text: &mut Text) -> Result<(), AllocError>
    ensures { OnOk result (text.new ≡ text.old ++ fact_text (Fact.Ended peer.now near why)) }
{
    text.push("ended")?;
    push_digits(peer, text)?;
    push_number32(near, text)?;
    push_why(why, text)?;
    Ok(())
}

/// Adds a fact.
#[tactic(auto, unfolding(crate::specs::Grammar::fact_text))]
pub fn push_fact(fact: &Fact, text: &mut Text) -> Result<(), AllocError>
    ensures { OnOk result (text.new ≡ text.old ++ fact_text fact.now) }
{
    match fact {
        Fact::Started { peer, n, near, ni } => push_started(peer, *n, *near, ni, text),
        Fact::Born(joined) => push_born(joined, text),
        Fact::Opened(joined) => push_opened(joined, text),
        Fact::Confirmed { peer, near } => push_confirmed(peer, *near, text),
        Fact::Ended { peer, near, why } => push_ended(peer, *near, *why, text),
    }
}

/// Adds that a session which was closing is over.
pub fn push_closed(near: u32, text: &mut Text) -> Result<(), AllocError>
    ensures { OnOk result (text.new ≡ text.old ++ entry_text (LogEntry.Closed near)) }
{
    text.push("closed")?;
    push_number32(near, text)?;
    Ok(())
}

/// Adds that a search was begun.
pub fn push_sought(near: u32, name: &ServiceName, text: &mut Text) -> Result<(), AllocError>
    ensures { OnOk result (text.new ≡ text.old ++ entry_text (LogEntry.Sought near name.now)) }
{
    text.push("sought")?;
    push_number32(near, text)?;
    push_service(name, text)?;
    Ok(())
}

/// Adds that a search is over, and why.
pub fn push_unsought(near: u32, why: Why, text: &mut Text) -> Result<(), AllocError>
    ensures { OnOk result (text.new ≡ text.old ++ entry_text (LogEntry.Unsought near why)) }
{
    text.push("unsought")?;
    push_number32(near, text)?;
    push_why(why, text)?;
    Ok(())
}

/// Adds that the secret with this number was learnt.
pub fn push_learnt(generation: u64, text: &mut Text) -> Result<(), AllocError>
    ensures { OnOk result (text.new ≡ text.old ++ entry_text (LogEntry.Learnt generation)) }
{
    text.push("learnt")?;
    push_number(generation, text)?;
    Ok(())
}

/// Adds that the secret with this number became the current one.
pub fn push_advanced(generation: u64, text: &mut Text) -> Result<(), AllocError>
    ensures { OnOk result (text.new ≡ text.old ++ entry_text (LogEntry.Advanced generation)) }
{
    text.push("advanced")?;
    push_number(generation, text)?;
    Ok(())
}

/// Adds a space, the context of startup, and the datagram that it sealed.
fn push_startup(generation: u64, datagram: &[u8], text: &mut Text) -> Result<(), AllocError>
    ensures { OnOk result (text.new ≡ text.old ++ (codes " "
        ++ context_text (Context.Startup generation) (bytes_text datagram.now))) }
{
    text.push(" startup")?;
    push_number(generation, text)?;
    push_bytes(datagram, text)?;
    Ok(())
}

/// Adds a space, the context of a session, and the datagram that it sealed.
fn push_session(
    generation: u64,
    ni: &[u8; 16],
    nr: &[u8; 16],
    fp_i: &[u8; 32],
    fp_r: &[u8; 32],
    sid_i: u32,
    sid_r: u32,
    to_responder: bool,
    datagram: &[u8],
    text: &mut Text,
) -> Result<(), AllocError>
    ensures { OnOk result (text.new ≡ text.old ++ (codes " "
        ++ context_text (Context.Session generation ni.now nr.now fp_i.now fp_r.now sid_i sid_r
        to_responder) (bytes_text datagram.now))) }
{
    text.push(" session")?;
    push_number(generation, text)?;
    push_digits(ni, text)?;
    push_digits(nr, text)?;
    push_digits(fp_i, text)?;
    push_digits(fp_r, text)?;
    push_number32(sid_i, text)?;
    push_number32(sid_r, text)?;
    push_sender(to_responder, text)?;
    push_bytes(datagram, text)?;
    Ok(())
}

/// Adds a space, a context, and the datagram that it sealed.
fn push_context(context: &Context, datagram: &[u8], text: &mut Text) -> Result<(), AllocError>
    ensures { OnOk result (text.new ≡ text.old ++ (codes " "
        ++ context_text context.now (bytes_text datagram.now))) }
{
    match context {
        Context::Startup { generation } => push_startup(*generation, datagram, text),
        Context::Session {
            generation,
            ni,
            nr,
            fp_i,
            fp_r,
            sid_i,
            sid_r,
            to_responder,
        } => push_session(
            *generation,
            ni,
            nr,
            fp_i,
            fp_r,
            *sid_i,
            *sid_r,
            *to_responder,
            datagram,
            text,
        ),
    }
}

/// Adds `out`, where a datagram went to, what it was sealed for, and its bytes.
pub fn push_out(
    to: &Address,
    datagram: &[u8],
    context: &Context,
    text: &mut Text,
) -> Result<(), AllocError>
    ensures { OnOk result (text.new ≡ text.old
        ++ entry_text (LogEntry.Out to.now datagram.now context.now)) }
{
    text.push("out")?;
    push_place(to, text)?;
    push_context(context, datagram, text)?;
    Ok(())
}

// ---- lines

/// Adds the line of an end, without its LF.
pub fn push_log(name: &Name, head: &LogHead, text: &mut Text) -> Result<(), AllocError>
    ensures { OnOk result (text.new ≡ text.old ++ line_text (LogLine.Log name.now head.now)) }
{
    text.push("log")?;
    push_name(name, text)?;
    push_number32(head.max_peers, text)?;
    push_number32(head.max_sessions, text)?;
    push_number(head.generation, text)?;
    push_digits(&head.secret, text)?;
    push_digits(&head.cookie_secret, text)?;
    push_cert(&head.cert, text)?;
    Ok(())
}

/// Adds what stands before the call in the line of an event: `event`, the name, the moment, the
/// nonce, each with a space behind it.
pub fn push_front(
    name: &Name,
    moment: u64,
    nonce: &[u8; 16],
    text: &mut Text,
) -> Result<(), AllocError>
    ensures { OnOk result ((call : LogCall) → text.new ++ call_text call ≡ text.old ++ line_text
        (LogLine.Event name.now (record { moment = moment; nonce = nonce.now; call = call }))) }
{
    text.push("event")?;
    push_name(name, text)?;
    push_number(moment, text)?;
    push_digits(nonce, text)?;
    text.push(" ")?;
    Ok(())
}
