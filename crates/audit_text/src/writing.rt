//! Lines that are written.
ghost use Rattle.std.specs.Prelude.{◌≡◌, ◌++◌, ℕ, List, codes, IfOk, OnOk};
ghost use Rattle.audit_text.specs.Grammar.{IsLineOf, IsWritable, call_text, entry_text, line_text};

use crate::line::{LogCall, LogEntry, LogEvent, LogLine};
use crate::pushing::{
    push_advanced, push_cancel, push_close, push_closed, push_fact, push_front, push_learn,
    push_learnt, push_log, push_open, push_out, push_receive, push_seek, push_sought, push_unseek,
    push_unsought,
};
use rtmfp_base::{Memory, Message};
use rtmfp_text::{Name, Text};
use std::alloc::{AllocError, Global};

/// Adds a call.
#[tactic(auto, unfolding(crate::specs::Grammar::call_text))]
fn push_call(call: &LogCall, text: &mut Text) -> Result<(), AllocError>
    ensures { OnOk result (text.new ≡ text.old ++ call_text call.now) }
{
    match call {
        LogCall::Open { peer, tag } => push_open(peer, tag, text),
        LogCall::Seek { name, tag } => push_seek(name, tag, text),
        LogCall::Cancel { n } => push_cancel(*n, text),
        LogCall::Unseek { near } => push_unseek(*near, text),
        LogCall::Close { near } => push_close(*near, text),
        LogCall::Learn { secret } => push_learn(secret, text),
        LogCall::Advance => text.push("advance"),
        LogCall::Receive { from, datagram } => push_receive(from, datagram.bytes(), text),
        LogCall::Tick => text.push("tick"),
        LogCall::Other => text.push("other"),
    }
}

/// Adds an entry.
#[tactic(auto, unfolding(crate::specs::Grammar::entry_text))]
fn push_entry(entry: &LogEntry, text: &mut Text) -> Result<(), AllocError>
    ensures { OnOk result (text.new ≡ text.old ++ entry_text entry.now) }
{
    match entry {
        LogEntry::Fact(fact) => push_fact(fact, text),
        LogEntry::Closed { near } => push_closed(*near, text),
        LogEntry::Sought { near, name } => push_sought(*near, name, text),
        LogEntry::Unsought { near, why } => push_unsought(*near, *why, text),
        LogEntry::Learnt { generation } => push_learnt(*generation, text),
        LogEntry::Advanced { generation } => push_advanced(*generation, text),
        LogEntry::Out {
            to,
            datagram,
            context,
        } => push_out(to, datagram.bytes(), context, text),
    }
}

fn push_event(name: &Name, event: &LogEvent, text: &mut Text) -> Result<(), AllocError>
    ensures { OnOk result (text.new ≡ text.old ++ line_text (LogLine.Event name.now event.now)) }
{
    push_front(name, event.moment, &event.nonce, text)?;
    push_call(&event.call, text)?;
    Ok(())
}

fn push_entry_line(entry: &LogEntry, text: &mut Text) -> Result<(), AllocError>
    ensures { OnOk result (text.new ≡ text.old ++ line_text (LogLine.Entry entry.now)) }
{
    text.push("+ ")?;
    push_entry(entry, text)?;
    Ok(())
}

/// Adds the text of what a line says; nothing where it is skipped.
#[tactic(auto, unfolding(crate::specs::Grammar::line_text))]
fn push_line(line: &LogLine, text: &mut Text) -> Result<(), AllocError>
    ensures { OnOk result (text.new ≡ text.old ++ line_text line.now) }
{
    match line {
        LogLine::Skip => text.push(""),
        LogLine::Log { name, head } => push_log(name, head, text),
        LogLine::Event { name, event } => push_event(name, event, text),
        LogLine::Entry(entry) => push_entry_line(entry, text),
    }
}

/// Writes a line of a log's text, with its LF (own form); of a line that is skipped nothing but the
/// LF.
pub fn write_log_line(alloc: Global, line: &LogLine) -> Result<Message, Memory>
    // The one text of the line.
    ensures text { IfOk result (λ text. text ≡ line_text line.now ++ codes "\n") }
    // What the reader can give, and isn't skipped, is read from it again, without its LF.
    ensures back { IfOk result (λ text. IsWritable line.now → (bytes : List ℕ) ×
        ((text ≡ bytes ++ codes "\n") × IsLineOf bytes line.now)) }
{
    let mut text = Text::new(alloc);
    push_line(line, &mut text)?;
    text.push("\n")?;
    let message = Message::copy_of(alloc, text.bytes())?;
    Ok(message)
}
