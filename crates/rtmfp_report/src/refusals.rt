//! The lines of calls that were refused.
ghost use Rattle.std.specs.Prelude.{◌≡◌, ◌++◌, OnOk};
ghost use Rattle.rtmfp_report.specs.RefusalText.{call_refusal_text, open_refusal_text, queue_refusal_text, refused_line, row_refusal_text, seek_refusal_text, start_refusal_text};

use crate::lines::push_head;
use endpoint::{CallRefusal, OpenRefusal, QueueRefusal, RowRefusal, SeekRefusal};
use glare_core::StartRefusal;
use rtmfp_text::{Name, Text};
use std::alloc::AllocError;

/// Adds the line of an attempt that the end with this name didn't open. Want of memory has no name;
/// it isn't reported.
pub fn push_open_refusal(
    line: u64,
    name: &Name,
    refusal: &OpenRefusal,
    text: &mut Text,
) -> Result<(), AllocError>
    ensures { OnOk result (text.new ≡ text.old
        ++ refused_line line name.now (open_refusal_text refusal.now)) }
{
    push_head(line, name, text)?;
    text.push("refused ")?;
    push_open_name(refusal, text)?;
    text.push("\n")?;
    Ok(())
}

/// Adds the line of a search that the end with this name didn't begin. Want of memory has no name;
/// it isn't reported.
pub fn push_seek_refusal(
    line: u64,
    name: &Name,
    refusal: &SeekRefusal,
    text: &mut Text,
) -> Result<(), AllocError>
    ensures { OnOk result (text.new ≡ text.old
        ++ refused_line line name.now (seek_refusal_text refusal.now)) }
{
    push_head(line, name, text)?;
    text.push("refused ")?;
    push_seek_name(refusal, text)?;
    text.push("\n")?;
    Ok(())
}

/// Adds why a search doesn't begin.
#[tactic(auto, unfolding(crate::specs::RefusalText::seek_refusal_text))]
fn push_seek_name(refusal: &SeekRefusal, text: &mut Text) -> Result<(), AllocError>
    ensures { OnOk result (text.new ≡ text.old ++ seek_refusal_text refusal.now) }
{
    match refusal {
        SeekRefusal::Candidates(count) => text.push_number_field("candidates ", *count),
        SeekRefusal::SessionsFull(limit) => text.push_number_field("sessions-full ", *limit),
        SeekRefusal::Memory => text.push(""),
    }
}

/// Adds the line of another call that the end with this name refused. Want of memory has no name;
/// it isn't reported.
pub fn push_call_refusal(
    line: u64,
    name: &Name,
    refusal: &CallRefusal,
    text: &mut Text,
) -> Result<(), AllocError>
    ensures { OnOk result (text.new ≡ text.old
        ++ refused_line line name.now (call_refusal_text refusal.now)) }
{
    push_head(line, name, text)?;
    text.push("refused ")?;
    push_call_name(refusal, text)?;
    text.push("\n")?;
    Ok(())
}

/// Adds the line of a row of addresses that the end with this name didn't add. Want of memory has
/// no name; it isn't reported.
pub fn push_row_refusal(
    line: u64,
    name: &Name,
    refusal: &RowRefusal,
    text: &mut Text,
) -> Result<(), AllocError>
    ensures { OnOk result (text.new ≡ text.old
        ++ refused_line line name.now (row_refusal_text refusal.now)) }
{
    push_head(line, name, text)?;
    text.push("refused ")?;
    push_row_name(refusal, text)?;
    text.push("\n")?;
    Ok(())
}

/// Adds why a row of addresses isn't added.
#[tactic(auto, unfolding(crate::specs::RefusalText::row_refusal_text))]
fn push_row_name(refusal: &RowRefusal, text: &mut Text) -> Result<(), AllocError>
    ensures { OnOk result (text.new ≡ text.old ++ row_refusal_text refusal.now) }
{
    match refusal {
        RowRefusal::Candidates(count) => text.push_number_field("candidates ", *count),
        RowRefusal::RowsFull(limit) => text.push_number_field("rows-full ", *limit),
        RowRefusal::Memory => text.push(""),
    }
}

/// Adds why an attempt isn't opened.
#[tactic(auto, unfolding(crate::specs::RefusalText::open_refusal_text))]
fn push_open_name(refusal: &OpenRefusal, text: &mut Text) -> Result<(), AllocError>
    ensures { OnOk result (text.new ≡ text.old ++ open_refusal_text refusal.now) }
{
    match refusal {
        OpenRefusal::Candidates(count) => text.push_number_field("candidates ", *count),
        OpenRefusal::Start(start) => push_start_name(start, text),
        OpenRefusal::SessionsFull(limit) => text.push_number_field("sessions-full ", *limit),
        OpenRefusal::Memory => text.push(""),
    }
}

/// Adds why no attempt starts.
#[tactic(auto, unfolding(crate::specs::RefusalText::start_refusal_text))]
fn push_start_name(refusal: &StartRefusal, text: &mut Text) -> Result<(), AllocError>
    ensures { OnOk result (text.new ≡ text.old ++ start_refusal_text refusal.now) }
{
    match refusal {
        StartRefusal::Opening(n) => text.push_number_field("opening ", *n),
        StartRefusal::Open(near) => text.push_number_field("open ", u64::from(*near)),
        StartRefusal::PeersFull(limit) => text.push_number_field("peers-full ", *limit),
        StartRefusal::AttemptsSpent => text.push("attempts-spent"),
        StartRefusal::OwnPrint => text.push("own-print"),
        StartRefusal::Memory => text.push(""),
    }
}

/// Adds why another call is refused.
#[tactic(auto, unfolding(crate::specs::RefusalText::call_refusal_text))]
fn push_call_name(refusal: &CallRefusal, text: &mut Text) -> Result<(), AllocError>
    ensures { OnOk result (text.new ≡ text.old ++ call_refusal_text refusal.now) }
{
    match refusal {
        CallRefusal::NoAttempt => text.push("no-attempt"),
        CallRefusal::NoSession => text.push("no-session"),
        CallRefusal::NoFlow => text.push("no-flow"),
        CallRefusal::FlowsFull(limit) => text.push_number_field("flows-full ", *limit),
        CallRefusal::WideMetadata(size) => text.push_number_field("wide-metadata ", *size),
        CallRefusal::Queue(refusal) => push_queue_name(refusal, text),
        CallRefusal::NotQueued => text.push("not-queued"),
        CallRefusal::Finished => text.push("finished"),
        CallRefusal::NextKnown(generation) => text.push_number_field("next-known ", *generation),
        CallRefusal::GenerationsSpent => text.push("generations-spent"),
        CallRefusal::SameSecret => text.push("same-secret"),
        CallRefusal::NoNext => text.push("no-next"),
        CallRefusal::Memory => text.push(""),
    }
}

/// Adds why a message isn't queued.
#[tactic(auto, unfolding(crate::specs::RefusalText::queue_refusal_text))]
fn push_queue_name(refusal: &QueueRefusal, text: &mut Text) -> Result<(), AllocError>
    ensures { OnOk result (text.new ≡ text.old ++ queue_refusal_text refusal.now) }
{
    match refusal {
        QueueRefusal::TooLong(most) => text.push_number_field("too-long ", *most),
        QueueRefusal::Backlog(held) => text.push_number_field("backlog ", *held),
        QueueRefusal::Finished => text.push("finished"),
        QueueRefusal::SequenceSpent => text.push("sequence-spent"),
        QueueRefusal::Memory => text.push(""),
    }
}
