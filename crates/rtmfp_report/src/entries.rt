//! The lines of what ends did.
ghost use Rattle.std.specs.Prelude.{◌≡◌, ◌++◌, IfOk, OnOk};
ghost use Rattle.rtmfp_report.specs.EntryText.{advanced_text, closed_text, learnt_text, sought_text, unsought_text, counted_after, drop_text, entries_text, entry_text, flow_opened_text, handed_text, moved_text, numbered_text, queued_text, sent_after, told_text};

use crate::causes::push_cause;
use crate::facts::{push_fact, push_why};
use crate::group_keys::GroupKeys;
use crate::lines::push_head;
use crate::sent::push_sent;
use endpoint::Entry;
use glare_core::Why;
use rtmfp_base::Cause;
use rtmfp_forms::Address;
use rtmfp_text::{Directory, Name, Text, push_address};
use std::alloc::AllocError;

/// Adds the lines of what the end with this name did in a line of the script, one for each entry,
/// in their order. The peers of facts are called as among `ends`. `sent` datagrams were sent
/// before; it gives how many were sent after.
///
/// The names of the chunks of a datagram are found by the group's keys, which keep those of the
/// sessions that sent; `scratch` holds the datagram meanwhile, and its memory is used again. More
/// than 2^64-1 datagrams count as want of memory.
pub fn push_entries(
    keys: &mut GroupKeys,
    ends: &Directory,
    line: u64,
    name: &Name,
    sent: u64,
    entries: &[Entry],
    scratch: &mut Vec<u8>,
    text: &mut Text,
) -> Result<u64, AllocError>
    ensures text { OnOk result (text.new ≡ text.old
        ++ entries_text keys.old ends.now line name.now sent entries.now) }
    ensures count { IfOk result (λ count. count ≡ sent_after sent entries.now) }
    ensures keys { keys.new ≡ keys.old }
{
    keys.learn(entries);
    let mut count = sent;
    let mut rest = entries;
    while let [entry, others @ ..] = rest {
        count = count_after(count, entry)?;
        push_entry(keys, ends, line, name, count, entry, scratch, text)?;
        rest = others;
    }
    Ok(count)
}

/// How many datagrams were sent after an entry.
fn count_after(sent: u64, entry: &Entry) -> Result<u64, AllocError>
    ensures { IfOk result (λ count. count ≡ counted_after sent entry.now) }
{
    let Entry::Out { .. } = entry else {
        return Ok(sent);
    };
    sent.checked_add(1).ok_or(AllocError)
}

/// Adds the line of an entry.
fn push_entry(
    keys: &GroupKeys,
    ends: &Directory,
    line: u64,
    name: &Name,
    number: u64,
    entry: &Entry,
    scratch: &mut Vec<u8>,
    text: &mut Text,
) -> Result<(), AllocError>
    ensures { OnOk result (text.new ≡ text.old
        ++ entry_text keys.now ends.now line name.now number entry.now) }
{
    push_head(line, name, text)?;
    push_told(keys, ends, number, entry, scratch, text)?;
    text.push("\n")?;
    Ok(())
}

/// Adds what an entry tells. A datagram that goes out has this number.
fn push_told(
    keys: &GroupKeys,
    ends: &Directory,
    number: u64,
    entry: &Entry,
    scratch: &mut Vec<u8>,
    text: &mut Text,
) -> Result<(), AllocError>
    ensures { OnOk result (text.new ≡ text.old ++ told_text keys.now ends.now number entry.now) }
{
    match entry {
        Entry::Fact(fact) => push_fact(ends, fact, text),
        Entry::Closed { near } => push_closed(u64::from(*near), text),
        Entry::Sought { near, name } => push_sought(u64::from(*near), name.bytes(), text),
        Entry::Unsought { near, why } => push_unsought(u64::from(*near), *why, text),
        Entry::Moved { near, to } => push_moved(u64::from(*near), to, text),
        Entry::Learnt { generation } => push_learnt(*generation, text),
        Entry::Advanced { generation } => push_advanced(*generation, text),
        Entry::FlowOpened { near, flow } => push_flow_opened(u64::from(*near), *flow, text),
        Entry::Queued {
            near,
            flow,
            seq,
            message,
        } => push_queued(u64::from(*near), *flow, *seq, message.len() as u64, text),
        Entry::Finished { near, flow, seq } => {
            push_numbered("finished", u64::from(*near), *flow, *seq, text)
        }
        Entry::Abandoned { near, flow, seq } => {
            push_numbered("abandoned", u64::from(*near), *flow, *seq, text)
        }
        Entry::Handed {
            near,
            flow,
            seq,
            message,
        } => push_handed(u64::from(*near), *flow, *seq, message.bytes(), text),
        Entry::Discard { place, cause } => push_drop(u64::from(*place), cause, text),
        Entry::Out {
            to,
            datagram,
            context,
        } => push_sent(keys, number, to, datagram.bytes(), context, scratch, text),
    }
}

/// Adds that the closing of the session with this session ID is over.
#[tactic(auto, unfolding(crate::specs::EntryText::closed_text))]
fn push_closed(near: u64, text: &mut Text) -> Result<(), AllocError>
    ensures { OnOk result (text.new ≡ text.old ++ closed_text near) }
{
    text.push_number_field("closed near=", near)
}

/// Adds that a search began: its session ID, and the name that it is for.
fn push_sought(near: u64, name: &[u8], text: &mut Text) -> Result<(), AllocError>
    ensures { OnOk result (text.new ≡ text.old ++ sought_text near name.now) }
{
    text.push_number_field("sought near=", near)?;
    text.push_field(" name=", name)?;
    Ok(())
}

/// Adds that a search is over: its session ID, and why.
fn push_unsought(near: u64, why: Why, text: &mut Text) -> Result<(), AllocError>
    ensures { OnOk result (text.new ≡ text.old ++ unsought_text near why) }
{
    text.push_number_field("unsought near=", near)?;
    text.push(" ")?;
    push_why(why, text)?;
    Ok(())
}

/// Adds that a session moved: its session ID, and the new address.
fn push_moved(near: u64, to: &Address, text: &mut Text) -> Result<(), AllocError>
    ensures { OnOk result (text.new ≡ text.old ++ moved_text near to.now) }
{
    text.push_number_field("moved near=", near)?;
    text.push(" ")?;
    push_address(to, text)?;
    Ok(())
}

/// Adds that a generation of the group's secret was learnt.
#[tactic(auto, unfolding(crate::specs::EntryText::learnt_text))]
fn push_learnt(generation: u64, text: &mut Text) -> Result<(), AllocError>
    ensures { OnOk result (text.new ≡ text.old ++ learnt_text generation) }
{
    text.push_number_field("learnt ", generation)
}

/// Adds that a generation of the group's secret became the current one.
#[tactic(auto, unfolding(crate::specs::EntryText::advanced_text))]
fn push_advanced(generation: u64, text: &mut Text) -> Result<(), AllocError>
    ensures { OnOk result (text.new ≡ text.old ++ advanced_text generation) }
{
    text.push_number_field("advanced ", generation)
}

/// Adds that a flow was opened: the session ID, and its own ID.
fn push_flow_opened(near: u64, flow: u64, text: &mut Text) -> Result<(), AllocError>
    ensures { OnOk result (text.new ≡ text.old ++ flow_opened_text near flow) }
{
    text.push_number_field("flow near=", near)?;
    text.push_number_field(" id=", flow)?;
    Ok(())
}

/// Adds what was done in a flow, and the session ID, the flow and the number that it was done with.
fn push_numbered(
    what: &str,
    near: u64,
    flow: u64,
    seq: u64,
    text: &mut Text,
) -> Result<(), AllocError>
    ensures { OnOk result (text.new ≡ text.old ++ numbered_text what.now near flow seq) }
{
    text.push(what)?;
    text.push_number_field(" near=", near)?;
    text.push_number_field(" flow=", flow)?;
    text.push_number_field(" seq=", seq)?;
    Ok(())
}

/// Adds that a message was queued, and how many bytes it has.
fn push_queued(near: u64, flow: u64, seq: u64, size: u64, text: &mut Text) -> Result<(), AllocError>
    ensures { OnOk result (text.new ≡ text.old ++ queued_text near flow seq size) }
{
    push_numbered("queued", near, flow, seq, text)?;
    text.push_number_field(" length=", size)?;
    Ok(())
}

/// Adds that a message is handed over, and its bytes.
fn push_handed(
    near: u64,
    flow: u64,
    seq: u64,
    message: &[u8],
    text: &mut Text,
) -> Result<(), AllocError>
    ensures { OnOk result (text.new ≡ text.old ++ handed_text near flow seq message.now) }
{
    push_numbered("handed", near, flow, seq, text)?;
    text.push_field(" ", message)?;
    Ok(())
}

/// Adds a discard: its place, and its cause.
fn push_drop(place: u64, cause: &Cause, text: &mut Text) -> Result<(), AllocError>
    ensures { OnOk result (text.new ≡ text.old ++ drop_text place cause.now) }
{
    text.push_number_field("drop ", place)?;
    text.push(" ")?;
    push_cause(cause, text)?;
    Ok(())
}
