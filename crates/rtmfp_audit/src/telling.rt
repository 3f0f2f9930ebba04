//! What was read is judged, and one line is written of it.
ghost use Rattle.std.specs.Prelude.{◌≡◌, ◌++◌, [], Some, IfOk, OnOk};
ghost use Rattle.log_reading.specs.Gathered.{line_of};
ghost use Rattle.log_verdict.specs.Checks.{FailsFirst};
ghost use Rattle.rtmfp_audit.specs.Audits.{Judged};
ghost use Rattle.rtmfp_audit.specs.Logs.{WasRead, history_read};
ghost use Rattle.rtmfp_audit.specs.Texts.{agreed_text, cause_word, refused_text};
ghost use Rattle.rtmfp_audit.specs.Turning.{Writes};

use log_audit::audit;
use log_reading::Gathered;
use log_verdict::{AuditFault, Finding, Verdict};
use rtmfp_base::Memory;
use rtmfp_host::{Sink, Wrote};
use rtmfp_lines::Status;
use rtmfp_text::Text;
use std::alloc::{AllocError, Global};

/// The word of a fault.
fn cause_word(fault: AuditFault) -> &'static str
    ensures { result.now ≡ cause_word fault }
{
    match fault {
        AuditFault::Secrets => "secrets",
        AuditFault::Unlawful => "unlawful",
        AuditFault::NotHonest => "not-honest",
        AuditFault::NotFresh => "not-fresh",
    }
}

/// Adds the text of logs that agree.
fn push_agreed(ends: u64, events: u64, kept: u64, text: &mut Text) -> Result<(), AllocError>
    ensures { OnOk result (text.new ≡ text.old ++ agreed_text ends events kept) }
{
    text.push("agreed ends=")?;
    text.push_number(ends)?;
    text.push(" events=")?;
    text.push_number(events)?;
    text.push(" kept=")?;
    text.push_number(kept)?;
    text.push("\n")
}

/// Adds the text of logs that are refused.
fn push_refused(line: u64, fault: AuditFault, text: &mut Text) -> Result<(), AllocError>
    ensures { OnOk result (text.new ≡ text.old ++ refused_text line fault) }
{
    text.push("refused line=")?;
    text.push_number(line)?;
    text.push(" ")?;
    text.push(cause_word(fault))?;
    text.push("\n")
}

/// The line of the first check that fails.
fn line_found(gathered: &Gathered, finding: &Finding) -> u64
    requires read { WasRead gathered.now }
    requires first { FailsFirst gathered.now.setups (history_read gathered.now) finding.now }
    ensures { line_of finding.now.event finding.now.entry gathered.now ≡ Some result }
{
    match gathered.line_of(finding) {
        Some(line) => u64::from(line),
        None => unreachable!(),
    }
}

/// Audits what was read, and makes the text of that.
fn judge(alloc: Global, gathered: &Gathered, text: &mut Text) -> Result<Status, Memory>
    requires read { WasRead gathered.now }
    requires empty { text.old ≡ [] }
    ensures { IfOk result (λ status. Judged status gathered.now text.new) }
{
    let logs = gathered.logs();
    match audit(logs, gathered.order(), alloc)? {
        Verdict::Yes { events, kept } => {
            push_agreed(logs.len() as u64, events, kept, text)?;
            Ok(Status::Done)
        }
        Verdict::No(finding) => {
            let line = line_found(gathered, &finding);
            push_refused(line, finding.fault, text)?;
            Ok(Status::NotAgreed(line))
        }
    }
}

/// Audits what was read, and writes one line of it. Where there is no memory for that nothing is
/// written.
pub(crate) fn tell<K: Sink>(alloc: Global, gathered: &Gathered, sink: &mut K) -> Status
    requires { WasRead gathered.now }
    ensures { Writes result gathered.now (K.seen sink.old) (K.seen sink.new) }
{
    let mut text = Text::new(alloc);
    let Ok(status) = judge(alloc, gathered, &mut text) else {
        return Status::Memory;
    };
    match sink.write(text.bytes()) {
        Wrote::Done => status,
        Wrote::Failed => Status::SinkFault,
    }
}
