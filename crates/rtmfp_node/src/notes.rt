//! What is written of a turn.
ghost use Rattle.std.specs.Prelude.{◌≡◌, OnOk, IfOk, false, max};
ghost use Rattle.endpoint_model.specs.Event.{Event, NotOpened, NotSought, Refused};
ghost use Rattle.endpoint_model.specs.Log.{answer_of_call, answer_of_open, answer_of_seek};
ghost use Rattle.endpoint_model.specs.Log.{answer_of_succession};
ghost use Rattle.log_writing.specs.Written.{said};
ghost use Rattle.rtmfp_report.specs.EntryText.{counted_after, sent_after};
ghost use Rattle.rtmfp_report.specs.KeptKeys.{secrets_in};
ghost use Rattle.rtmfp_node.specs.Acting.{IsSaid, noted_more, with_text};
ghost use Rattle.rtmfp_node.specs.Events.{IsSettled};
ghost use Rattle.rtmfp_node.specs.Reached.{at_first};
ghost use Rattle.rtmfp_node.specs.Report.{refused_text};

use endpoint::{CallRefusal, Entry, OpenRefusal, SeekRefusal};
use log_writing::{SaidCall, push_event};
use rtmfp_report::{
    GroupKeys, GroupSecrets, push_call_refusal, push_entries, push_open_refusal, push_seek_refusal,
};
use rtmfp_text::{Directory, Name, Text};
use std::alloc::{AllocError, Global};
use std::marker::Model;

/// What is written of a turn, and what it is made with: the keys of the group, what a journal calls
/// the end, where one is written in place of a report, how many datagrams went out so far, and the
/// largest moment that the end was given.
///
/// Contracts see the group's secrets, the label, how far the run has come, and the text.
#[derive(Drop)]
pub(crate) struct Notes {
    keys: GroupKeys,
    ends: Directory,
    name: Name,
    label: Option<Name>,
    scratch: Vec<u8>,
    text: Text,
    sent: u64,
    moment: u64,
}

impl Model for Notes {
    ghost use Rattle.std.specs.Prelude.{◌≡◌, []};
    ghost use Rattle.rtmfp_node.specs.Acting.{Noted, noted_code};
    ghost use Rattle.rtmfp_node.specs.Report.{self_name};

    ghost Value = { Noted };

    ghost coded = { noted_code };

    ghost view = { λ n. record {
      secrets = n.keys;
      label = n.label;
      far = record { sent = n.sent; moment = n.moment };
      text = n.text;
    } };

    ghost invariant = { λ n. (n.ends ≡ []) × (n.name ≡ self_name) };
}

impl Notes {
    ghost use Rattle.std.specs.Prelude.{[]};

    /// This text, and nothing that was done yet.
    pub(crate) fn new(
        alloc: Global,
        secrets: GroupSecrets,
        label: Option<Name>,
        text: Text,
    ) -> Notes
        ensures { result ≡ record {
          secrets = secrets_in secrets;
          label = label;
          far = at_first;
          text = text;
        } }
    {
        let Some(name) = Name::new(b"self") else {
            unreachable!();
        };
        Notes {
            keys: GroupKeys::of(alloc, secrets),
            ends: Directory::new(alloc),
            name,
            label,
            scratch: Vec::new(alloc),
            text,
            sent: 0,
            moment: 0,
        }
    }

    /// How many datagrams went out.
    pub(crate) fn sent(&self) -> u64
        ensures { result ≡ self.now.far.sent }
    {
        self.sent
    }

    /// The text.
    pub(crate) fn text(&self) -> &[u8]
        ensures { result.now ≡ self.now.text }
    {
        self.text.bytes()
    }

    /// Begins a text.
    pub(crate) fn clear(&mut self)
        ensures { self.new ≡ record {
          secrets = self.old.secrets;
          label = self.old.label;
          far = self.old.far;
          text = [];
        } }
    {
        self.text.clear();
    }

    /// Adds the lines of an event that added these entries, without that of a refusal. In a report
    /// they are those of its entries; in a journal that of its call comes first, with the largest
    /// moment so far, and what the call drew.
    pub(crate) fn add(
        &mut self,
        turn: u64,
        moment: u64,
        nonce: &[u8; 16],
        call: &SaidCall<'_>,
        entries: &[Entry],
    ) -> Result<(), AllocError>
        ensures { OnOk result ((e : Event) → IsSaid moment nonce.now (said call.now) entries.now e →
            self.new ≡ noted_more turn self.old e []) }
    {
        let latest = later(self.moment, moment);
        match &self.label {
            None => {
                self.sent = push_entries(
                    &mut self.keys,
                    &self.ends,
                    turn,
                    &self.name,
                    self.sent,
                    entries,
                    &mut self.scratch,
                    &mut self.text,
                )?;
                self.moment = latest;
                Ok(())
            }
            Some(label) => {
                push_event(label, latest, nonce, call, entries, &mut self.text)?;
                self.sent = sent_after(self.sent, entries)?;
                self.moment = latest;
                Ok(())
            }
        }
    }

    /// Adds the line of an open that was refused, where it was. Want of memory ends the run.
    pub(crate) fn settle_open(
        &mut self,
        turn: u64,
        answer: Result<u64, OpenRefusal>,
    ) -> Result<(), AllocError>
        ensures settled { OnOk result (IsSettled (answer_of_open answer)) }
        ensures text { OnOk result (self.new ≡ with_text self.old
            (refused_text self.old.label turn (answer_of_open answer))) }
    {
        match answer {
            Ok(_) => Ok(()),
            Err(OpenRefusal::Memory) => Err(AllocError),
            Err(OpenRefusal::Candidates(count)) => {
                self.push_open(turn, &OpenRefusal::Candidates(count))
            }
            Err(OpenRefusal::Start(refusal)) => self.push_open(turn, &OpenRefusal::Start(refusal)),
            Err(OpenRefusal::SessionsFull(count)) => {
                self.push_open(turn, &OpenRefusal::SessionsFull(count))
            }
        }
    }

    fn push_open(&mut self, turn: u64, refusal: &OpenRefusal) -> Result<(), AllocError>
        ensures { OnOk result (self.new ≡ with_text self.old
            (refused_text self.old.label turn (NotOpened refusal.now))) }
    {
        match &self.label {
            None => push_open_refusal(turn, &self.name, refusal, &mut self.text),
            Some(_) => Ok(()),
        }
    }

    /// Adds the line of a search that was refused, where it was. Want of memory ends the run.
    pub(crate) fn settle_seek(
        &mut self,
        turn: u64,
        answer: Result<u32, SeekRefusal>,
    ) -> Result<(), AllocError>
        ensures settled { OnOk result (IsSettled (answer_of_seek answer)) }
        ensures text { OnOk result (self.new ≡ with_text self.old
            (refused_text self.old.label turn (answer_of_seek answer))) }
    {
        match answer {
            Ok(_) => Ok(()),
            Err(SeekRefusal::Memory) => Err(AllocError),
            Err(SeekRefusal::Candidates(count)) => {
                self.push_seek(turn, &SeekRefusal::Candidates(count))
            }
            Err(SeekRefusal::SessionsFull(count)) => {
                self.push_seek(turn, &SeekRefusal::SessionsFull(count))
            }
        }
    }

    fn push_seek(&mut self, turn: u64, refusal: &SeekRefusal) -> Result<(), AllocError>
        ensures { OnOk result (self.new ≡ with_text self.old
            (refused_text self.old.label turn (NotSought refusal.now))) }
    {
        match &self.label {
            None => push_seek_refusal(turn, &self.name, refusal, &mut self.text),
            Some(_) => Ok(()),
        }
    }

    /// Adds the line of a learn or an advance that was refused, where it was. Want of memory ends
    /// the run.
    pub(crate) fn settle_succession(
        &mut self,
        turn: u64,
        answer: Result<u64, CallRefusal>,
    ) -> Result<(), AllocError>
        ensures settled { OnOk result (IsSettled (answer_of_succession answer)) }
        ensures text { OnOk result (self.new ≡ with_text self.old
            (refused_text self.old.label turn (answer_of_succession answer))) }
    {
        match answer {
            Ok(_) => Ok(()),
            Err(refusal) => {
                if is_want(&refusal) {
                    return Err(AllocError);
                }
                self.push_call(turn, &refusal)
            }
        }
    }

    /// Adds the line of a call on a flow that was refused, where it was. Want of memory ends the
    /// run.
    pub(crate) fn settle_call(
        &mut self,
        turn: u64,
        answer: Result<u64, CallRefusal>,
    ) -> Result<(), AllocError>
        ensures settled { OnOk result (IsSettled (answer_of_call answer)) }
        ensures text { OnOk result (self.new ≡ with_text self.old
            (refused_text self.old.label turn (answer_of_call answer))) }
    {
        match answer {
            Ok(_) => Ok(()),
            Err(refusal) => {
                if is_want(&refusal) {
                    return Err(AllocError);
                }
                self.push_call(turn, &refusal)
            }
        }
    }

    fn push_call(&mut self, turn: u64, refusal: &CallRefusal) -> Result<(), AllocError>
        ensures { OnOk result (self.new ≡ with_text self.old
            (refused_text self.old.label turn (Refused refusal.now))) }
    {
        match &self.label {
            None => push_call_refusal(turn, &self.name, refusal, &mut self.text),
            Some(_) => Ok(()),
        }
    }
}

/// Whether a refusal is want of memory.
fn is_want(refusal: &CallRefusal) -> bool
    ensures { result ≡ false → IsSettled (Refused refusal.now) }
{
    match refusal {
        CallRefusal::Memory => true,
        CallRefusal::NoAttempt => false,
        CallRefusal::NoSession => false,
        CallRefusal::NoFlow => false,
        CallRefusal::FlowsFull(_) => false,
        CallRefusal::WideMetadata(_) => false,
        CallRefusal::Queue(_) => false,
        CallRefusal::NotQueued => false,
        CallRefusal::Finished => false,
        CallRefusal::NextKnown(_) => false,
        CallRefusal::GenerationsSpent => false,
        CallRefusal::SameSecret => false,
        CallRefusal::NoNext => false,
    }
}

/// The larger of two moments.
fn later(before: u64, moment: u64) -> u64
    ensures { result ≡ max before moment }
{
    if before < moment { moment } else { before }
}

/// How many datagrams went out after entries. More than a `u64` counts are want of memory.
fn sent_after(sent: u64, entries: &[Entry]) -> Result<u64, AllocError>
    ensures { IfOk result (λ count. count ≡ sent_after sent entries.now) }
{
    let mut count = sent;
    let mut rest = entries;
    while let [entry, others @ ..] = rest {
        count = counted_after(count, entry)?;
        rest = others;
    }
    Ok(count)
}

/// How many after one entry.
fn counted_after(sent: u64, entry: &Entry) -> Result<u64, AllocError>
    ensures { IfOk result (λ count. count ≡ counted_after sent entry.now) }
{
    let Entry::Out { .. } = entry else {
        return Ok(sent);
    };
    sent.checked_add(1).ok_or(AllocError)
}
