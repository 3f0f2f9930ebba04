//! The sender of a flow.

ghost use Rattle.std.specs.Prelude.{◌≡◌, ◌≢◌, ◌+◌, ◌-◌, ◌<◌, ◌≤◌, [], IfOk, IsOk};
ghost use Rattle.std.specs.Prelude.{OnOk, OnErr, IfErr, IfSome, length, Some, None};
ghost use Rattle.std.specs.Prelude.{Ok, Err, nat_lt, MatchOption, true, false};
ghost use Rattle.std.specs.Prelude.{if◌then◌else◌, ◌↔◌};
ghost use Rattle.std.specs.Option.{is_some};
ghost use Rattle.std.specs.List.{list_any};
ghost use Rattle.rtmfp_vlu.specs.Vlu.{vlu};
ghost use Rattle.rtmfp_data_chunks.specs.Taken.{chunk_of};
ghost use Rattle.rtmfp_data_chunks.specs.FlowOptions.{flow_options};
ghost use Rattle.flow_send.specs.Rows.{in_flight};
ghost use Rattle.flow_send.specs.Sender.{new_sender, next_of, queued, waits, abandoned};
ghost use Rattle.flow_send.specs.Sender.{abandoned_if, first_number, overdue, finish_by, lost_late};
ghost use Rattle.flow_send.specs.Sender.{is_idle, is_late};
ghost use Rattle.flow_send.specs.Acks.{told, beyond, new_bytes, makes_lost, told_by};
ghost use Rattle.flow_send.specs.Steady.{Steady, IsGreatest, IsBounded};
ghost use Rattle.flow_send.specs.Choice.{Nothing, Notify, choice, next_choice, notice_due};
ghost use Rattle.flow_send.specs.Choice.{choice_bytes, chunk_for, within_limit, is_quiet};
ghost use Rattle.flow_send.specs.Choice.{sent_after};
ghost use Rattle.flow_send.specs.Picked.{picked, picked_if, IsThere, IsOffered};
ghost use Rattle.flow_send.specs.Flow.{Flow, with_sender, is_finished, queue_refusal};
ghost use Rattle.flow_send.specs.Flow.{next_message, data_length, chunk_options, chunk_refusal};
ghost use Rattle.flow_send.specs.Flow.{options_length};

use crate::acking::{acknowledge, greatest};
use crate::backlog::Backlog;
use crate::fragments::{cut, fragments_of};
use crate::loss::Loss;
use crate::marks::Marks;
use crate::ordered::Sendings;
use crate::outcome::{AckFault, Acked, NoChunk, NotQueued, QueueRefusal};
use crate::pick::Pick;
use crate::row::HeldRow;
use crate::rows::Rows;
use crate::waiting::{MessageOptions, Waiting};
use rtmfp_base::Memory;
use rtmfp_base::limits::{BACKLOG, FRAGMENTS, MESSAGE};
use rtmfp_data_chunks::{AckedSpans, Part, UserData, spell_flow_options};
use rtmfp_forms::{Options, options_len, read_options};
use rtmfp_vlu::vlu_len;
use std::alloc::{AllocError, Global};
use std::marker::Model;

/// The sender of a flow. Contracts see its id, options and priority, and what it keeps of its
/// messages: the rows of the numbers above the forward number, and the messages that wait.
#[derive(Drop)]
pub struct FlowSender {
    alloc: Global,
    id: u64,
    options: Vec<u8>,
    priority: u8,
    forward: u64,
    rows: Rows,
    sendings: Sendings,
    waiting: Backlog,
    marks: Marks,
    finish: Option<u64>,
    sent: u64,
    upto: u64,
    told: Option<u64>,
    notice: Option<u64>,
    order: u64,
}

impl Model for FlowSender {
    ghost use Rattle.std.specs.Prelude.{◌≡◌, ◌≤◌, ◌+◌, None, length};
    ghost use Rattle.rtmfp_forms.specs.Options.{OptionsSpell, options_bytes};
    ghost use Rattle.rtmfp_forms.specs.OptionReading.{options_in};
    ghost use Rattle.flow_send.specs.Sender.{sender_of};
    ghost use Rattle.flow_send.specs.Steady.{Steady};
    ghost use Rattle.flow_send.specs.Ordered.{Follows};
    ghost use Rattle.flow_send.specs.Marks.{Covers};
    ghost use Rattle.flow_send.specs.Flow.{Flow};

    ghost Value = { Flow };

    ghost view = { λ f. record {
      id = f.id;
      options = options_in f.options.items;
      priority = f.priority;
      sender = sender_of f.forward f.rows.rows f.waiting f.finish f.sent f.upto f.told f.notice
          f.order;
    } };

    ghost invariant = { λ f.
        Steady (sender_of f.forward f.rows.rows f.waiting f.finish f.sent f.upto f.told f.notice
        f.order)
        × (OptionsSpell (options_in f.options.items) f.options.items
        × (length (options_bytes (options_in f.options.items)) ≤ 79))
        × (f.finish ≡ None → 1 ≤ f.rows.room)
        × Follows f.sendings (f.forward + 1) f.rows.rows
        × Covers f.marks f.waiting (f.forward + 1) f.rows.rows };
}

impl FlowSender {
    /// A sender that has sent nothing. Its options are the metadata, and the flow that it answers
    /// where there is one. Of the priorities 7 is the highest.
    pub fn new(
        alloc: Global,
        id: u64,
        metadata: &[u8],
        answers: Option<u64>,
        priority: u8,
        first: u64,
    ) -> Result<FlowSender, Memory>
        requires metadata { length metadata.now ≤ 64 }
        requires priority { priority ≤ 7 }
        requires first { 1 ≤ first }
        ensures { IfOk result (λ f. f ≡ record {
          id = id;
          options = flow_options metadata.now answers;
          priority = priority;
          sender =
              new_sender first;
        }) }
    {
        // Read for the prover alone: a number has ten bytes at most.
        let _answer = answer_len(answers);
        Ok(FlowSender {
            alloc,
            id,
            options: spell_flow_options(alloc, metadata, answers)?,
            priority,
            forward: first - 1,
            rows: Rows::new(alloc)?,
            sendings: Sendings::new(alloc),
            waiting: Backlog::new(alloc),
            marks: Marks::new(alloc),
            finish: None,
            sent: first - 1,
            upto: first - 1,
            told: None,
            notice: None,
            order: 0,
        })
    }

    pub fn id(&self) -> u64
        ensures { result ≡ self.now.id }
    {
        self.id
    }

    pub fn priority(&self) -> u8
        ensures { result ≡ self.now.priority }
    {
        self.priority
    }

    /// Queues a message, and gives the number of its first fragment.
    pub fn queue(&mut self, message: &[u8], options: MessageOptions) -> Result<u64, QueueRefusal>
        ensures number { IfOk result (λ n. n ≡ next_of self.old.sender) }
        ensures queued { OnOk result (self.new ≡ with_sender self.old
            (queued (next_message self.old.sender message.now) options self.old.sender)) }
        ensures refused { MatchOption (queue_refusal self.old.sender (length message.now))
            (IfErr result (λ e. e ≡ QueueRefusal.Memory)) (λ e. result ≡ Err e) }
        ensures err { OnErr result (self.new ≡ self.old) }
    {
        let size = message.len() as u64;
        if let Some(refusal) = self.refusal(size) {
            return Err(refusal);
        }
        let number = self.next() as u64;
        if self.hold(message, number, options).is_err() {
            return Err(QueueRefusal::Memory);
        }
        Ok(number)
    }

    /// Holds a message that isn't refused.
    fn hold(
        &mut self,
        message: &[u8],
        number: u64,
        options: MessageOptions,
    ) -> Result<(), AllocError>
        requires allowed { queue_refusal self.old.sender (length message.now) ≡ None }
        requires number { number ≡ next_of self.old.sender }
        ensures queued { OnOk result (self.new ≡ with_sender self.old
            (queued (next_message self.old.sender message.now) options self.old.sender)) }
        ensures err { OnErr result (self.new ≡ self.old) }
    {
        let size = message.len() as u64;
        let count = fragments_of(size);
        if size > u64::MAX - self.rows.stored() {
            return Err(AllocError);
        }
        let pieces = cut(self.alloc, message, count)?;
        self.rows.reserve(pieces.more.len() + 2)?;
        self.marks.make_for(options.resends)?;
        // A number that is sent again has two sendings among those since the oldest one in flight.
        self.sendings.reserve(
            self.rows
                .len()
                .saturating_add(pieces.more.len())
                .saturating_add(1)
                .saturating_mul(2),
        )?;
        self.waiting.push(Waiting {
            number,
            count,
            size,
            options,
        })?;
        self.rows.push(pieces.first);
        self.rows.append(pieces.more);
        Ok(())
    }

    /// The refusal of a message of a length, but want of memory.
    pub fn refusal(&self, length: u64) -> Option<QueueRefusal>
        ensures { result ≡ queue_refusal self.now.sender length }
    {
        if self.finish.is_some() {
            return Some(QueueRefusal::Finished);
        }
        if length > MESSAGE {
            return Some(QueueRefusal::TooLong(MESSAGE));
        }
        let count = fragments_of(length);
        let held = self.waiting.bytes();
        if held + length > BACKLOG || self.waiting.fragments() + count > FRAGMENTS {
            return Some(QueueRefusal::Backlog(held));
        }
        if self.next() + u128::from(count) - 1 > u128::from(u64::MAX - 1) {
            return Some(QueueRefusal::SequenceSpent);
        }
        None
    }

    /// The next number to be given.
    fn next(&self) -> u128
        ensures { result ≡ next_of self.now.sender }
    {
        u128::from(self.forward) + 1 + self.rows.len() as u128
    }

    /// Whether a message that waits begins at a number.
    pub fn waits(&self, seq: u64) -> bool
        ensures { result ≡ waits self.now.sender seq }
    {
        self.waiting.find(seq).is_some()
    }

    /// The number of messages that wait.
    pub fn waiting(&self) -> u64
        ensures { result ≡ length self.now.sender.waiting }
    {
        self.waiting.len() as u64
    }

    /// Whether it has nothing to do, at whatever moment, until a call or an ack gives it something:
    /// no number is in flight, lost or to be sent, no message waits, and no notice is owed.
    pub fn is_idle(&self) -> bool
        ensures { result ≡ is_idle self.now.sender }
    {
        self.rows.len() == 0 && self.waiting.len() == 0 && self.forward <= self.upto
    }

    /// Whether it was finished.
    pub fn finished(&self) -> bool
        ensures { result ≡ is_finished self.now.sender.finish }
    {
        self.finish.is_some()
    }

    /// The bytes in flight.
    pub fn flight(&self) -> u64
        ensures bytes { result ≡ in_flight self.now.sender.rows }
        // So at any moment the forward number is the greatest one at or below which all is
        // acknowledged or abandoned.
        ensures forward { IsGreatest self.now.sender }
        // At most 2,097,152 bytes and 65,536 fragments of messages are held, and a fragment has at
        // most 1,000 bytes.
        ensures bounds { IsBounded self.now.sender }
    {
        self.rows.flight()
    }

    /// Abandons the message that begins at a number. True where there is one that waits.
    fn give_up(&mut self, seq: u64) -> bool
        ensures waits { result ≡ waits self.old.sender seq }
        ensures after { self.new ≡ with_sender self.old (abandoned seq self.old.sender) }
    {
        let Some(message) = self.waiting.find(seq) else {
            return false;
        };
        message.give_up(&mut self.rows, self.forward);
        self.waiting.remove(seq);
        self.forward += self.rows.settle();
        self.sendings.prune(&self.rows, self.forward);
        true
    }

    /// Abandons the message that begins at a number.
    pub fn abandon(&mut self, seq: u64) -> Result<(), NotQueued>
        ensures queued { IsOk result ↔ (waits self.old.sender seq ≡ true) }
        ensures after { self.new ≡ with_sender self.old (abandoned seq self.old.sender) }
        ensures err { OnErr result (self.new ≡ self.old) }
    {
        if self.give_up(seq) {
            Ok(())
        } else {
            Err(NotQueued)
        }
    }

    /// Abandons the first message that waits, and gives its number.
    pub fn abandon_first(&mut self) -> Option<u64>
        ensures first { result ≡ first_number self.old.sender.waiting }
        ensures after { self.new ≡ with_sender self.old
            (abandoned_if (first_number self.old.sender.waiting) self.old.sender) }
    {
        let number = self.waiting.first()?;
        self.give_up(number);
        Some(number)
    }

    /// Whether a message's deadline or limit of resends is passed.
    pub fn any_overdue(&self, moment: u64) -> bool
        ensures { result ≡ is_some (overdue moment self.now.sender) }
    {
        self.first_overdue(moment).is_some()
    }

    /// The number of the first message whose deadline or limit of resends is passed.
    pub fn first_overdue(&self, moment: u64) -> Option<u64>
        ensures { result ≡ overdue moment self.now.sender }
    {
        self.waiting
            .look(&self.rows, self.forward, moment, &self.marks)
    }

    /// Abandons the first message whose deadline or limit of resends is passed, and gives its
    /// number.
    pub fn overdue(&mut self, moment: u64) -> Option<u64>
        ensures overdue { result ≡ overdue moment self.old.sender }
        ensures after { self.new ≡ with_sender self.old
            (abandoned_if (overdue moment self.old.sender) self.old.sender) }
    {
        let number = self
            .waiting
            .first_overdue(&self.rows, self.forward, moment, &mut self.marks)?;
        self.give_up(number);
        Some(number)
    }

    /// Takes one further number for the end of the flow, and gives it. None where it was finished
    /// before.
    pub fn finish(&mut self) -> Option<u64>
        ensures last { result ≡ (if is_finished self.old.sender.finish then None
            else Some (next_of self.old.sender)) }
        ensures after { self.new ≡ with_sender self.old
            (finish_by self.old.sender self.old.sender.finish) }
    {
        if self.finish.is_some() {
            return None;
        }
        let number = self.next() as u64;
        // Read for the prover alone: what the rows store fits 64 bits.
        let _stored = self.rows.stored();
        self.rows.push(HeldRow::end(self.alloc));
        self.finish = Some(number);
        Some(number)
    }

    /// How many rows at the front have numbers up to the highest one sent.
    fn sent_rows(&self) -> usize
        ensures count { result ≡ self.now.sender.sent - self.now.sender.forward }
        ensures inside { result ≤ length self.now.sender.rows }
    {
        // Read for the prover alone: so many rows fit a `usize`.
        let _all = self.rows.len();
        self.sent.saturating_sub(self.forward) as usize
    }

    /// Marks as lost each number in flight that was sent so long ago, in milliseconds. True where
    /// there is one.
    pub fn find_lost(&mut self, moment: u64, resend_after: u64) -> bool
        ensures late { result ≡ list_any (is_late moment resend_after) self.old.sender.rows }
        ensures after { self.new ≡ with_sender self.old
            (lost_late moment resend_after self.old.sender) }
        ensures none_late { list_any (is_late moment resend_after) self.new.sender.rows ≡ false }
    {
        let late = self.lose(moment, resend_after);
        self.renew(moment);
        late
    }

    /// Marks them, and leaves the moments of messages that went as they are.
    fn lose(&mut self, moment: u64, resend_after: u64) -> bool
        ensures late { result ≡ list_any (is_late moment resend_after) self.old.sender.rows }
        ensures after { self.new ≡ with_sender self.old
            (lost_late moment resend_after self.old.sender) }
        ensures none_late { list_any (is_late moment resend_after) self.new.sender.rows ≡ false }
    {
        self.sendings.mark(
            &self.rows,
            self.forward,
            &self.waiting,
            &mut self.marks,
            Loss::Late {
                moment,
                resend_after,
            },
        );
        self.sendings
            .lose_late(&mut self.rows, self.forward, moment, resend_after)
    }

    /// Takes an ack: the blocks of 1,024 bytes that the receiver has free, the number at or below
    /// which all is acknowledged, and the spans above it.
    pub fn take_ack(
        &mut self,
        blocks: u64,
        upto: u64,
        spans: AckedSpans<'_>,
    ) -> Result<Acked, AckFault>
        ensures beyond { MatchOption (beyond self.old.sender (told blocks upto spans.entry))
            (IsOk result) (λ n. result ≡ Err (AckFault.AckBeyond n)) }
        ensures bytes { IfOk result (λ a. a.bytes
            ≡ new_bytes (told blocks upto spans.entry) (self.old.sender.forward + 1)
            self.old.sender.rows) }
        ensures lost { IfOk result (λ a. a.lost
            ≡ makes_lost (told blocks upto spans.entry) self.old.sender) }
        ensures ok { OnOk result (self.new ≡ with_sender self.old
            (told_by (told blocks upto spans.entry) self.old.sender)) }
        ensures err { OnErr result (self.new ≡ self.old) }
    {
        let lost = self.rows.lost();
        match self.hear(blocks, upto, spans) {
            Ok(acked) => {
                if self.rows.lost() < lost {
                    self.tidy();
                }
                Ok(acked)
            }
            Err(fault) => Err(fault),
        }
    }

    /// The moments before which no deadline is are found anew where one is past, since it may be that
    /// of a message which went, and marks are taken away that stand for nothing any more, as those
    /// of messages that were told since or given up. So looks don't stop at them again and again.
    fn renew(&mut self, moment: u64)
        ensures { self.new ≡ self.old }
    {
        if !self.waiting.is_past(moment) && !self.waiting.is_limited() {
            return;
        }
        let _ = self
            .waiting
            .first_overdue(&self.rows, self.forward, moment, &mut self.marks);
    }

    /// After a lost number was acknowledged. A mark for it is taken away.
    fn tidy(&mut self)
        ensures { self.new ≡ self.old }
    {
        if !self.waiting.is_limited() {
            return;
        }
        // At moment 0 no deadline is passed.
        let _ = self
            .waiting
            .first_overdue(&self.rows, self.forward, 0, &mut self.marks);
    }

    /// Takes an ack, and leaves marks as they are.
    fn hear(&mut self, blocks: u64, upto: u64, spans: AckedSpans<'_>) -> Result<Acked, AckFault>
        ensures beyond { MatchOption (beyond self.old.sender (told blocks upto spans.entry))
            (IsOk result) (λ n. result ≡ Err (AckFault.AckBeyond n)) }
        ensures bytes { IfOk result (λ a. a.bytes
            ≡ new_bytes (told blocks upto spans.entry) (self.old.sender.forward + 1)
            self.old.sender.rows) }
        ensures lost { IfOk result (λ a. a.lost
            ≡ makes_lost (told blocks upto spans.entry) self.old.sender) }
        ensures ok { OnOk result (self.new ≡ with_sender self.old
            (told_by (told blocks upto spans.entry) self.old.sender)) }
        ensures err { OnErr result (self.new ≡ self.old) }
    {
        let greatest = greatest(upto, &spans);
        if greatest > self.sent {
            return Err(AckFault::AckBeyond(greatest));
        }
        let to = self.sent_rows();
        let before = self.rows.stored();
        let ordinal = acknowledge(&mut self.rows, self.forward, upto, &spans);
        let bytes = before - self.rows.stored();
        self.sendings.mark(
            &self.rows,
            self.forward,
            &self.waiting,
            &mut self.marks,
            Loss::Third { ordinal },
        );
        let lost = self
            .sendings
            .count_acks(&mut self.rows, self.forward, to, ordinal);
        self.sendings.prune(&self.rows, self.forward);
        self.waiting
            .drop_done(&mut self.rows, self.forward, upto, &spans);
        self.forward += self.rows.settle();
        self.upto = upto;
        self.told = Some(blocks);
        Ok(Acked { bytes, lost })
    }

    /// The chunk that may be sent next, or why there is none.
    pub fn offers(
        &self,
        first: bool,
        room: usize,
        flight: u64,
        window: u64,
        moment: u64,
        resend_after: u64,
    ) -> Result<Pick, NoChunk>
        ensures refused { MatchOption (chunk_refusal self.now first room flight window
            (choice moment resend_after self.now.sender)) (IsOk result) (λ e. result ≡ Err e) }
        ensures picked { IfOk result (λ p. choice moment resend_after self.now.sender
            ≡ picked self.now.sender p) }
        ensures offered { IfOk result (λ p. IsOffered self.now.sender p) }
        // No chunk of a flow has more bytes.
        ensures fits { 1113 ≤ room → result ≢ Err NoChunk.Room }
    {
        let Some(pick) = self.pick(moment, resend_after) else {
            return Err(NoChunk::Nothing);
        };
        if let Some(refusal) = self.chunk_refusal(pick, first, room, flight, window) {
            return Err(refusal);
        }
        Ok(pick)
    }

    /// Keeps that a chunk that was offered is sent. It takes no memory.
    pub fn send(&mut self, pick: Pick, moment: u64)
        requires { IsOffered self.old.sender pick }
        ensures sent { self.new ≡ with_sender self.old
            (sent_after moment (picked self.old.sender pick) self.old.sender) }
        ensures chunk { chunk_for self.new.sender (picked self.new.sender pick)
            ≡ chunk_for self.old.sender (picked self.old.sender pick) }
        ensures there { IsThere self.new.sender pick }
    {
        match pick {
            Pick::Row(at) => self.send_row(at, moment),
            Pick::Notice => self.send_notice(moment),
        }
    }

    /// Chooses the next chunk, and keeps that it is sent.
    pub fn next_chunk(
        &mut self,
        first: bool,
        room: usize,
        flight: u64,
        window: u64,
        moment: u64,
        resend_after: u64,
    ) -> Result<Pick, NoChunk>
        ensures refused { MatchOption (chunk_refusal self.old first room flight window
            (choice moment resend_after self.old.sender)) (IsOk result) (λ e. result ≡ Err e) }
        ensures chunk { IfOk result (λ p. chunk_for self.new.sender (picked self.new.sender p)
            ≡ chunk_for self.old.sender (choice moment resend_after self.old.sender)) }
        ensures there { IfOk result (λ p. IsThere self.new.sender p) }
        ensures sent { OnOk result (self.new ≡ with_sender self.old
            (sent_after moment (choice moment resend_after self.old.sender) self.old.sender)) }
        ensures err { OnErr result (self.new ≡ self.old) }
    {
        let pick = self.offers(first, room, flight, window, moment, resend_after)?;
        self.send(pick, moment);
        Ok(pick)
    }

    /// The chunk that may be sent next.
    fn pick(&self, moment: u64, resend_after: u64) -> Option<Pick>
        ensures picked { choice moment resend_after self.now.sender
            ≡ picked_if self.now.sender result }
        ensures there { IfSome result (λ p. IsThere self.now.sender p) }
    {
        let next = self.next_pick(moment, resend_after)?;
        if self.within_limit(self.pick_bytes(next)) {
            Some(next)
        } else {
            None
        }
    }

    /// The chunk that is next, whatever the flow's limit.
    fn next_pick(&self, moment: u64, resend_after: u64) -> Option<Pick>
        ensures picked { next_choice moment resend_after self.now.sender
            ≡ picked_if self.now.sender result }
        ensures there { IfSome result (λ p. IsThere self.now.sender p) }
    {
        if let Some(at) = self.rows.first_lost() {
            return Some(Pick::Row(at));
        }
        if let Some(at) = self.rows.first_unsent(self.sent_rows()) {
            return Some(Pick::Row(at));
        }
        if self.notice_due(moment, resend_after) {
            return Some(Pick::Notice);
        }
        None
    }

    /// Whether the forward number is to be told without a fragment.
    fn notice_due(&self, moment: u64, resend_after: u64) -> bool
        ensures { notice_due moment resend_after self.now.sender
            ≡ (if result then Notify else Nothing) }
    {
        self.upto < self.forward && self.is_quiet(moment, resend_after)
    }

    /// Whether no notice was sent within the resend time.
    fn is_quiet(&self, moment: u64, resend_after: u64) -> bool
        ensures { result ≡ is_quiet self.now.sender.notice moment resend_after }
    {
        match self.notice {
            Some(last) => last <= moment && resend_after <= moment - last,
            None => true,
        }
    }

    /// The bytes that a chunk counts.
    fn pick_bytes(&self, pick: Pick) -> u64
        requires { IsThere self.now.sender pick }
        ensures { result ≡ choice_bytes (picked self.now.sender pick) }
    {
        match pick {
            Pick::Row(at) => self.rows.row(at).bytes().len() as u64,
            Pick::Notice => 0,
        }
    }

    /// Whether so many bytes more are within the flow's own limit.
    fn within_limit(&self, bytes: u64) -> bool
        ensures { result ≡ within_limit self.now.sender bytes }
    {
        if !self.rows.any_flying() {
            return true;
        }
        let limit = match self.told {
            Some(blocks) => u128::from(blocks) * 1024,
            None => 65536,
        };
        u128::from(self.rows.flight()) + u128::from(bytes) <= limit
    }

    /// Why a chunk isn't sent.
    fn chunk_refusal(
        &self,
        pick: Pick,
        first: bool,
        room: usize,
        flight: u64,
        window: u64,
    ) -> Option<NoChunk>
        requires { IsThere self.now.sender pick }
        ensures refusal { result ≡ chunk_refusal self.now first room flight window
            (picked self.now.sender pick) }
        ensures fits { 1113 ≤ room → result ≢ Some NoChunk.Room }
    {
        let chunk = self.chunk(pick, first);
        if u128::from(flight) + self.pick_bytes(pick) as u128 > u128::from(window) {
            return Some(NoChunk::Window);
        }
        if data_len(&chunk) > room as u128 {
            return Some(NoChunk::Room);
        }
        None
    }

    /// A chunk that was chosen, with the options of the flow where it is the first one of the flow
    /// in a datagram and there was no ack yet.
    pub fn chunk(&self, pick: Pick, first: bool) -> UserData<'_>
        requires { IsThere self.now.sender pick }
        ensures chunk { chunk_for self.now.sender (picked self.now.sender pick)
            ≡ Some (chunk_of result) }
        ensures options { result.options ≡ chunk_options self.now first }
        ensures flow { result.flow ≡ self.now.id }
        ensures short { options_length result.options + length (chunk_of result).bytes ≤ 1079 }
    {
        match pick {
            Pick::Row(at) => {
                let row = self.rows.row(at);
                UserData {
                    part: row.part(),
                    abandon: row.ends(),
                    last: row.ends(),
                    flow: self.id,
                    seq: self.forward + 1 + at as u64,
                    forward: self.forward,
                    options: self.chunk_options(first),
                    bytes: row.bytes(),
                }
            }
            Pick::Notice => UserData {
                part: Part::Whole,
                abandon: true,
                last: false,
                flow: self.id,
                seq: self.forward,
                forward: self.forward,
                options: self.chunk_options(first),
                bytes: &[],
            },
        }
    }

    /// The options of a chunk.
    fn chunk_options(&self, first: bool) -> Option<Options<'_>>
        ensures options { result ≡ chunk_options self.now first }
        ensures short { options_length result ≤ 79 }
    {
        if !first || self.told.is_some() {
            return None;
        }
        match read_options(&self.options) {
            Ok((options, _)) => Some(options),
            Err(_) => None,
        }
    }

    fn send_row(&mut self, at: usize, moment: u64)
        requires { IsOffered self.old.sender (Pick.Row at) }
        ensures { self.new ≡ with_sender self.old
            (sent_after moment (picked self.old.sender (Pick.Row at)) self.old.sender) }
    {
        let number = self.forward + 1 + at as u64;
        self.order = self.order.saturating_add(1);
        self.rows.send(at, moment, self.order);
        self.sendings.push(self.order, number, moment);
        self.sent = self.sent.max(number);
    }

    fn send_notice(&mut self, moment: u64)
        ensures { self.new ≡ with_sender self.old
            (sent_after moment (picked self.old.sender Pick.Notice) self.old.sender) }
    {
        self.order = self.order.saturating_add(1);
        self.notice = Some(moment);
        self.sent = self.sent.max(self.forward);
    }
}

/// The bytes of the number of a flow that is answered.
fn answer_len(answers: Option<u64>) -> usize
    ensures { MatchOption answers (result ≡ 0)
        (λ flow. (result ≡ length (vlu flow)) × (result ≤ 10)) }
{
    match answers {
        Some(flow) => vlu_len(flow),
        None => 0,
    }
}

/// The length of a user data chunk with its type and length.
fn data_len(chunk: &UserData<'_>) -> u128
    requires { chunk.now.forward ≤ chunk.now.seq }
    ensures length { result ≡ data_length chunk.now.flow chunk.now.options (chunk_of chunk.now) }
    ensures most { result ≤ 34 + (options_length chunk.now.options
        + length (chunk_of chunk.now).bytes) }
{
    let numbers = vlu_len(chunk.flow) + vlu_len(chunk.seq) + vlu_len(chunk.seq - chunk.forward);
    let options = match &chunk.options {
        Some(options) => options_len(options),
        None => 0,
    };
    4 + numbers as u128 + options as u128 + chunk.bytes.len() as u128
}
