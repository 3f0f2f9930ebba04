//! What a tick makes lost, and which messages it abandons.

ghost use Rattle.std.specs.Prelude.{◌≡◌, ◌≤◌, length, map, IfSome, None};
ghost use Rattle.std.specs.List.{list_any, position};
ghost use Rattle.session_flows.specs.Timing.{after_late, session_late, overdue_in, overdue_done};
ghost use Rattle.session_flows.specs.Timing.{has_late, losing, has_overdue};
ghost use Rattle.session_flows.specs.Laws.{AreNumbered};
ghost use Rattle.session_flows.specs.Bound.{any_waits};
ghost use Rattle.session_flows.specs.Kept.{IsKept};
ghost use Rattle.session_flows.specs.Calling.{abandon_refused};

use crate::bound::Bound;
use crate::flows::Flows;
use crate::kept::Kept;
use flow_send::FlowSender;
use session_core::Session;

impl Flows {
    /// Marks as lost, in a held session, each number in flight whose resend time has passed. A
    /// session with such numbers has one loss by time. It takes no memory.
    pub fn lose_late(&mut self, session: &mut Session, moment: u64)
        ensures flows { self.new ≡ after_late session.old self.old moment }
        ensures session { session.new ≡ session_late session.old self.old moment }
    {
        if !session.is_held() {
            return;
        }
        let resend_after = session.resend_after();
        if lose(&mut self.kept, &mut self.sending, moment, resend_after) {
            session.lost(true);
        }
        renew(&mut self.kept, &self.sending, moment);
    }

    /// The first message that is to be abandoned at a tick: its flow and its number. It takes no
    /// memory.
    pub fn first_overdue(&self, session: &Session, moment: u64) -> Option<(u64, u64)>
        ensures { result ≡ overdue_in session.now self.now moment }
    {
        if !session.is_held() {
            return None;
        }
        let at = overdue_at(&self.kept, &self.sending, moment)?;
        let sender = &self.sending[at];
        let seq = sender.first_overdue(moment)?;
        Some((at as u64, seq))
    }

    /// Abandons the first message that is to be abandoned at a tick, and gives its flow and its
    /// number. It takes no memory.
    pub fn abandon_overdue(&mut self, session: &Session, moment: u64) -> Option<(u64, u64)>
        ensures found { result ≡ overdue_in session.now self.old moment }
        ensures flows { self.new ≡ (overdue_done self.old result).flows }
        // Its flow is there, and it waits.
        ensures waits { IfSome result
            (λ found. abandon_refused self.old found.0 found.1 ≡ None) }
    {
        if !session.is_held() {
            return None;
        }
        let at = overdue_at(&self.kept, &self.sending, moment)?;
        let sender = &mut self.sending[at];
        let before = sender.flight();
        let seq = sender.overdue(moment)?;
        self.kept.settle(before, sender);
        Some((at as u64, seq))
    }
}

/// The index of the first flow that has a message to be abandoned.
fn overdue_at(kept: &Kept, sending: &[FlowSender], moment: u64) -> Option<usize>
    requires { IsKept sending.now kept.now }
    ensures { result ≡ position (has_overdue moment) sending.now }
{
    if !kept.may_pass(moment) {
        return None;
    }
    sending.iter().position(|f| f.any_overdue(moment))
}

/// Whether a message waits.
fn any_waits(sending: &[FlowSender]) -> bool
    ensures { result ≡ list_any any_waits sending.now }
{
    sending.iter().any(|f| f.waiting() > 0)
}

/// Finds what is known of the messages that wait anew, where a look at each was owed.
fn renew(kept: &mut Kept, sending: &[FlowSender], moment: u64)
    requires { IsKept sending.now kept.old }
    ensures { IsKept sending.now kept.new }
{
    if !kept.may_pass(moment) {
        return;
    }
    if !any_waits(sending) {
        kept.bound = Bound::new();
        return;
    }
    if !kept.bound.limited && overdue_at(kept, sending, moment).is_none() {
        kept.bound = Bound::at(moment);
    }
}

/// Marks as lost each number in flight that was sent so long ago. True where there is one.
fn lose(kept: &mut Kept, sending: &mut [FlowSender], moment: u64, resend_after: u64) -> bool
    requires numbered { AreNumbered 0 sending.old }
    requires few { length sending.old ≤ 256 }
    requires kept { IsKept sending.old kept.old }
    ensures late { result ≡ list_any (has_late moment resend_after) sending.old }
    ensures after { sending.new ≡ map (losing moment resend_after) sending.old }
    ensures numbered { AreNumbered 0 sending.new }
    ensures kept { IsKept sending.new kept.new }
{
    let mut any = false;
    for sender in sending.iter_mut() {
        let before = sender.flight();
        if sender.find_lost(moment, resend_after) {
            kept.settle(before, sender);
            any = true;
        }
    }
    any
}
