//! What a session keeps of its sending flows beside them, so that none of its calls goes through
//! all of them to find the one that sends.

ghost use Rattle.std.specs.Prelude.{◌≡◌, ◌<◌, ◌≤◌, ◌^◌, ◌-◌, [], min};
ghost use Rattle.session_flows.specs.Packing.{may_send};
ghost use Rattle.flow_turns.specs.Turns.{IsFirstFrom};
ghost use Rattle.session_flows.specs.Bound.{may_pass};
ghost use Rattle.flow_turns.specs.Busy.{HasAny};
ghost use Rattle.session_flows.specs.Kept.{IsKept, MayChange, IsChanged, noted, turn_of};

use crate::bound::Bound;
use crate::pace::Pace;
use flow_send::{FlowSender, MessageOptions, NoChunk};
use flow_turns::{Busy, Turns};
use rtmfp_base::limits::PRIORITY;

/// The turns of a priority.
pub(crate) const IDS: usize = 256;

/// At the last moment and with no resend time a flow may send whatever it may at any other pace.
const LATER: Pace = Pace {
    moment: u64::MAX,
    resend_after: 0,
    window: 0,
};

/// Of the sending flows of a session.
#[derive(Drop)]
pub(crate) struct Kept {
    /// The bytes in flight of all of them.
    flight: u128,
    /// The turns of those that may send at some pace.
    turns: Turns,
    /// Those that aren't idle.
    busy: Busy,
    /// Of the messages that wait.
    pub bound: Bound,
}

impl Kept {
    /// No flow is there.
    pub fn new() -> Kept
        ensures { IsKept [] result }
    {
        Kept {
            flight: 0,
            turns: Turns::new(),
            busy: Busy::new(),
            bound: Bound::new(),
        }
    }

    /// The first turn, from one on, of a flow that may send at some pace.
    pub fn first_from(&self, turn: usize) -> Option<usize>
        ensures { IsFirstFrom self.now.turns turn result }
    {
        self.turns.first_from(turn)
    }

    /// Whether a flow isn't idle.
    pub fn any_busy(&self) -> bool
        ensures { HasAny self.now.busy result }
    {
        self.busy.any()
    }

    /// The bytes in flight of all flows, or 2 ^ 64 - 1 where they are more.
    pub fn flight(&self) -> u64
        ensures { result ≡ min self.now.flight (2 ^ 64 - 1) }
    {
        self.flight.min(u128::from(u64::MAX)) as u64
    }

    /// A message with these options waits from now on.
    pub fn note(&mut self, options: MessageOptions)
        ensures { self.new ≡ noted options self.old }
    {
        self.bound = self.bound.with(options);
    }

    /// Whether a message that waits may be overdue.
    pub fn may_pass(&self, moment: u64) -> bool
        ensures { result ≡ may_pass self.now.bound moment }
    {
        self.bound.may_pass(moment)
    }

    /// Brings it up to a flow that changed, which had so many bytes in flight before.
    pub fn settle(&mut self, before: u64, sender: &FlowSender)
        requires { MayChange self.old before sender.now }
        ensures { IsChanged self.old before sender.now self.new }
    {
        self.flight = self.flight - u128::from(before) + u128::from(sender.flight());
        self.busy.set(sender.id() as usize, !sender.is_idle());
        let turn = turn_of(sender);
        if may_send(LATER, sender) {
            self.turns.insert(turn);
        } else {
            self.turns.remove(turn);
        }
    }
}

/// The turn of a flow: the sooner, the higher its priority, and then the lower its ID.
fn turn_of(sender: &FlowSender) -> usize
    requires id { sender.now.id < 256 }
    requires priority { sender.now.priority ≤ 7 }
    ensures { result ≡ turn_of sender.now }
{
    (PRIORITY - sender.priority()) as usize * IDS + sender.id() as usize
}

/// Whether a flow has something to send that its own limit allows.
pub(crate) fn may_send(pace: Pace, sender: &FlowSender) -> bool
    ensures { result ≡ may_send pace sender.now }
{
    let offer = sender.offers(
        false,
        usize::MAX,
        0,
        u64::MAX,
        pace.moment,
        pace.resend_after,
    );
    match offer {
        Err(NoChunk::Nothing) => false,
        _ => true,
    }
}
