//! The acks that a call owes.

ghost use Rattle.std.specs.Prelude.{◌≡◌, ◌<◌, ◌≤◌, length, map, true};
ghost use Rattle.std.specs.List.{list_any};
ghost use Rattle.session_flows.specs.Owing.{owes, acks_put, after_acks, owing_none, paid};
ghost use Rattle.session_flows.specs.Owing.{is_owed, owed_count, owed_in};
ghost use Rattle.session_flows.specs.Laws.{Rise};

use crate::flows::Flows;
use crate::taking::TakingFlow;
use rtmfp_forms::Outgoing;

impl Flows {
    /// Whether an ack is owed. It takes no memory.
    pub fn owes_acks(&self) -> bool
        ensures { result ≡ owes self.now }
    {
        self.taking.iter().any(|t| t.owed)
    }

    /// Puts the acks that are owed at the end of a packet, one a flow, by rising IDs, each with as
    /// many pairs as fit. The first whose head has no room, and those after it, stay owed. It takes
    /// no memory.
    pub fn put_acks(&mut self, out: &mut Outgoing)
        ensures flows { self.new ≡ after_acks self.old out.old }
        ensures packet { out.new ≡ (acks_put self.old.taking out.old).packet }
        // Where one is owed, one goes into a packet that has no more than its head.
        ensures falls { owes self.old ≡ true → length out.old ≤ 51 →
            owed_count self.new < owed_count self.old }
    {
        put_acks(&mut self.taking, out);
    }

    /// Owes no acks any more: those that found no memory aren't sent.
    pub fn forget_acks(&mut self)
        ensures { self.new ≡ owing_none self.old }
    {
        forget(&mut self.taking);
    }
}

/// Puts the acks of these flows that are owed at the end of a packet, as far as there is room.
fn put_acks(taking: &mut [TakingFlow], out: &mut Outgoing)
    ensures flows { taking.new ≡ (acks_put taking.old out.old).taking }
    ensures packet { out.new ≡ (acks_put taking.old out.old).packet }
    ensures falls { list_any is_owed taking.old ≡ true → length out.old ≤ 51 →
        owed_in taking.new < owed_in taking.old }
{
    for flow in taking.iter_mut() {
        if flow.owed {
            if flow.receiver.ack_into(flow.id, out).is_err() {
                return;
            }
            flow.owed = false;
        }
    }
}

fn forget(taking: &mut [TakingFlow])
    requires { Rise 0 taking.old }
    ensures rise { Rise 0 taking.new }
    ensures none { taking.new ≡ map paid taking.old }
{
    for flow in taking.iter_mut() {
        flow.owed = false;
    }
}
