//! What time makes due.

ghost use Rattle.std.specs.Prelude.{◌≡◌, ℕ, IsSome, None, OnErr, OnOk};
ghost use Rattle.endpoint_model.specs.Effects.{first_due, ticks};
ghost use Rattle.endpoint_model.specs.FlowTimes.{all_late};
ghost use Rattle.endpoint_model.specs.Log.{Extends, tick_event};
ghost use Rattle.endpoint_model.specs.State.{Done, at_moment};

use crate::endpoint::Endpoint;
use end_loops::do_due;
use end_state::Outbox;
use endpoint_model::Draws;
use rtmfp_base::Memory;

impl Endpoint {
    /// Does all that is due. First, in each held session, the numbers of its flows are lost whose
    /// resend time has passed. Then attempts and searches that weren't answered in time end, and
    /// hellos and keyings go out again, by rising session IDs. Then, by rising session IDs too,
    /// sessions end that weren't confirmed in time or took nothing for long, closings are over or
    /// send their close again, messages are abandoned, flow data goes out, and keepalives do (RFC
    /// 7016 sections 3.5.5 and 3.6.2; the times are own).
    ///
    /// For want of memory it does a part of it: what it did stands, and the first thing that found
    /// none, and what comes after it, is still due. To mark lost numbers takes none.
    pub fn tick(&mut self, moment: u64, draws: &Draws, out: &mut Outbox) -> Result<(), Memory>
        ensures some { (count : ℕ) ×
            Done (ticks count (all_late (at_moment self.old moment))) self.new out.old out.new }
        ensures all { OnOk result (first_due self.new ≡ None) }
        ensures left { OnErr result (IsSome (first_due self.new)) }

        // The end stands for its log with this call.
        ensures stands { Extends self.old self.new
            (tick_event moment draws.now result out.old.entries out.new.entries) }
    {
        self.end.advance(moment);
        self.end.lose_late();
        do_due(&mut self.end, out)
    }
}
