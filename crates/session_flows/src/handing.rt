//! Messages that receiving flows hand over.

ghost use Rattle.std.specs.Prelude.{◌≡◌};
ghost use Rattle.session_flows.specs.Handing.{hands_once, handed_stated};

use crate::flows::Flows;
use rtmfp_base::Message;

impl Flows {
    /// Hands over the next message of a flow, with the number of its first fragment. None where
    /// none is ready. It takes no memory.
    pub fn hand_next(&mut self, flow: u64) -> Option<(u64, Message)>
        ensures { hands_once self.old flow ≡ record {
          flows = self.new;
          stated = handed_stated flow result;
        } }
    {
        let at = self.taking_index(flow)?;
        let row = &mut self.taking[at];
        let Ok(found) = row.receiver.next_message() else {
            return None;
        };
        found
    }
}
