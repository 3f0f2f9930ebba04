//! What a plain packet is to the place that it came at: its mode, and its fault where it can't be
//! read.

ghost use Rattle.std.specs.Prelude.{◌≡◌, ◌==◌};
ghost use Rattle.endpoint_model.specs.Admission.{fault_number, has_mode, mode_at, peers_mode};

use crate::end_state::EndState;
use endpoint_model::Place;
use rtmfp_packet::{Mode, PacketFault, PacketHead};
use session_core::Role;

impl EndState {
    /// The mode that packets have at a place.
    pub fn mode_at(&self, place: Place) -> Mode
        ensures { result ≡ mode_at self.now place }
    {
        match place {
            Place::Startup { .. } => Mode::Startup,
            Place::Attempt { .. } => Mode::Startup,
            Place::Session(near) => match self.sessions.row(near) {
                Some(row) => peers_mode(row.session.role()),
                None => Mode::Startup,
            },
        }
    }
}

/// The mode of the packets of the peer of an end with this role.
fn peers_mode(role: Role) -> Mode
    ensures { result ≡ peers_mode role }
{
    match role {
        Role::Initiator => Mode::Responder,
        Role::Responder => Mode::Initiator,
    }
}

/// Whether a head has this mode.
pub fn has_mode(head: &PacketHead, mode: Mode) -> bool
    ensures { result ≡ has_mode head.now mode }
{
    head.mode == mode
}

/// The number that a fault of a packet has in the cause of its discard.
pub fn fault_number(fault: PacketFault) -> u8
    ensures { result ≡ fault_number fault }
{
    match fault {
        PacketFault::Empty => 1,
        PacketFault::ModeZero => 2,
        PacketFault::ShortStamp => 3,
    }
}
