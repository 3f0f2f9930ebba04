//! Datagrams that come in.

ghost use Rattle.std.specs.Prelude.{◌≡◌, ◌+◌, ◌≤◌, drop, length};
ghost use Rattle.endpoint_model.specs.Admission.{admission};
ghost use Rattle.endpoint_model.specs.Log.{Extends, IsTaken, receive_event};
ghost use Rattle.endpoint_model.specs.State.{at_moment};

use crate::endpoint::Endpoint;
use crate::sizes::{are_bytes, are_sized};
use end_loops::{NOT_TAKEN, enter, go_through, open_datagram, packet_at, refuse, refuse_unopened};
use end_state::{Outbox, PLAIN_AT};
use endpoint_model::{Draws, Stopped};
use packet_scramble::SEALED_AT;
use rtmfp_forms::Address;

impl Endpoint {
    /// Takes a datagram, which came from an address (RFC 7016 section 3.5). It is opened in place,
    /// and its chunks are gone through in order, and behind a piece that completes a packet the
    /// chunks of that packet; a chunk that is refused adds its Discard and changes nothing else.
    /// After the chunks, the address that a datagram of a held session came from is tested where it
    /// is another one than the session's (RFC 7016 section 3.5.4.2).
    ///
    /// Where no memory is found the call stops: `Stopped` tells whether the datagram was taken, and
    /// how many chunks were gone through: all of them, where the test or a packet of acks found
    /// none. Where it wasn't taken all is as before but for the moment. A datagram that adds
    /// discards alone, or nothing, asks for no memory where the outbox has room for them.
    pub fn receive(
        &mut self,
        from: Address,
        moment: u64,
        datagram: &mut [u8],
        draws: &Draws,
        out: &mut Outbox,
    ) -> Result<(), Stopped>
        requires { length datagram.old ≤ 2048 }
        ensures taken { IsTaken (at_moment self.old moment) from draws.now
            (admission (at_moment self.old moment) datagram.old) result self.new out.old out.new }

        // The end stands for its log with this call.
        ensures stands { Extends self.old self.new
            (receive_event from moment datagram.old draws.now result out.old.entries
            out.new.entries) }
    {
        are_bytes(datagram);
        are_sized(draws);
        self.end.advance(moment);
        let place = match open_datagram(&mut self.end, datagram) {
            Ok(place) => place,
            Err(cause) => return refuse_unopened(&mut self.end, cause, out),
        };
        let part = behind(datagram, SEALED_AT);
        let plain = behind(datagram, PLAIN_AT);
        let packet = match packet_at(&self.end, place, plain) {
            Ok(packet) => packet,
            Err(cause) => return refuse(&mut self.end, place, part, cause, out),
        };
        match enter(&mut self.end, place, part, packet.head(), out) {
            Ok(()) => go_through(&mut self.end, place, &from, draws, packet.chunks(), out),
            Err(_) => Err(NOT_TAKEN),
        }
    }
}

/// What stands behind so many bytes.
fn behind(bytes: &[u8], at: usize) -> &[u8]
    requires { at ≤ length bytes.now }
    ensures value { result.now ≡ drop at bytes.now }
    ensures length { length result.now + at ≡ length bytes.now }
{
    let (_, rest) = bytes.split_at(at);
    rest
}
