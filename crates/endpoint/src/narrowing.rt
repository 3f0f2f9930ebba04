//! The call that narrows an end to a path which takes no long datagrams (own).

ghost use Rattle.std.specs.Prelude.{◌≡◌, ◌≤◌};
ghost use Rattle.endpoint_model.specs.Log.{Extends, narrow_event};
ghost use Rattle.endpoint_model.specs.State.{narrowing};

use crate::endpoint::Endpoint;

impl Endpoint {
    /// From now on a packet of a session that has more than so many plain bytes goes out in pieces,
    /// each in a packet of its own with that many plain bytes at most (RFC 7016 section 2.3.1; the
    /// limit is own). The bytes of a packet are those before it is sealed: its datagram has 36 more.
    /// A new end has 1,164, so that each packet goes out whole, and a later call takes the place of
    /// one before it, in either direction. Startup packets always go out whole. It takes no memory.
    ///
    /// Of a packet with a piece 32 bytes are left to what stands before the piece. With 96 each
    /// piece has 64 bytes, so that the longest packet is 19 pieces, of the 64 that the other end
    /// takes.
    pub fn narrow(&mut self, limit: u16)
        requires least { 96 ≤ limit }
        requires most { limit ≤ 1164 }
        ensures state { self.new ≡ narrowing self.old limit }

        // The end stands for its log with this call.
        ensures stands { Extends self.old self.new (narrow_event limit) }
    {
        self.end.narrow(limit);
    }
}
