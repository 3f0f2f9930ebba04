use rtmfp_forms::Address;

/// A chunk, as a view of its payload (RFC 7016 section 2.3, the chunks of flows aside).
#[derive(Clone, Copy, Debug, PartialEq, Eq)]
pub enum ChunkView<'a> {
    /// The request to open a session (RFC 7016 section 2.3.2).
    IHello {
        /// The endpoint discriminator of the endpoint that is sought.
        epd: &'a [u8],
        /// What the answer has to repeat.
        tag: &'a [u8],
    },
    /// A request that an introducer forwards (RFC 7016 section 2.3.3).
    FIHello {
        /// The endpoint discriminator of the endpoint that is sought.
        epd: &'a [u8],
        /// Where the answer has to go.
        reply: Address,
        /// What the answer has to repeat.
        tag: &'a [u8],
    },
    /// The answer to a request (RFC 7016 section 2.3.4).
    RHello {
        /// The tag of the request.
        tag: &'a [u8],
        /// What the keying has to repeat.
        cookie: &'a [u8],
        /// The responder's certificate.
        cert: &'a [u8],
    },
    /// Further addresses to try (RFC 7016 section 2.3.5).
    Redirect {
        /// The tag of the request.
        tag: &'a [u8],
        /// Whole addresses, one after another.
        list: &'a [u8],
    },
    /// A new cookie in place of one that isn't good any more (RFC 7016 section 2.3.6).
    CookieChange {
        /// The cookie that was sent.
        old: &'a [u8],
        /// The cookie to send.
        new: &'a [u8],
    },
    /// The initiator's part of the keying (RFC 7016 section 2.3.7).
    IIKeying {
        /// The session ID that the initiator chose.
        near: u32,
        /// The cookie of the answer.
        cookie: &'a [u8],
        /// The initiator's certificate.
        cert: &'a [u8],
        /// The initiator's component of the session key.
        part: &'a [u8],
        /// The signature over the fields before it.
        sign: &'a [u8],
    },
    /// The responder's part of the keying (RFC 7016 section 2.3.8).
    RIKeying {
        /// The session ID that the responder chose.
        near: u32,
        /// The responder's component of the session key.
        part: &'a [u8],
        /// The signature over the fields before it.
        sign: &'a [u8],
    },
    /// A question whether the session is alive (RFC 7016 section 2.3.9).
    Ping {
        /// What the answer has to repeat.
        bytes: &'a [u8],
    },
    /// The answer to a ping (RFC 7016 section 2.3.10).
    PingReply {
        /// The bytes of the ping.
        bytes: &'a [u8],
    },
    /// The end of a session (RFC 7016 section 2.3.17). Own: a payload is ignored.
    Close,
    /// The answer to a close (RFC 7016 section 2.3.18). Own: a payload is ignored.
    CloseAck,
    /// A part of a packet (RFC 7016 section 2.3.1).
    Fragment {
        /// Whether a further part follows this one.
        more: bool,
        /// Which packet it is a part of.
        id: u64,
        /// Which part it is, from 0 on.
        number: u64,
        /// The bytes of this part.
        bytes: &'a [u8],
    },
}
