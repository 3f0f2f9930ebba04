//! Why a datagram or a chunk is discarded (own rules).

/// Why a datagram or a chunk is discarded. The variants stand in the order of their numbers, from
/// 1.
#[derive(Clone, Copy, Debug, PartialEq, Eq)]
pub enum Cause {
    /// The datagram has fewer than 36 bytes.
    Short,
    /// Its session ID is neither 0 nor in use here.
    UnknownSession,
    /// It doesn't open in the context of that ID.
    BadTag,
    /// Its number is too old or was taken before.
    Repeated,
    /// The plain packet has no head; the number of its fault.
    BadPacket(u8),
    /// No chunk has this type.
    UnknownChunk(u8),
    /// The field at this offset of the payload can't be read, a certificate or component there
    /// hasn't its form, or a session ID there is 0.
    Malformed(u64),
    /// The chunk doesn't belong under the datagram's session ID or into a packet that was gathered,
    /// or the packet's mode doesn't belong there.
    WrongPlace,
    /// A hello whose discriminator selects nothing that is answered or forwarded.
    NotSelected,
    /// There is no attempt or search that the chunk could speak of.
    NoAttempt,
    /// The chunk is of another end than the attempt's peer, or of one without the search's name.
    WrongPeer,
    /// The attempt or the session is in a state that doesn't take the chunk.
    WrongState,
    /// The cookie is none of this end's.
    BadCookie,
    /// The signature isn't that of the payload.
    BadSignature,
    /// The component names another responder.
    WrongResponder,
    /// The certificate of an initiator, or of what answers a search, is this end's own.
    OwnCertificate,
    /// The attempt's number isn't above the greatest one seen of the peer, which is given.
    Stale(u64),
    /// The own attempt with this number is held towards the peer, and this end prevails.
    Glare(u64),
    /// The peer has no row, and there are as many rows as may be; how many.
    PeersFull(u64),
    /// Nothing is held with the peer, and there are as many sessions as may be; how many.
    SessionsFull(u64),
    /// An earlier chunk of the datagram is an initiator's keying.
    SecondKeying,
    /// The flow isn't there, and the chunk doesn't make it, or it is associated with a flow that
    /// isn't there.
    UnknownFlow,
    /// The bytes would pass the flow's buffer; how many are held.
    BeyondBuffer(u64),
    /// The number is above the flow's last number, or an end is told below the highest number
    /// taken; that number.
    AfterFinal(u64),
    /// This number was acknowledged, and is above the highest one sent.
    AckBeyond(u64),
    /// The new addresses would pass 16 beside the attempt's candidates; how many it has.
    CandidatesFull(u64),
    /// The chunk is a fragment outside of sessions, or in a packet that was gathered.
    Fragment,
    /// The chunk would make one receiving flow too many; how many there are.
    FlowsFull(u64),
    /// A tag, a cookie or a ping has this many bytes, more than may be.
    Wide(u64),
    /// Something is held with the end that answers a search; its near id.
    AlreadyHeld(u32),
    /// 2^64-1 attempts were started, and a search is answered.
    AttemptsSpent,
    /// The piece isn't held; the number of its refusal, and what the refusal tells.
    Piece(u8, u64),
    /// The piece completes a packet that can't be read; the number of its fault, or 4 where its mode
    /// isn't the peer's.
    BadWhole(u8),
}
