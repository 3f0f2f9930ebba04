//! The fields of the chunks that open a session.

ghost use Rattle.std.specs.Prelude.{◌≡◌, IfSome};
ghost use Rattle.std.specs.Option.{option_map};
ghost use Rattle.rtmfp_chunks.specs.Reading.{Reading};
ghost use Rattle.rtmfp_chunks.specs.FieldReading.{chunk_reading};
ghost use Rattle.log_packets.specs.Asked.{hello_of, hello_shown, initiator_of, initiator_shown};
ghost use Rattle.log_packets.specs.Asked.{responder_of, responder_shown, SaysInitiator};
ghost use Rattle.log_packets.specs.Asked.{SaysResponder};

use rtmfp_chunks::{ChunkView, read_chunk};
use rtmfp_packet::RawChunk;

/// What a responder's hello says (RFC 7016 section 2.3.4).
#[derive(Clone, Copy)]
pub(crate) struct Hello<'a> {
    pub(crate) tag: &'a [u8],
    pub(crate) cookie: &'a [u8],
    pub(crate) cert: &'a [u8],
}

/// What an initiator's keying says (RFC 7016 section 2.3.7).
#[derive(Clone, Copy)]
pub struct InitiatorKeying<'a> {
    /// The whole payload, which ends with the signature.
    pub payload: &'a [u8],
    /// The initiator's session ID.
    pub near: u32,
    /// The cookie that it was given.
    pub cookie: &'a [u8],
    /// The bytes of its certificate.
    pub cert: &'a [u8],
    /// Its component of the session key.
    pub part: &'a [u8],
    /// The signature of what stands before it.
    pub sign: &'a [u8],
}

/// What a responder's keying says (RFC 7016 section 2.3.8).
#[derive(Clone, Copy)]
pub struct ResponderKeying<'a> {
    /// The responder's session ID.
    pub near: u32,
    /// Its component of the session key.
    pub part: &'a [u8],
    /// The signature of what stands before it.
    pub sign: &'a [u8],
}

/// The fields of a responder's hello, where the chunk is one.
pub(crate) fn hello_in(kind: u8, payload: &[u8]) -> Option<Hello<'_>>
    ensures fields { option_map hello_shown result ≡ hello_of (chunk_reading kind payload.now) }
    ensures reads { Reading kind payload.now (chunk_reading kind payload.now) }
{
    match read_chunk(kind, payload) {
        Ok(ChunkView::RHello { tag, cookie, cert }) => Some(Hello { tag, cookie, cert }),
        Ok(_) => None,
        Err(_) => None,
    }
}

/// The fields of an initiator's keying, where the chunk is one.
pub(crate) fn initiator_in(kind: u8, payload: &[u8]) -> Option<InitiatorKeying<'_>>
    ensures fields { option_map initiator_shown result
        ≡ initiator_of (chunk_reading kind payload.now) }
    ensures payload { IfSome result (λ keying. keying.payload.now ≡ payload.now) }
    ensures reads { Reading kind payload.now (chunk_reading kind payload.now) }
{
    match read_chunk(kind, payload) {
        Ok(
            ChunkView::IIKeying {
                near,
                cookie,
                cert,
                part,
                sign,
            },
        ) => Some(InitiatorKeying {
            payload,
            near,
            cookie,
            cert,
            part,
            sign,
        }),
        Ok(_) => None,
        Err(_) => None,
    }
}

/// The fields of a responder's keying, where the chunk is one.
pub(crate) fn responder_in(kind: u8, payload: &[u8]) -> Option<ResponderKeying<'_>>
    ensures fields { option_map responder_shown result
        ≡ responder_of (chunk_reading kind payload.now) }
    ensures reads { Reading kind payload.now (chunk_reading kind payload.now) }
{
    match read_chunk(kind, payload) {
        Ok(ChunkView::RIKeying { near, part, sign }) => Some(ResponderKeying { near, part, sign }),
        Ok(_) => None,
        Err(_) => None,
    }
}

/// What an initiator's keying says, where the chunk is one.
pub fn initiator_keying<'a>(chunk: &RawChunk<'a>) -> Option<InitiatorKeying<'a>>
    ensures says { SaysInitiator chunk.now.kind chunk.now.payload.now
        (option_map initiator_shown result) }
    ensures payload { IfSome result (λ keying. keying.payload.now ≡ chunk.now.payload.now) }
{
    initiator_in(chunk.kind, chunk.payload)
}

/// What a responder's keying says, where the chunk is one.
pub fn responder_keying<'a>(chunk: &RawChunk<'a>) -> Option<ResponderKeying<'a>>
    ensures { SaysResponder chunk.now.kind chunk.now.payload.now
        (option_map responder_shown result) }
{
    responder_in(chunk.kind, chunk.payload)
}
