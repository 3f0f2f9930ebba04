//! The walk over the chunks of a packet.
ghost use Rattle.std.specs.Prelude.{◌≡◌, ◌+◌, ◌^◌, ◌<◌, length};
ghost use Rattle.rtmfp_packet.specs.Walk.{is_ignored};

/// A chunk as it stands in the packet.
#[derive(Clone, Copy, Debug)]
pub struct RawChunk<'a> {
    /// The type.
    pub kind: u8,
    /// The offset of the type byte in the packet.
    pub at: usize,
    /// The payload, a part of the packet.
    pub payload: &'a [u8],
}

/// The chunks of a packet, in order, but for those of types 0x00 and 0xff, which are passed over.
#[derive(Clone, Copy)]
pub struct Chunks<'a> {
    at: usize,
    rest: &'a [u8],
    ghost within: { at + length rest.now < 2 ^ 64 },
}

impl<'a> Chunks<'a> {
    ghost use Rattle.std.specs.Prelude.{◌≡◌, ◌+◌, ◌^◌, ◌<◌, length, IfSome, IfNone};
    ghost use Rattle.rtmfp_packet.specs.Walk.{body_of, only_padding};
    ghost use Rattle.rtmfp_packet.specs.Chunks.{Steps};

    /// The chunks that begin at this offset of a packet.
    pub(crate) fn new(at: usize, rest: &'a [u8]) -> Chunks<'a>
        requires { at + length rest.now < 2 ^ 64 }
        ensures at { result.at ≡ at }
        ensures rest { result.rest.now ≡ rest.now }
    {
        Chunks { at, rest }
    }

    /// Takes the first chunk, whatever its type. Where none is whole, what is left is padding.
    pub(crate) fn next_raw(&mut self) -> Option<RawChunk<'a>>
        ensures some { IfSome result (λ chunk. Steps self.old chunk self.new) }
        ensures none { IfNone result (body_of self.old.rest.now ≡ only_padding self.old.rest.now) }
        ensures shorter { IfSome result (λ _. length self.new.rest.now < length self.old.rest.now) }
        ensures same { IfNone result (self.new ≡ self.old) }
    {
        let [kind, high, low, rest @ ..] = self.rest else {
            return None;
        };
        let len = usize::from(u16::from_be_bytes([*high, *low]));
        if rest.len() < len {
            return None;
        }
        let (payload, after) = rest.split_at(len);
        let chunk = RawChunk {
            kind: *kind,
            at: self.at,
            payload,
        };
        *self = Chunks {
            at: self.at + 3 + len,
            rest: after,
        };
        Some(chunk)
    }

    /// How many bytes are left.
    pub(crate) fn rest_len(&self) -> usize
        ensures { result ≡ length self.now.rest.now }
    {
        self.rest.len()
    }
}

impl<'a> Iterator for Chunks<'a> {
    type Item = RawChunk<'a>;

    ghost use Rattle.rtmfp_packet.specs.Chunks.{left, shown};
    ghost use Rattle.std.specs.Iterator.{YieldsFirstBy, item_count};

    ghost next_gives = { YieldsFirstBy shown left };

    ghost remaining = { item_count left };

    fn next(&mut self) -> Option<RawChunk<'a>> {
        while let Some(chunk) = self.next_raw() {
            if !is_ignored(chunk.kind) {
                return Some(chunk);
            }
        }
        None
    }
}

/// Whether chunks of this type are passed over.
fn is_ignored(kind: u8) -> bool
    ensures { result ≡ is_ignored kind }
{
    kind == 0x00 || kind == 0xff
}
