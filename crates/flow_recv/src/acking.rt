//! Pairs of an ack.

ghost use Rattle.std.specs.Prelude.{◌≡◌, ◌+◌, ◌<◌, ◌≤◌, ◌∷◌, ◌++◌, length};
ghost use Rattle.rtmfp_forms.specs.Outgoing.{packet_limit};
ghost use Rattle.flow_recv.specs.Receiver.{Apart, span};
ghost use Rattle.flow_recv.specs.Acking.{pair_bytes, pairs_in};

use crate::above::Above;
use crate::spans::Span;
use rtmfp_forms::Outgoing;
use rtmfp_vlu::vlu_len;

/// The length of the pair of a span.
fn pair_len(after: u64, here: Span) -> usize
    requires above { after + 1 < here.first }
    requires order { here.first ≤ here.last }
    ensures { result ≡ length (pair_bytes after here) }
{
    vlu_len(here.first - after - 2) + vlu_len(here.last - here.first)
}

/// Puts the pair of a span at the end, for which there is room.
fn put_pair(after: u64, here: Span, out: &mut Outgoing)
    requires above { after + 1 < here.first }
    requires order { here.first ≤ here.last }
    requires room { length out.old + length (pair_bytes after here) ≤ packet_limit }
    ensures { out.new ≡ out.old ++ pair_bytes after here }
{
    out.append_vlu(here.first - after - 2);
    out.append_vlu(here.last - here.first);
}

/// The length of as many pairs as fit into so many bytes.
pub fn pairs_len(room: usize, through: u64, above: &Above) -> usize
    requires { Apart (span 0 through ∷ above.now) }
    ensures length { result ≡ length (pairs_in room through above.now) }
    ensures within { result ≤ room }
{
    let mut left = room;
    let mut after = through;
    for (first, last) in above.iter() {
        let here = Span {
            first: *first,
            last: *last,
        };
        let len = pair_len(after, here);
        if len > left {
            break;
        }
        left -= len;
        after = here.last;
    }
    room - left
}

/// Puts as many pairs at the end as fit into so many bytes, for which there is room.
pub fn put_pairs(room: usize, through: u64, above: &Above, out: &mut Outgoing)
    requires apart { Apart (span 0 through ∷ above.now) }
    requires room { length out.old + room ≤ packet_limit }
    ensures { out.new ≡ out.old ++ pairs_in room through above.now }
{
    let mut left = room;
    let mut after = through;
    for (first, last) in above.iter() {
        let here = Span {
            first: *first,
            last: *last,
        };
        let len = pair_len(after, here);
        if len > left {
            break;
        }
        put_pair(after, here, out);
        left -= len;
        after = here.last;
    }
}
