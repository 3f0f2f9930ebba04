//! The end is taken out of its handle, and put back.

ghost use Rattle.std.specs.Prelude.{◌≡◌, is_some, IfNone, IfSome, None, Some};
ghost use Rattle.rtmfp_c.specs.Handles.{end_in};

use crate::handle::{Handle, LIVE};
use crate::held::Held;
use crate::node::Node;
use boxed_word::loose::Loose;
use std::alloc::Global;
use std::mem::replace;

/// Whether a handle holds an end.
pub(crate) fn is_live(handle: &Handle) -> bool
    ensures { result ≡ is_some (end_in handle.now) }
{
    handle.live == LIVE
}

/// Takes the end out, if there is one; the handle is empty then.
pub(crate) fn take(alloc: Global, handle: &mut Handle) -> Option<Box<Node>>
    ensures some { IfSome result (λ node. end_in handle.old ≡ Some node.value) }
    ensures none { IfNone result (end_in handle.old ≡ None) }
    ensures same { IfNone result (handle.new ≡ handle.old) }
    ensures empty { end_in handle.new ≡ None }
{
    if handle.live != LIVE {
        return None;
    }
    let full = replace(
        handle,
        Handle {
            live: 0,
            held: Held::empty(),
        },
    );
    Some(full.held.loose(alloc).into_box())
}

/// Puts it back.
pub(crate) fn put(handle: &mut Handle, node: Box<Node>)
    ensures { end_in handle.new ≡ Some node.value }
{
    *handle = Handle {
        live: LIVE,
        held: Held::of(Loose::of(node)),
    };
}
