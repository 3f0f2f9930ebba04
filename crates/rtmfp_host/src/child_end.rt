//! The ends of children in memory.
ghost use Rattle.std.specs.Prelude.{◌≡◌, IfOk};
ghost use Rattle.rtmfp_host.specs.Ends.{end_at};

use rtmfp_base::{Memory, Message};
use std::alloc::Global;

/// How a child ends.
#[derive(Drop)]
pub struct ChildEnd {
    /// Its exit status.
    pub status: i32,
    /// What it wrote.
    pub text: Message,
}

/// A copy of the end of a child.
pub(crate) fn copy_end(alloc: Global, ends: &[ChildEnd], child: u32) -> Result<ChildEnd, Memory>
    ensures { IfOk result (λ end. end ≡ end_at child ends.now) }
{
    match ends.get(child as usize) {
        Some(end) => Ok(ChildEnd {
            status: end.status,
            text: Message::copy_of(alloc, end.text.bytes())?,
        }),
        None => Ok(ChildEnd {
            status: 0,
            text: Message::of(Vec::new(alloc)),
        }),
    }
}
