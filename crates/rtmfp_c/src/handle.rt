//! What a program in C holds.

ghost use Rattle.std.specs.Prelude.{◌≡◌, is_some, true};

use crate::held::Held;

/// What `live` is while the handle holds an end.
pub(crate) const LIVE: u64 = 0x72746d66702d3031;

/// What a program in C holds: an end, or nothing. It owns the end.
///
/// All bytes 0 are a handle that holds nothing.
#[repr(C)]
#[derive(Drop)]
pub struct Handle {
    pub(crate) live: u64,
    pub(crate) held: Held,
    ghost fits: { live ≡ 0x72746d66702d3031 → is_some held.node ≡ true },
}
