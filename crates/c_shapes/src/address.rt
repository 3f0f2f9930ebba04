//! Where bytes stand.

ghost use Rattle.std.specs.Prelude.{◌≡◌};
ghost use Rattle.std.specs.Ptr.{as_ptr};

/// The address of the first byte. What it leads to, no contract can say.
pub(crate) fn address(bytes: &[u8]) -> *const u8
    ensures { result ≡ as_ptr bytes.entry }
{
    bytes.as_ptr()
}
