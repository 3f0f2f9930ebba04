//! The number with which a packet of a session is sealed.

ghost use Rattle.std.specs.Prelude.{◌≡◌};
ghost use Rattle.session_core.specs.Sealed.{number_bytes};

/// The number of a session's packet, by its count.
pub(crate) fn number_of_count(count: u64) -> [u8; 16]
    ensures { result ≡ number_bytes count }
{
    let mut number = [0; 16];
    number[8..].copy_from_slice(&count.to_be_bytes());
    number
}
