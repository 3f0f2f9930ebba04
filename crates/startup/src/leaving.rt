//! An attempt that was found.

/// An attempt that was found: its near id.
#[derive(Clone, Copy, Debug, PartialEq, Eq)]
pub struct Found {
    pub(crate) near: u32,
}

/// The attempt or search that a responder's hello answers, and the fingerprint of the end whose
/// hello it is, so that its certificate is hashed once.
#[derive(Clone, Copy, Debug, PartialEq, Eq)]
pub struct Greeting {
    /// The attempt or search.
    pub found: Found,
    /// The fingerprint of the end that answers it.
    pub print: [u8; 32],
}
