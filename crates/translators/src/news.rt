//! What an outward call makes.

/// What an outward call makes that wasn't there before it.
#[derive(Clone, Copy, Debug, PartialEq, Eq)]
pub enum News {
    /// Nothing: it goes out as one did before it.
    Nothing,
    /// Its mapping is used towards one more host.
    NewHost,
    /// A mapping.
    NewMapping,
}
