//! Whether the other host counts.

/// What a mapping is for, or what a filter lets in (own, in the terms of RFC 4787 sections 4.1 and
/// 5).
#[derive(Clone, Copy, Debug, PartialEq, Eq)]
pub enum Rule {
    /// Whatever the other end is: endpoint-independent.
    Independent,
    /// For each host of another end by itself, whatever its port: address-dependent.
    Dependent,
}
