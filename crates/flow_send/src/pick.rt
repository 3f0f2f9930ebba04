//! Which chunk a sender sends.

/// A fragment, by the index of its row, or a notice of the forward number.
#[derive(Clone, Copy, Debug, PartialEq, Eq)]
pub enum Pick {
    Row(usize),
    Notice,
}
