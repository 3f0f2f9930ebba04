use thiserror::Error;

/// Why a form isn't there: the first fault from the left.
#[derive(Clone, Copy, Debug, PartialEq, Eq, Error)]
pub enum FormFault {
    /// A field isn't there whole.
    #[error("a field is cut off")]
    Short,
    /// A number has more than ten bytes or more than 64 bits.
    #[error("a number is too large")]
    Large,
    /// The bytes end after a whole option, where a further one or the marker has to stand.
    #[error("the end of the options isn't marked")]
    NoMarker,
}
