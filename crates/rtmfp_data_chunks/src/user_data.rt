//! A user data chunk (RFC 7016 section 2.3.11).

use rtmfp_forms::Options;

/// Where a fragment stands in its message.
#[derive(Clone, Copy, Debug, PartialEq, Eq)]
pub enum Part {
    /// The whole message.
    Whole,
    /// Its first fragment, and more follow.
    Begin,
    /// Its last fragment, and others came before.
    End,
    /// A fragment between these two.
    Middle,
}

/// A fragment of a message, or a forward number alone.
#[derive(Drop)]
pub struct UserData<'a> {
    pub part: Part,
    /// No fragment has this number any more.
    pub abandon: bool,
    /// No number above this one is of the flow.
    pub last: bool,
    pub flow: u64,
    pub seq: u64,
    /// Nothing at or below this number is sent any more.
    pub forward: u64,
    pub options: Option<Options<'a>>,
    pub bytes: &'a [u8],
}

/// The numbers of a user data chunk, from which those of a next chunk behind it follow.
#[derive(Clone, Copy, Debug, PartialEq, Eq)]
pub struct Numbers {
    pub flow: u64,
    pub seq: u64,
    pub forward: u64,
}
