//! How a number in flight is lost.

ghost use Rattle.std.specs.Prelude.{◌≡◌, ◌+◌, nat_le, nat_lt};
ghost use Rattle.flow_send.specs.Marks.{may_lose};

/// How a number in flight is lost.
#[derive(Clone, Copy, Debug)]
pub enum Loss {
    /// Its resend time has passed.
    Late { moment: u64, resend_after: u64 },
    /// An ack newly acknowledges the sending with this ordinal, and is the third against it.
    Third { ordinal: u64 },
}

impl Loss {
    /// Whether a number can be lost so that was last sent with an ordinal, at a moment. Where it
    /// can't, none can that was sent later.
    pub fn may_lose(self, sent: u64, at: u64) -> bool
        ensures { result ≡ may_lose self sent at }
    {
        match self {
            Loss::Late {
                moment,
                resend_after,
            } => at <= moment && resend_after <= moment - at,
            Loss::Third { ordinal } => sent < ordinal,
        }
    }
}
