//! The law of the nonces that entries state. The function does nothing: its contract states it.

ghost use Rattle.log_sent.specs.Nonces.{NoncesAreStated};

/// The nonces that entries state, one by one, are those of the end's facts and those of the
/// history.
pub fn nonces_are_stated()
    ensures { NoncesAreStated }
{}
