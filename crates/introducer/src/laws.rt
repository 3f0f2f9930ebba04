//! What a directory keeps, for callers' proofs. The function does nothing: its contract is its law.

ghost use Rattle.introducer.specs.Happenings.{ForwardsToLastKept};

/// Whatever was kept and went, a hello is forwarded to the session that was kept last with its end
/// and isn't gone.
pub fn a_hello_goes_to_the_last_kept_session()
    ensures { ForwardsToLastKept }
{}
