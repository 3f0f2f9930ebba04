//! What keyings keep, for callers' proofs. The functions do nothing: the contract of each is its
//! law.

ghost use Rattle.startup_packets.specs.Offsets.{CertificateStandsThere, PartStandsThere};

/// The offset that is told of a certificate without its form is that of the certificate, and the
/// same of a part.
pub fn what_has_no_form_stands_at_the_told_offset()
    ensures certificate { CertificateStandsThere }
    ensures part { PartStandsThere }
{}
