//! The texts of audits, a second time. The functions do nothing: the contract of each is a table.

ghost use Rattle.std.specs.Prelude.{◌≡◌, codes};
ghost use Rattle.log_verdict.specs.declared.verdict.AuditFault.TheVariants.{Secrets, Unlawful, NotHonest, NotFresh};
ghost use Rattle.rtmfp_audit.specs.Texts.{agreed_text, refused_text};

/// What is written of logs that agree.
pub fn logs_that_agree_have_their_text()
    ensures none { agreed_text 0 0 0 ≡ codes "agreed ends=0 events=0 kept=0\n" }
    ensures two { agreed_text 2 11 2 ≡ codes "agreed ends=2 events=11 kept=2\n" }
{}

/// What is written of logs that are refused, with the word of each fault.
pub fn each_fault_has_its_text()
    ensures secrets { refused_text 1 Secrets ≡ codes "refused line=1 secrets\n" }
    ensures unlawful { refused_text 19 Unlawful ≡ codes "refused line=19 unlawful\n" }
    ensures not_honest { refused_text 20 NotHonest ≡ codes "refused line=20 not-honest\n" }
    ensures not_fresh { refused_text 100000 NotFresh ≡ codes "refused line=100000 not-fresh\n" }
{}
