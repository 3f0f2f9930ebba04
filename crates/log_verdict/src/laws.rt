//! The laws of audits. The functions do nothing: the contract of each states a law.

ghost use Rattle.log_verdict.specs.Laws.{EachPassedAuditIsAgreed, OneCheckFailsFirst, WhatPassesIsAudited};

/// All checks pass exactly where the history is lawful, honest and fresh, with one map of secrets.
pub fn what_passes_is_audited()
    ensures { WhatPassesIsAudited }
{}

/// So the ends of logs that pass agree, if their calls were given what calls are given.
pub fn each_passed_audit_is_agreed()
    ensures { EachPassedAuditIsAgreed }
{}

/// One check at most is the first that fails, and none where all pass.
pub fn one_check_fails_first()
    ensures { OneCheckFailsFirst }
{}
