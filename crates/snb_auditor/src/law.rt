//! Laws of verdicts, over every schedule and every history.

ghost use Rattle.snb_auditor.specs.VerdictLaws.{AcceptedExactly, VerdictExists, VerdictIsOne};

/// A history has one verdict at most.
pub fn verdict_is_one()
    ensures { VerdictIsOne }
{}

/// A history is accepted exactly where it is legal and complete, and at least 95 of 100 operations
/// start in time.
pub fn accepted_exactly()
    ensures { AcceptedExactly }
{}

/// A history whose moments aren't too great has a verdict.
pub fn verdict_exists()
    ensures { VerdictExists }
{}
