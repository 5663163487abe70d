//! Laws of claims, over every schedule and every history.

ghost use Rattle.snb_book.specs.ClaimLaws.{ClaimFits, ClaimIsBlocked, ClaimIsNotStuck, ClaimIsOne, ClaimExists};

/// What a claim starts fits.
pub fn claim_fits()
    ensures { ClaimFits }
{}

/// What a claim finds blocked waits for the completion time.
pub fn claim_is_blocked()
    ensures { ClaimIsBlocked }
{}

/// Where nobody has anything in hand, a claim starts an operation once one is due.
pub fn claim_is_not_stuck()
    ensures { ClaimIsNotStuck }
{}

/// A claim has one answer: no two of those that the definition allows differ.
pub fn claim_is_one()
    ensures { ClaimIsOne }
{}

/// A claim has an answer at every legal history, dependents and forum lanes included.
pub fn claim_exists()
    ensures { ClaimExists }
{}
