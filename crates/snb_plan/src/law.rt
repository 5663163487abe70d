//! Laws of plans and of closed updates.

ghost use Rattle.snb_plan.specs.PlanLaws.{ClosedIsOne, ClosedPlanIsNotStuck, ClosedPlanIsTimely, PlanIsOne};

use snb_schema::Held;

/// Updates are refused in one way at most, whatever keys the dataset has, and aren't closed where they
/// are.
pub fn closed_is_one<H: Held>(_held: &H)
    ensures { ClosedIsOne (H.holds _held.now) }
{}

/// Lanes, parameters, frequencies and a ratio have one plan at most.
pub fn plan_is_one()
    ensures { PlanIsOne }
{}

/// In a plan whose updates are closed, each dependent needs only what lies before it (`timely`). So no
/// legal history of it, of however many workers, is stuck: where nobody has an operation in hand, nobody
/// has halted and some operation is unstarted, some unstarted operation may start (`goes_on`).
pub fn closed_plan_is_not_stuck<H: Held>(_held: &H)
    ensures timely { ClosedPlanIsTimely (H.holds _held.now) }
    ensures goes_on { ClosedPlanIsNotStuck (H.holds _held.now) }
{}
