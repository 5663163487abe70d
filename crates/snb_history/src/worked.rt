//! Worked rows, on small plans.

ghost use Rattle.std.specs.Prelude.{◌≡◌, ℕ, pos, negsuc, List, [], ◌∷◌, Some, None};
ghost use Rattle.snb_history.specs.History.{hand, holder, last};
ghost use Rattle.snb_history.specs.Completion.{completion, local, initiated};
ghost use Rattle.snb_history.specs.Rules.{V2, V5, V7};
ghost use Rattle.snb_history.specs.Violation.{told_at, Breaks};
ghost use Rattle.snb_history.specs.Schedule.{IsPlanned};
ghost use Rattle.snb_history.specs.Worked.{tie, level, crossed, crossed_started, crossed_finished};

use crate::event::Event;

/// A schedule may have these steps.
pub fn tie_is_planned()
    ensures { IsPlanned tie }
{}

/// The friendship's t_d isn't reached until the person is finished.
pub fn tie_waits()
    ensures held { completion tie (Event.Start 0 0 0 ∷ []) ≡ pos 7999 }
    ensures done { completion tie (Event.Start 0 0 0 ∷ Event.Finish 0 0 1000 0 ∷ []) ≡ pos 253402300799999 }
{}

/// Two dependencies at one t: the completion time waits for both.
pub fn both_at_one_time()
    ensures none { completion level (Event.Start 0 0 0 ∷ Event.Start 1 1 0 ∷ []) ≡ pos 7999 }
    ensures one { completion level (Event.Start 0 0 0 ∷ Event.Start 1 1 0 ∷ Event.Finish 1 1 0 0 ∷ []) ≡ pos 7999 }
    ensures two { completion level
        (Event.Start 0 0 0 ∷ Event.Start 1 1 0 ∷ Event.Finish 1 1 0 0 ∷ Event.Finish 0 0 0 0 ∷ [])
        ≡ pos 253402300799999 }
{}

/// A dependency that is held keeps the completion time, though later ones are finished.
pub fn held_keeps_the_time()
    ensures held { completion crossed crossed_started ≡ pos 7999 }
    ensures released { completion crossed crossed_finished ≡ pos 8299 }
    ensures local { local crossed crossed_finished 1 ≡ pos 253402300799999 }
    ensures initiated { initiated crossed crossed_finished 0 ≡ pos 8299 }
    ensures in_hand { hand crossed_started 0 ≡ Some 0 }
    ensures free { hand crossed_started 1 ≡ None }
    ensures holder { holder crossed_started 0 ≡ Some 0 }
{}

/// An event that breaks two rules is told by the first.
pub fn first_rule_first()
    ensures { Breaks tie 2 (Event.Start 0 0 3000 ∷ []) (Event.Start 1 1 2000) V5
        (record { needs = pos 8000; found = pos 7999 }) }
{}
