//! Worked rows: what the laws of replay ask for can be met.

ghost use Rattle.std.specs.Prelude.{[], ◌∷◌};
ghost use Rattle.snb_history.specs.Rules.{IsComplete, IsLegal};
ghost use Rattle.snb_graph_model.specs.Graphs.{IsGraph};
ghost use Rattle.snb_graph_model.specs.Soundness.{Sound};
ghost use Rattle.snb_plan.specs.Plans.{schedule_of};
ghost use Rattle.snb_workers_replay.specs.Laws.{IsReplayed};
ghost use Rattle.snb_workers_replay.specs.Worked.{city, one_insert, one_turn};

/// A sound graph of one city, a plan over it that inserts a person of that city, and a legal, complete
/// history of one worker.
pub fn one_person_is_inserted()
    ensures graph { IsGraph (city ∷ []) }
    ensures sound { Sound (city ∷ []) }
    ensures replayed { IsReplayed (city ∷ []) one_insert }
    ensures legal { IsLegal (schedule_of one_insert) 1 one_turn }
    ensures complete { IsComplete (schedule_of one_insert) one_turn }
{}
