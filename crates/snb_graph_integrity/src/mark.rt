//! Marks on all that is reached from some ids.

ghost use Rattle.std.specs.Prelude.{◌≡◌, ◌++◌, ◌∷◌, [], ℕ, List, IfOk, OnOk};
ghost use Rattle.snb_graph_integrity.specs.Marks.{AreReached, IsMarking, HasChildren};

use snb_graph_rows::Index;
use std::alloc::{AllocError, Global};

// Adds the ids of an id's pairs to a list.
fn push_pairs(pairs: &Index, of: u64, ahead: &mut Vec<u64>) -> Result<(), AllocError>
    ensures { OnOk result (HasChildren pairs.now of ahead.old.items ahead.new.items) }
{
    for (key, _) in pairs.pairs(of) {
        ahead.push(key.1)?;
    }
    Ok(())
}

// Marks an id that was to be looked at, and notes where its pairs lead.
fn look(pairs: &Index, marks: &mut Index, ahead: &mut Vec<u64>, id: u64) -> Result<(), AllocError>
    ensures { OnOk result
        ((roots : List ℕ) → IsMarking pairs.now roots marks.old (ahead.old.items ++ id ∷ [])
        → IsMarking pairs.now roots marks.new ahead.new.items) }
{
    if marks.has(id, 0) {
        return Ok(());
    }
    marks.add(id, 0, 0)?;
    push_pairs(pairs, id, ahead)
}

/// Marks all that is reached from the roots by pairs, each id once: a walk over a list, and no
/// recursion, so that a long chain costs no stack, and a cycle ends.
pub fn reached(alloc: Global, pairs: &Index, roots: Vec<u64>) -> Result<Index, AllocError>
    ensures { IfOk result (AreReached pairs.now roots.items) }
{
    let mut marks = Index::empty(alloc);
    let mut ahead = roots;
    for _ in 0..u64::MAX {
        match ahead.pop() {
            Some(id) => look(pairs, &mut marks, &mut ahead, id)?,
            None => return Ok(marks),
        }
    }
    // Nobody has so much memory.
    Err(AllocError)
}
