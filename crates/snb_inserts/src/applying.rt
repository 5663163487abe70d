//! An insert is applied to a graph.

ghost use Rattle.std.specs.Prelude.{◌≡◌, ◌↔◌, OnOk, OnErr, Err};
ghost use Rattle.snb_schema.specs.References.{refs_of};
ghost use Rattle.snb_schema.specs.declared.refusal.Missing.{Missing as MissingNode};
ghost use Rattle.snb_graph_model.specs.Graphs.{HasGained};
ghost use Rattle.snb_schema.specs.Inserts.{rows_of as rows_of_op};
ghost use Rattle.snb_graph_model.specs.Soundness.{HoldsRefs, Sound};
ghost use Rattle.snb_inserts.specs.Applying.{HasLine, IsDuplicate, IsFirstMissing, IsWelcome};

use crate::applied::Applied;
use crate::law::inserts_are_kept;
use crate::missing::first_missing;
use crate::rows::rows_of;
use crate::taken::is_taken;
use snb_graph::Graph;
use snb_graph_tables::Insert;
use snb_schema::Op;
use std::alloc::{AllocError, Global};

/// Adds the rows of an insert: a node with its edges and words, or one edge. `Missing` names the
/// first node that the insert refers to, in the order of its fields, and that isn't held.
/// `Duplicate` says that all of these are held, and so is a key that the insert takes: for a post or a
/// comment that of either with its id. `Memory` says that memory doesn't suffice. After each of them
/// the graph is as it was. What it says of duplicates is of a graph whose references are held; of
/// another one it may be that an edge of the new node is there already. The order of references and
/// the rows are those of the Social Network Benchmark's Interactive workload, version 1, inserts 1
/// to 8.
/// The condition: some line of an update stream is the insert's.
pub fn apply(alloc: Global, graph: &mut Graph, op: &Op) -> Result<(), Applied>
    requires line { HasLine op.now }
    ensures ok { OnOk result (HasGained graph.old (rows_of_op op.now) graph.new) }
    ensures missing { (missing : MissingNode) → (result ≡ Err (Applied.Missing missing))
        ↔ IsFirstMissing graph.old (refs_of op.now) missing }
    ensures duplicate { HoldsRefs graph.old → (result ≡ Err Applied.Duplicate) ↔ IsDuplicate graph.old op.now }
    ensures err { OnErr result (graph.new ≡ graph.old) }
    ensures held { OnOk result (HoldsRefs graph.old → HoldsRefs graph.new) }
    ensures sound { OnOk result (Sound graph.old → Sound graph.new) }
{
    graph.known();
    inserts_are_kept();
    if let Some(missing) = first_missing(graph, op) {
        return Err(Applied::Missing { missing });
    }
    if is_taken(graph, op) {
        return Err(Applied::Duplicate);
    }
    let rows = match rows_of(alloc, op) {
        Ok(rows) => rows,
        Err(_) => return Err(Applied::Memory),
    };
    match graph.insert_all(rows) {
        Ok(()) => Ok(()),
        Err(Insert::Memory) => Err(Applied::Memory),
        // Where the graph's references are held, the rows are new, since the insert's key is.
        Err(Insert::Duplicate) => Err(Applied::Duplicate),
    }
}

/// Adds the rows of an insert that finds all that it refers to and whose keys are new: it tests nothing. The one
/// error is want of memory, after which the graph is as it was.
/// The conditions: some line of an update stream is the insert's; the graph is sound; and it holds all that
/// the insert refers to, and no key that it takes.
pub fn apply_welcome(alloc: Global, graph: &mut Graph, op: &Op) -> Result<(), AllocError>
    requires line { HasLine op.now }
    requires sound { Sound graph.old }
    requires welcome { IsWelcome graph.old op.now }
    ensures gained { OnOk result (HasGained graph.old (rows_of_op op.now) graph.new) }
    ensures sound { OnOk result (Sound graph.new) }
    ensures err { OnErr result (graph.new ≡ graph.old) }
{
    graph.known();
    inserts_are_kept();
    let rows = rows_of(alloc, op)?;
    graph.insert_new(rows)
}
