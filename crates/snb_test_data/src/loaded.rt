//! The graph of a dataset, once it is read.

use crate::dataset::{Dataset, graph_of};
use snb_graph::Graph;
use snb_reach::{Near, ic13, shortest, within};
use snb_read_model::{Cell, CowText};
use snb_test_script::{Flaw, List};
use std::alloc::{AllocError, Global};
use std::marker::Model;

// Adds a cell that is a number.
fn add_cell(alloc: Global, list: &mut List, cell: &Cell<CowText<'_>>) -> Result<(), AllocError> {
    match cell {
        Cell::Number { value } => {
            let item = format!(in alloc; "{value}")?;
            list.add(item.as_str())
        }
        _ => list.add("no number"),
    }
}

/// The graph of a dataset, which is sound.
pub struct Loaded {
    graph: Graph,
}

impl Drop for Loaded {
    fn drop(self) {
        let Loaded { graph: _ } = self;
    }
}

impl Model for Loaded {
    ghost use Rattle.std.specs.Prelude.{List};
    ghost use Rattle.snb_schema.specs.declared.row.Row.{Row};
    ghost use Rattle.snb_graph_model.specs.Soundness.{Sound};

    ghost Value = { List Row };

    ghost view = { λ s. s.graph };

    ghost invariant = { λ s. Sound s.graph };
}

impl Loaded {
    /// The graph of the dataset.
    pub fn of(alloc: Global, dataset: &Dataset) -> Result<Loaded, Flaw> {
        let graph = graph_of(alloc, dataset)?;
        Ok(Loaded { graph })
    }

    /// The length of a shortest walk.
    pub fn shortest(&self, alloc: Global, from: u64, to: u64) -> Result<i64, AllocError> {
        shortest(alloc, &self.graph, from, to)
    }

    /// The numbers of a copy of the answer to complex read 13.
    pub fn ic13(&self, alloc: Global, from: u64, to: u64) -> Result<String, Flaw> {
        let answer = ic13(alloc, &self.graph, from, to)?.try_copy()?;
        let mut list = List::new(alloc);
        for row in answer.as_slice() {
            for cell in row.as_slice() {
                add_cell(alloc, &mut list, cell)?;
            }
        }
        list.told(alloc)
    }

    /// Who is near a person, as a copy.
    pub fn within(&self, alloc: Global, start: u64, steps: u32) -> Result<Near, AllocError> {
        within(alloc, &self.graph, start, steps)?.try_copy()
    }
}
