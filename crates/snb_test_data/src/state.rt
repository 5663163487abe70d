//! What the calls of a case are made on.

use crate::dataset::Dataset;
use crate::graphs::Graphs;
use crate::loaded::Loaded;
use snb_test_script::Flaw;
use std::alloc::Global;

/// Two graphs of friendships, and the dataset of persons with its graph.
pub struct State {
    pub(crate) graphs: Graphs,
    pub(crate) dataset: Dataset,
    // The graph of the dataset, once it is asked for.
    loaded: Option<Loaded>,
}

impl Drop for State {
    fn drop(self) {
        let State {
            graphs: _,
            dataset: _,
            loaded: _,
        } = self;
    }
}

impl State {
    /// As a case begins: no friendship and no person.
    pub fn new(alloc: Global) -> State {
        State {
            graphs: Graphs::new(alloc),
            dataset: Dataset::new(alloc),
            loaded: None,
        }
    }

    /// Forgets the graph of the dataset, since that has changed.
    pub(crate) fn forget(&mut self) {
        self.loaded = None;
    }

    /// The graph of the dataset, which is read where it isn't yet.
    pub(crate) fn loaded(&mut self, alloc: Global) -> Result<&Loaded, Flaw> {
        if self.loaded.is_none() {
            self.loaded = Some(Loaded::of(alloc, &self.dataset)?);
        }
        match &self.loaded {
            Some(loaded) => Ok(loaded),
            None => Err(Flaw::Unsound),
        }
    }
}
