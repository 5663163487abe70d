//! The table of handlers.

use crate::handler::Handler;
use std::alloc::Global;

/// Handlers, one for each kind of read at most, in the order in which they came.
pub struct Handlers {
    pub(crate) alloc: Global,
    pub(crate) items: Vec<Handler>,
}

impl Drop for Handlers {
    fn drop(self) {
        let Handlers { alloc: _, items: _ } = self;
    }
}
