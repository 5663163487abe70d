//! The two parts of a map.

/// Into which part of a map an entry goes.
#[derive(Clone, Copy)]
pub enum Layer {
    /// Among the entries that are soon frozen, while nothing is frozen yet: they may come in any order, and are
    /// found in the same time, but each step of a walk over them looks at all. Else among the added ones.
    Frozen,
    /// Among the added ones, from where it can be taken back.
    Added,
}
