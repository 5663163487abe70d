//! What a scheduler sees of a plan: its steps, and the kinds of its lanes.

/// What a lane holds.
#[derive(Clone, Copy)]
pub enum LaneKind {
    /// The inserts of a person stream: persons and friendships.
    Person,
    /// The inserts of a forum stream: each starts only once the one before it is finished.
    Forum,
    /// The reads.
    Query,
}

/// One operation of a plan, as the scheduler sees it.
///
/// Dependencies and dependents are those of the dependency rule of Erling et al., "The LDBC Social
/// Network Benchmark: Interactive Workload", SIGMOD 2015: a dependent starts only once every
/// dependency is finished whose `t` is at most the dependent's `t_d`.
#[derive(Clone, Copy)]
pub struct Step {
    /// The number of its lane, from 0.
    pub lane: u32,
    /// Its place in its lane, from 0.
    pub place: u32,
    /// Its date and time, in milliseconds since 1970-01-01 UTC.
    pub t: u64,
    /// Of a dependent, up to when it needs dependencies, in the same unit: all whose `t` is at most this.
    pub t_d: u64,
    /// When it is due, in milliseconds since the start of the run's clock.
    pub due: u64,
    /// Whether dependents may wait for it.
    pub dependency: bool,
    /// Whether it waits for dependencies.
    pub dependent: bool,
    /// Whether it is a read.
    pub query: bool,
}
