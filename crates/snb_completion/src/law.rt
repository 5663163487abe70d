//! A law of completion times.

ghost use Rattle.snb_completion.specs.TimesLaws.{TimesDecide};

/// The dependency rule of Erling et al., SIGMOD 2015, is decided by one comparison: every
/// dependency that a dependent needs is finished exactly where the dependent's t_d is at most the
/// completion time, ties included.
pub fn times_decide()
    ensures { TimesDecide }
{}
