//! Laws of the definitions.

ghost use Rattle.snb_schema.specs.Frequencies.{FrequenciesAreOne};
ghost use Rattle.snb_schema.specs.Limits.{LimitsAreThese};

/// A text says one list of frequencies at most.
pub fn frequencies_are_one()
    ensures { FrequenciesAreOne }
{}

/// The limits, as numbers: what is promised by their names is promised of these.
pub fn limits_are_these()
    ensures { LimitsAreThese }
{}
