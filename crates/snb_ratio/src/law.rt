//! Laws of the definitions.

ghost use Rattle.snb_ratio.specs.Chances.{OneChance};
ghost use Rattle.snb_ratio.specs.Ratios.{DueRises, OneRatio};

/// What is planned for no earlier is due no earlier, under each ratio and from each beginning.
pub fn due_rises()
    ensures { DueRises }
{}

/// A text spells one ratio at most.
pub fn one_ratio()
    ensures { OneRatio }
{}

/// A text spells one chance at most.
pub fn one_chance()
    ensures { OneChance }
{}
