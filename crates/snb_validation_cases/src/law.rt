//! Laws of cases, over every text.

ghost use Rattle.snb_validation_cases.specs.Laws.{OneCase, OneCaseColumn, OneCaseLine, OneHeaderColumn};

use snb_streams::one_insert;

/// A text spells one case at most.
pub fn one_case()
    ensures { OneCase }
{
    one_insert();
}

/// A line of a file of cases says one thing at most, or is bad in one column.
pub fn one_case_line()
    ensures exact { OneCaseLine }
    ensures header { OneHeaderColumn }
    ensures column { OneCaseColumn }
{
    one_case();
}
