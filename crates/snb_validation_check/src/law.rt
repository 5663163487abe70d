//! Laws of checked cases. The function does nothing; its contract is the laws.

ghost use Rattle.snb_validation_check.specs.Laws.{CasesRefuseOnce, CasesRefusedOrNot, FindingIsOne, RightOnEach, TallyIsOne};

use crate::file::cases_are_lawful;
use snb_graph_model::graphs_are_their_rows;
use snb_read_laws::one_reply;

/// Over one base a file of cases is refused for one thing at most, and then something is wrong with it;
/// and what is found over its cases is one.
pub fn one_cases_refusal()
    ensures one { CasesRefuseOnce }
    ensures or_not { CasesRefusedOrNot }
    ensures finding { FindingIsOne }
    ensures tally { TallyIsOne }
{
    cases_are_lawful();
    one_reply();
    graphs_are_their_rows();
}

/// Where all replies that cases have are right, each is the one on each graph that is the base with the inserts
/// before its case.
pub fn right_on_each_graph()
    ensures { RightOnEach }
{
    graphs_are_their_rows();
}
