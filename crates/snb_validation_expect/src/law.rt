//! Laws of the cases of a plan. The function only cites laws; its contract is the law.

ghost use Rattle.snb_validation_expect.specs.Laws.{ExpectedAreRight};

use snb_validation_cases::one_case_line;
use snb_workers_replay::order_is_welcome;

/// Over the graph over which a plan's updates are closed, the file of the plan's cases, where each is read
/// from its line and all have at most `MAX_BYTES` bytes, is refused for nothing, and no reply in it differs.
pub fn expected_cases_are_right()
    ensures { ExpectedAreRight }
{
    order_is_welcome();
    one_case_line();
}
