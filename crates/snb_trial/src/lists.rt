//! The parameters of the queries.

ghost use Rattle.std.specs.Prelude.{◌≡◌, IfOk};
ghost use Rattle.snb_trial.specs.Trial.{lists};

use snb_schema::{Lists, MAX_TIME, Query};
use std::alloc::{AllocError, Global};

/// One parameter of query 2, and one of query 13.
pub fn trial_lists(alloc: Global, n: u32) -> Result<Lists, AllocError>
    ensures { IfOk result (λ made. made ≡ lists n) }
{
    let mut made = Lists::new(alloc);
    let two = Query::Ic2 {
        person: 0,
        max_date: MAX_TIME,
    };
    made.push(2, two)?;
    let thirteen = Query::Ic13 {
        from: 0,
        to: u64::from(n),
    };
    made.push(13, thirteen)?;
    Ok(made)
}
