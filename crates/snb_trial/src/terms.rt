//! How often the workload asks its reads, and the ratio of its plan.

ghost use Rattle.std.specs.Prelude.{◌≡◌};
ghost use Rattle.snb_trial.specs.Laws.{NamesTwo};
ghost use Rattle.snb_trial.specs.Trial.{least_ratio, read_frequencies};

use snb_ratio::{Ratio, one_ratio};
use snb_schema::{Frequencies, frequencies_are_one};

/// A read of query 2 goes with every tenth update, and one of query 13 with every seventh.
pub fn trial_frequencies() -> Frequencies
    ensures value { result ≡ read_frequencies }
    ensures names { NamesTwo result }
{
    frequencies_are_one();
    match Frequencies::read(b"2:10,13:7") {
        Some(read) => read,
        None => unreachable!(),
    }
}

/// The least ratio, a millionth.
pub fn trial_ratio() -> Ratio
    ensures { result ≡ least_ratio }
{
    one_ratio();
    match Ratio::read(b"0.000001") {
        Some(read) => read,
        None => unreachable!(),
    }
}
