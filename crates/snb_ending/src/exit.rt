//! How the program ends.

ghost use Rattle.std.specs.Prelude.{◌≡◌, ◌++◌};
ghost use Rattle.std.specs.Option.{option_map};
ghost use Rattle.std.specs.Process.{exit_status};
ghost use Rattle.snb_ending.specs.Endings.{shown_for};

use crate::error_lines::ErrorLines;
use crate::fault::Fault;
use std::process::ExitCode;

/// Ends with this status: with one line on standard error, where the status tells of a fault.
pub fn ending<E: ErrorLines>(errors: &mut E, status: u8) -> ExitCode
    ensures status { exit_status result ≡ status }
    ensures shown { E.given errors.new ≡ option_map (λ text. text ++ shown_for (exit_status result))
        (E.given errors.old) }
{
    if let Some(fault) = Fault::of_status(status) {
        errors.show(fault.line());
    }
    ExitCode::from(status)
}
