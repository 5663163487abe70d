//! Why a reader of lines stops, and why there is no plan.

ghost use Rattle.snb_schema.specs.declared.fault.Fault.TheVariants.{Memory};
ghost use Rattle.snb_schema.specs.declared.fault.LineFault.TheVariants as line_fault;
ghost use Rattle.snb_schema.specs.declared.fault.PlanFault.TheVariants as plan_fault;

use crate::refusal::Refusal;
use std::alloc::{AllocError, AllocFailed};

/// What a reader of lines answers where it goes no further.
#[derive(Clone, Copy)]
pub enum Fault {
    /// A line is refused.
    Bad { refusal: Refusal },
    /// Memory ran out.
    Memory,
}

impl From<AllocError> for Fault {
    ghost use Rattle.std.specs.Prelude.{◌≡◌};

    ghost from_gives = { λ _ e. e ≡ Memory };

    fn from(_error: AllocError) -> Fault {
        Fault::Memory
    }
}

impl<T: Drop> From<AllocFailed<T>> for Fault {
    ghost use Rattle.std.specs.Prelude.{◌≡◌};

    ghost from_gives = { λ _ e. e ≡ Memory };

    fn from(_error: AllocFailed<T>) -> Fault {
        Fault::Memory
    }
}

/// Why one line isn't read.
#[derive(Clone, Copy)]
pub enum LineFault {
    /// The line isn't in its grammar, in this column first, counted from 1; column 0 stands for a
    /// wrong number of fields.
    Bad { column: u32 },
    /// Memory ran out.
    Memory,
}

impl From<AllocError> for LineFault {
    ghost use Rattle.std.specs.Prelude.{◌≡◌};

    ghost from_gives = { λ _ e. e ≡ line_fault.Memory };

    fn from(_error: AllocError) -> LineFault {
        LineFault::Memory
    }
}

impl<T: Drop> From<AllocFailed<T>> for LineFault {
    ghost use Rattle.std.specs.Prelude.{◌≡◌};

    ghost from_gives = { λ _ e. e ≡ line_fault.Memory };

    fn from(_error: AllocFailed<T>) -> LineFault {
        LineFault::Memory
    }
}

/// Why there is no plan, or why it isn't closed.
#[derive(Clone, Copy)]
pub enum PlanFault {
    /// The input is refused.
    Refused { refusal: Refusal },
    /// Memory ran out.
    Memory,
}

impl From<AllocError> for PlanFault {
    ghost use Rattle.std.specs.Prelude.{◌≡◌};

    ghost from_gives = { λ _ e. e ≡ plan_fault.Memory };

    fn from(_error: AllocError) -> PlanFault {
        PlanFault::Memory
    }
}

impl<T: Drop> From<AllocFailed<T>> for PlanFault {
    ghost use Rattle.std.specs.Prelude.{◌≡◌};

    ghost from_gives = { λ _ e. e ≡ plan_fault.Memory };

    fn from(_error: AllocFailed<T>) -> PlanFault {
        PlanFault::Memory
    }
}
