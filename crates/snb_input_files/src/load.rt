//! How much of an input was read, and why one isn't read.

ghost use Rattle.snb_input_files.specs.declared.load.Load.TheVariants.{Memory};
ghost use Rattle.snb_input_files.specs.Loading.{load_for, load_for_plan};

use snb_schema::{Fault, PlanFault, Refusal};
use std::alloc::{AllocError, AllocFailed};

/// How much of an input was read so far, of all its files together.
#[derive(Clone, Copy)]
pub struct Used {
    /// How many bytes.
    pub bytes: u64,
    /// How many data lines: lines that have a byte, without the headers.
    pub rows: u64,
}

/// Why an input isn't read.
#[derive(Clone, Copy)]
pub enum Load {
    /// Something is wrong with it; this is the first thing.
    Refused { refusal: Refusal },
    /// A read of the shelf failed; its count of faults rose.
    ReadFault,
    /// Memory ran out.
    Memory,
}

impl From<AllocError> for Load {
    ghost use Rattle.std.specs.Prelude.{◌≡◌};

    ghost from_gives = { λ _ e. e ≡ Memory };

    fn from(_error: AllocError) -> Load {
        Load::Memory
    }
}

impl<T: Drop> From<AllocFailed<T>> for Load {
    ghost use Rattle.std.specs.Prelude.{◌≡◌};

    ghost from_gives = { λ _ e. e ≡ Memory };

    fn from(_error: AllocFailed<T>) -> Load {
        Load::Memory
    }
}

impl From<Fault> for Load {
    ghost use Rattle.std.specs.Prelude.{◌≡◌};

    ghost from_gives = { λ fault e. e ≡ load_for fault };

    fn from(fault: Fault) -> Load {
        match fault {
            Fault::Bad { refusal } => Load::Refused { refusal },
            Fault::Memory => Load::Memory,
        }
    }
}

impl From<PlanFault> for Load {
    ghost use Rattle.std.specs.Prelude.{◌≡◌};

    ghost from_gives = { λ fault e. e ≡ load_for_plan fault };

    fn from(fault: PlanFault) -> Load {
        match fault {
            PlanFault::Refused { refusal } => Load::Refused { refusal },
            PlanFault::Memory => Load::Memory,
        }
    }
}
