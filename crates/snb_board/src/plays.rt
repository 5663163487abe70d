//! What each step on the table tells. These types are for the proofs alone.

ghost use Rattle.snb_board.specs.ViewSteps.{took, began, counted_one, raised, loaded, passed, minting, newcomer, gathered};
ghost use Rattle.snb_board.specs.Parts.{spent_view};

use crate::view::{Slot, View};
use atomic_table::{Join, Play, Split};

/// The turn is taken, and the slot with it.
pub struct Take;

impl Play<Slot, View> for Take {
    ghost then = { took };
}

/// The turn is taken for the first time, and the slot with it.
pub struct Begin;

impl Play<Slot, View> for Begin {
    ghost then = { began };
}

/// An event is counted.
pub struct Count;

impl Play<Slot, View> for Count {
    ghost then = { counted_one };
}

/// The completion time is published.
pub struct Raise;

impl Play<Slot, View> for Raise {
    ghost then = { raised };
}

/// The published completion time is read.
pub struct Load;

impl Play<Slot, View> for Load {
    ghost then = { loaded };
}

/// The turn is passed, and the slot with it.
pub struct Pass;

impl Play<Slot, View> for Pass {
    ghost then = { passed };
}

/// A seat is made.
pub struct Mint;

impl Split<View> for Mint {
    ghost left = { minting };

    ghost right = { newcomer };
}

/// A seat takes in what another one has seen.
pub struct Gather;

impl Join<View> for Gather {
    ghost both = { gathered };

    ghost spent = { spent_view };
}
