//! Laws of the first rows in an order. Each function does nothing; its contract is the law.

ghost use Rattle.snb_read_order.specs.Laws.{OneFirst, SomeFirst};

/// There is one list of the first rows, where no two different rows compare equal.
pub fn first_is_one<T>()
    ensures { OneFirst T }
{}

/// There are first rows, whatever the rows and the order.
pub fn first_is_some<T>()
    ensures { SomeFirst T }
{}
