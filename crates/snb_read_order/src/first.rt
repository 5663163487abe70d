//! Rows in an order, and the first of them.

ghost use Rattle.std.specs.Prelude.{◌≡◌};
ghost use Rattle.std.specs.Cmp.{IsTotalOrder};
ghost use Rattle.std.specs.Fn.{ComparesAs};
ghost use Rattle.std.specs.Ordering.{is_lt};
ghost use Rattle.std.specs.declared.cmp.Ordering.{Ordering as Answers};
ghost use Rattle.snb_read_model.specs.Order.{SortedAndCut, AllRows, FirstRows};

use std::cmp::Ordering;

/// All rows, in the order that `order` answers by where it is a total one. Rows that it finds equal
/// come in any order. Takes no memory.
/// The condition: `order` may be called.
pub fn in_order<T, F: FnMut(&T, &T) -> Ordering>(mut rows: Vec<T>, order: F) -> Vec<T>
    requires { F.IsAlwaysCallable order }
    ensures { (by : T → T → Answers) → IsTotalOrder by → ComparesAs F.FnMut (λ x y. is_lt (by x y)) order
        → SortedAndCut by AllRows rows.items result.items }
{
    rows.sort_unstable_by(order);
    rows
}

/// The first `most` of the rows, in the order that `order` answers by where it is a total one. Rows
/// that it finds equal come in any order. Takes no memory.
/// The condition: `order` may be called.
pub fn first_of<T: Drop, F: FnMut(&T, &T) -> Ordering>(
    rows: Vec<T>,
    most: usize,
    order: F,
) -> Vec<T>
    requires { F.IsAlwaysCallable order }
    ensures { (by : T → T → Answers) → IsTotalOrder by → ComparesAs F.FnMut (λ x y. is_lt (by x y)) order
        → SortedAndCut by (FirstRows most) rows.items result.items }
{
    let mut kept = in_order(rows, order);
    kept.truncate(most);
    kept
}
