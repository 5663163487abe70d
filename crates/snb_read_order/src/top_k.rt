//! The first of rows that come one after another.

ghost use Rattle.std.specs.Prelude.{◌≡◌, ◌≤◌, ◌<◌, ◌-◌, ◌*◌, List, [], true, false, length, slice_index_or};
ghost use Rattle.std.specs.Cmp.{IsTotalOrder};
ghost use Rattle.std.specs.Fn.{ComparesAs};
ghost use Rattle.std.specs.Option.{IfSome};
ghost use Rattle.std.specs.Ordering.{is_lt};
ghost use Rattle.std.specs.Result.{OnOk};
ghost use Rattle.std.specs.declared.cmp.Ordering.{Ordering as Answers};
ghost use Rattle.snb_read_model.specs.Order.{SortedAndCut, FirstRows};
ghost use Rattle.snb_read_order.specs.TopK.{IsTopK, TakesIn};

use crate::first::first_of;
use std::alloc::{AllocError, Global};
use std::cmp::Ordering;
use std::marker::Model;

/// The first `most` of the rows that were offered one after another, in an order, and perhaps some
/// more of them. A contract sees the rows that are kept, how many of the first are wanted, and
/// whether these stand in front.
pub struct TopK<T: Drop> {
    rows: Vec<T>,
    most: usize,
    cut: bool,
}

impl<T: Drop> Drop for TopK<T> {
    fn drop(self) {
        let TopK {
            rows: _,
            most: _,
            cut: _,
        } = self;
    }
}

impl<T: Drop> Model for TopK<T> {
    ghost use Rattle.snb_read_order.specs.TopK.{Kept};

    ghost Value = { Kept T };

    ghost view = { λ t. record { rows = t.rows.items; most = t.most; cut = t.cut } };
}

impl<T: Drop> TopK<T> {
    /// No rows, of which the first `most` are wanted. Takes no memory.
    pub fn new(alloc: Global, most: usize) -> TopK<T>
        ensures { result ≡ record { rows = []; most = most; cut = false } }
    {
        TopK {
            rows: Vec::new(alloc),
            most,
            cut: false,
        }
    }

    // The last of the first rows, where they stand in front.
    fn last(&self) -> Option<&T>
        ensures { IfSome result (λ x. (self.now.cut ≡ true) × (0 < self.now.most)
            × (x.now ≡ slice_index_or self.now.rows (self.now.most - 1) x.now)) }
    {
        if self.cut && 0 < self.most {
            self.rows.get(self.most - 1)
        } else {
            None
        }
    }

    // The row comes to the others, and where these are many, the first are put in front and the
    // others let go.
    fn add<F: FnMut(&T, &T) -> Ordering>(&mut self, row: T, order: F) -> Result<(), AllocError>
        requires { F.IsAlwaysCallable order }
        ensures top { OnOk result (TakesIn F.FnMut order row self.old self.new) }
        ensures most { self.new.most ≡ self.old.most }
        ensures few { length self.old.rows ≤ 4 * self.old.most → length self.new.rows ≤ 4 * self.new.most }
    {
        self.rows.push(row)?;
        if self.rows.len() / 4 < self.most {
            return Ok(());
        }
        self.rows.sort_unstable_by(order);
        self.rows.truncate(self.most);
        self.cut = true;
        Ok(())
    }

    /// One row more, in the order that `order` answers by where it is a total one. A row that comes
    /// after the first ones is let go, and no more than four times `most` rows are kept.
    /// The condition: `order` may be called. The error: no memory, and the row is lost.
    pub fn offer<F: FnMut(&T, &T) -> Ordering>(
        &mut self,
        row: T,
        mut order: F,
    ) -> Result<(), AllocError>
        requires { F.IsAlwaysCallable order }
        ensures top { OnOk result (TakesIn F.FnMut order row self.old self.new) }
        ensures most { self.new.most ≡ self.old.most }
        ensures few { length self.old.rows ≤ 4 * self.old.most → length self.new.rows ≤ 4 * self.new.most }
    {
        let Some(last) = self.last() else {
            return self.add(row, order);
        };
        if order(&row, last).is_lt() {
            self.add(row, order)
        } else {
            Ok(())
        }
    }

    /// The first rows of all that were offered, in the order that `order` answers by where it is a
    /// total one. Rows that it finds equal come in any order. Takes no memory.
    /// The condition: `order` may be called.
    pub fn into_first<F: FnMut(&T, &T) -> Ordering>(self, order: F) -> Vec<T>
        requires { F.IsAlwaysCallable order }
        ensures { (by : T → T → Answers) (all : List T) → IsTotalOrder by
            → ComparesAs F.FnMut (λ x y. is_lt (by x y)) order → IsTopK by all self
            → SortedAndCut by (FirstRows self.most) all result.items }
    {
        let TopK { rows, most, cut: _ } = self;
        first_of(rows, most, order)
    }
}
