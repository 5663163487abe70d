//! Owned lists, one type of them for every item.

ghost use Rattle.std.specs.Fn.{FnReturnsAt};
ghost use Rattle.std.specs.List.{AllZip};
ghost use Rattle.std.specs.Prelude.{◌≡◌, ◌∷◌, ◌++◌, [], Contains, IfOk, Ok, OnOk, OnErr};

use crate::text::Text;
use crate::try_copy::TryCopy;
use std::alloc::{AllocError, Global};
use std::marker::Model;

/// An owned list. A contract sees its items in order.
pub struct OwnedList<T> {
    alloc: Global,
    items: Vec<T>,
}

/// Texts in order.
pub type Texts = OwnedList<Text>;

/// Numbers in order.
pub type Numbers = OwnedList<u64>;

// Written out, so that letting one go is one call wherever it happens.
impl<T: Drop> Drop for OwnedList<T> {
    fn drop(self) {
        let OwnedList { alloc: _, items: _ } = self;
    }
}

impl<T> Model for OwnedList<T> {
    ghost use Rattle.std.specs.Prelude.{List};

    ghost Value = { List T };

    ghost view = { λ list. list.items.items };
}

impl<T: Drop> OwnedList<T> {
    /// The empty list. Takes no memory.
    pub fn new(alloc: Global) -> OwnedList<T>
        ensures { result ≡ [] }
    {
        OwnedList {
            alloc,
            items: Vec::new(alloc),
        }
    }

    /// The list that the vector has. Takes no memory.
    pub fn from_vec(alloc: Global, items: Vec<T>) -> OwnedList<T>
        ensures { result ≡ items.items }
    {
        OwnedList { alloc, items }
    }

    /// The vector that has the list. Takes no memory.
    pub fn into_vec(self) -> Vec<T>
        ensures { result.items ≡ self }
    {
        let OwnedList { alloc: _, items } = self;
        items
    }

    /// The items in order.
    pub fn as_slice(&self) -> &[T]
        ensures { result.now ≡ self.now }
    {
        self.items.as_slice()
    }

    /// Appends an item. Want of memory leaves the list as it was.
    pub fn push(&mut self, item: T) -> Result<(), AllocError>
        ensures ok { OnOk result (self.new ≡ self.old ++ item ∷ []) }
        ensures err { OnErr result (self.new ≡ self.old) }
    {
        self.items.push(item)?;
        Ok(())
    }

    /// The list of what `make` gives of each item, in order.
    /// The condition: `make` may always be called.
    pub fn try_map<'a, U: Drop, F: Fn(&'a T) -> Result<U, AllocError>>(
        &'a self,
        make: F,
    ) -> Result<OwnedList<U>, AllocError>
        requires { F.IsAlwaysCallable make }
        ensures { IfOk result (λ made. AllZip (λ item one. FnReturnsAt F.Fn make item (Ok one)) self.now made) }
    {
        list_of(self.alloc, self.items.as_slice(), make)
    }

    /// The list of what `make` gives of each item, in order. It takes the items.
    /// The condition: `make` may always be called.
    pub fn into_map<U: Drop, F: Fn(T) -> Result<U, AllocError>>(
        self,
        make: F,
    ) -> Result<OwnedList<U>, AllocError>
        requires { F.IsAlwaysCallable make }
        ensures { IfOk result (λ made. AllZip (λ item one. F.post make item (Ok one)) self made) }
    {
        let OwnedList { alloc, items } = self;
        let mut made = Vec::new(alloc);
        for item in items {
            made.push(make(item)?)?;
        }
        Ok(OwnedList { alloc, items: made })
    }
}

impl<T: TryCopy> OwnedList<T> {
    /// An equal list of one's own.
    pub fn try_copy(&self) -> Result<OwnedList<T>, AllocError>
        ensures { IfOk result (λ copy. copy ≡ self.now) }
    {
        self.try_map(|item| item.try_copy())
    }
}

impl<T: TryCopy> TryCopy for OwnedList<T> {
    fn try_copy(&self) -> Result<OwnedList<T>, AllocError> {
        self.try_copy()
    }
}

/// The list of what `make` gives of each item, in order.
/// The condition: `make` may be called at each item.
pub fn list_of<'a, T, U: Drop, F: Fn(&'a T) -> Result<U, AllocError>>(
    alloc: Global,
    items: &'a [T],
    make: F,
) -> Result<OwnedList<U>, AllocError>
    requires { (item : _) → Contains items.now item.now → F.pre make item }
    ensures { IfOk result (λ made. AllZip (λ item one. FnReturnsAt F.Fn make item (Ok one)) items.now made) }
{
    let mut made = Vec::new(alloc);
    for item in items {
        made.push(make(item)?)?;
    }
    Ok(OwnedList { alloc, items: made })
}
