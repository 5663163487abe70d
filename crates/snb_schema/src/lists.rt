//! The parameters of the complex queries.

ghost use Rattle.std.specs.Prelude.{◌≡◌, ◌≢◌, ℕ, ◌++◌, ◌∷◌, [], OnOk, OnErr};
ghost use Rattle.snb_schema.specs.Queries.{IsComplex, number_of_query};
ghost use Rattle.snb_schema.specs.QueryLists.{list_of, AreOf};

use crate::query::{COMPLEX_COUNT, Query, place_of};
use std::alloc::{AllocError, Global};
use std::array::from_fn;
use std::marker::Model;

/// A list of parameters for each of the complex queries 1, 2, 7, 8, 9, 11 and 13.
///
/// A contract sees the seven lists. Each has queries of its kind alone.
pub struct Lists {
    parts: Parts,
}

impl Drop for Lists {
    fn drop(self) {
        let Lists { parts: _ } = self;
    }
}

impl Model for Lists {
    ghost use Rattle.snb_schema.specs.QueryLists.{QueryLists, AreSorted};

    ghost Value = { QueryLists };

    ghost view = { λ l. l.parts };

    ghost invariant = { λ l. AreSorted l.parts };
}

// Seven lists, of any queries.
struct Parts {
    by_place: [Vec<Query>; COMPLEX_COUNT],
}

impl Drop for Parts {
    fn drop(self) {
        let Parts { by_place: _ } = self;
    }
}

impl Model for Parts {
    ghost use Rattle.std.specs.Prelude.{◌≡◌, length, map, []};
    ghost use Rattle.snb_schema.specs.QueryLists.{QueryLists};
    ghost use Rattle.snb_schema.specs.QueryPlaces.{values_of};
    ghost use Rattle.snb_schema.specs.declared.query.TheConstants.{COMPLEX_COUNT};

    ghost Value = { QueryLists };

    ghost view = { λ l. values_of COMPLEX_COUNT (map (λ v. v.items) l.by_place) [] };

    ghost invariant = { λ l. length l.by_place ≡ COMPLEX_COUNT };
}

// Appends a query to a list. Want of memory leaves the list as it was.
fn append(list: &mut Vec<Query>, one: Query) -> Result<(), AllocError>
    ensures ok { OnOk result (list.new.items ≡ list.old.items ++ one ∷ []) }
    ensures err { OnErr result (list.new.items ≡ list.old.items) }
{
    list.push(one)?;
    Ok(())
}

impl Parts {
    // Appends to the list of the query of this number. Want of memory leaves all lists as they were.
    fn push(&mut self, query: u32, one: Query) -> Result<(), AllocError>
        requires { IsComplex query }
        ensures appended { OnOk result (list_of self.new query ≡ list_of self.old query ++ one ∷ []) }
        ensures others { OnOk result ((other : ℕ) → other ≢ query → list_of self.new other ≡ list_of self.old other) }
        ensures err { OnErr result (self.new ≡ self.old) }
    {
        append(&mut self.by_place[place_of(query)], one)
    }

    // The list of the query of this number.
    fn of(&self, query: u32) -> &[Query]
        requires { IsComplex query }
        ensures { result.now ≡ list_of self.now query }
    {
        &self.by_place[place_of(query)]
    }
}

impl Lists {
    /// Seven empty lists. Takes no memory.
    pub fn new(alloc: Global) -> Lists
        ensures { (query : ℕ) → list_of result query ≡ [] }
    {
        Lists {
            parts: Parts {
                by_place: from_fn(|_| Vec::new(alloc)),
            },
        }
    }

    /// Appends to the list of the query of this number, which is one of the seven and the number of
    /// `one`. Want of memory leaves all lists as they were, and drops `one`.
    pub fn push(&mut self, query: u32, one: Query) -> Result<(), AllocError>
        requires complex { IsComplex query }
        requires kind { number_of_query one ≡ query }
        ensures appended { OnOk result (list_of self.new query ≡ list_of self.old query ++ one ∷ []) }
        ensures others { OnOk result ((other : ℕ) → other ≢ query → list_of self.new other ≡ list_of self.old other) }
        ensures err { OnErr result (self.new ≡ self.old) }
    {
        self.parts.push(query, one)
    }

    /// The list of the query of this number, in the order in which its items were appended. The number
    /// is one of the seven.
    pub fn of(&self, query: u32) -> &[Query]
        requires { IsComplex query }
        ensures value { result.now ≡ list_of self.now query }
        ensures kind { AreOf query result.now }
    {
        self.parts.of(query)
    }
}
