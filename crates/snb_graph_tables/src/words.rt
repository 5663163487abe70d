//! Walks over words.

ghost use Rattle.std.specs.Prelude.{◌≡◌, length};
ghost use Rattle.std.specs.Iterator.{at_most};
ghost use Rattle.std.specs.Map.Iter.{TakesFirst, deref};
ghost use Rattle.snb_graph_tables.specs.Words.{texts_of};

use snb_base::Text;
use snb_graph_maps::Walk;
use snb_graph_rows::{Mark, WordKey};
use std::marker::Model;

/// The words of a person that a walk has still to give, in byte order. A contract sees them as texts.
#[derive(Drop)]
pub struct Words<'a> {
    keys: Walk<'a, WordKey, Mark>,
}

impl<'a> Model for Words<'a> {
    ghost use Rattle.std.specs.Prelude.{ℕ, List};
    ghost use Rattle.snb_graph_tables.specs.Words.{texts_of};

    ghost Value = { List (List ℕ) };

    ghost view = { λ w. texts_of w.keys };
}

impl<'a> Words<'a> {
    /// A walk over words.
    pub(crate) fn over(keys: Walk<'a, WordKey, Mark>) -> Words<'a>
        ensures { result ≡ texts_of keys.entry }
    {
        Words { keys }
    }
}

impl<'a> Iterator for Words<'a> {
    type Item = &'a Text;

    ghost next_gives = { TakesFirst deref };

    ghost remaining = { λ s. at_most (length s) };

    fn next(&mut self) -> Option<&'a Text> {
        match self.keys.next() {
            Some((key, _)) => Some(&key.text),
            None => None,
        }
    }
}
