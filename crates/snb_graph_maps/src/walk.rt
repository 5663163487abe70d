//! Walks over both parts of a map.

ghost use Rattle.std.specs.Prelude.{◌≡◌, ◌+◌, length};
ghost use Rattle.std.specs.Option.{option_copied};
ghost use Rattle.std.specs.Map.Iter.{TakesFirst, deref_pair};
ghost use Rattle.std.specs.Iterator.{at_most};
ghost use Rattle.snb_graph_maps.specs.Merged.{AreParts, first_key, merged, takes_first};

use crate::added::Rest;
use crate::kept::Apart;
use crate::sorted::Span;
use std::marker::Model;
use std::mem;

// What is left of the added part, the first entry at hand.
#[derive(Drop)]
pub(crate) struct Front<'a, K: Apart, V> {
    next: Option<(&'a K, &'a V)>,
    rest: Rest<'a, K, V>,
}

impl<'a, K: Apart, V> Model for Front<'a, K, V> {
    ghost use Rattle.std.specs.Prelude.{List};
    ghost use Rattle.snb_graph_maps.specs.Merged.{left, HeldOrDone};

    ghost Value = { List (K × V) };

    ghost view = { λ f. left f.next f.rest };

    ghost invariant = { λ f. HeldOrDone f.next f.rest };
}

impl<'a, K: Apart, V> Front<'a, K, V> {
    pub(crate) fn of(mut rest: Rest<'a, K, V>) -> Self
        ensures { result ≡ rest.entry }
    {
        Front {
            next: rest.take(),
            rest,
        }
    }

    fn first(&self) -> Option<&'a K>
        ensures { option_copied result ≡ first_key self.now }
    {
        match self.next {
            Some((key, _)) => Some(key),
            None => None,
        }
    }

    fn take(&mut self) -> Option<(&'a K, &'a V)>
        ensures { TakesFirst deref_pair self.old result self.new }
    {
        let next = self.rest.take();
        mem::replace(&mut self.next, next)
    }
}

// Whether the first entry of both is the frozen part's.
fn takes_frozen<'a, K: Apart, V>(frozen: &Span<'a, K, V>, added: &Front<'a, K, V>) -> bool
    ensures { result ≡ takes_first K.cmp frozen.now added.now }
{
    match (frozen.first(), added.first()) {
        (Some(a), Some(b)) => a.cmp(b).is_lt(),
        (Some(_), None) => true,
        (None, _) => false,
    }
}

/// The entries that are left, in the order of their keys.
#[derive(Drop)]
pub struct Walk<'a, K: Apart, V> {
    frozen: Span<'a, K, V>,
    added: Front<'a, K, V>,
}

impl<'a, K: Apart, V> Model for Walk<'a, K, V> {
    ghost use Rattle.std.specs.Prelude.{List};
    ghost use Rattle.snb_graph_maps.specs.Merged.{merged, AreParts};

    ghost Value = { List (K × V) };

    ghost view = { λ w. merged K.cmp w.frozen w.added };

    ghost invariant = { λ w. AreParts K.cmp w.frozen w.added };
}

impl<'a, K: Apart, V> Walk<'a, K, V> {
    // A walk over both parts.
    pub(crate) fn over(frozen: Span<'a, K, V>, added: Rest<'a, K, V>) -> Walk<'a, K, V>
        requires { AreParts K.cmp frozen added }
        ensures { result ≡ merged K.cmp frozen.entry added.entry }
    {
        Walk {
            frozen,
            added: Front::of(added),
        }
    }
}

impl<'a, K: Apart, V> Iterator for Walk<'a, K, V> {
    type Item = (&'a K, &'a V);

    ghost next_gives = { TakesFirst deref_pair };

    ghost remaining = { λ s. at_most (length s) };

    fn next(&mut self) -> Option<(&'a K, &'a V)> {
        if takes_frozen(&self.frozen, &self.added) {
            self.frozen.take()
        } else {
            self.added.take()
        }
    }
}
