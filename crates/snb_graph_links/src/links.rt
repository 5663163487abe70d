//! Walks over two slices of pairs.

ghost use Rattle.std.specs.Prelude.{◌≡◌, length};
ghost use Rattle.std.specs.Ordering.{nat_cmp};
ghost use Rattle.std.specs.Map.Iter.{TakesFirst};
ghost use Rattle.std.specs.Iterator.{at_most};
ghost use Rattle.snb_graph_maps.specs.Merged.{AreParts, takes_first};
ghost use Rattle.snb_graph_links.specs.Pairs.{rest};

use std::marker::Model;

/// The pairs of an id and a date that a walk has still to give, by rising id. A contract sees them as
/// two lists: those of the part that copies share, and those that were added to it.
#[derive(Drop)]
pub struct Links<'a> {
    frozen: &'a [(u64, u64)],
    added: &'a [(u64, u64)],
}

impl<'a> Model for Links<'a> {
    ghost use Rattle.std.specs.Prelude.{ℕ, List};
    ghost use Rattle.std.specs.Ordering.{nat_cmp};
    ghost use Rattle.snb_graph_maps.specs.Merged.{AreParts};

    ghost Value = { List (ℕ × ℕ) × List (ℕ × ℕ) };

    ghost view = { λ w. (w.frozen.now, w.added.now) };

    ghost invariant = { λ w. AreParts nat_cmp w.frozen.now w.added.now };
}

impl<'a> Links<'a> {
    /// A walk over two slices, each by rising id, which share no id.
    pub fn over(frozen: &'a [(u64, u64)], added: &'a [(u64, u64)]) -> Links<'a>
        requires { AreParts nat_cmp frozen.now added.now }
        ensures { result ≡ (frozen.now, added.now) }
    {
        Links { frozen, added }
    }

    /// The pairs of the frozen part that the walk has still to give. They rise by id, and none of their
    /// ids is among the added ones: both lists, merged by id, are what the walk has still to give.
    /// Takes no memory.
    pub fn frozen(&self) -> &'a [(u64, u64)]
        ensures lent { result.now ≡ self.now.0 }
        ensures parts { AreParts nat_cmp self.now.0 self.now.1 }
    {
        self.frozen
    }

    /// The pairs that were added to the frozen part and that the walk has still to give, of which the
    /// same is true. Takes no memory.
    pub fn added(&self) -> &'a [(u64, u64)]
        ensures lent { result.now ≡ self.now.1 }
        ensures parts { AreParts nat_cmp self.now.0 self.now.1 }
    {
        self.added
    }
}

// The first pair, and those after it.
fn split<'a>(pairs: &'a [(u64, u64)]) -> (Option<(u64, u64)>, &'a [(u64, u64)])
    ensures { TakesFirst (λ x. x) pairs.now result.0 result.1.now }
{
    match pairs.split_first() {
        Some((first, rest)) => (Some(*first), rest),
        None => (None, pairs),
    }
}

// Whether the first pair of both is the frozen part's.
fn takes_frozen(frozen: &[(u64, u64)], added: &[(u64, u64)]) -> bool
    ensures { result ≡ takes_first nat_cmp frozen.now added.now }
{
    match (frozen.first(), added.first()) {
        (Some(a), Some(b)) => a.0 < b.0,
        (Some(_), None) => true,
        (None, _) => false,
    }
}

impl<'a> Iterator for Links<'a> {
    type Item = (u64, u64);

    ghost next_gives = { λ s r t. TakesFirst (λ x. x) (rest s) r (rest t) };

    ghost remaining = { λ s. at_most (length (rest s)) };

    fn next(&mut self) -> Option<(u64, u64)> {
        if takes_frozen(self.frozen, self.added) {
            let (first, rest) = split(self.frozen);
            self.frozen = rest;
            first
        } else {
            let (first, rest) = split(self.added);
            self.added = rest;
            first
        }
    }
}
