//! Pairs of each number, one run after another in one array.

ghost use Rattle.std.specs.Prelude.{◌≡◌, ◌≤◌, ◌++◌, ◌∷◌, [], ℕ, IfOk, OnOk, length};
ghost use Rattle.std.specs.Option.{is_some};
ghost use Rattle.std.specs.Ordering.{nat_cmp};
ghost use Rattle.snb_graph_maps.specs.Merged.{Rises, value_at};
ghost use Rattle.snb_graph_links.specs.Pairs.{AreInOrder, grown, lists_of, of_number, pairs_at, part};

use crate::search;
use std::alloc::{AllocError, Global};
use std::collections::BTreeMap;
use std::marker::Model;

/// Numbers in order, each with the places of its pairs in one list, and hints where a number is.
pub(crate) struct Runs {
    heads: Vec<(u64, (usize, usize))>,
    pairs: Vec<(u64, u64)>,
    slots: Vec<u32>,
}

impl Drop for Runs {
    fn drop(self) {
        let Runs {
            heads: _,
            pairs: _,
            slots: _,
        } = self;
    }
}

impl Model for Runs {
    ghost use Rattle.snb_graph_links.specs.Pairs.{AreRuns, Lists, runs_of};

    ghost Value = { Lists };

    ghost view = { λ r. runs_of r.heads.items r.pairs.items };

    ghost invariant = { λ r. AreRuns r.heads.items r.pairs.items };
}

// The pairs from one place on and before another.
fn cut(pairs: &[(u64, u64)], span: (usize, usize)) -> &[(u64, u64)]
    requires rises { span.0 ≤ span.1 }
    requires within { span.1 ≤ length pairs.now }
    ensures { result.now ≡ part pairs.now span }
{
    let (begin, end) = span;
    &pairs[begin..end]
}

// Notes that the pairs up to one end more are those of a number: the last head's, or a new one's.
fn grow(
    heads: &mut Vec<(u64, (usize, usize))>,
    of: u64,
    begin: usize,
    end: usize,
) -> Result<(), AllocError>
    ensures { OnOk result (heads.new.items ≡ grown heads.old.items of (begin, end)) }
{
    match heads.pop() {
        None => heads.push((of, (begin, end)))?,
        Some((number, (first, last))) => {
            if number == of {
                heads.push((number, (first, end)))?;
            } else {
                heads.push((number, (first, last)))?;
                heads.push((of, (begin, end)))?;
            }
        }
    }
    Ok(())
}

impl Runs {
    /// The pairs of a number.
    pub(crate) fn at(&self, of: u64) -> &[(u64, u64)]
        ensures { result.now ≡ pairs_at self.now of }
    {
        match search::span_of(self.heads.as_slice(), self.slots.as_slice(), of) {
            Some(span) => cut(self.pairs.as_slice(), *span),
            None => &[],
        }
    }

    /// The pairs of a map.
    pub(crate) fn of(
        alloc: Global,
        map: &BTreeMap<u64, Vec<(u64, u64)>>,
    ) -> Result<Runs, AllocError>
        ensures { IfOk result (λ runs. runs ≡ lists_of map.now.entries) }
    {
        let mut heads = Vec::with_capacity(alloc, map.len())?;
        let mut pairs = Vec::new(alloc);
        for (of, list) in map {
            let begin = pairs.len();
            pairs.extend_from_slice(list.as_slice())?;
            heads.push((*of, (begin, pairs.len())))?;
        }
        let slots = search::hints(alloc, heads.as_slice());
        Ok(Runs {
            heads,
            pairs,
            slots,
        })
    }

    /// The pairs of links that are in order.
    pub(crate) fn of_links(alloc: Global, links: &[(u64, (u64, u64))]) -> Result<Runs, AllocError>
        requires { AreInOrder links.now }
        ensures { IfOk result (λ runs. (q : ℕ) → pairs_at runs q ≡ of_number q links.now) }
    {
        let mut heads = Vec::new(alloc);
        let mut pairs = Vec::with_capacity(alloc, links.len())?;
        for (of, pair) in links {
            let begin = pairs.len();
            pairs.push(*pair)?;
            grow(&mut heads, *of, begin, pairs.len())?;
        }
        let slots = search::hints(alloc, heads.as_slice());
        Ok(Runs {
            heads,
            pairs,
            slots,
        })
    }

    /// The numbers in order, each with the places of its pairs.
    pub(crate) fn heads(&self) -> &[(u64, (usize, usize))]
        ensures rises { Rises nat_cmp result.now }
        ensures keys { (q : ℕ) → is_some (value_at nat_cmp result.now q) ≡ is_some (value_at nat_cmp self.now q) }
    {
        self.heads.as_slice()
    }
}
