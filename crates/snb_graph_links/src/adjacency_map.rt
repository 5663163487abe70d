//! Pairs of an id and a date for each number, in two parts.

ghost use Rattle.std.specs.Prelude.{◌≡◌, ◌↔◌, ℕ, [], Contains, None, IfOk, OnOk, OnErr};
ghost use Rattle.std.specs.Ordering.{nat_cmp};
ghost use Rattle.std.specs.BTreeMap.{insert_entry};
ghost use Rattle.snb_graph_maps.specs.Merged.{value_at, merged, Rises, AreParts};
ghost use Rattle.snb_graph_links.specs.Pairs.{lists_of, pairs_at, pairs_of, rest, AreSingle, ArePairParts, ArePairsOf, HasAdded, HasDropped, HasFrozenPair, HasPair, PutsPair, SamePairs, TakesPair, without};

use crate::links::Links;
use crate::runs::Runs;
use std::alloc::{AllocError, Global};
use std::collections::BTreeMap;
use std::marker::Model;
use std::sync::Arc;

// Adds a pair at its place by id.
fn put_pair(pairs: &mut Vec<(u64, u64)>, id: u64, date: u64) -> Result<(), AllocError>
    requires rises { Rises nat_cmp pairs.old.items }
    requires absent { value_at nat_cmp pairs.old.items id ≡ None }
    ensures ok { OnOk result (pairs.new.items ≡ insert_entry nat_cmp pairs.old.items id date) }
    ensures err { OnErr result (pairs.new.items ≡ pairs.old.items) }
{
    let at = pairs.partition_point(|pair| pair.0 < id);
    pairs.insert(at, (id, date))?;
    Ok(())
}

// Adds a pair to those of a number.
fn put(
    map: &mut BTreeMap<u64, Vec<(u64, u64)>>,
    alloc: Global,
    of: u64,
    id: u64,
    date: u64,
) -> Result<(), AllocError>
    requires rises { Rises nat_cmp (pairs_at (lists_of map.old.entries) of) }
    requires absent { value_at nat_cmp (pairs_at (lists_of map.old.entries) of) id ≡ None }
    ensures ok { OnOk result (PutsPair (lists_of map.old.entries) (lists_of map.new.entries) of id date) }
    ensures err { OnErr result
        ((q : ℕ) → pairs_at (lists_of map.new.entries) q ≡ pairs_at (lists_of map.old.entries) q) }
{
    if let Some(pairs) = map.get_mut(&of) {
        return put_pair(pairs, id, date);
    }
    let mut pairs = Vec::new(alloc);
    pairs.push((id, date))?;
    map.insert(of, pairs)?;
    Ok(())
}

// Takes out the pair of an id.
fn drop_pair(pairs: &mut Vec<(u64, u64)>, id: u64)
    ensures { pairs.new.items ≡ without id pairs.old.items }
{
    pairs.retain(|pair| pair.0 != id);
}

// Takes a pair out of those of a number.
fn take(map: &mut BTreeMap<u64, Vec<(u64, u64)>>, of: u64, id: u64)
    ensures { TakesPair (lists_of map.old.entries) (lists_of map.new.entries) of id }
{
    match map.get_mut(&of) {
        Some(pairs) => drop_pair(pairs, id),
        None => {}
    }
}

// The pairs of two slices, by rising id.
fn collected(
    alloc: Global,
    frozen: &[(u64, u64)],
    added: &[(u64, u64)],
) -> Result<Vec<(u64, u64)>, AllocError>
    requires { AreParts nat_cmp frozen.now added.now }
    ensures { IfOk result (λ all. all.items ≡ merged nat_cmp frozen.now added.now) }
{
    let mut all = Vec::new(alloc);
    for pair in Links::over(frozen, added) {
        all.push(pair)?;
    }
    Ok(all)
}

// One map with the pairs of both.
fn joined(
    alloc: Global,
    frozen: &Runs,
    added: &BTreeMap<u64, Vec<(u64, u64)>>,
) -> Result<BTreeMap<u64, Vec<(u64, u64)>>, AllocError>
    requires { ArePairParts frozen.now (lists_of added.now.entries) }
    ensures { IfOk result
        (λ whole. (q : ℕ) → pairs_at (lists_of whole.entries) q ≡ pairs_of (frozen.now, lists_of added.now.entries) q) }
{
    let mut whole = added.clone()?;
    for (of, _) in frozen.heads() {
        let all = collected(alloc, frozen.at(*of), slice_at(added, *of))?;
        whole.insert(*of, all)?;
    }
    Ok(whole)
}

// The pairs of a number in the added part.
fn slice_at<'a>(map: &'a BTreeMap<u64, Vec<(u64, u64)>>, of: u64) -> &'a [(u64, u64)]
    ensures { result.now ≡ pairs_at (lists_of map.now.entries) of }
{
    match map.get(&of) {
        Some(pairs) => pairs.as_slice(),
        None => &[],
    }
}

/// Pairs of an id and a date for each number, by rising id. Copies share the part that was frozen.
pub struct AdjacencyMap {
    alloc: Global,
    frozen: Option<Arc<Runs>>,
    added: BTreeMap<u64, Vec<(u64, u64)>>,
}

impl Drop for AdjacencyMap {
    fn drop(self) {
        let AdjacencyMap {
            alloc: _,
            frozen: _,
            added: _,
        } = self;
    }
}

impl Model for AdjacencyMap {
    ghost use Rattle.snb_graph_links.specs.Pairs.{Lists, lists_of, frozen_lists, ArePairParts};

    ghost Value = { Lists × Lists };

    ghost view = { λ s. (frozen_lists s.frozen, lists_of s.added.entries) };

    ghost invariant = { λ s. ArePairParts (frozen_lists s.frozen) (lists_of s.added.entries) };
}

impl AdjacencyMap {
    /// No pairs. Takes no memory.
    pub fn empty(alloc: Global) -> Self
        ensures { result ≡ ([], []) }
    {
        AdjacencyMap {
            alloc,
            frozen: None,
            added: BTreeMap::new(alloc),
        }
    }

    /// The pairs of a list of links in any order, each a number with a pair of an id and a date; all of them are
    /// frozen. It takes the time of a sort. An error says that memory doesn't suffice.
    /// The condition: links with the same ends have one date.
    pub fn of(alloc: Global, mut links: Vec<(u64, (u64, u64))>) -> Result<Self, AllocError>
        requires { AreSingle links.items }
        ensures { IfOk result
            (λ all. (of id date : ℕ) → HasPair all of id date ↔ Contains links.items (of, (id, date))) }
    {
        links.sort()?;
        links.dedup();
        let runs = Runs::of_links(alloc, links.as_slice())?;
        Ok(AdjacencyMap {
            alloc,
            frozen: Some(Arc::new(alloc, runs)?),
            added: BTreeMap::new(alloc),
        })
    }

    /// A law: each frozen pair is one of the pairs.
    pub fn known(&self)
        ensures { (of id date : ℕ) → HasFrozenPair self.now of id date → HasPair self.now of id date }
    {
        let _ = &self.added;
    }

    /// The pairs of a number, by rising id. Takes no memory.
    pub fn pairs(&self, of: u64) -> Links<'_>
        ensures { ArePairsOf self.now of (rest result) }
    {
        let frozen: &[(u64, u64)] = match &self.frozen {
            Some(frozen) => frozen.at(of),
            None => &[],
        };
        Links::over(frozen, slice_at(&self.added, of))
    }

    /// Adds a pair to those of a number. Want of memory leaves all pairs as they were.
    /// The condition: the number has no pair of this id.
    pub fn add(&mut self, of: u64, id: u64, date: u64) -> Result<(), AllocError>
        requires { (d : ℕ) → ¬ HasPair self.old of id d }
        ensures ok { OnOk result (HasAdded self.old of id date self.new) }
        ensures err { OnErr result (SamePairs self.old self.new) }
        ensures frozen { self.new.0 ≡ self.old.0 }
    {
        put(&mut self.added, self.alloc, of, id, date)
    }

    /// Takes the pair of an id out of those of a number, if there is one. Takes no memory.
    /// The condition: no frozen pair of the number has this id.
    pub fn drop_pair(&mut self, of: u64, id: u64)
        requires { (d : ℕ) → ¬ HasFrozenPair self.old of id d }
        ensures gone { HasDropped self.old of id self.new }
        ensures frozen { self.new.0 ≡ self.old.0 }
    {
        take(&mut self.added, of, id);
    }

    /// Makes all pairs the frozen part, which copies share. Where nothing was added that isn't frozen, nothing
    /// is done. Where memory doesn't suffice, the index is as it was.
    pub fn freeze(&mut self) -> Result<(), AllocError>
        ensures same { SamePairs self.old self.new }
        ensures ok { OnOk result ((q : ℕ) → pairs_at self.new.0 q ≡ pairs_of self.old q) }
        ensures err { OnErr result (self.new ≡ self.old) }
    {
        if self.added.is_empty() {
            return Ok(());
        }
        let runs = match &self.frozen {
            Some(frozen) => {
                let whole = joined(self.alloc, frozen, &self.added)?;
                Runs::of(self.alloc, &whole)?
            }
            None => Runs::of(self.alloc, &self.added)?,
        };
        self.frozen = Some(Arc::new(self.alloc, runs)?);
        self.added = BTreeMap::new(self.alloc);
        Ok(())
    }

    /// An index with the same pairs, which shares the frozen part and copies the others. An error says
    /// that memory doesn't suffice.
    pub fn try_copy(&self) -> Result<Self, AllocError>
        ensures { IfOk result (λ copy. copy ≡ self.now) }
    {
        let frozen = match &self.frozen {
            Some(frozen) => Some(Arc::try_clone(frozen)?),
            None => None,
        };
        Ok(AdjacencyMap {
            alloc: self.alloc,
            frozen,
            added: self.added.clone()?,
        })
    }
}
