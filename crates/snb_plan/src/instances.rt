//! The instances of the complex queries that go with updates.

ghost use Rattle.std.specs.Prelude.{◌≡◌, ◌≤◌, ◌++◌, length, IfOk, OnOk};
ghost use Rattle.snb_plan.specs.Merging.{read_count, share, AreReads};
ghost use Rattle.snb_plan.specs.Instances.{all_instances, instances_of};

use snb_schema::{COMPLEX_QUERIES, Frequencies};
use std::alloc::{AllocError, Global};

/// An instance of a complex query.
#[derive(Clone, Copy, PartialEq, Eq, PartialOrd, Ord)]
pub struct Instance {
    /// The number of the update that it goes with, from 1.
    pub at: u32,
    /// The number of its query.
    pub query: u32,
    /// Its number among the instances of its query, from 1.
    pub turn: u32,
}

// How many instances of a frequency go with so many updates.
fn share(count: u32, frequency: u32) -> u64
    ensures value { result ≡ share count frequency }
    ensures few { result ≤ count }
{
    if frequency == 0 {
        0
    } else {
        u64::from(count / frequency)
    }
}

/// How many instances go with so many updates.
pub fn read_count(frequencies: &Frequencies, count: u32) -> u64
    ensures { result ≡ read_count frequencies.now count }
{
    let mut all = 0;
    for query in COMPLEX_QUERIES {
        all += share(count, frequencies.of(query));
    }
    all
}

// Appends the instances of a query that go with so many updates, in their order.
fn push_instances(
    instances: &mut Vec<Instance>,
    frequencies: &Frequencies,
    query: u32,
    count: u32,
) -> Result<(), AllocError>
    ensures { OnOk result (instances.new.items ≡ instances.old.items ++ instances_of frequencies.now count query) }
{
    let frequency = frequencies.of(query);
    let most = share(count, frequency) as u32;
    for k in 0..most {
        instances.push(Instance {
            at: (k + 1) * frequency,
            query,
            turn: k + 1,
        })?;
    }
    Ok(())
}

// All instances that go with so many updates, query by query.
fn all_instances(
    alloc: Global,
    frequencies: &Frequencies,
    count: u32,
) -> Result<Vec<Instance>, AllocError>
    ensures { IfOk result (λ instances. instances.items ≡ all_instances frequencies.now count) }
{
    let mut instances = Vec::new(alloc);
    for query in COMPLEX_QUERIES {
        push_instances(&mut instances, frequencies, query, count)?;
    }
    Ok(instances)
}

/// All instances that go with so many updates, in the order of the read lane.
pub fn reads_of(
    alloc: Global,
    frequencies: &Frequencies,
    count: u32,
) -> Result<Vec<Instance>, AllocError>
    ensures reads { IfOk result (λ reads. AreReads frequencies.now count reads.items) }
    ensures counted { IfOk result (λ reads. length reads.items ≡ read_count frequencies.now count) }
{
    let mut instances = all_instances(alloc, frequencies, count)?;
    instances.sort()?;
    Ok(instances)
}
