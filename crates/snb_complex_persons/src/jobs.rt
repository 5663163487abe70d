//! The complex read of the jobs of persons around one.

ghost use Rattle.std.specs.Prelude.{◌≡◌, ◌∷◌, ◌++◌, ℕ, List, [], IfOk, OnOk, map, nat_eq};
ghost use Rattle.std.specs.HashMap.{get};
ghost use Rattle.std.specs.List.{All};
ghost use Rattle.snb_complex_persons.specs.Jobs.{AreJobs, AreSeen, IsJobFound, job_of, jobs_by};
ghost use Rattle.snb_read_model.specs.ComplexReads.{Ic11Answer, IsJob, is_in};
ghost use Rattle.snb_read_model.specs.Distance.{IsPerson};
ghost use Rattle.snb_read_model.specs.Order.{ReadAnswers, Falling, FirstRows, Rising};
ghost use Rattle.snb_schema.specs.RowKeys.{node_key};
ghost use Rattle.snb_schema.specs.declared.table.Kind.TheVariants as kinds;
ghost use Rattle.snb_graph_model.specs.Graphs.{HasKey};
ghost use Rattle.snb_graph_model.specs.Soundness.{Sound};

use crate::places::located;
use snb_base::{Text, list_of};
use snb_graph::Graph;
use snb_graph_integrity::sound_graphs;
use snb_reach::within;
use snb_read_lookups::{known, words};
use snb_read_model::{Answer, AnswerRow, Cell, CowText};
use snb_read_order::first_of;
use std::alloc::{AllocError, Global};
use std::collections::HashMap;

// The row of a work row: (person, organisation, year), with the organisation's name.
fn job_row<'a>(
    alloc: Global,
    graph: &'a Graph,
    job: &((u64, u64, u64), &'a Text),
) -> Result<AnswerRow<CowText<'a>>, AllocError>
    requires { IsJobFound graph.now job.now }
    ensures { IfOk result (IsJob graph.now (job_of job.now)) }
{
    let person = known(graph, job.0.0);
    let cells = vec![in alloc;
        Cell::number(job.0.0),
        words(&person.first_name),
        words(&person.last_name),
        words(job.1),
        Cell::number(job.0.2),
    ]?;
    Ok(AnswerRow::from_vec(alloc, cells))
}

// The rows of the first ten of the work rows that were found.
fn first_jobs<'a>(
    alloc: Global,
    graph: &'a Graph,
    found: Vec<((u64, u64, u64), &'a Text)>,
) -> Result<Answer<CowText<'a>>, AllocError>
    requires { All (IsJobFound graph.now) found.items }
    ensures { IfOk result
        (ReadAnswers (map job_of found.entry.items) (IsJob graph.now) (Rising 5 ∷ Rising 1 ∷ Falling 4 ∷ [])
        (FirstRows 10)) }
{
    graph.known();
    sound_graphs();
    let first = first_of(found, 10, |a, b| {
        a.0.2.cmp(&b.0.2).then(a.0.0.cmp(&b.0.0)).then(b.1.cmp(a.1))
    });
    list_of(alloc, first.as_slice(), |job| job_row(alloc, graph, job))
}

// Whether an organisation stands in a place of this name, which is looked up the first time alone.
fn is_there(
    graph: &Graph,
    organisation: u64,
    country: &str,
    seen: &mut HashMap<u64, bool>,
) -> Result<bool, AllocError>
    requires sound { Sound graph.now }
    requires held { HasKey graph.now (node_key kinds.Organisation organisation) }
    requires seen { AreSeen graph.now country.now (get nat_eq seen.old) }
    ensures there { IfOk result (λ there. there ≡ is_in graph.now country.now organisation) }
    ensures seen { OnOk result (AreSeen graph.now country.now (get nat_eq seen.new)) }
{
    if let Some(there) = seen.get(&organisation) {
        return Ok(*there);
    }
    let (_, place) = located(graph, organisation);
    let there = place.name.as_str() == country;
    seen.insert(organisation, there)?;
    Ok(there)
}

// Appends the work rows of a person before a year in a country, each with the organisation's name.
fn add_jobs<'a>(
    graph: &'a Graph,
    person: u64,
    country: &str,
    year: u32,
    seen: &mut HashMap<u64, bool>,
    found: &mut Vec<((u64, u64, u64), &'a Text)>,
) -> Result<(), AllocError>
    requires sound { Sound graph.now }
    requires held { IsPerson graph.now person }
    requires seen { AreSeen graph.now country.now (get nat_eq seen.old) }
    ensures seen { OnOk result (AreSeen graph.now country.now (get nat_eq seen.new)) }
    ensures found { OnOk result ((all : List (ℕ × ℕ × ℕ)) → AreJobs graph.now all found.old.items
        → AreJobs graph.now (all ++ jobs_by graph.now country.now year person) found.new.items) }
{
    graph.known();
    sound_graphs();
    for (organisation, since) in graph.work(person) {
        // The year is at hand, and the place takes a lookup at least.
        if u64::from(year) <= since {
            continue;
        }
        if is_there(graph, organisation, country, seen)? {
            let (company, _) = located(graph, organisation);
            found.push(((person, organisation, since), &company.name))?;
        }
    }
    Ok(())
}

/// Complex read 11: where the persons at distance 1 or 2 from a person work since before `year`, at
/// organisations that stand in a place of the name `country`; the first ten, by year, then by the person's
/// id, then by the organisation's name from the last on. A person who isn't held gives no rows.
/// The condition: the graph is sound.
pub fn ic11<'a>(
    alloc: Global,
    graph: &'a Graph,
    person: u64,
    country: &str,
    year: u32,
) -> Result<Answer<CowText<'a>>, AllocError>
    requires sound { Sound graph.now }
    ensures { IfOk result (Ic11Answer graph.now person country.now year) }
{
    let near = within(alloc, graph, person, 2)?;
    let mut seen = HashMap::new(alloc);
    let mut found = Vec::new(alloc);
    for one in near.as_slice() {
        add_jobs(graph, one.0, country, year, &mut seen, &mut found)?;
    }
    first_jobs(alloc, graph, found)
}
