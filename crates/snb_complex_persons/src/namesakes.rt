//! The complex read of the persons of a first name around one.

ghost use Rattle.std.specs.Prelude.{◌≡◌, ◌≤◌, ◌∷◌, [], IfOk, filter, map, nat_eq};
ghost use Rattle.std.specs.Cmp.Lexicographic.{slice_cmp};
ghost use Rattle.std.specs.HashMap.{get};
ghost use Rattle.std.specs.List.{All};
ghost use Rattle.std.specs.Ordering.{nat_cmp};
ghost use Rattle.snb_complex_persons.specs.Stays.{IsStayFound};
ghost use Rattle.snb_complex_persons.specs.Namesakes.{AreNamesakes, AreNamesakesWithin, IsNamesakeFound, IsNearFound, namesake_of};
ghost use Rattle.snb_graph_links.specs.Pairs.{rest};
ghost use Rattle.snb_reach.specs.Distances.{AreDistances};
ghost use Rattle.snb_read_model.specs.ComplexReads.{AreStays, Ic1Answer, IsNamesake, IsStay, is_named};
ghost use Rattle.snb_read_model.specs.Order.{ReadAnswers, FirstRows, SortedAndCut, Rising, AllRows};
ghost use Rattle.snb_graph_model.specs.Soundness.{Sound};

use crate::places::{located, place};
use crate::scan::scanned;
use snb_base::{Text, list_of};
use snb_graph::{Graph, Links};
use snb_graph_integrity::sound_graphs;
use snb_graph_tables::Words;
use snb_reach::{distances, listed, within};
use snb_read_lookups::{city, known, words};
use snb_read_model::{Answer, AnswerRow, Cell, CellTexts, CowText, Stays};
use snb_read_order::{first_is_some, first_of, in_order};
use snb_schema::{Person, Table};
use std::alloc::{AllocError, Global};
use std::collections::HashMap;

// The texts of a walk, in byte order.
fn sorted<'a>(alloc: Global, texts: Words<'a>) -> Result<CellTexts<CowText<'a>>, AllocError>
    ensures { IfOk result (SortedAndCut (slice_cmp nat_cmp) AllRows texts.entry) }
{
    let mut lent = Vec::new(alloc);
    for text in texts {
        lent.push(CowText::lent(text))?;
    }
    let ordered = in_order(lent, |a: &CowText<'_>, b: &CowText<'_>| a.compare(b));
    Ok(CellTexts::from_vec(alloc, ordered))
}

// The names of a stay: (organisation, year).
fn stay(graph: &Graph, stay: (u64, u64)) -> (CowText<'_>, u32, CowText<'_>)
    requires sound { Sound graph.now }
    requires found { IsStayFound graph.now stay }
    ensures { IsStay graph.now stay result }
{
    let (organisation, place) = located(graph, stay.0);
    (
        CowText::lent(&organisation.name),
        stay.1 as u32,
        CowText::lent(&place.name),
    )
}

// The names of the stays of a walk, in order.
fn stays<'a>(
    alloc: Global,
    graph: &'a Graph,
    found: Links<'_>,
) -> Result<Stays<CowText<'a>>, AllocError>
    requires sound { Sound graph.now }
    requires found { All (IsStayFound graph.now) (rest found) }
    ensures { IfOk result (AreStays graph.now (rest found.entry)) }
{
    let mut named = Vec::new(alloc);
    for one in found {
        named.push(stay(graph, one))?;
    }
    let ordered = in_order(
        named,
        |a: &(CowText<'_>, u32, CowText<'_>), b: &(CowText<'_>, u32, CowText<'_>)| {
            a.0.compare(&b.0)
                .then(a.1.cmp(&b.1).then(a.2.compare(&b.2)))
        },
    );
    Ok(Stays::from_vec(alloc, ordered))
}

// The row of a person at a distance.
fn namesake_row<'a>(
    alloc: Global,
    graph: &'a Graph,
    one: &(&'a Person, u64),
) -> Result<AnswerRow<CowText<'a>>, AllocError>
    requires sound { Sound graph.now }
    requires found { IsNamesakeFound graph.now one.now }
    ensures { IfOk result (IsNamesake graph.now (namesake_of one.now)) }
{
    graph.known();
    sound_graphs();
    let person = one.0;
    let home = place(graph, city(graph, person.id));
    let emails = sorted(
        alloc,
        graph.words(Table::PersonEmailEmailAddress, person.id),
    )?;
    let languages = sorted(alloc, graph.words(Table::PersonSpeaksLanguage, person.id))?;
    let universities = stays(alloc, graph, graph.study(person.id))?;
    let companies = stays(alloc, graph, graph.work(person.id))?;
    let cells = vec![in alloc;
        Cell::number(person.id),
        words(&person.last_name),
        Cell::number(one.1),
        Cell::number(person.birthday),
        Cell::number(person.creation_date),
        words(&person.gender),
        words(&person.browser_used),
        words(&person.location_ip),
        Cell::List { texts: emails },
        Cell::List { texts: languages },
        words(&home.name),
        Cell::Stays {
            stays: universities,
        },
        Cell::Stays { stays: companies },
    ]?;
    Ok(AnswerRow::from_vec(alloc, cells))
}

// The rows of the first twenty of the persons that were found.
fn first_namesakes<'a>(
    alloc: Global,
    graph: &'a Graph,
    found: Vec<(&'a Person, u64)>,
) -> Result<Answer<CowText<'a>>, AllocError>
    requires sound { Sound graph.now }
    requires found { All (IsNamesakeFound graph.now) found.items }
    ensures { IfOk result
        (ReadAnswers (map namesake_of found.entry.items) (IsNamesake graph.now) (Rising 3 ∷ Rising 2 ∷ Rising 1 ∷ [])
        (FirstRows 20)) }
{
    graph.known();
    sound_graphs();
    first_is_some::<Text>();
    first_is_some::<(Text, u32, Text)>();
    let first = first_of(found, 20, |a, b| {
        a.1.cmp(&b.1)
            .then(a.0.last_name.cmp(&b.0.last_name))
            .then(a.0.id.cmp(&b.0.id))
    });
    list_of(
        alloc,
        first.as_slice(),
        |one| namesake_row(alloc, graph, one),
    )
}

// Those of the persons near who have the first name.
fn named<'a>(
    alloc: Global,
    graph: &'a Graph,
    first_name: &str,
    near: &[(u64, u64)],
) -> Result<Vec<(&'a Person, u64)>, AllocError>
    requires { All (IsNearFound graph.now) near.now }
    ensures { IfOk result
        (λ found. AreNamesakes graph.now (filter (is_named graph.now first_name.now) near.now) found.items) }
{
    let mut found = Vec::new(alloc);
    for one in near {
        let person = known(graph, one.0);
        if person.first_name.as_str() == first_name {
            found.push((person, one.1))?;
        }
    }
    Ok(found)
}

// Those of a first name at distance 1 to `steps` from a person.
fn namesakes<'a>(
    alloc: Global,
    graph: &'a Graph,
    person: u64,
    first_name: &str,
    steps: u32,
) -> Result<Vec<(&'a Person, u64)>, AllocError>
    requires sound { Sound graph.now }
    requires few { steps ≤ 3 }
    ensures { IfOk result (λ found. AreNamesakesWithin graph.now person steps first_name.now found.items) }
{
    let near = within(alloc, graph, person, steps)?;
    named(alloc, graph, first_name, near.as_slice())
}

/// Complex read 1: the persons of a first name at distance 1 to 3 from a person, each with the distance, the
/// profile, emails, languages, city, studies and work; the first twenty, by distance, then by last name, then
/// by id. A person who isn't held gives no rows.
/// The condition: the graph is sound.
pub fn ic1<'a>(
    alloc: Global,
    graph: &'a Graph,
    person: u64,
    first_name: &str,
) -> Result<Answer<CowText<'a>>, AllocError>
    requires sound { Sound graph.now }
    ensures { IfOk result (Ic1Answer graph.now person first_name.now) }
{
    graph.known();
    sound_graphs();
    first_is_some::<Text>();
    first_is_some::<(Text, u32, Text)>();
    first_is_some::<AnswerRow<Text>>();
    let met = distances(alloc, graph, person, 2)?;
    // Where persons are few in comparison, a look at each of their names takes less time than to look up
    // those who are met.
    if graph.count(Table::Person) / 16 <= met.len() as u64 {
        let all = scanned(alloc, graph, &met, first_name)?;
        return first_namesakes(alloc, graph, all);
    }
    // Nearer persons come first: where those within two steps are enough, nobody further is looked at.
    let near = listed(alloc, &met)?;
    let found = named(alloc, graph, first_name, near.as_slice())?;
    let enough = 20;
    if enough <= found.len() {
        return first_namesakes(alloc, graph, found);
    }
    let found = namesakes(alloc, graph, person, first_name, 3)?;
    first_namesakes(alloc, graph, found)
}
