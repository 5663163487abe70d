//! The dataset.

ghost use Rattle.std.specs.Prelude.{◌≡◌, IfOk, codes};
ghost use Rattle.snb_schema.specs.declared.row.Row.TheVariants as row;
ghost use Rattle.snb_trial.specs.Trial.{dataset, first_person};

use snb_base::Text;
use snb_graph::Graph;
use snb_graph_tables::Insert;
use snb_schema::{Named, Organisation, Person, Place, Row, Table};
use std::alloc::{AllocError, Global};

// A place.
fn place(alloc: Global, id: u64, name: &str, kind: &str) -> Result<Row, AllocError>
    ensures { IfOk result
        (λ made. made ≡ row.Place (record { id = id; name = name.now; url = codes "u"; kind = kind.now })) }
{
    let place = Place {
        id,
        name: Text::from_str(alloc, name)?,
        url: Text::from_str(alloc, "u")?,
        kind: Text::from_str(alloc, kind)?,
    };
    Ok(Row::Place { place })
}

// What the tag and its class are.
fn named(alloc: Global) -> Result<Named, AllocError>
    ensures { IfOk result (λ made. made ≡ record { id = 0; name = codes "x"; url = codes "u" }) }
{
    Ok(Named {
        id: 0,
        name: Text::from_str(alloc, "x")?,
        url: Text::from_str(alloc, "u")?,
    })
}

// The organisation.
fn company(alloc: Global) -> Result<Row, AllocError>
    ensures { IfOk result
        (λ made. made ≡ row.Organisation
        (record { id = 0; kind = codes "company"; name = codes "o"; url = codes "u" })) }
{
    let organisation = Organisation {
        id: 0,
        kind: Text::from_str(alloc, "company")?,
        name: Text::from_str(alloc, "o")?,
        url: Text::from_str(alloc, "u")?,
    };
    Ok(Row::Organisation { organisation })
}

// Person 0.
fn person(alloc: Global) -> Result<Row, AllocError>
    ensures { IfOk result (λ made. made ≡ first_person) }
{
    let person = Person {
        id: 0,
        first_name: Text::from_str(alloc, "F")?,
        last_name: Text::from_str(alloc, "L")?,
        gender: Text::from_str(alloc, "g")?,
        birthday: 0,
        creation_date: 0,
        location_ip: Text::from_str(alloc, "0.0.0.0")?,
        browser_used: Text::from_str(alloc, "b")?,
    };
    Ok(Row::Person { person })
}

// An edge.
fn link(table: Table, from: u64, to: u64) -> Row
    ensures { result ≡ row.Link table from to }
{
    Row::Link { table, from, to }
}

// The rows.
fn rows(alloc: Global) -> Result<Vec<Row>, AllocError>
    ensures { IfOk result (λ made. made.items ≡ dataset) }
{
    let mut rows = Vec::new(alloc);
    rows.push(place(alloc, 0, "a", "city")?)?;
    rows.push(place(alloc, 1, "b", "country")?)?;
    rows.push(Row::TagClass {
        named: named(alloc)?,
    })?;
    rows.push(Row::Tag {
        named: named(alloc)?,
    })?;
    rows.push(company(alloc)?)?;
    rows.push(person(alloc)?)?;
    rows.push(link(Table::PlaceIsPartOfPlace, 0, 1))?;
    rows.push(link(Table::TagHasTypeTagClass, 0, 0))?;
    rows.push(link(Table::OrganisationIsLocatedInPlace, 0, 1))?;
    rows.push(link(Table::PersonIsLocatedInPlace, 0, 0))?;
    Ok(rows)
}

/// The graph of the ten rows.
pub fn trial_graph(alloc: Global) -> Result<Graph, AllocError>
    ensures { IfOk result (λ graph. graph ≡ dataset) }
{
    let rows = rows(alloc)?;
    let mut graph = Graph::empty(alloc);
    match graph.insert_all(rows) {
        Ok(()) => Ok(graph),
        Err(Insert::Memory) => Err(AllocError),
        Err(Insert::Duplicate) => unreachable!(),
    }
}
