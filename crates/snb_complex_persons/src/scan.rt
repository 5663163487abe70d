//! The persons of a first name around one, found by going over all persons.

ghost use Rattle.std.specs.Prelude.{◌≡◌, ℕ, Contains, IfOk, MatchOption, false, nat_eq};
ghost use Rattle.std.specs.HashMap.{get};
ghost use Rattle.snb_schema.specs.declared.row.Row.TheVariants as row;
ghost use Rattle.snb_complex_persons.specs.Namesakes.{AreNamesakesWithin};
ghost use Rattle.snb_complex_persons.specs.Scan.{IsScanned, distance_by, has_second, is_wanted, placed};
ghost use Rattle.snb_reach.specs.Distances.{AreDistances};
ghost use Rattle.snb_read_lookups.specs.Lookups.{IsOnlyPerson};

use snb_graph::Graph;
use snb_graph_integrity::sound_graphs;
use snb_schema::Person;
use std::alloc::{AllocError, Global};
use std::collections::HashMap;

// Whether a friend of a person was met at distance 2.
fn is_third(graph: &Graph, met: &HashMap<u64, u64>, person: u64) -> bool
    ensures { result ≡ has_second graph.now (get nat_eq met.now) person }
{
    for (friend, _) in graph.friends(person) {
        if let Some(2) = met.get(&friend) {
            return true;
        }
    }
    false
}

// The distance of a person from the start, by those met within two steps of it: 0 for the start itself, and
// 3 for a person who wasn't met and has a friend at distance 2. 0 also where the distance is above 3, and
// where there is none.
fn distance_of(graph: &Graph, met: &HashMap<u64, u64>, person: u64) -> u64
    ensures { result ≡ distance_by graph.now (get nat_eq met.now) person }
{
    if let Some(distance) = met.get(&person) {
        return *distance;
    }
    if is_third(graph, met, person) { 3 } else { 0 }
}

// A law: a person who is held is the only one of that id.
fn stands_alone(graph: &Graph, person: &Person)
    requires { Contains graph.now (row.Person person.now) }
    ensures { IsOnlyPerson graph.now person.now.id person.now }
{
    graph.known();
    sound_graphs();
    let _ = person;
}

// A person with the distance, where the first name is theirs and the distance is above 0. Names are compared
// first, since few persons have the name.
fn namesake<'a>(
    graph: &Graph,
    met: &HashMap<u64, u64>,
    first_name: &str,
    person: &'a Person,
) -> Option<(&'a Person, u64)>
    requires held { Contains graph.now (row.Person person.now) }
    ensures { MatchOption result
        (is_wanted graph.now first_name.now (placed graph.now (get nat_eq met.now) person.now.id) ≡ false)
        (IsScanned graph.now (get nat_eq met.now) first_name.now person.now.id) }
{
    stands_alone(graph, person);
    if person.first_name.as_str() != first_name {
        return None;
    }
    let distance = distance_of(graph, met, person.id);
    if 0 < distance {
        Some((person, distance))
    } else {
        None
    }
}

/// Those of a first name at distance 1 to 3 from a person, by those met within two steps of the person.
pub(crate) fn scanned<'a>(
    alloc: Global,
    graph: &'a Graph,
    met: &HashMap<u64, u64>,
    first_name: &str,
) -> Result<Vec<(&'a Person, u64)>, AllocError>
    ensures { IfOk result
        (λ found. (start : ℕ) → AreDistances graph.now start 2 (get nat_eq met.now)
        → AreNamesakesWithin graph.now start 3 first_name.now found.items) }
{
    graph.known();
    let mut found = Vec::new(alloc);
    for (_, person) in graph.persons() {
        if let Some(one) = namesake(graph, met, first_name, person) {
            found.push(one)?;
        }
    }
    Ok(found)
}
