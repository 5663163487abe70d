//! Calls that add persons and friendships to a dataset, and that ask for distances on its graph.

use crate::dataset::Dataset;
use crate::loaded::Loaded;
use crate::state::State;
use snb_reach::Near;
use snb_test_script::{
    Flaw, List, first_word, number_of, small_number_of, told_number, two_numbers,
};
use std::alloc::{AllocError, Global};

// `persons M N`
fn add_persons(dataset: &mut Dataset, rest: &str) -> Result<(), Flaw> {
    let (first, last) = two_numbers(rest)?;
    for id in first..=last {
        dataset.add_person(id)?;
    }
    Ok(())
}

// `friendship A B`
fn add_friendship(dataset: &mut Dataset, rest: &str) -> Result<(), Flaw> {
    let (one, other) = two_numbers(rest)?;
    Ok(dataset.add_friends(one, other)?)
}

// `path M N`
fn add_path(dataset: &mut Dataset, rest: &str) -> Result<(), Flaw> {
    let (first, last) = two_numbers(rest)?;
    for id in first..last {
        dataset.add_friends(id, id.saturating_add(1))?;
    }
    Ok(())
}

// Adds the friendships of one with all up to the last.
fn add_later(dataset: &mut Dataset, one: u64, last: u64) -> Result<(), AllocError> {
    for other in one.saturating_add(1)..=last {
        dataset.add_friends(one, other)?;
    }
    Ok(())
}

// `clique M N`
fn add_clique(dataset: &mut Dataset, rest: &str) -> Result<(), Flaw> {
    let (first, last) = two_numbers(rest)?;
    for one in first..last {
        add_later(dataset, one, last)?;
    }
    Ok(())
}

// `shortest A B`
fn tell_shortest(alloc: Global, loaded: &Loaded, rest: &str) -> Result<String, Flaw> {
    let (from, to) = two_numbers(rest)?;
    let steps = loaded.shortest(alloc, from, to)?;
    Ok(format!(in alloc; "{steps}")?)
}

// `ic13 A B`
fn tell_ic13(alloc: Global, loaded: &Loaded, rest: &str) -> Result<String, Flaw> {
    let (from, to) = two_numbers(rest)?;
    loaded.ic13(alloc, from, to)
}

// Those near a person, as `PERSON STEPS` asks for them.
fn near(alloc: Global, loaded: &Loaded, rest: &str) -> Result<Near, Flaw> {
    let (start, steps) = first_word(rest);
    let start = number_of(start)?;
    let steps = small_number_of(steps)?;
    Ok(loaded.within(alloc, start, steps)?)
}

// `within P STEPS`
fn tell_within(alloc: Global, loaded: &Loaded, rest: &str) -> Result<String, Flaw> {
    let near = near(alloc, loaded, rest)?;
    let mut list = List::new(alloc);
    for (id, distance) in near.as_slice() {
        let item = format!(in alloc; "{id}:{distance}")?;
        list.add(item.as_str())?;
    }
    list.told(alloc)
}

// `count_within P STEPS`
fn count_within(alloc: Global, loaded: &Loaded, rest: &str) -> Result<String, Flaw> {
    let near = near(alloc, loaded, rest)?;
    told_number(alloc, near.as_slice().len() as u64)
}

// Carries out a line that adds to the dataset; None where it doesn't.
fn added(dataset: &mut Dataset, word: &str, rest: &str) -> Option<Result<(), Flaw>> {
    match word {
        "persons" => Some(add_persons(dataset, rest)),
        "friendship" => Some(add_friendship(dataset, rest)),
        "path" => Some(add_path(dataset, rest)),
        "clique" => Some(add_clique(dataset, rest)),
        _ => None,
    }
}

/// Makes the call that begins with this word, and tells what it answers; None where there is no such
/// call of a dataset of persons or of distances in it.
pub(crate) fn distance(
    alloc: Global,
    state: &mut State,
    word: &str,
    rest: &str,
) -> Result<Option<String>, Flaw> {
    if let Some(added) = added(&mut state.dataset, word, rest) {
        state.forget();
        added?;
        return Ok(Some(String::new(alloc)));
    }
    let answer = match word {
        "shortest" => tell_shortest(alloc, state.loaded(alloc)?, rest)?,
        "ic13" => tell_ic13(alloc, state.loaded(alloc)?, rest)?,
        "within" => tell_within(alloc, state.loaded(alloc)?, rest)?,
        "count_within" => count_within(alloc, state.loaded(alloc)?, rest)?,
        _ => return Ok(None),
    };
    Ok(Some(answer))
}
