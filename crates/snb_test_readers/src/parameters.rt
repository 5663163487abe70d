//! The call that reads a parameter file.

ghost use Rattle.std.specs.Prelude.{◌+◌, ◌≤◌, length};
ghost use Rattle.snb_schema.specs.declared.limits.TheConstants.{MAX_BYTES};

use crate::feeding::{Feeds, told_fed};
use crate::pieces::{Reads, told_cut};
use snb_schema::{Fault, Query, is_complex};
use snb_streams::Params;
use snb_test_script::{Files, Flaw, first_word, small_number_of};
use std::alloc::{AllocError, Global};

// The query and its parameters.
fn told_query(alloc: Global, one: &Query) -> Result<String, AllocError> {
    match one {
        Query::Ic1 { person, first_name } => {
            let name = first_name.as_str();
            format!(in alloc; "IC1 {person} '{name}'")
        }
        Query::Ic2 { person, max_date } => format!(in alloc; "IC2 {person} {max_date}"),
        Query::Ic7 { person } => format!(in alloc; "IC7 {person}"),
        Query::Ic8 { person } => format!(in alloc; "IC8 {person}"),
        Query::Ic9 { person, max_date } => format!(in alloc; "IC9 {person} {max_date}"),
        Query::Ic11 {
            person,
            country,
            year,
        } => {
            let place = country.as_str();
            format!(in alloc; "IC11 {person} '{place}' {year}")
        }
        Query::Ic13 { from, to } => format!(in alloc; "IC13 {from} {to}"),
        _ => String::from_str(alloc, "a short read"),
    }
}

impl Feeds for Params {
    type Item = Query;

    ghost fed = { λ params. params.fed };

    ghost over = { λ params. params.over };

    fn take(&mut self, piece: &[u8], into: &mut Vec<Query>) -> Result<(), Fault> {
        self.feed(piece, into)
    }

    fn finish(&mut self, into: &mut Vec<Query>) -> Result<(), Fault> {
        self.end(into)
    }

    fn told_item(&self, alloc: Global, item: &Query) -> Result<String, Flaw> {
        Ok(told_query(alloc, item)?)
    }

    fn told_end(&self, alloc: Global) -> Result<String, AllocError> {
        Ok(String::new(alloc))
    }
}

// Reads the parameters of this query.
#[derive(Clone, Copy)]
struct ParametersOf {
    query: u32,
}

impl Reads for ParametersOf {
    fn told(&self, alloc: Global, first: &[u8], second: &[u8]) -> Result<String, Flaw> {
        if !is_complex(self.query) {
            return Err(Flaw::OtherValue);
        }
        told_fed(alloc, &mut Params::new(alloc, self.query), first, second)
    }
}

/// `parameter_file QUERY FILE`
pub(crate) fn parameter_file(alloc: Global, files: &Files, rest: &str) -> Result<String, Flaw> {
    let (query, file) = first_word(rest);
    let query = small_number_of(query)?;
    told_cut(alloc, &ParametersOf { query }, files.bytes(file)?)
}
