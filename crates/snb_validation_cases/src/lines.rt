//! What the lines of a file of cases say.

ghost use Rattle.std.specs.Prelude.{◌≡◌, ◌↔◌, IfOk, IsTrue, IsUtf8, Some};
ghost use Rattle.serde_json.specs.Read.{read};
ghost use Rattle.serde_json.specs.View.{view};
ghost use Rattle.snb_validation_cases.specs.CaseFile.{header_data};

use crate::case::{CaseAt, CaseFault};
use crate::members::held_alone;
use crate::read::{read_case_with, value_of};
use crate::values::number_in;
use json::Scratch;
use serde_json::Value;
use snb_input_lines::{Grammar, Record};
use snb_schema::LineFault;
use std::alloc::{AllocError, Global};
use std::cell::Cell;
use std::marker::Model;

/// What the lines of a file of cases say: the first with a byte is the header, the object
/// `{"cases":1}`, and each later one is a case, as `read_case` has it. A line that isn't so is bad in
/// column 0.
pub struct CaseLines {
    alloc: Global,
    // Kept from line to line, in a box: it has 16 KB, which no line moves.
    scratch: Cell<Option<Box<Scratch>>>,
}

impl Drop for CaseLines {
    fn drop(self) {
        let CaseLines {
            alloc: _,
            scratch: _,
        } = self;
    }
}

impl Model for CaseLines {
    ghost Value = { Unit {0} };

    ghost view = { λ _. tt };
}

impl CaseLines {
    /// Those of any such file.
    pub fn new(alloc: Global) -> CaseLines {
        CaseLines {
            alloc,
            scratch: Cell::new(None),
        }
    }
}

// Whether a value is `{"cases":1}`.
fn is_header(value: &Value) -> bool
    ensures { IsTrue result ↔ (view value.now ≡ header_data) }
{
    match held_alone(value, "cases") {
        Some(held) => held.as_u64() == Some(1),
        None => false,
    }
}

// Whether `serde_json` reads `{"cases":1}` from a text of UTF-8.
fn heads(alloc: Global, text: &[u8]) -> Result<bool, AllocError>
    requires { IsUtf8 text.now }
    ensures { IfOk result (λ heads. IsTrue heads ↔ (read text.now ≡ Some header_data)) }
{
    match value_of(alloc, text)? {
        Some(value) => Ok(is_header(&value)),
        None => Ok(false),
    }
}

// Memory for the tokens of lines.
#[inline(never)]
fn new_scratch(alloc: Global) -> Result<Box<Scratch>, AllocError> {
    Ok(Box::new(alloc, Scratch::new(alloc))?)
}

impl Grammar for CaseLines {
    type Item = CaseAt;

    type Known = ();

    ghost use Rattle.snb_validation_cases.specs.CaseFile.{case_language};

    ghost language = { λ _. case_language };

    fn begin(&self) -> Option<()> {
        None
    }

    fn splits(&self) -> bool {
        false
    }

    fn read_header(&self, line: &[u8], _fields: &Record) -> Result<(), LineFault> {
        if heads(self.alloc, line)? {
            Ok(())
        } else {
            Err(LineFault::Bad { column: 0 })
        }
    }

    fn read_item(
        &self,
        _known: &(),
        number: u32,
        line: &[u8],
        _fields: &Record,
    ) -> Result<CaseAt, LineFault> {
        let mut scratch = match self.scratch.take() {
            Some(scratch) => scratch,
            None => match new_scratch(self.alloc) {
                Ok(scratch) => scratch,
                Err(_) => return Err(LineFault::Memory),
            },
        };
        let case = read_case_with(self.alloc, &mut scratch, line);
        self.scratch.set(Some(scratch));
        match case {
            Ok(case) => Ok(CaseAt { line: number, case }),
            Err(CaseFault::Bad) => Err(LineFault::Bad { column: 0 }),
            Err(CaseFault::Memory) => Err(LineFault::Memory),
        }
    }
}
