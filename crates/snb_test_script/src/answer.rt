//! What must come of a call, and how what came differs from it.

use crate::flaw::Flaw;
use std::alloc::{AllocError, Global};

/// A call as it stands in a line, with what the line says of its answer.
#[derive(Clone, Copy)]
pub enum Form<'a> {
    /// Nothing: the answer must be empty.
    Bare { call: &'a str },
    /// The lines below it say what must come.
    Below { call: &'a str },
    /// This must come.
    Line { call: &'a str, wanted: &'a str },
    /// What the file of this name has must come.
    Same { call: &'a str, file: &'a str },
}

impl<'a> Form<'a> {
    /// The call.
    pub fn call(self) -> &'a str {
        match self {
            Form::Bare { call } => call,
            Form::Below { call } => call,
            Form::Line { call, .. } => call,
            Form::Same { call, .. } => call,
        }
    }
}

/// How the line is to be read.
pub fn form_of(text: &str) -> Form<'_> {
    if let Some((call, wanted)) = text.split_once(" => ") {
        return Form::Line { call, wanted };
    }
    if let Some(call) = text.strip_suffix(" =>") {
        return Form::Below { call };
    }
    match text.split_once(" = ") {
        Some((call, file)) => Form::Same { call, file },
        None => Form::Bare { call: text },
    }
}

/// The line of an answer that the line of the script is.
pub fn wanted_line(text: &str) -> Option<&str> {
    if text == "|" {
        return Some("");
    }
    text.strip_prefix("| ")
}

/// A call that is made, what came of it, and what must come.
pub struct Answered {
    /// The line of the call.
    line: usize,
    call: String,
    came: String,
    /// None until the first line of it stands.
    wanted: Option<String>,
}

impl Drop for Answered {
    fn drop(self) {
        let Answered {
            line: _,
            call: _,
            came: _,
            wanted: _,
        } = self;
    }
}

// A line as a difference shows it.
fn line_shown(line: Option<&str>) -> &str {
    match line {
        Some(line) => line,
        None => "no line",
    }
}

// How the lines of this number differ.
fn lines_differ(
    alloc: Global,
    number: usize,
    wanted: Option<&str>,
    came: Option<&str>,
) -> Result<String, AllocError> {
    let wanted = line_shown(wanted);
    let came = line_shown(came);
    format!(in alloc; "line {number} of the answer: wanted {wanted}, came {came}")
}

// How the first lines that aren't the same differ, of two texts that aren't.
fn first_difference(alloc: Global, wanted: &str, came: &str) -> Result<String, AllocError> {
    let mut lines = wanted.split('\n');
    let mut number: usize = 1;
    for came in came.split('\n') {
        let wanted = lines.next();
        if wanted != Some(came) {
            return lines_differ(alloc, number, wanted, Some(came));
        }
        number = number.saturating_add(1);
    }
    lines_differ(alloc, number, lines.next(), None)
}

impl Answered {
    /// A call whose wanted answer isn't read yet.
    pub fn new(
        alloc: Global,
        line: usize,
        call: &str,
        came: String,
    ) -> Result<Answered, AllocError> {
        let call = String::from_str(alloc, call)?;
        Ok(Answered {
            line,
            call,
            came,
            wanted: None,
        })
    }

    /// Adds a line to what must come.
    pub fn add_wanted(&mut self, alloc: Global, line: &str) -> Result<(), AllocError> {
        match &mut self.wanted {
            Some(wanted) => {
                wanted.push('\n')?;
                wanted.push_str(line)
            }
            None => {
                self.wanted = Some(String::from_str(alloc, line)?);
                Ok(())
            }
        }
    }

    // What must come; nothing where no line of it stands.
    fn wanted_text(&self) -> &str {
        match &self.wanted {
            Some(wanted) => wanted.as_str(),
            None => "",
        }
    }

    /// How what came differs from what must come.
    pub fn difference(&self, alloc: Global) -> Result<Option<String>, Flaw> {
        let wanted = self.wanted_text();
        let came = self.came.as_str();
        if wanted == came {
            return Ok(None);
        }
        let line = self.line;
        let call = self.call.as_str();
        if !wanted.contains('\n') && !came.contains('\n') {
            let how = format!(in alloc; "line {line}, {call}: wanted {wanted}, came {came}")?;
            return Ok(Some(how));
        }
        let how = first_difference(alloc, wanted, came)?;
        let how = how.as_str();
        Ok(Some(format!(in alloc; "line {line}, {call}: {how}")?))
    }
}
