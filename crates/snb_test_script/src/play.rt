//! A script is played, line by line.

use crate::answer::{Answered, Form, form_of, wanted_line};
use crate::case::Cases;
use crate::escape::shown_lines;
use crate::files::Files;
use crate::flaw::{Flaw, Stop};
use crate::words::first_word;
use std::alloc::{AllocError, Global};

/// What a line of a script asks of whoever plays it. The calls stand in crates above this one.
pub enum Step<'a> {
    /// Nothing: the line is carried out.
    Nothing,
    /// To begin a case of this name.
    Case { name: &'a str },
    /// To make the call of this word.
    Call { word: &'a str, rest: &'a str },
}

/// What is printed of a script.
pub struct Report {
    /// A line for each file and for each case that differs, and one that counts them, or one that names what is
    /// wrong with a file.
    pub text: String,
    /// Whether each line of each file was carried out.
    pub is_whole: bool,
}

impl Drop for Report {
    fn drop(self) {
        let Report {
            text: _,
            is_whole: _,
        } = self;
    }
}

/// How far a script is played, whose files follow one another. A case is played up to the first answer that isn't
/// the wanted one; its lines about files are carried out all the same.
pub struct Player {
    alloc: Global,
    files: Files,
    cases: Cases,
    /// The call above, until all is read that must come of it.
    answered: Option<Answered>,
}

impl Drop for Player {
    fn drop(self) {
        let Player {
            alloc: _,
            files: _,
            cases: _,
            answered: _,
        } = self;
    }
}

// Whether the line says nothing.
fn is_silent(text: &str) -> bool {
    text.is_empty() || text.starts_with('#')
}

impl Player {
    /// Nothing is played yet.
    pub fn new(alloc: Global) -> Player {
        Player {
            alloc,
            files: Files::new(alloc),
            cases: Cases::new(alloc),
            answered: None,
        }
    }

    /// Begins a file of the script, of this name.
    pub fn begin_file(&mut self, name: &str) -> Result<(), AllocError> {
        self.cases.begin_file(name)
    }

    /// The files as they are.
    pub fn files(&self) -> &Files {
        &self.files
    }

    /// Whether a case is being played, and each answer of it was the wanted one.
    pub fn is_right(&self) -> bool {
        self.cases.is_begun() && !self.cases.differs()
    }

    // Adds a line to what must come of the call above.
    fn add_wanted(&mut self, line: &str) -> Result<(), Flaw> {
        if self.cases.differs() {
            return Ok(());
        }
        match &mut self.answered {
            Some(answered) => Ok(answered.add_wanted(self.alloc, line)?),
            None => Err(Flaw::NoCall),
        }
    }

    /// Looks whether what came of the call above is what must come.
    pub fn settle(&mut self) -> Result<(), Flaw> {
        let answered = match self.answered.take() {
            Some(answered) => answered,
            None => return Ok(()),
        };
        if let Some(how) = answered.difference(self.alloc)? {
            self.cases.keep(how);
        }
        Ok(())
    }

    // The call of a line, unless the case differs already.
    fn step_of<'a>(&self, text: &'a str) -> Result<Step<'a>, Flaw> {
        if !self.cases.is_begun() {
            return Err(Flaw::NoCase);
        }
        if self.cases.differs() {
            return Ok(Step::Nothing);
        }
        let (word, rest) = first_word(form_of(text).call());
        Ok(Step::Call { word, rest })
    }

    /// Carries out a line, as far as it can be without a call, and tells what it asks for.
    pub fn take_line<'a>(&mut self, text: &'a str) -> Result<Step<'a>, Flaw> {
        if let Some(wanted) = wanted_line(text) {
            self.add_wanted(wanted)?;
            return Ok(Step::Nothing);
        }
        self.settle()?;
        if is_silent(text) {
            return Ok(Step::Nothing);
        }
        let (word, rest) = first_word(text);
        if word == "case" {
            return Ok(Step::Case { name: rest });
        }
        match self.files.take_line(word, rest) {
            Some(Ok(())) => Ok(Step::Nothing),
            Some(Err(flaw)) => Err(flaw),
            None => self.step_of(text),
        }
    }

    /// Begins a case, after the one that is being played.
    pub fn begin(&mut self, name: &str) -> Result<(), Flaw> {
        if name.is_empty() {
            return Err(Flaw::NoName);
        }
        self.cases.end()?;
        self.cases.begin(name)?;
        self.files.begin_case(name)
    }

    // Keeps the answer of a call, which is compared with what must come.
    fn keep_answer(
        &mut self,
        line: usize,
        call: &str,
        came: String,
        wanted: Option<&str>,
    ) -> Result<(), Flaw> {
        let mut answered = Answered::new(self.alloc, line, call, came)?;
        if let Some(wanted) = wanted {
            answered.add_wanted(self.alloc, wanted)?;
        }
        self.answered = Some(answered);
        Ok(())
    }

    /// Takes what the call of a line answered; None says that there is no such call.
    pub fn take_answer(
        &mut self,
        line: usize,
        text: &str,
        came: Option<String>,
    ) -> Result<(), Flaw> {
        let came = came.ok_or(Flaw::NoWord)?;
        match form_of(text) {
            Form::Bare { .. } => {
                if came.is_empty() {
                    return Ok(());
                }
                Err(Flaw::NothingWanted)
            }
            Form::Below { call } => self.keep_answer(line, call, came, None),
            Form::Line { call, wanted } => self.keep_answer(line, call, came, Some(wanted)),
            Form::Same { call, file } => {
                let wanted = shown_lines(self.alloc, self.files.bytes(file)?)?;
                self.keep_answer(line, call, came, Some(wanted.as_str()))
            }
        }
    }

    /// Ends the file of the script, with its last case.
    pub fn end_file(&mut self) -> Result<(), AllocError> {
        self.cases.end_file()?;
        self.files.end_case()
    }

    // The cases.
    fn cases(self) -> Cases {
        let Player {
            alloc: _,
            files: _,
            cases,
            answered: _,
        } = self;
        cases
    }

    /// What is to be printed of the script, which ended like this.
    pub fn report(self, ending: Result<(), Stop>) -> Result<Report, AllocError> {
        let is_whole = ending.is_ok();
        let text = match ending {
            Ok(()) => self.cases().counted()?,
            Err(stop) => self.cases().stopped(stop)?,
        };
        Ok(Report { text, is_whole })
    }
}
