//! Answers as texts.

use crate::flaw::Flaw;
use std::alloc::{AllocError, Global};

// What a list without items and an absent value are told as.
const NONE: &str = "none";

/// A word as an answer.
pub fn told(alloc: Global, word: &str) -> Result<String, Flaw> {
    Ok(String::from_str(alloc, word)?)
}

/// Whether something is so.
pub fn told_whether(alloc: Global, is: bool) -> Result<String, Flaw> {
    told(alloc, if is { "yes" } else { "no" })
}

/// A number.
pub fn told_number(alloc: Global, number: u64) -> Result<String, Flaw> {
    Ok(format!(in alloc; "{number}")?)
}

/// A list that is told item by item.
pub struct List {
    text: String,
}

impl Drop for List {
    fn drop(self) {
        let List { text: _ } = self;
    }
}

impl List {
    /// Without items.
    pub fn new(alloc: Global) -> List {
        List {
            text: String::new(alloc),
        }
    }

    /// Adds an item.
    pub fn add(&mut self, item: &str) -> Result<(), AllocError> {
        if !self.text.is_empty() {
            self.text.push_str(", ")?;
        }
        self.text.push_str(item)
    }

    /// The items, with a comma and a space between two; `none` where there is none.
    pub fn told(self, alloc: Global) -> Result<String, Flaw> {
        let List { text } = self;
        if text.is_empty() {
            return told(alloc, NONE);
        }
        Ok(text)
    }
}

/// An answer of several lines, told line by line.
pub struct Lines {
    text: String,
    begun: bool,
}

impl Drop for Lines {
    fn drop(self) {
        let Lines { text: _, begun: _ } = self;
    }
}

impl Lines {
    /// Without lines.
    pub fn new(alloc: Global) -> Lines {
        Lines {
            text: String::new(alloc),
            begun: false,
        }
    }

    /// Adds a line, which has no line end of its own.
    pub fn add(&mut self, line: &str) -> Result<(), AllocError> {
        if self.begun {
            self.text.push('\n')?;
        }
        self.begun = true;
        self.text.push_str(line)
    }

    /// The lines, with a line end between two.
    pub fn told(self) -> String {
        let Lines { text, begun: _ } = self;
        text
    }
}
