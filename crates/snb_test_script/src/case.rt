//! What has come of the cases so far.

use crate::flaw::Stop;
use std::alloc::{AllocError, Global};

/// The text that is printed of the cases, how many there are, and the one that is being played.
pub struct Cases {
    alloc: Global,
    text: String,
    /// The name of the file that is being played.
    file: String,
    /// How many cases of the file have ended, and how many of them were right.
    count: usize,
    right: usize,
    /// How many files have ended, and how many cases of all files weren't right.
    files: usize,
    differing: usize,
    /// The name of the case that is being played, once there is one.
    name: Option<String>,
    /// How the first answer differs that isn't the wanted one.
    how: Option<String>,
}

impl Drop for Cases {
    fn drop(self) {
        let Cases {
            alloc: _,
            text: _,
            file: _,
            count: _,
            right: _,
            files: _,
            differing: _,
            name: _,
            how: _,
        } = self;
    }
}

impl Cases {
    /// No case.
    pub fn new(alloc: Global) -> Cases {
        Cases {
            alloc,
            text: String::new(alloc),
            file: String::new(alloc),
            count: 0,
            right: 0,
            files: 0,
            differing: 0,
            name: None,
            how: None,
        }
    }

    /// Whether a case is being played.
    pub fn is_begun(&self) -> bool {
        self.name.is_some()
    }

    /// Whether an answer of the case was another than the wanted one.
    pub fn differs(&self) -> bool {
        self.how.is_some()
    }

    /// Keeps how an answer of the case differs.
    pub fn keep(&mut self, how: String) {
        self.how = Some(how);
    }

    /// Ends the case that is being played, if there is one: where it differs, its line is told.
    pub fn end(&mut self) -> Result<(), AllocError> {
        let name = match self.name.take() {
            Some(name) => name,
            None => return Ok(()),
        };
        self.count = self.count.saturating_add(1);
        match self.how.take() {
            Some(how) => {
                self.differing = self.differing.saturating_add(1);
                let file = self.file.as_str();
                let name = name.as_str();
                let how = how.as_str();
                write!(&mut self.text, "{file}: {name} differs: {how}\n")
            }
            None => {
                self.right = self.right.saturating_add(1);
                Ok(())
            }
        }
    }

    /// Begins a case of this name, where none is being played.
    pub fn begin(&mut self, name: &str) -> Result<(), AllocError> {
        self.name = Some(String::from_str(self.alloc, name)?);
        Ok(())
    }

    /// Begins a file of this name, of which no case is played yet.
    pub fn begin_file(&mut self, name: &str) -> Result<(), AllocError> {
        self.file = String::from_str(self.alloc, name)?;
        self.count = 0;
        self.right = 0;
        Ok(())
    }

    /// Ends the file with its last case: its line is told.
    pub fn end_file(&mut self) -> Result<(), AllocError> {
        self.end()?;
        self.files = self.files.saturating_add(1);
        let file = self.file.as_str();
        let count = self.count;
        let right = self.right;
        if right == count {
            return write!(&mut self.text, "{file}: {count} cases, all right\n");
        }
        write!(&mut self.text, "{file}: {count} cases, {right} right\n")
    }

    /// The lines of the files so far, and what is wrong with the one that is being played.
    pub fn stopped(self, stop: Stop) -> Result<String, AllocError> {
        let mut cases = self;
        let file = cases.file.as_str();
        let flaw = stop.flaw.text();
        match stop.line {
            Some(line) => write!(&mut cases.text, "{file}: line {line}: {flaw}\n")?,
            None => write!(&mut cases.text, "{file}: {flaw}\n")?,
        }
        Ok(cases.told())
    }

    /// The lines of the files, and one that counts them and the cases that differ.
    pub fn counted(self) -> Result<String, AllocError> {
        let mut cases = self;
        let files = cases.files;
        let differing = cases.differing;
        write!(&mut cases.text, "{files} files, {differing} cases differ\n")?;
        Ok(cases.told())
    }

    // The text.
    fn told(self) -> String {
        let Cases {
            alloc: _,
            text,
            file: _,
            count: _,
            right: _,
            files: _,
            differing: _,
            name: _,
            how: _,
        } = self;
        text
    }
}
