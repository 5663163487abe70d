//! The standard error of the system.

ghost use Rattle.std.specs.Prelude.{None};

use crate::error_lines::ErrorLines;
use std::io::Eprint;

/// Standard error. It doesn't tell what it was given.
#[derive(Drop)]
pub struct HostErrorLines<R> {
    rt: R,
}

impl<R: Eprint> HostErrorLines<R> {
    /// The standard error that the runtime reaches.
    pub fn new(rt: R) -> HostErrorLines<R> {
        HostErrorLines { rt }
    }
}

impl<R: Eprint> ErrorLines for HostErrorLines<R> {
    ghost given = { λ _. None };

    fn show(&mut self, line: &str) {
        // Where standard error fails too, the status still tells.
        let _ = eprintln!(self.rt; "{line}");
    }
}
