//! How the program ends.

use crate::exit::ending;
use crate::host::HostErrorLines;
use std::alloc::Global;
use std::cell::Cell;
use std::fmt::Display;
use std::io;
use std::io::Eprint;
use std::test::Fail;

// Counts what is printed, and what of it is the one line that is wanted.
#[derive(Drop)]
struct Lines<'a> {
    alloc: Global,
    wanted: &'a str,
    printed: Cell<u32>,
    matched: Cell<u32>,
}

impl<'a> Eprint for &Lines<'a> {
    fn eprint<D: Display + Drop>(&self, _value: D) -> io::Result<()> {
        self.printed.set(self.printed.get().saturating_add(1));
        Ok(())
    }

    fn eprintln<D: Display + Drop>(&self, value: D) -> io::Result<()> {
        self.printed.set(self.printed.get().saturating_add(1));
        if let Ok(line) = value.to_string(self.alloc)
            && line.as_str() == self.wanted
        {
            self.matched.set(self.matched.get().saturating_add(1));
        }
        Ok(())
    }
}

#[test]
fn prints_one_line_for_a_fault_alone(rt: HostRuntime) -> Result<(), Fail> {
    for (status, wanted, count) in [
        (0, "", 0),
        (2, "", 0),
        (3, "", 0),
        (4, "snb: read fault", 1),
        (5, "snb: write fault", 1),
        (6, "snb: out of memory", 1),
    ] {
        let lines = Lines {
            alloc: rt.alloc(),
            wanted,
            printed: Cell::new(0),
            matched: Cell::new(0),
        };
        let _ = ending(&mut HostErrorLines::new(&lines), status);
        assert_eq!(rt; lines.printed.get(), count, "at {status}");
        assert_eq!(rt; lines.matched.get(), count, "at {status}");
    }
    Ok(())
}
