//! What takes the events of a log.

ghost use Rattle.std.specs.Prelude.{◌≡◌, []};
ghost use Rattle.snb_input_files.specs.Format.{Lawful};
ghost use Rattle.snb_audit_model.specs.LogFiles.{IsLogFileSink, log_format};

use snb_history::Logged;
use snb_input_files::FileSink;
use snb_input_lines::Sink;
use snb_runlog::{LogLines, event_or_column, log_is_exact};
use snb_schema::{Fault, FileId, Refusal};
use std::alloc::{AllocError, Global};
use std::marker::Model;

/// Takes the events of a log in order, with their counts.
pub(crate) struct LogFileSink {
    alloc: Global,
    logged: Vec<Logged>,
}

impl Drop for LogFileSink {
    fn drop(self) {
        let LogFileSink {
            alloc: _,
            logged: _,
        } = self;
    }
}

impl Model for LogFileSink {
    ghost use Rattle.std.specs.Prelude.{List};
    ghost use Rattle.snb_history.specs.declared.logged.Logged.{Logged as AnyLogged};

    ghost Value = { List AnyLogged };

    ghost view = { λ s. s.logged.items };
}

impl LogFileSink {
    /// No events. Takes no memory.
    pub(crate) fn new(alloc: Global) -> LogFileSink
        ensures { result ≡ [] }
    {
        LogFileSink {
            alloc,
            logged: Vec::new(alloc),
        }
    }

    /// The events with their counts.
    pub(crate) fn into_logged(self) -> Vec<Logged>
        ensures { result.items ≡ self }
    {
        let LogFileSink { alloc: _, logged } = self;
        logged
    }
}

/// The sink is one of the file of a log. A line says one thing at most, and is refused in one way at
/// most.
pub(crate) fn log_is_lawful()
    ensures lawful { Lawful log_format }
    ensures right { IsLogFileSink }
{
    log_is_exact();
    event_or_column();
}

impl Sink<Logged> for LogFileSink {
    ghost use Rattle.std.specs.Prelude.{refl};
    ghost use Rattle.snb_audit_model.specs.LogFiles.{log_sink};

    ghost meaning = { log_sink };

    fn put(&mut self, _file: FileId, item: Logged) -> Result<(), Fault> {
        self.logged.push(item)?;
        Ok(())
    }

    fn at_end(&self, _file: FileId) -> Option<Refusal> {
        None
    }

    fn next_file(&mut self) -> Result<(), AllocError> {
        self.logged = Vec::new(self.alloc);
        Ok(())
    }

    ghost same_self = { λ _. refl };
}

impl FileSink<LogLines> for LogFileSink {
    ghost use Rattle.snb_input_files.specs.Format.{stage_by};
    ghost use Rattle.snb_audit_model.specs.LogFiles.{HasHeard, log_rules};

    ghost stage = { stage_by (λ file. record {}) log_rules HasHeard };

    fn grammar(&self, _file: FileId) -> LogLines {
        LogLines {}
    }

    fn most(&self) -> Option<u64> {
        None
    }
}
