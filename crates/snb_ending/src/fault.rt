//! What can fail outside the program's words and files.

ghost use Rattle.std.specs.Prelude.{◌≡◌, ◌<◌, ◌↔◌, ◌⊎◌, IfSome, IsNone};
ghost use Rattle.snb_ending.specs.Endings.{line_of, status_of};

/// A fault of the world around the program.
#[derive(Clone, Copy, Debug, PartialEq, Eq)]
pub enum Fault {
    /// A file couldn't be read.
    Read,
    /// A file or standard output couldn't be written.
    Write,
    /// Memory ran out.
    Memory,
}

impl Fault {
    /// The exit status.
    pub fn status(self) -> u8
        ensures { result ≡ status_of self }
    {
        match self {
            Fault::Read => 4,
            Fault::Write => 5,
            Fault::Memory => 6,
        }
    }

    /// The line on standard error, without its end.
    pub fn line(self) -> &'static str
        ensures { result.now ≡ line_of self }
    {
        match self {
            Fault::Read => "snb: read fault",
            Fault::Write => "snb: write fault",
            Fault::Memory => "snb: out of memory",
        }
    }

    /// The fault that an exit status tells of, where it tells of one.
    pub fn of_status(status: u8) -> Option<Fault>
        ensures told { IfSome result (λ fault. status_of fault ≡ status) }
        ensures none { IsNone result ↔ ((status < 4) ⊎ (6 < status)) }
    {
        match status {
            4 => Some(Fault::Read),
            5 => Some(Fault::Write),
            6 => Some(Fault::Memory),
            _ => None,
        }
    }
}
