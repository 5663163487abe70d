//! What is kept of a case.

ghost use Rattle.std.specs.Prelude.{◌≤◌};

use crate::case_shelf::Long;
use crate::words::deeper;
use snb_base::{Channel, MemoryOutbox, MemoryShelf, read_number};
use snb_schema::ReadKind;
use snb_test_script::{Files, Flaw, first_word, number_of, shown_lines};
use std::alloc::Global;

// How many bytes each channel takes, where a case says nothing else.
const ROOM: usize = 200_000;

// How many it takes at most.
const MOST_ROOM: usize = 8_000_000;

// A file that is longer than what is kept of it.
struct LongFile {
    name: String,
    ends: u64,
    line: Vec<u8>,
}

impl Drop for LongFile {
    fn drop(self) {
        let LongFile {
            name: _,
            ends: _,
            line: _,
        } = self;
    }
}

// Each channel and its name, in the order in which an answer names them.
fn channels() -> [(Channel, &'static str); 5] {
    [
        (Channel::Log, "log"),
        (Channel::Answers, "answers"),
        (Channel::Final, "final"),
        (Channel::Screen, "screen"),
        (Channel::Cases, "cases"),
    ]
}

/// The channel of this name.
pub(crate) fn channel_of(name: &str) -> Option<Channel> {
    for (channel, other) in channels() {
        if other == name {
            return Some(channel);
        }
    }
    None
}

/// What a case says of its calls, and what came of the last one.
pub struct State {
    alloc: Global,
    /// The shelf is one that never fails.
    pub steady: bool,
    /// The shelf has each file at its first read alone.
    pub fading: bool,
    /// The file that goes on with a line, again and again.
    long: Option<LongFile>,
    /// In how many folders more the files stand than their names say, each of the name `d`.
    pub depth: usize,
    /// The moments that the clock shows.
    pub moments: Vec<u64>,
    /// The calls of `read` and of `write` that fail, numbered from 0.
    failing_reads: Vec<u64>,
    failing_writes: Vec<u64>,
    /// Rooms of channels, of which the last of a channel counts.
    rooms: Vec<(Channel, usize)>,
    /// The kinds of reads that have a handler; None where all have.
    kinds: Option<Vec<ReadKind>>,
    /// The words of the last call.
    pub words: Vec<String>,
    /// How often a handler was asked in it.
    pub asked: u64,
    /// How often the policy was.
    pub picked: u64,
    /// The policy picks the last target, and not by the word.
    pub last: bool,
    came: Option<MemoryOutbox>,
    pub story: String,
    /// The channels whose bytes came and aren't asked for yet.
    untold: Vec<Channel>,
}

impl Drop for State {
    fn drop(self) {
        let State {
            alloc: _,
            steady: _,
            fading: _,
            long: _,
            depth: _,
            moments: _,
            failing_reads: _,
            failing_writes: _,
            rooms: _,
            kinds: _,
            words: _,
            asked: _,
            picked: _,
            last: _,
            came: _,
            story: _,
            untold: _,
        } = self;
    }
}

impl State {
    /// As a case begins: nothing fails, the clock shows 0, and each kind of read has a handler.
    pub fn new(alloc: Global) -> State {
        State {
            alloc,
            steady: false,
            fading: false,
            long: None,
            depth: 0,
            moments: Vec::new(alloc),
            failing_reads: Vec::new(alloc),
            failing_writes: Vec::new(alloc),
            rooms: Vec::new(alloc),
            kinds: None,
            words: Vec::new(alloc),
            asked: 0,
            picked: 0,
            last: false,
            came: None,
            story: String::new(alloc),
            untold: Vec::new(alloc),
        }
    }

    /// Refuses a case that doesn't ask for all bytes that came.
    pub fn end(&self) -> Result<(), Flaw> {
        if self.untold.is_empty() {
            return Ok(());
        }
        Err(Flaw::Untold)
    }

    // `clock N N ..`
    fn set_moments(&mut self, rest: &str) -> Result<(), Flaw> {
        self.moments.clear();
        for moment in rest.split(' ') {
            self.moments.push(number_of(moment)?)?;
        }
        Ok(())
    }

    // `long NAME BYTES WIDTH LINE`
    fn set_long(&mut self, rest: &str) -> Result<(), Flaw> {
        let (name, rest) = first_word(rest);
        let (ends, rest) = first_word(rest);
        let (width, text) = first_word(rest);
        let ends = number_of(ends)?;
        let width = number_of(width)?;
        let mut line = Vec::from_slice(self.alloc, text.as_bytes())?;
        for _ in text.len() as u64 + 1..width {
            line.push(b' ')?;
        }
        line.push(b'\n')?;
        let name = String::from_str(self.alloc, name)?;
        self.long = Some(LongFile { name, ends, line });
        Ok(())
    }

    /// The long file, if there is one, and how much of it is kept.
    pub fn long(&self, files: &Files) -> Result<Option<Long>, Flaw> {
        let Some(long) = &self.long else {
            return Ok(None);
        };
        Ok(Some(Long {
            name: long.name.clone()?,
            kept: files.bytes(long.name.as_str())?.len() as u64,
            ends: long.ends,
            line: long.line.clone()?,
        }))
    }

    // `table KIND KIND ..`
    fn set_kinds(&mut self, rest: &str) -> Result<(), Flaw> {
        let mut kinds = Vec::new(self.alloc);
        for word in rest.split(' ') {
            kinds.push(ReadKind::of_word(word).ok_or(Flaw::NoName)?)?;
        }
        self.kinds = Some(kinds);
        Ok(())
    }

    /// Whether a kind of read has a handler.
    pub fn has_handler(&self, kind: ReadKind) -> bool {
        match &self.kinds {
            Some(kinds) => kinds.iter().any(|one| one.word() == kind.word()),
            None => true,
        }
    }

    /// Sets what the line says; whether it says anything of this.
    pub(crate) fn set(&mut self, word: &str, rest: &str) -> Result<bool, Flaw> {
        match (word, first_word(rest)) {
            ("clock", _) => self.set_moments(rest)?,
            ("table", _) => self.set_kinds(rest)?,
            ("fail", ("read", call)) => self.failing_reads.push(number_of(call)?)?,
            ("fail", ("write", call)) => self.failing_writes.push(number_of(call)?)?,
            ("room", (name, room)) => {
                let channel = channel_of(name).ok_or(Flaw::NoName)?;
                let room = read_number(room.as_bytes(), MOST_ROOM as u64).ok_or(Flaw::NoNumber)?;
                self.rooms.push((channel, room as usize))?;
            }
            ("long", _) => self.set_long(rest)?,
            ("depth", _) => self.depth = number_of(rest)? as usize,
            ("policy", ("last", "")) => self.last = true,
            ("steady", ("", _)) => self.steady = true,
            ("fading", ("", _)) => self.fading = true,
            _ => return Ok(false),
        }
        Ok(true)
    }

    /// A shelf with the files, on which the listed calls of `read` fail, numbered from here on.
    pub fn shelf(&self, files: &Files) -> Result<MemoryShelf, Flaw> {
        let mut shelf = files.on_shelf(self.alloc, deeper(self.alloc, self.depth, "")?.as_str())?;
        let made = files.count() as u64;
        for call in &self.failing_reads {
            shelf.fail_at(call.saturating_add(made))?;
        }
        Ok(shelf)
    }

    // The room of a channel.
    fn room(&self, channel: Channel) -> usize
        ensures { result ≤ 8000000 }
    {
        let mut room = ROOM;
        for (named, count) in &self.rooms {
            if *named == channel {
                room = *count;
            }
        }
        room.min(MOST_ROOM)
    }

    /// An empty outbox with the rooms, on which the listed calls of `write` fail.
    pub fn outbox(&self) -> Result<MemoryOutbox, Flaw> {
        let mut out = MemoryOutbox::new(self.alloc, MOST_ROOM)?;
        out.limit(Channel::Log, self.room(Channel::Log));
        out.limit(Channel::Answers, self.room(Channel::Answers));
        out.limit(Channel::Final, self.room(Channel::Final));
        out.limit(Channel::Screen, self.room(Channel::Screen));
        out.limit(Channel::Cases, self.room(Channel::Cases));
        for call in &self.failing_writes {
            out.fail_at(*call)?;
        }
        Ok(out)
    }

    /// Keeps what came. Tells the status and which channels have bytes, or the status and the line that came,
    /// where that is all and on the screen.
    pub fn keep(&mut self, status: u8, out: MemoryOutbox) -> Result<String, Flaw> {
        let mut text = format!(in self.alloc; "{status}")?;
        for (channel, name) in channels() {
            if !out.bytes(channel).is_empty() {
                write!(&mut text, " {name}")?;
                self.untold.push(channel)?;
            }
        }
        let screen = shown_lines(self.alloc, out.bytes(Channel::Screen))?;
        let is_screen = self.untold.len() == 1 && self.untold[0] == Channel::Screen;
        if is_screen && !screen.contains('\n') {
            self.untold.clear();
            let line = screen.as_str();
            text = format!(in self.alloc; "{status}: {line}")?;
        }
        self.came = Some(out);
        Ok(text)
    }

    /// The bytes on the channel, for which the case asks.
    pub fn bytes(&mut self, channel: Channel) -> Result<&[u8], Flaw> {
        self.untold.retain(|other| *other != channel);
        match &self.came {
            Some(out) => Ok(out.bytes(channel)),
            None => Err(Flaw::NoCall),
        }
    }

    /// The lines on the channel.
    pub fn lines(&mut self, channel: Channel) -> Result<String, Flaw> {
        let alloc = self.alloc;
        Ok(shown_lines(alloc, self.bytes(channel)?)?)
    }
}
