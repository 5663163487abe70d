//! Plays the files of cases that its words name, one after another: makes the calls of each case, and prints of each
//! file in how many cases each call answered what the file wants. `data/README.md` of this crate has the form of
//! these files.
#![tactic(auto)]

mod calls;

use snb_test_script::{Files, Flaw, Player, Step, Stop};
use std::alloc::Global;
use std::env::Env;
use std::process::ExitCode;
use std::rt::Files as RealFiles;
use std::sync::Wait;
use std::thread::Threads;
use std::{env, fs, io};

// What the calls of a case are made on, for each crate of calls that keeps something.
struct Every {
    whole: snb_test_whole::State,
    data: snb_test_data::State,
    book: snb_test_book::State,
}

impl Drop for Every {
    fn drop(self) {
        let Every {
            whole: _,
            data: _,
            book: _,
        } = self;
    }
}

impl Every {
    // As a case begins.
    fn new(alloc: Global) -> Every {
        Every {
            whole: snb_test_whole::State::new(alloc),
            data: snb_test_data::State::new(alloc),
            book: snb_test_book::State::new(),
        }
    }

    // Makes the call that begins with this word, over the files as they are, and tells what it answers; None where
    // there is no such call. A further crate of calls is asked here, after the others.
    fn answer<R: AllocGlobal + Threads + Wait + Sync>(
        &mut self,
        rt: &R,
        alloc: Global,
        files: &Files,
        word: &str,
        rest: &str,
    ) -> Result<Option<String>, Flaw> {
        if let Some(answer) = calls::answer(rt, alloc, &mut self.whole, files, word, rest)? {
            return Ok(Some(answer));
        }
        if let Some(answer) = snb_test_whole::answer(alloc, &mut self.whole, word, rest)? {
            return Ok(Some(answer));
        }
        if let Some(answer) = snb_test_data::answer(alloc, &mut self.data, files, word, rest)? {
            return Ok(Some(answer));
        }
        if let Some(answer) = snb_test_readers::answer(alloc, files, word, rest)? {
            return Ok(Some(answer));
        }
        if let Some(answer) = snb_test_handlers::answer(alloc, files, word, rest)? {
            return Ok(Some(answer));
        }
        if let Some(answer) = snb_test_book::answer(alloc, &mut self.book, files, word, rest)? {
            return Ok(Some(answer));
        }
        if let Some(answer) = snb_test_board::answer(rt, alloc, &self.book, word, rest)? {
            return Ok(Some(answer));
        }
        snb_test_workers::answer(rt, alloc, files, word, rest)
    }
}

// Refuses a case of which something came that it doesn't ask for.
fn look_at_end(every: &Every, player: &Player) -> Result<(), Flaw> {
    if player.is_right() {
        return every.whole.end();
    }
    Ok(())
}

// Carries out a line of a file.
fn take_line<R: AllocGlobal + Threads + Wait + Sync>(
    rt: &R,
    every: &mut Every,
    player: &mut Player,
    line: usize,
    text: &str,
) -> Result<(), Flaw> {
    match player.take_line(text)? {
        Step::Nothing => Ok(()),
        Step::Case { name } => {
            look_at_end(every, player)?;
            *every = Every::new(rt.alloc());
            player.begin(name)
        }
        Step::Call { word, rest } => {
            let came = every.answer(rt, rt.alloc(), player.files(), word, rest)?;
            player.take_answer(line, text, came)
        }
    }
}

// Ends a file.
fn end(every: &Every, player: &mut Player) -> Result<(), Flaw> {
    player.settle()?;
    look_at_end(every, player)?;
    Ok(player.end_file()?)
}

// Carries out the lines of a file, up to the first one that can't be.
fn take_lines<R: AllocGlobal + Threads + Wait + Sync>(
    rt: &R,
    player: &mut Player,
    text: &str,
) -> Result<(), Stop> {
    let mut every = Every::new(rt.alloc());
    let mut number: usize = 0;
    for line in text.split('\n') {
        number = number.saturating_add(1);
        if let Err(flaw) = take_line(rt, &mut every, player, number, line) {
            return Err(Stop {
                line: Some(number),
                flaw,
            });
        }
    }
    match end(&every, player) {
        Ok(()) => Ok(()),
        Err(flaw) => Err(Stop {
            line: Some(number),
            flaw,
        }),
    }
}

// Begins the file of this name: its text.
fn text_of<R: AllocGlobal + RealFiles>(
    rt: &R,
    player: &mut Player,
    name: &str,
) -> Result<String, Flaw> {
    player.begin_file(name)?;
    match fs::read_to_string(rt, name) {
        Ok(text) => Ok(text),
        Err(_) => Err(Flaw::ReadFault),
    }
}

// Plays the file of this name.
fn play_file<R: AllocGlobal + RealFiles + Threads + Wait + Sync>(
    rt: &R,
    player: &mut Player,
    name: &str,
) -> Result<(), Stop> {
    match text_of(rt, player, name) {
        Ok(text) => take_lines(rt, player, text.as_str()),
        Err(flaw) => Err(Stop { line: None, flaw }),
    }
}

// Plays the files that the program's words name, up to the first line that can't be carried out. An error says that
// the words couldn't be read.
fn play_files<R: AllocGlobal + Env + RealFiles + Threads + Wait + Sync>(
    rt: &R,
    player: &mut Player,
) -> io::Result<Result<(), Stop>> {
    for name in env::args(rt)?.skip(1) {
        if let Err(stop) = play_file(rt, player, name.as_str()) {
            return Ok(Err(stop));
        }
    }
    Ok(Ok(()))
}

// Plays the files, and prints what came of them. Tells whether each line was carried out.
fn play<R: AllocGlobal + Env + RealFiles + Print + Threads + Wait + Sync>(
    rt: &R,
) -> io::Result<bool> {
    let mut player = Player::new(rt.alloc());
    let ending = play_files(rt, &mut player)?;
    let report = player.report(ending)?;
    let text = report.text.as_str();
    print!(rt; "{text}")?;
    Ok(report.is_whole)
}

fn main(rt: HostRuntime) -> ExitCode {
    match play(&rt) {
        Ok(true) => ExitCode::from(0),
        Ok(false) => ExitCode::from(1),
        Err(_) => ExitCode::from(1),
    }
}
