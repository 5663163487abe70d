//! The program `snb`: `serve` of `snb_edge` on the words that it is started with, real files, standard output, standard
//! error and the system's clock.
#![tactic(auto)]

use snb_base::OpenGate;
use snb_base_host::{FolderOutbox, FolderShelf, HostClock, StandardStreams};
use snb_edge::{HostWords, serve};
use snb_ending::{Fault, HostErrorLines, ending};
use std::process::ExitCode;

fn main(rt: HostRuntime) -> ExitCode {
    let mut errors = HostErrorLines::new(&rt);
    // Where standard output may be closed, no file that is opened takes its place.
    let Ok(_held) = StandardStreams::hold(&rt) else {
        return ending(&mut errors, Fault::Write.status());
    };
    let words = HostWords::new(&rt);
    let mut shelf = FolderShelf::new(&rt);
    let mut out = FolderOutbox::new(&rt);
    let clock = HostClock::new(&rt);
    serve(
        &rt,
        &words,
        &mut errors,
        &mut shelf,
        &mut out,
        &clock,
        &OpenGate,
    )
}
