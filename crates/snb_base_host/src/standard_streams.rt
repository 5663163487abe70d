//! The descriptors of standard input, standard output and standard error.

use std::fs::File;
use std::io;
use std::rt::Files;

// What is opened where a descriptor may be missing: a folder that each system has and, where it may not be
// read, the null device. Opened for reading, neither can be written.
const ROOT: &str = "/";

const NULL: &str = "/dev/null";

// One of the two, opened for reading.
fn open_for_reading<R: Files>(rt: &R) -> io::Result<R::File> {
    match File::open(rt, ROOT) {
        Ok(file) => Ok(file),
        Err(_) => File::open(rt, NULL),
    }
}

/// Three open files, of which nobody reads and to which nobody can write.
///
/// POSIX gives a file that is opened the lowest descriptor that is free. So a program that was started with
/// standard output closed would open its first file as descriptor 1, and all that it shows would go there.
/// While these are held no other file gets one of the descriptors 0, 1 and 2; and to write to one of them
/// that was closed fails, as it would if it were closed still.
#[derive(Drop)]
pub struct StandardStreams<F> {
    first: F,
    second: F,
    third: F,
}

impl<F> StandardStreams<F> {
    /// Opens the three. To be called before anything else is opened, and held until nothing more is.
    ///
    /// An error means that so many files can't be opened: then it isn't known whether standard output is
    /// open, and nothing may be written.
    pub fn hold<R: Files<File = F>>(rt: &R) -> io::Result<StandardStreams<F>>
    where
        F: Drop,
    {
        let first = open_for_reading(rt)?;
        let second = open_for_reading(rt)?;
        let third = open_for_reading(rt)?;
        Ok(StandardStreams {
            first,
            second,
            third,
        })
    }
}
