//! What reaches the real world: files, standard output and the clock of the system. These are tests, as a
//! case has no files but those in memory. What becomes of a full device, a closed descriptor and a folder that
//! can't be written is tried over the whole program, by the script `descriptors`.

mod fakes;

use crate::folder_outbox::FolderOutbox;
use crate::folder_shelf::FolderShelf;
use crate::host_clock::HostClock;
use crate::standard_streams::StandardStreams;
use fakes::{Calls, FakeClock, FakeSystem};
use snb_base::{Channel, Clock, FarClock, Gate, Got, OpenGate, Outbox, Phase, Put, Shelf};
use std::alloc::{AllocError, Global};
use std::cell::Cell;
use std::fs::OpenOptions;
use std::io::{ErrorKind, Write};
use std::rt::Files;
use std::test::Fail;
use std::time::Instant;
use std::{fs, io};

// Bytes that differ from those a little before and after them.
fn many_bytes(alloc: Global, count: usize) -> Result<Vec<u8>, AllocError> {
    let mut bytes = Vec::new(alloc);
    for i in 0..count {
        bytes.push((i % 251) as u8)?;
    }
    Ok(bytes)
}

// Past the first mebibyte, at the end and past it; and what is absent, which a fault never is.
#[test]
fn reads_real_files(rt: HostRuntime) -> Result<(), Fail> {
    let name = "snb_host_shelf.tmp";
    let bytes = many_bytes(rt.alloc(), 1_100_000)?;
    fs::write(&rt, name, &bytes)?;
    let mut shelf = FolderShelf::new(rt);
    let mut right = true;
    for (at, count) in [
        (0, 300),
        (1_048_577, 300),
        (1_099_999, 1),
        (1_100_000, 0),
        (1_100_001, 0),
    ] {
        let mut into = [0u8; 300];
        let got = shelf.read(name, at, &mut into);
        let rest = bytes.get(at as usize..).unwrap_or(&[]);
        right = right && got == (Got::Took { count }) && rest.starts_with(&into[..count]);
    }
    let mut into = [0u8; 4];
    let through_file = shelf.read("snb_host_shelf.tmp/inside", 0, &mut into);
    fs::remove_file(&rt, name)?;
    let others = [
        through_file,
        shelf.read(name, 0, &mut into),
        shelf.read(".", 0, &mut into),
        shelf.read("./snb_host_inside.tmp", 0, &mut into),
    ];
    assert!(rt; right);
    assert_eq!(rt;
        others,
        [Got::Failed, Got::Absent, Got::Failed, Got::Absent]
    );
    Ok(())
}

// What becomes of a file between two reads of it.
#[derive(Clone, Copy, Debug)]
enum Change {
    Removed,
    Replaced,
    Remade,
    Grown,
    Cut,
}

// Changes the file of this name. Another text is shorter than the first one.
fn change_file(rt: &impl Files, name: &str, change: Change) -> io::Result<()> {
    match change {
        Change::Removed => fs::remove_file(rt, name),
        Change::Replaced => {
            fs::write(rt, "snb_host_other.tmp", "another")?;
            fs::rename(rt, "snb_host_other.tmp", name)
        }
        Change::Remade => {
            fs::remove_file(rt, name)?;
            fs::write(rt, name, "another")
        }
        Change::Grown => {
            let mut file = OpenOptions::new().append(true).open(rt, name)?;
            file.write_all(b" more")
        }
        // The same file, with other bytes.
        Change::Cut => fs::write(rt, name, "another"),
    }
}

// Reads a file in pieces of five bytes, from the byte `at` on up to its end. None where a read fails.
fn read_on<R: AllocGlobal + Files>(
    alloc: Global,
    shelf: &mut FolderShelf<R>,
    name: &str,
    mut at: u64,
) -> Result<Option<Vec<u8>>, AllocError> {
    let mut bytes = Vec::new(alloc);
    for _ in 0..20 {
        let mut into = [0u8; 5];
        match shelf.read(name, at, &mut into) {
            Got::Took { count: 0 } => return Ok(Some(bytes)),
            Got::Took { count } => {
                bytes.extend_from_slice(&into[..count])?;
                at = at.saturating_add(count as u64);
            }
            _ => return Ok(None),
        }
    }
    Ok(None)
}

// A file is read to its end as the one that was opened, whatever stands under its name by then. Once another name
// was asked for it is opened again.
#[test]
fn reads_one_file_to_its_end(rt: HostRuntime) -> Result<(), Fail> {
    let name = "snb_host_piece.tmp";
    let alloc = rt.alloc();
    for (change, rest, later) in [
        (Change::Removed, Some(" second third"), None),
        (Change::Replaced, Some(" second third"), Some("another")),
        (Change::Remade, Some(" second third"), Some("another")),
        (
            Change::Grown,
            Some(" second third more"),
            Some("first second third more"),
        ),
        (Change::Cut, None, Some("another")),
    ] {
        fs::write(&rt, name, "first second third")?;
        let mut shelf = FolderShelf::new(&rt);
        let mut into = [0u8; 5];
        let first = shelf.read(name, 0, &mut into);
        change_file(&rt, name, change)?;
        let second = read_on(alloc, &mut shelf, name, 5)?;
        let other = shelf.read("snb_host_no_file.tmp", 0, &mut [0u8; 5]);
        let third = read_on(alloc, &mut shelf, name, 0)?;
        // It is gone already in the first case.
        let _ = fs::remove_file(&rt, name);
        let right = first == (Got::Took { count: 5 })
            && &into == b"first"
            && second.as_deref() == rest.map(str::as_bytes)
            && other == Got::Absent
            && third.as_deref() == later.map(str::as_bytes);
        assert!(rt; right, "{change:?}");
    }
    Ok(())
}

// Where a file was cut short, all its later bytes are faults until its first one is asked for.
#[test]
fn tells_that_a_file_was_cut_short(rt: HostRuntime) -> Result<(), Fail> {
    let name = "snb_host_cut.tmp";
    fs::write(&rt, name, "first second third")?;
    let mut shelf = FolderShelf::new(&rt);
    let mut into = [0u8; 6];
    let first = shelf.read(name, 0, &mut into);
    fs::write(&rt, name, "first")?;
    let cut = shelf.read(name, 6, &mut into);
    fs::write(&rt, name, "first second third")?;
    let again = shelf.read(name, 6, &mut into);
    let past = shelf.read(name, 18, &mut into);
    let anew = shelf.read(name, 0, &mut into);
    let then = shelf.read(name, 6, &mut into);
    fs::remove_file(&rt, name)?;
    let took = Got::Took { count: 6 };
    assert_eq!(rt; [first, anew, then], [took; 3]);
    assert_eq!(rt; [cut, again, past], [Got::Failed; 3]);
    assert_eq!(rt; &into, b"second");
    Ok(())
}

// A file that is gone when it is opened again is absent at its first byte alone, and a folder in its place is a
// fault.
#[test]
fn tells_that_a_file_has_gone(rt: HostRuntime) -> Result<(), Fail> {
    let name = "snb_host_gone.tmp";
    fs::write(&rt, name, "first and second")?;
    let mut shelf = FolderShelf::new(&rt);
    let mut into = [0u8; 5];
    let first = shelf.read(name, 0, &mut into);
    fs::remove_file(&rt, name)?;
    fs::create_dir(&rt, name)?;
    let held = shelf.read(name, 5, &mut into);
    let other = shelf.read("snb_host_no_file.tmp", 0, &mut into);
    let folder = shelf.read(name, 5, &mut into);
    let folder_anew = shelf.read(name, 0, &mut into);
    fs::remove_dir(&rt, name)?;
    let later = shelf.read(name, 5, &mut into);
    let anew = shelf.read(name, 0, &mut into);
    assert_eq!(rt; [first, held], [Got::Took { count: 5 }; 2]);
    assert_eq!(rt; &into, b" and ");
    assert_eq!(rt; [other, anew], [Got::Absent; 2]);
    assert_eq!(rt; [folder, folder_anew, later], [Got::Failed; 3]);
    Ok(())
}

// Reads three bytes at most of a file, and tells how often files were opened and sought by then.
fn read_three<'a>(
    calls: &'a Calls,
    shelf: &mut FolderShelf<(FakeSystem<'a>, Global)>,
    name: &str,
    at: u64,
    answer: Result<usize, ErrorKind>,
) -> (Got, u32, u32) {
    calls.answer.set(answer);
    let mut into = [0u8; 3];
    let got = shelf.read(name, at, &mut into);
    (got, calls.opened.get(), calls.sought.get())
}

// A file of many pieces is opened once, and sought once. One that tells no length ends where it gives no byte. Another
// place is sought, and another name is opened.
#[test]
fn opens_and_seeks_once(rt: HostRuntime) -> Result<(), Fail> {
    let took = Got::Took { count: 3 };
    for length in [Some(8), None] {
        let calls = Calls::new(rt.alloc());
        calls.length.set(length);
        let mut shelf = FolderShelf::new((FakeSystem { calls: &calls }, rt.alloc()));
        let seen = [
            read_three(&calls, &mut shelf, "file", 0, Ok(3)),
            read_three(&calls, &mut shelf, "file", 3, Ok(3)),
            read_three(&calls, &mut shelf, "file", 6, Ok(2)),
            read_three(&calls, &mut shelf, "file", 8, Ok(0)),
            read_three(&calls, &mut shelf, "file", 3, Ok(3)),
            read_three(&calls, &mut shelf, "file", 6, Ok(3)),
            read_three(&calls, &mut shelf, "other", 0, Ok(3)),
            read_three(&calls, &mut shelf, "file", 0, Ok(3)),
        ];
        let wanted = [
            (took, 1, 1),
            (took, 1, 1),
            (Got::Took { count: 2 }, 1, 1),
            (Got::Took { count: 0 }, 1, 1),
            (took, 1, 2),
            (took, 1, 2),
            (took, 2, 3),
            (took, 3, 4),
        ];
        let right = seen == wanted && calls.writable.get() == 0;
        assert!(rt; right, "{length:?}");
    }
    Ok(())
}

// A read that fails is a fault at whichever piece, and so is each later one; and a file that ends before its length
// is one too. The file is opened again at its first byte alone.
#[test]
fn tells_that_a_later_read_failed(rt: HostRuntime) -> Result<(), Fail> {
    let took = Got::Took { count: 3 };
    for (answer, length, last) in [
        (Err(ErrorKind::Other), Some(9), Got::Failed),
        (Err(ErrorKind::Interrupted), None, Got::Failed),
        (Ok(0), Some(4), Got::Took { count: 0 }),
    ] {
        let calls = Calls::new(rt.alloc());
        calls.length.set(length);
        let mut shelf = FolderShelf::new((FakeSystem { calls: &calls }, rt.alloc()));
        let seen = [
            read_three(&calls, &mut shelf, "file", 0, Ok(3)),
            read_three(&calls, &mut shelf, "file", 3, answer),
            read_three(&calls, &mut shelf, "file", 3, Ok(3)),
            read_three(&calls, &mut shelf, "file", 3, Ok(0)),
            read_three(&calls, &mut shelf, "file", 9, Ok(0)),
            read_three(&calls, &mut shelf, "file", 0, Ok(3)),
            read_three(&calls, &mut shelf, "file", 3, Ok(3)),
            read_three(&calls, &mut shelf, "file", 6, answer),
        ];
        let wanted = [
            (took, 1),
            (Got::Failed, 1),
            (Got::Failed, 1),
            (Got::Failed, 1),
            (Got::Failed, 1),
            (took, 2),
            (took, 2),
            (last, 2),
        ];
        let right = seen.iter().map(|one| (one.0, one.1)).eq(wanted);
        assert!(rt; right, "{answer:?}");
    }
    Ok(())
}

// A file is absent only where it isn't found at its first byte.
#[test]
fn tells_why_a_file_cannot_be_opened(rt: HostRuntime) -> Result<(), Fail> {
    for (kind, first) in [
        (ErrorKind::NotFound, Got::Absent),
        (ErrorKind::PermissionDenied, Got::Failed),
        (ErrorKind::NotADirectory, Got::Failed),
        (ErrorKind::Other, Got::Failed),
    ] {
        let calls = Calls::new(rt.alloc());
        calls.closed.set(Some(("file", kind)));
        let mut shelf = FolderShelf::new((FakeSystem { calls: &calls }, rt.alloc()));
        let seen = [
            read_three(&calls, &mut shelf, "file", 0, Ok(3)).0,
            read_three(&calls, &mut shelf, "file", 3, Ok(3)).0,
            read_three(&calls, &mut shelf, "other", 0, Ok(3)).0,
        ];
        let right = seen == [first, Got::Failed, Got::Took { count: 3 }];
        assert!(rt; right && calls.opened.get() == 3, "{kind:?}");
    }
    Ok(())
}

// The three files of a run.
const RUN: [(Channel, &str); 3] = [
    (Channel::Log, "snb.log"),
    (Channel::Answers, "snb.answers"),
    (Channel::Final, "snb.final"),
];

// Whether the file has just these bytes.
fn has(rt: &impl Files, alloc: Global, file: &str, bytes: &str) -> bool {
    match fs::read(&(rt, alloc), file) {
        Ok(found) => found.as_slice() == bytes.as_bytes(),
        Err(_) => false,
    }
}

// The first byte of a run makes all its files anew, and the first byte of the cases theirs alone. Nothing does before,
// and a later write makes none anew that is open.
#[test]
fn makes_the_files_of_a_run_together(rt: HostRuntime) -> Result<(), Fail> {
    let cases = (Channel::Cases, "snb.cases");
    let files = [RUN[0], RUN[1], RUN[2], cases];
    for (channel, name) in files {
        for (_, file) in files {
            fs::write(&rt, file, "old bytes")?;
        }
        let mut out = FolderOutbox::new(&rt);
        let mut right = out.write(Channel::Screen, b"\n") == Put::Took { count: 1 };
        for (_, file) in files {
            right = right && has(&rt, rt.alloc(), file, "old bytes");
        }
        right = right && out.write(channel, b"xy") == (Put::Took { count: 2 });
        for (_, file) in files {
            let wanted = if file == name {
                "xy"
            } else if file == cases.1 || name == cases.1 {
                "old bytes"
            } else {
                ""
            };
            right = right && has(&rt, rt.alloc(), file, wanted);
        }
        for (each, file) in files {
            let wanted = if file == name { "xyz" } else { "z" };
            right = right && out.write(each, b"z") == (Put::Took { count: 1 });
            right = right && has(&rt, rt.alloc(), file, wanted);
            fs::remove_file(&rt, file)?;
        }
        assert!(rt; right, "{channel:?}");
    }
    Ok(())
}

// Where one of the three can't be made nothing is written, and those before it are empty. The next write makes what
// is missing, and nothing again.
#[test]
fn tells_that_a_file_of_a_run_cannot_be_made(rt: HostRuntime) -> Result<(), Fail> {
    let took = Put::Took { count: 2 };
    for (channel, _) in RUN {
        for (count, (_, file)) in [(0, RUN[0]), (1, RUN[1]), (2, RUN[2])] {
            let calls = Calls::new(rt.alloc());
            calls.answer.set(Ok(9));
            let mut out = FolderOutbox::new(FakeSystem { calls: &calls });
            let mut right = true;
            for (closed, wanted, opened, passed) in [
                (
                    Some((file, ErrorKind::PermissionDenied)),
                    Put::Failed,
                    count + 1,
                    0,
                ),
                (Some((file, ErrorKind::NotFound)), Put::Failed, count + 2, 0),
                (None, took, 5, 1),
                (None, took, 5, 2),
            ] {
                calls.closed.set(closed);
                let put = out.write(channel, b"xy");
                right = right
                    && put == wanted
                    && calls.opened.get() == opened
                    && calls.passed.get() == passed;
            }
            assert!(rt; right, "{channel:?} {count}");
        }
    }
    Ok(())
}

// Each channel, and how many files its first write makes.
const CHANNELS: [(Channel, u32); 5] = [
    (Channel::Screen, 0),
    (Channel::Log, 3),
    (Channel::Answers, 3),
    (Channel::Final, 3),
    (Channel::Cases, 1),
];

// Each call writes once, and says what came of that: a count, or a fault where an error came or no byte was
// taken. Just the bytes that are counted were written, by the first call too. A file stays open after a fault,
// since to make it anew would lose what it has.
#[test]
fn tells_what_a_write_took(rt: HostRuntime) -> Result<(), Fail> {
    for (channel, files) in CHANNELS {
        for (first, wanted) in [
            (Ok(2), b"abaabc".as_slice()),
            (Err(ErrorKind::Interrupted), b"aabc".as_slice()),
        ] {
            let calls = Calls::new(rt.alloc());
            let mut out = FolderOutbox::new(FakeSystem { calls: &calls });
            let mut right = true;
            for (count, answer) in [
                (1, first),
                (2, Ok(1)),
                (3, Ok(0)),
                (4, Err(ErrorKind::Interrupted)),
                (5, Err(ErrorKind::BrokenPipe)),
                (6, Ok(9)),
            ] {
                calls.answer.set(answer);
                let put = out.write(channel, b"abc");
                let wanted = match answer {
                    Ok(0) => Put::Failed,
                    Ok(most) => Put::Took { count: most.min(3) },
                    Err(_) => Put::Failed,
                };
                right = right
                    && put == wanted
                    && calls.passed.get() == count
                    && calls.opened.get() == files
                    && calls.writable.get() == files;
            }
            let written = calls.written.try_borrow()?;
            right = right && written.as_slice() == wanted;
            assert!(rt; right, "{channel:?}");
        }
    }
    Ok(())
}

// The three files that are held can't be written, whichever of the two is opened.
#[test]
fn holds_files_that_cannot_be_written(rt: HostRuntime) -> Result<(), Fail> {
    for (closed, opened) in [(None, 3), (Some(("/", ErrorKind::PermissionDenied)), 6)] {
        let calls = Calls::new(rt.alloc());
        calls.closed.set(closed);
        let held = StandardStreams::hold(&FakeSystem { calls: &calls });
        let right = held.is_ok() && calls.opened.get() == opened && calls.writable.get() == 0;
        assert!(rt; right, "{closed:?}");
    }
    Ok(())
}

// Only a value that threads may share can be passed.
fn may_be_shared<T: Sync>(_value: &T) -> bool {
    true
}

// Bounds on both sides by the system's own clock, which is begun before ours and read after it.
#[test]
fn counts_milliseconds(rt: HostRuntime) -> Result<(), Fail> {
    let start = Instant::now(&rt)?;
    let clock = HostClock::new(rt);
    let idle = HostClock::new(rt);
    assert!(rt; may_be_shared(&clock));
    clock.rest(&rt, 2000);
    let now = clock.now();
    // It counts from the moment at which it is first asked, not from that at which it was made.
    let first = idle.now();
    // A rest that took its moment for a span would end at 4100, and a moment that is over needs no rest.
    clock.rest(&rt, 2100);
    clock.rest(&rt, 100);
    let after = clock.now();
    let passed = start.elapsed(&rt)?.as_millis();
    assert!(rt; first < 2000, "{first}");
    assert!(rt;
        now >= 2000 && u128::from(now) <= passed,
        "{now} of {passed}"
    );
    assert!(rt; passed < 20_000, "{passed}");
    assert!(rt;
        after >= 2100 && after < now + 2000,
        "from {now} to {after}"
    );
    // Those that stand still and let everybody pass wait for nothing.
    let far = FarClock::new(7);
    far.rest(&rt, 9);
    OpenGate.pass(&rt, 0, 0, Phase::Held);
    assert_eq!(rt; far.now(), 7);
    Ok(())
}

// A rest moves the fake clock on by just its length.
#[test]
fn rests_until_a_moment_and_no_longer(rt: HostRuntime) -> Result<(), Fail> {
    let system = FakeClock {
        shown: Cell::new(Some(5000)),
        rested: Cell::new(0),
    };
    let clock = HostClock::new(&system);
    for (until, now) in [(0, 0), (300, 300), (300, 300), (100, 300), (4301, 4301)] {
        clock.rest(&rt, until);
        assert_eq!(rt; clock.now(), now, "at {until}");
        assert_eq!(rt; system.rested.get(), now, "at {until}");
    }
    Ok(())
}

// Where the clock of the system can't be read ours shows 0, and a rest still ends. It starts at the first
// moment that could be read.
#[test]
fn bears_a_clock_that_cannot_be_read(rt: HostRuntime) -> Result<(), Fail> {
    let system = FakeClock {
        shown: Cell::new(None),
        rested: Cell::new(0),
    };
    let clock = HostClock::new(&system);
    assert_eq!(rt; clock.now(), 0);
    clock.rest(&rt, 300);
    assert_eq!(rt; system.rested.get(), 300);
    for (shown, now) in [
        (Some(7000), 0),
        (Some(7040), 40),
        (None, 0),
        (Some(7050), 50),
    ] {
        system.shown.set(shown);
        assert_eq!(rt; clock.now(), now, "at {shown:?}");
    }
    Ok(())
}
