//! The program `boxsum`.
//!
//! `main` holds the places of the standard streams, makes the devices, hands the words on to `run_two` of the library, whose contract says
//! all that the program promises, prints the text of the status and ends with its number.
#![tactic(auto)]

ghost use Rattle.std.specs.Prelude.{◌≡◌};
ghost use Rattle.std.specs.Process.{exit_status};
ghost use Rattle.boxsum.specs.Statuses.{exit_code};

mod places;
mod words;

use crate::places::hold_places;
use crate::words::{is_for_spans, spans_begin_so, words_behind};
use boxsum::{Status, run_two};
use page_disk::{Failure, FileDisk};
use ports::{StdSink, StdSource};
use std::env;
use std::process::ExitCode;

/// The files to which `compact` writes.
const COMPACT_PAGES: &str = "boxsum.compact.pages";

const COMPACT_JOURNAL: &str = "boxsum.compact.journal";

/// The files of the spans.
const SPANS_PAGES: &str = "boxsum.spans.pages";

const SPANS_JOURNAL: &str = "boxsum.spans.journal";

fn main(rt: HostRuntime) -> ExitCode {
    let held = hold_places(&rt);
    let (status, failure) = match &held {
        Ok(_) => run_program(&rt),
        // The system has no place for three files.
        Err(_) => (Status::NoMemory, None),
    };
    if status != Status::Fine {
        // A text that standard error does not take is not worth another status.
        let _ = eprintln!(rt; "boxsum: {status}");
    }
    if let (Status::DiskFault, Some(failure)) = (status, failure) {
        let _ = eprintln!(rt; "boxsum: {failure}");
    }
    ending(status)
}

// How the process ends: with the number of the status.
fn ending(status: Status) -> ExitCode
    ensures { exit_status result ≡ exit_code status }
{
    ExitCode::from(status.code())
}

// Reads the words and makes the devices. Arguments that cannot be read are no command. Answers the last
// call on a file that failed as well, if one did.
fn run_program(rt: &HostRuntime) -> (Status, Option<Failure>) {
    let Ok(args) = env::args(rt) else {
        return (Status::Usage, None);
    };
    let Some(words) = words_behind(rt.alloc(), args) else {
        return (Status::NoMemory, None);
    };
    let Ok(files) = rt.clone() else {
        return (Status::NoMemory, None);
    };
    let Ok(more_files) = rt.clone() else {
        return (Status::NoMemory, None);
    };
    // The files are opened, and made where absent, at the first call on a disk.
    let disk = FileDisk::new(rt.alloc(), files);
    // The first word tells which files the command works on.
    spans_begin_so();
    let second = if is_for_spans(words.as_slice()) {
        FileDisk::named(rt.alloc(), more_files, SPANS_PAGES, SPANS_JOURNAL)
    } else {
        FileDisk::named(rt.alloc(), more_files, COMPACT_PAGES, COMPACT_JOURNAL)
    };
    let mut source = StdSource::new(rt.stdin());
    let mut sink = StdSink::new(rt.stdout());
    let ran = run_two(
        rt.alloc(),
        words.as_slice(),
        disk,
        second,
        &mut source,
        &mut sink,
    );
    let failure = match ran.disk.last_failure() {
        Some(failure) => Some(failure),
        None => ran.second.last_failure(),
    };
    (ran.status, failure)
}
