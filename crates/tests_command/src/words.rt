//! The words of commands.
use bw_types::Params;
use command_words::{Command, WordsFault, read_words};
use std::alloc::{AllocError, Global};
use std::test::Fail;

// The params where no option is set.
const PLAIN: Params = Params {
    dims: 1,
    degree: None,
    events: 1000000,
    pages: 1048576,
    origin: 0,
};

fn owned(alloc: Global, words: &[&str]) -> Result<Vec<String>, AllocError> {
    let mut all = Vec::new(alloc);
    for word in words {
        all.push(String::from_str(alloc, word)?)?;
    }
    Ok(all)
}

// What the words are read as: None where they are refused as faulty.
fn read(alloc: Global, words: &[&str]) -> Result<Option<Command>, AllocError> {
    let words = owned(alloc, words)?;
    match read_words(alloc, words.as_slice()) {
        Ok(command) => Ok(Some(command)),
        Err(WordsFault::Usage) => Ok(None),
        Err(WordsFault::NoMemory) => Err(AllocError),
    }
}

#[test]
fn commands_without_params(rt: HostRuntime) -> Result<(), Fail> {
    let table: [(&[&str], Command); 12] = [
        (&["run"], Command::Run),
        (&["run", "--"], Command::Run),
        (&["check"], Command::Check),
        (&["spans"], Command::Spans),
        (&["spanrun"], Command::SpanRun),
        (&["report"], Command::Report),
        (&["export"], Command::Export),
        (&["compact", "7"], Command::Compact { version: 7 }),
        (
            &["compact", "--", "4294967295"],
            Command::Compact {
                version: 4294967295,
            },
        ),
        (
            &["sample", "0", "0"],
            Command::Sample { start: 0, count: 0 },
        ),
        (
            &["sample", "18446744073709551615", "20000"],
            Command::Sample {
                start: 18446744073709551615,
                count: 20000,
            },
        ),
        (
            &["sample", "00000000000000000001", "--", "007"],
            Command::Sample { start: 1, count: 7 },
        ),
    ];
    for (words, wanted) in table.iter() {
        assert_eq!(rt; read(rt.alloc(), words)?, Some(*wanted), "{words:?}");
    }
    Ok(())
}

#[test]
fn commands_with_params(rt: HostRuntime) -> Result<(), Fail> {
    let square = Params {
        dims: 2,
        degree: Some(2),
        ..PLAIN
    };
    let signed = Params {
        dims: 3,
        events: 268435456,
        pages: 3,
        origin: 2147483647,
        ..PLAIN
    };
    let table: [(&[&str], Command); 10] = [
        (&["scratch", "1"], Command::Scratch(PLAIN)),
        (&["scratch", "--", "1"], Command::Scratch(PLAIN)),
        (&["scratch", "01", "--"], Command::Scratch(PLAIN)),
        (&["create", "1"], Command::Create(PLAIN)),
        (&["scratch", "--degree", "2", "2"], Command::Scratch(square)),
        (&["scratch", "2", "--degree=2"], Command::Scratch(square)),
        (
            &["create", "--degree=02", "--signed", "0", "--", "2"],
            Command::Create(square),
        ),
        (
            &[
                "create",
                "--pages=3",
                "--events",
                "268435456",
                "3",
                "--signed=1",
            ],
            Command::Create(signed),
        ),
        (
            &[
                "create",
                "3",
                "--signed",
                "1",
                "--pages",
                "3",
                "--events=268435456",
            ],
            Command::Create(signed),
        ),
        (
            &["create", "--pages", "8", "--", "1"],
            Command::Create(Params { pages: 8, ..PLAIN }),
        ),
    ];
    for (words, wanted) in table.iter() {
        assert_eq!(rt; read(rt.alloc(), words)?, Some(*wanted), "{words:?}");
    }
    Ok(())
}

#[test]
fn faulty_words(rt: HostRuntime) -> Result<(), Fail> {
    let table: [&[&str]; 47] = [
        &[],
        &[""],
        &["--help"],
        &["-h"],
        &["help"],
        &["Run"],
        &["--", "scratch", "1"],
        &["scratch"],
        &["scratch", "x"],
        &["scratch", ""],
        &["scratch", "4"],
        &["scratch", "0"],
        &["scratch", "-1"],
        &["scratch", "+1"],
        &["scratch", "000000000000000000001"],
        &["scratch", "1", "1"],
        &["scratch", "1", "--help"],
        &["scratch", "1", "--", "--"],
        &["scratch", "1", "--degree"],
        &["scratch", "1", "--degree", "--"],
        &["scratch", "--degree", "--", "1"],
        &["scratch", "1", "--degree="],
        &["scratch", "1", "--degree", ""],
        &["scratch", "1", "--degree", "3"],
        &["scratch", "1", "--degree", "-1"],
        &["scratch", "1", "--degree", "--events", "5"],
        &["scratch", "1", "--degree=1=1"],
        &["scratch", "1", "--degree", "1", "--degree", "1"],
        &["scratch", "1", "--degree=1", "--degree", "2"],
        &["scratch", "1", "--deg", "1"],
        &["scratch", "1", "-degree", "1"],
        &["scratch", "1", "--=1"],
        &["scratch", "1", "--pages", "8"],
        &["scratch", "1", "--events", "0"],
        &["scratch", "1", "--events", "268435457"],
        &["scratch", "1", "--signed", "2"],
        &["create", "1", "--pages", "2"],
        &["create", "1", "--pages", "4294967296"],
        &["create", "--", "1", "--pages=8"],
        &["run", "--", "x"],
        &["run", "--", "--"],
        &["run", "--degree=1"],
        &["sample", "1"],
        &["sample", "1", "20001"],
        &["sample", "18446744073709551616", "1"],
        &["compact"],
        &["compact", "4294967296"],
    ];
    for words in table.iter() {
        assert_eq!(rt; read(rt.alloc(), words)?, None, "{words:?}");
    }
    Ok(())
}
