//! Worked runs: whole inputs with what is written for them, and faults in mid-stream.
ghost use Rattle.std.specs.Prelude.{◌<◌};

use boxsum::{Ran, Status, run};
use page_disk::{Area, Disk, MemDisk, PlainDisk, Torn};
use ports::{MemSink, MemSource, blank_page};
use std::alloc::Global;
use std::test::Fail;

// What a run is tried on: what it shows, the words that say which warehouse it is, the input, and the text that is written.
struct Case {
    shows: &'static str,
    params: &'static str,
    input: &'static str,
    text: &'static str,
}

const CASES: [Case; 27] = [
    Case {
        shows: "touching boxes",
        params: "1",
        input: "add,1,1,2,5,10\nadd,1,2,5,9,7\ncommit,1\nsum,1,5,5\n",
        text: "version,1\nsum,1,17\n",
    },
    Case {
        shows: "one box alone, none, and a query that begins at 0",
        params: "1",
        input: "add,1,1,2,5,10\nadd,1,2,5,9,7\ncommit,1\nsum,now,6,6\nsum,now,0,1\nsum,now,0,5\n",
        text: "version,1\nsum,1,7\nsum,1,0\nsum,1,17\n",
    },
    Case {
        shows: "a withdrawal leaves past versions",
        params: "1",
        input: "add,1,1,2,5,10\nadd,1,2,5,9,7\ncommit,1\nwithdraw,1,1\ncommit,1\nsum,1,5,5\nsum,2,5,5\ncount,2,0,9\nsum,0,0,4294967294\nsum,9,0,1\n",
        text: "version,1\nversion,2\nsum,1,17\nsum,2,7\ncount,2,1\nsum,0,0\nnoversion,10\n",
    },
    Case {
        shows: "an empty input",
        params: "1",
        input: "",
        text: "",
    },
    Case {
        shows: "an empty batch",
        params: "1",
        input: "commit,1\n",
        text: "version,1\n",
    },
    Case {
        shows: "bad lines, and none of them counts",
        params: "1",
        input: "add,1,1,6,5,1\nadd,1,1,0,4294967295,1\n\ntotal,1\nadd,17,1,0,1,1\nintegral,now,0,1\ncommit,1\ncount,now,0,4294967294\n",
        text: "bad,1\nbad,2\nbad,3\nbad,4\nbad,5\nbad,6\nversion,1\ncount,1,0\n",
    },
    Case {
        shows: "an integral of a square",
        params: "1 --degree 2",
        input: "add,1,1,0,3,1,0,0,1\ncommit,1\nintegral,now,1,2\n",
        text: "version,1\nintegral,1,14\n",
    },
    Case {
        shows: "an integral in two dimensions",
        params: "2 --degree=1",
        input: "add,1,1,0,2,0,2,1,0,0,0,1\ncommit,1\nintegral,now,1,2,0,1\n",
        text: "version,1\nintegral,1,27\n",
    },
    Case {
        shows: "terms past 128 bits that cancel",
        params: "3 --degree 2",
        input: "add,1,1,0,1,0,1,0,1,1,0,0,0,0,0,0,0,0,0,0,0,0,0,0,0,0,0,0,0,0,0,0,0,0,0,0,1\ncommit,1\nintegral,now,0,4294967294,0,4294967294,0,4294967294\n",
        text: "version,1\nintegral,1,8\n",
    },
    Case {
        shows: "a mass of one object that is too great",
        params: "3 --degree 2",
        input: "add,1,1,0,4294967294,0,4294967294,0,4294967294,1,0,0,0,0,0,0,0,0,0,0,0,0,0,0,0,0,0,0,0,0,0,0,0,0,0,0,1\ncommit,1\n",
        text: "refused,1,mass\n",
    },
    Case {
        shows: "masses up to the limit",
        params: "1 --degree 2",
        input: "add,1,1,0,2147483648,0,0,0,4294967295\nadd,1,2,0,1048576,0,0,0,8589934591\nadd,1,3,0,1,0,0,1,1152921504606846974\ncommit,1\nadd,1,4,0,1,0,0,0,1\ncommit,1\n",
        text: "version,1\nrefused,1,mass\n",
    },
    Case {
        shows: "masses that reach the limit exactly",
        params: "1 --degree 2",
        input: "add,1,1,0,2147483648,0,0,0,4294967295\nadd,1,2,0,1048576,0,0,0,8589934591\nadd,1,3,0,1,0,0,0,1152921504606846975\ncommit,1\nadd,1,4,0,1,0,0,0,1\ncommit,1\n",
        text: "version,1\nrefused,1,mass\n",
    },
    Case {
        shows: "each refusal of ids",
        params: "1",
        input: "add,1,1,0,9,5\ncommit,1\nadd,1,2,0,9,1\nadd,1,1,3,4,1\ncommit,1\nsum,now,0,9\nadd,1,3,0,1,1\nwithdraw,1,3\ncommit,1\nwithdraw,1,8\ncommit,1\nwithdraw,1,1\ncommit,1\nwithdraw,1,1\ncommit,1\nadd,1,1,0,9,5\ncommit,1\n",
        text: "version,1\nrefused,2,used\nsum,1,5\nrefused,2,fresh\nrefused,1,unknown\nversion,2\nrefused,1,gone\nversion,3\n",
    },
    Case {
        shows: "the limit on events",
        params: "1 --events 3",
        input: "add,1,1,0,1,1\ncommit,1\nadd,1,2,0,1,1\ncommit,1\ncommit,1\ncommit,1\n",
        text: "version,1\nrefused,0,events\nversion,2\nrefused,0,events\n",
    },
    Case {
        shows: "a move is two events",
        params: "1 --events 4",
        input: "add,1,1,0,1,1\ncommit,1\nmove,1,1,0,1,1\ncommit,1\n",
        text: "version,1\nrefused,0,events\n",
    },
    Case {
        shows: "sessions do not see each other",
        params: "1",
        input: "add,1,1,0,9,5\nadd,2,1,0,9,6\nsum,now,0,9\ncommit,1\nsum,now,0,9\ncommit,2\nsum,now,0,9\n",
        text: "sum,0,0\nversion,1\nsum,1,5\nrefused,1,used\nsum,1,5\n",
    },
    Case {
        shows: "quotes and carriage returns",
        params: "2 --degree 0",
        input: "\"add\",1,\"501\",100,149,200,259,1,7\r\n\"commit\",1\r\n\"integral\",now,120,139,190,209\r\nsum,now,120,139,190,209",
        text: "version,1\nintegral,1,43092\nsum,1,1\n",
    },
    Case {
        shows: "a drop forgets",
        params: "1",
        input: "add,2,1,0,1,1\ndrop,2\ncommit,2\ndrop,0016\n",
        text: "dropped,2\nversion,1\ndropped,16\n",
    },
    Case {
        shows: "an id twice in one batch",
        params: "1",
        input: "add,1,7,0,1,1\nadd,1,7,0,1,1\ncommit,1\nsum,now,0,9\n",
        text: "refused,2,used\nsum,0,0\n",
    },
    Case {
        shows: "a drop of nothing, a version that is not there yet, and a box beside",
        params: "1",
        input: "add,1,1,2,5,10\ndrop,1\ncommit,1\nsum,2,5,5\nsum,1,6,9\n",
        text: "dropped,1\nversion,1\nnoversion,4\nsum,1,0\n",
    },
    Case {
        shows: "signed coordinates",
        params: "1 --degree 2 --signed 1",
        input: "add,1,1,-3,2,5,0,1,0\ncommit,1\nintegral,now,-2,1\nsum,now,-9,-3\nsum,now,-9,-4\n",
        text: "version,1\nintegral,1,-9\nsum,1,5\nsum,1,0\n",
    },
    Case {
        shows: "the ends of signed coordinates",
        params: "1 --signed 1",
        input: "add,1,1,-2147483647,2147483646,1\nadd,1,2,-2147483648,0,1\nadd,1,3,0,2147483647,1\ncommit,1\nsum,now,-2147483647,-2147483647\nsum,now,2147483646,2147483646\n",
        text: "bad,2\nbad,3\nversion,1\nsum,1,1\nsum,1,1\n",
    },
    Case {
        shows: "no sign in a plain warehouse",
        params: "1",
        input: "add,1,1,-1,1,1\n",
        text: "bad,1\n",
    },
    Case {
        shows: "a move, a withdrawal and a new life",
        params: "1",
        input: "add,1,1,0,9,5\ncommit,1\nmove,1,1,20,29,5\ncommit,1\nwithdraw,1,1\ncommit,1\nadd,1,1,0,9,7\ncommit,1\nsum,1,0,9\nsum,2,0,9\nsum,2,25,25\nsum,3,0,99\nsum,4,0,9\nwithdraw,1,1\nadd,1,1,0,1,3\nwithdraw,1,1\ncommit,1\nmove,1,2,0,1,1\ncommit,1\nwithdraw,1,1\nadd,1,1,0,1,3\ncommit,1\nsum,now,0,9\n",
        text: "version,1\nversion,2\nversion,3\nversion,4\nsum,1,5\nsum,2,0\nsum,2,5\nsum,3,0\nsum,4,7\nrefused,3,fresh\nrefused,1,unknown\nversion,5\nsum,5,3\n",
    },
    Case {
        shows: "boxes in three dimensions that touch at a corner",
        params: "3",
        input: "add,1,1,0,2,0,2,0,2,4\nadd,1,2,2,4,2,4,2,4,5\ncommit,1\nsum,now,2,2,2,2,2,2\nsum,now,3,9,0,9,0,9\ncount,now,0,1,0,1,3,9\n",
        text: "version,1\nsum,1,9\nsum,1,5\ncount,1,0\n",
    },
    Case {
        shows: "too few fields and no line end",
        params: "1",
        input: "add,1,1,2",
        text: "bad,1\n",
    },
    Case {
        shows: "bytes that are no text of the grammar",
        params: "1",
        input: "\u{feff}commit,1\n\0\nadd,1,\u{e9},0,1,1\nadd,1,1,0,1,1\rX\ncommit,1\n\r",
        text: "bad,1\nbad,2\nbad,3\nbad,4\nversion,1\nbad,6\n",
    },
];

// Words that are refused: none, unknown ones, values out of range, and commands that are not built.
const REFUSED_WORDS: [&str; 18] = [
    "",
    "--help",
    "scratch",
    "scratch 4",
    "scratch 1 1",
    "scratch 2 --degree 3",
    "scratch 1 --degree",
    "scratch 1 --pages 8",
    "create",
    "create 4",
    "create 1 --pages 2",
    "create 2 --degree 3",
    "run x",
    "run --degree 1",
    "sample",
    "sample 0",
    "sample 0 20001",
    "sample 0 0 0",
];

// The words of a command line.
pub(crate) fn words_of(alloc: Global, words: &str) -> Result<Vec<String>, Fail> {
    let mut list = Vec::new(alloc);
    for word in words.split_whitespace() {
        list.push(String::from_str(alloc, word)?)?;
    }
    Ok(list)
}

// Runs the words over a disk, on an input that comes in pieces and may fail at a take, with a sink that may fail at a
// put, both counted from 1. What is written is left in the sink.
pub(crate) fn run_pieces<D: Disk + Drop>(
    alloc: Global,
    words: &str,
    input: &[u8],
    piece: usize,
    failing_take: Option<u64>,
    failing_put: Option<u64>,
    disk: D,
) -> Result<(Ran<D>, MemSink), Fail>
    requires { 0 < piece }
{
    let list = words_of(alloc, words)?;
    let mut takes = Vec::new(alloc);
    if let Some(call) = failing_take {
        takes.push(call)?;
    }
    let mut puts = Vec::new(alloc);
    if let Some(call) = failing_put {
        puts.push(call)?;
    }
    let mut source = MemSource::new(Vec::from_slice(alloc, input)?, piece, takes);
    let mut sink = MemSink::new(alloc, puts);
    let ran = run(alloc, list.as_slice(), disk, &mut source, &mut sink);
    Ok((ran, sink))
}

// Runs the words over a blank disk, as `run_pieces` does.
fn run_on_blank(
    alloc: Global,
    words: &str,
    input: &[u8],
    piece: usize,
    failing_take: Option<u64>,
    failing_put: Option<u64>,
) -> Result<(Status, MemSink), Fail>
    requires { 0 < piece }
{
    let disk = PlainDisk::blank(alloc);
    let (ran, sink) = run_pieces(alloc, words, input, piece, failing_take, failing_put, disk)?;
    Ok((ran.status, sink))
}

// Runs the words on an input over a disk.
pub(crate) fn run_over<D: Disk + Drop>(
    alloc: Global,
    words: &str,
    input: &[u8],
    disk: D,
) -> Result<(Ran<D>, MemSink), Fail> {
    run_pieces(alloc, words, input, 4096, None, None, disk)
}

// Whether a new warehouse on the blank disk answers rows that come in such pieces by this text.
fn answers_on<D: Disk + Drop>(
    alloc: Global,
    params: &str,
    input: &[u8],
    piece: usize,
    text: &[u8],
    blank: D,
) -> Result<bool, Fail>
    requires { 0 < piece }
{
    let words = format!(in alloc; "create {params}")?;
    let (ran, _) = run_over(alloc, words.as_str(), b"", blank)?;
    let (ran, sink) = run_pieces(alloc, "run", input, piece, None, None, ran.disk)?;
    Ok(ran.status == Status::Fine && sink.bytes() == text)
}

// Whether rows that come in such pieces are answered by this text, in memory and on both disks.
fn answers_with(
    alloc: Global,
    params: &str,
    input: &[u8],
    piece: usize,
    text: &[u8],
) -> Result<bool, Fail>
    requires { 0 < piece }
{
    let words = format!(in alloc; "scratch {params}")?;
    let (status, sink) = run_on_blank(alloc, words.as_str(), input, piece, None, None)?;
    if status != Status::Fine || sink.bytes() != text {
        return Ok(false);
    }
    let plain = PlainDisk::blank(alloc);
    let recording = MemDisk::blank(alloc);
    Ok(
        answers_on(alloc, params, input, piece, text, plain)?
            && answers_on(alloc, params, input, piece, text, recording)?,
    )
}

// A further run over the disk that the one before left; `create` begins with a new disk.
pub(crate) struct Step {
    pub(crate) words: &'static str,
    pub(crate) input: &'static str,
    pub(crate) text: &'static str,
}

// The place of the first step that does not end as it is to: well, and with this text.
pub(crate) fn first_wrong(alloc: Global, steps: &[Step]) -> Result<Option<usize>, Fail> {
    let mut plain = PlainDisk::blank(alloc);
    let mut recording = MemDisk::blank(alloc);
    for (place, step) in steps.iter().enumerate() {
        if step.words.starts_with("create") {
            plain = PlainDisk::blank(alloc);
            recording = MemDisk::blank(alloc);
        }
        let (ran, sink) = run_over(alloc, step.words, step.input.as_bytes(), plain)?;
        let Ran { status, disk } = ran;
        plain = disk;
        if status != Status::Fine || sink.bytes() != step.text.as_bytes() {
            return Ok(Some(place));
        }
        let (ran, sink) = run_over(alloc, step.words, step.input.as_bytes(), recording)?;
        let Ran { status, disk } = ran;
        recording = disk;
        if status != Status::Fine || sink.bytes() != step.text.as_bytes() {
            return Ok(Some(place));
        }
    }
    Ok(None)
}

// What may become of the writes that a stop finds under way.
pub(crate) const KINDS: [Torn; 5] = [
    Torn::Lost,
    Torn::Landed,
    Torn::Filled(0),
    Torn::Filled(1),
    Torn::Filled(255),
];

// A recording disk with a new warehouse of one dimension.
pub(crate) fn new_warehouse(alloc: Global) -> Result<MemDisk, Fail> {
    let (ran, _) = run_over(alloc, "create 1", b"", MemDisk::blank(alloc))?;
    Ok(ran.disk)
}

#[test]
fn whole_inputs(rt: HostRuntime) -> Result<(), Fail> {
    for case in CASES.iter() {
        for piece in [1, 2, 7, 20, 4096] {
            let right = answers_with(
                rt.alloc(),
                case.params,
                case.input.as_bytes(),
                piece,
                case.text.as_bytes(),
            )?;
            assert!(rt; right, "{}", case.shows);
        }
    }
    Ok(())
}

#[test]
fn refused_words(rt: HostRuntime) -> Result<(), Fail> {
    for words in REFUSED_WORDS.iter() {
        let disk = MemDisk::blank(rt.alloc());
        let (ran, sink) = run_over(rt.alloc(), words, b"commit,1\n", disk)?;
        assert_eq!(rt; ran.status, Status::Usage, "{words}");
        assert_eq!(rt; ran.disk.calls(), 0, "{words}");
        assert_eq!(rt; sink.bytes(), b"".as_slice());
    }
    Ok(())
}

#[test]
fn a_session_is_full(rt: HostRuntime) -> Result<(), Fail> {
    let mut input = String::new(rt.alloc());
    for id in 1..4098u32 {
        input.push_str(format!(in rt.alloc(); "add,3,{id},0,0,1\n")?.as_str())?;
    }
    input.push_str("commit,3\ncount,now,0,0\n")?;
    let text = b"full,4097\nversion,1\ncount,1,4096\n";
    assert!(rt; answers_with(rt.alloc(), "1", input.as_bytes(), 8192, text)?);
    Ok(())
}

// An input that begins with a line of this many bytes.
fn after_a_line(alloc: Global, byte: u8, len: usize, rows: &[u8]) -> Result<Vec<u8>, Fail> {
    let mut input = vec![in alloc; byte; len]?;
    input.extend_from_slice(rows)?;
    Ok(input)
}

#[test]
fn long_lines_are_bad(rt: HostRuntime) -> Result<(), Fail> {
    // A byte, how often it stands, the rows after that line, and the text.
    let cases: [(u8, usize, &[u8], &[u8]); 3] = [
        (
            b'7',
            5000,
            b"\nadd,2,1,0,1,1\ndrop,2\ncommit,2\ndrop,2\n",
            b"bad,1\ndropped,2\nversion,1\ndropped,2\n",
        ),
        (b'a', 4097, b"\ncommit,1\n", b"bad,1\nversion,1\n"),
        (b'a', 4096, b"\r\ncommit,1\r\n", b"bad,1\nversion,1\n"),
    ];
    for (byte, len, rows, text) in cases {
        let input = after_a_line(rt.alloc(), byte, len, rows)?;
        for piece in [1, 1000, 16384] {
            let right = answers_with(rt.alloc(), "1", &input, piece, text)?;
            assert!(rt; right, "{len} bytes in pieces of {piece}");
        }
    }
    Ok(())
}

#[test]
fn bytes_that_are_no_text(rt: HostRuntime) -> Result<(), Fail> {
    let input = b"\xff\xfe\nadd,1,1,0,1,\x80\n\"\xc3\",1\ncommit,1";
    let (status, sink) = run_on_blank(rt.alloc(), "scratch 1", input, 3, None, None)?;
    assert_eq!(rt; status, Status::Fine);
    assert_eq!(rt;
        sink.bytes(),
        b"bad,1\nbad,2\nbad,3\nversion,1\n".as_slice()
    );
    Ok(())
}

#[test]
fn the_input_fails(rt: HostRuntime) -> Result<(), Fail> {
    let input = b"add,1,1,2,5,10\nadd,1,2,5,9,7\ncommit,1\nsum,1,5,5\n";
    let (status, sink) = run_on_blank(rt.alloc(), "scratch 1", input, 20, Some(1), None)?;
    assert_eq!(rt; status, Status::ReadFault);
    assert_eq!(rt; sink.bytes(), b"".as_slice());
    let (status, sink) = run_on_blank(rt.alloc(), "scratch 1", input, 20, Some(2), None)?;
    assert_eq!(rt; status, Status::ReadFault);
    assert_eq!(rt; sink.bytes(), b"".as_slice());
    let (status, sink) = run_on_blank(rt.alloc(), "scratch 1", input, 20, Some(3), None)?;
    assert_eq!(rt; status, Status::ReadFault);
    assert_eq!(rt; sink.bytes(), b"version,1\n".as_slice());
    Ok(())
}

#[test]
fn the_output_fails(rt: HostRuntime) -> Result<(), Fail> {
    let input =
        b"add,1,1,0,9,5\nadd,2,1,0,9,6\nsum,now,0,9\ncommit,1\nsum,now,0,9\ncommit,2\nsum,now,0,9\n";
    // Where each take gives one byte, each reply is put before the next one. Where one gives all,
    // replies are put after the version and at the end.
    let parts = [
        (1, 1, ""),
        (1, 2, "sum,0,0\n"),
        (1, 3, "sum,0,0\nversion,1\n"),
        (1, 4, "sum,0,0\nversion,1\nsum,1,5\n"),
        (1, 5, "sum,0,0\nversion,1\nsum,1,5\nrefused,1,used\n"),
        (4096, 1, ""),
        (4096, 2, "sum,0,0\nversion,1\n"),
    ];
    for (piece, call, part) in parts {
        let (status, sink) = run_on_blank(rt.alloc(), "scratch 1", input, piece, None, Some(call))?;
        assert_eq!(rt; status, Status::WriteFault);
        assert_eq!(rt; sink.bytes(), part.as_bytes());
        assert_eq!(rt; sink.faults(), 1);
        // On a disk too.
        let disk = new_warehouse(rt.alloc())?;
        let (ran, sink) = run_pieces(rt.alloc(), "run", input, piece, None, Some(call), disk)?;
        assert_eq!(rt; ran.status, Status::WriteFault);
        assert_eq!(rt; sink.bytes(), part.as_bytes());
        assert_eq!(rt; sink.faults(), 1);
    }
    Ok(())
}

#[test]
fn many_objects_at_one_point(rt: HostRuntime) -> Result<(), Fail> {
    let mut input = String::new(rt.alloc());
    for id in 1..66u32 {
        input.push_str(format!(in rt.alloc(); "add,1,{id},5,5,5,5,1\n")?.as_str())?;
    }
    input.push_str("commit,1\ncount,now,5,5,5,5\n")?;
    let (status, sink) = run_on_blank(rt.alloc(), "scratch 2", input.as_bytes(), 100, None, None)?;
    assert_eq!(rt; status, Status::Fine);
    assert_eq!(rt; sink.bytes(), b"version,1\ncount,1,65\n".as_slice());
    Ok(())
}

#[test]
fn texts_of_statuses(rt: HostRuntime) -> Result<(), Fail> {
    let usage =
        "usage: boxsum create D [--degree G] [--events N] [--pages N] [--signed S], run, scratch D [--degree G] [--events N] [--signed S], sample START COUNT, check, spans, spanrun, report, export, compact V";
    let texts = [
        (Status::Usage, 2, usage),
        (Status::NoWarehouse, 3, "no warehouse here"),
        (Status::AlreadyThere, 4, "there is a warehouse already"),
        (Status::ReadFault, 5, "input failed"),
        (Status::WriteFault, 6, "output failed"),
        (Status::DiskFault, 7, "disk failed"),
        (Status::NoMemory, 8, "no memory"),
        (
            Status::Damaged {
                area: Area::Pages,
                page: 2,
            },
            9,
            "damaged page 2",
        ),
        (
            Status::Damaged {
                area: Area::Journal,
                page: 0,
            },
            9,
            "damaged journal page 0",
        ),
        (Status::InputLimit { taken: 7 }, 10, "input too long"),
        (
            Status::PageLimit { allotted: 8 },
            11,
            "page limit 8 reached",
        ),
        (Status::NoVersion { last: 2 }, 12, "last version is 2"),
    ];
    assert_eq!(rt; Status::Fine.code(), 0);
    for (status, code, text) in texts.iter() {
        assert_eq!(rt; status.code(), *code);
        let shown = format!(in rt.alloc(); "{status}")?;
        assert_eq!(rt; shown.as_str(), *text);
    }
    Ok(())
}

const STEPS: [Step; 8] = [
    Step {
        words: "create 1",
        input: "",
        text: "",
    },
    Step {
        words: "run",
        input: "",
        text: "",
    },
    Step {
        words: "run",
        input: "sum,now,0,9\ncount,0,0,4294967294\nsum,1,0,9\nintegral,now,0,1\n",
        text: "sum,0,0\ncount,0,0\nnoversion,3\nbad,4\n",
    },
    Step {
        words: "run",
        input: "add,1,1,2,5,10\nsum,now,5,5\ndrop,1\ncommit,17\n",
        text: "sum,0,0\ndropped,1\nbad,4\n",
    },
    Step {
        words: "create --pages 8 -- 2",
        input: "sum,now,0,9",
        text: "",
    },
    Step {
        words: "run",
        input: "count,now,0,9,0,9",
        text: "count,0,0\n",
    },
    Step {
        words: "create 3 --degree 2 --signed 1",
        input: "",
        text: "",
    },
    Step {
        words: "run",
        input: "integral,now,-5,9,0,9,-2147483647,2147483646\n",
        text: "integral,0,0\n",
    },
];

#[test]
fn warehouses_without_versions(rt: HostRuntime) -> Result<(), Fail> {
    assert_eq!(rt; first_wrong(rt.alloc(), &STEPS)?, None);
    Ok(())
}

#[test]
fn disks_that_are_not_as_they_should_be(rt: HostRuntime) -> Result<(), Fail> {
    let alloc = rt.alloc();
    let (ran, sink) = run_over(alloc, "run", b"sum,now,5,5", MemDisk::blank(alloc))?;
    assert_eq!(rt; ran.status, Status::NoWarehouse);
    assert_eq!(rt; sink.bytes(), b"".as_slice());
    let disk = new_warehouse(alloc)?;
    let calls = disk.calls();
    let (ran, _) = run_over(alloc, "create 1", b"", disk)?;
    assert_eq!(rt; ran.status, Status::AlreadyThere);
    assert!(rt; calls < ran.disk.calls());
    // An open creation gate, and behind it no superblock.
    let mut gate = blank_page();
    gate[0] = 1;
    let mut pages = Vec::new(alloc);
    pages.push(gate)?;
    pages.push(blank_page())?;
    pages.push(blank_page())?;
    let mut journal = Vec::new(alloc);
    journal.push(blank_page())?;
    let (ran, _) = run_over(alloc, "run", b"", MemDisk::holding(alloc, pages, journal))?;
    let damaged = Status::Damaged {
        area: Area::Pages,
        page: 1,
    };
    assert_eq!(rt; ran.status, damaged);
    // The same without a journal.
    let mut pages = Vec::new(alloc);
    pages.push(gate)?;
    pages.push(blank_page())?;
    pages.push(blank_page())?;
    let (ran, _) = run_over(
        alloc,
        "run",
        b"",
        MemDisk::holding(alloc, pages, Vec::new(alloc)),
    )?;
    let damaged = Status::Damaged {
        area: Area::Journal,
        page: 0,
    };
    assert_eq!(rt; ran.status, damaged);
    Ok(())
}

#[test]
fn rows_in_memory_leave_the_disk(rt: HostRuntime) -> Result<(), Fail> {
    let disk = MemDisk::blank(rt.alloc());
    let (ran, sink) = run_over(rt.alloc(), "scratch 1", b"sum,now,0,9", disk)?;
    assert_eq!(rt; ran.status, Status::Fine);
    assert_eq!(rt; sink.bytes(), b"sum,0,0\n".as_slice());
    assert_eq!(rt; ran.disk.calls(), 0);
    Ok(())
}

// What is left of the words where this call on the disk fails.
pub(crate) fn failing_run(
    alloc: Global,
    words: &str,
    input: &[u8],
    disk: MemDisk,
    call: u64,
) -> Result<Ran<MemDisk>, Fail> {
    let mut disk = disk;
    let mut calls = Vec::new(alloc);
    calls.push(call)?;
    disk.fail_at(calls);
    let (ran, _) = run_over(alloc, words, input, disk)?;
    Ok(ran)
}

// The status of the words where this call on the disk fails, and how often the disk failed.
pub(crate) fn failing_at(
    alloc: Global,
    words: &str,
    input: &[u8],
    disk: MemDisk,
    call: u64,
) -> Result<(Status, u64), Fail> {
    let ran = failing_run(alloc, words, input, disk, call)?;
    Ok((ran.status, ran.disk.faults()))
}

#[test]
fn each_call_on_the_disk_fails(rt: HostRuntime) -> Result<(), Fail> {
    let alloc = rt.alloc();
    let (ran, _) = run_over(alloc, "create 1", b"", MemDisk::blank(alloc))?;
    let calls = ran.disk.calls();
    assert!(rt; calls < 1000);
    for call in 1..calls + 1 {
        let ended = failing_at(alloc, "create 1", b"", MemDisk::blank(alloc), call)?;
        assert_eq!(rt; ended, (Status::DiskFault, 1), "call {call}");
    }
    let input = b"sum,now,5,5\ncount,0,0,9\n";
    let disk = new_warehouse(alloc)?;
    let before = disk.calls();
    let (ran, _) = run_over(alloc, "run", input, disk)?;
    let after = ran.disk.calls();
    assert!(rt; before < after && after < 1000);
    for call in 1..after - before + 1 {
        let ended = failing_at(alloc, "run", input, new_warehouse(alloc)?, call)?;
        assert_eq!(rt; ended, (Status::DiskFault, 1), "call {call}");
    }
    Ok(())
}

#[test]
fn a_creation_that_is_stopped(rt: HostRuntime) -> Result<(), Fail> {
    let alloc = rt.alloc();
    for torn in KINDS {
        for calls in 0..16 {
            let mut disk = MemDisk::blank(alloc);
            disk.stop_after(calls);
            let (ran, _) = run_over(alloc, "create 1", b"", disk)?;
            let made = ran.status == Status::Fine;
            let (ran, _) = run_over(alloc, "run", b"", ran.disk.crash(torn))?;
            let there = ran.status == Status::Fine;
            assert!(rt; there || ran.status == Status::NoWarehouse);
            assert!(rt; there || !made);
        }
    }
    Ok(())
}
