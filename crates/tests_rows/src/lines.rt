//! Lines of inputs that come in pieces.
use line_reader::{Line, LineReader};
use ports::MemSource;
use std::alloc::Global;
use std::test::Fail;

fn source_of(
    alloc: Global,
    input: &[u8],
    piece: usize,
    failing: &[u64],
) -> Result<MemSource, Fail> {
    let bytes = Vec::from_slice(alloc, input)?;
    let failing = Vec::from_slice(alloc, failing)?;
    Ok(MemSource::new(bytes, piece.max(1), failing))
}

// What a reader answers, up to where it stops: each text with a bar behind it.
fn answers(alloc: Global, input: &[u8], piece: usize, limit: u64) -> Result<Vec<u8>, Fail> {
    let mut source = source_of(alloc, input, piece, &[])?;
    let mut reader = LineReader::new(limit);
    let mut out = Vec::new(alloc);
    for _ in 0..100 {
        let answer = reader.next_line(&mut source);
        if answer == Line::Text {
            out.extend_from_slice(reader.text())?;
        }
        let mark: &[u8] = match answer {
            Line::Text => b"|",
            Line::Long => b"long|",
            Line::End => b"end",
            Line::Fault => b"fault",
            Line::Limit => b"limit",
        };
        out.extend_from_slice(mark)?;
        if answer != Line::Text && answer != Line::Long {
            break;
        }
    }
    Ok(out)
}

#[test]
fn lines_are_cut_whatever_the_pieces(rt: HostRuntime) -> Result<(), Fail> {
    let cases: [(&[u8], &[u8]); 9] = [
        (b"", b"end"),
        (b"\n", b"|end"),
        (b"a", b"a|end"),
        (b"a\n", b"a|end"),
        (b"a\r\n", b"a|end"),
        (b"a\n\r", b"a||end"),
        (b"a\r\r\n", b"a\r|end"),
        (b"a\rb\n", b"a\rb|end"),
        (b"ab\n\ncd\r\nef", b"ab||cd|ef|end"),
    ];
    for (input, expected) in cases {
        for piece in [1, 2, 7, 4096] {
            let found = answers(rt.alloc(), input, piece, 1000)?;
            assert_eq!(rt; found.as_slice(), expected, "pieces of {piece}");
        }
    }
    Ok(())
}

// A line of this many bytes, and then its ending.
fn line_of(alloc: Global, len: usize, ending: &[u8]) -> Result<Vec<u8>, Fail> {
    let mut line = vec![in alloc; b'x'; len]?;
    line.extend_from_slice(ending)?;
    Ok(line)
}

#[test]
fn long_lines_are_passed_over(rt: HostRuntime) -> Result<(), Fail> {
    let cases: [(usize, &[u8], bool); 9] = [
        (4096, b"\r\ny", false),
        (4096, b"\ny", false),
        (4096, b"", false),
        (4096, b"\r", false),
        (4096, b"\r\r\ny", true),
        (4097, b"\ny", true),
        (4097, b"\r\ny", true),
        (4097, b"", true),
        (20000, b"\r\ny", true),
    ];
    for (len, ending, is_long) in cases {
        let input = line_of(rt.alloc(), len, ending)?;
        for piece in [7, 4096, 100_000] {
            let found = answers(rt.alloc(), &input, piece, 1_000_000)?;
            assert_eq!(rt;
                found.starts_with(b"long|"),
                is_long,
                "{len} bytes in pieces of {piece}"
            );
            assert_eq!(rt; found.ends_with(b"|y|end"), ending.ends_with(b"y"));
            assert_eq!(rt; found.ends_with(b"|end"), true);
        }
    }
    Ok(())
}

#[test]
fn the_limit_comes_where_more_is_needed(rt: HostRuntime) -> Result<(), Fail> {
    let mut source = source_of(rt.alloc(), b"abc\ncommit", 100, &[])?;
    let mut reader = LineReader::new(4);
    assert_eq!(rt; reader.next_line(&mut source), Line::Text);
    assert_eq!(rt; reader.text(), b"abc".as_slice());
    assert_eq!(rt; reader.next_line(&mut source), Line::Limit);
    assert_eq!(rt; reader.next_line(&mut source), Line::Limit);
    assert_eq!(rt; reader.taken(), 4);

    let at_end = answers(rt.alloc(), b"abc\n", 100, 4)?;
    assert_eq!(rt; at_end.as_slice(), b"abc|limit".as_slice());
    let below = answers(rt.alloc(), b"abc\n", 100, 5)?;
    assert_eq!(rt; below.as_slice(), b"abc|end".as_slice());
    Ok(())
}

#[test]
fn a_fault_stays(rt: HostRuntime) -> Result<(), Fail> {
    let mut source = source_of(rt.alloc(), b"ab\ncd\n", 4, &[2])?;
    let mut reader = LineReader::new(1000);
    assert_eq!(rt; reader.next_line(&mut source), Line::Text);
    assert_eq!(rt; reader.next_line(&mut source), Line::Fault);
    assert_eq!(rt; reader.next_line(&mut source), Line::Fault);
    assert_eq!(rt; source.faults(), 1);
    assert_eq!(rt; reader.taken(), 4);
    Ok(())
}
