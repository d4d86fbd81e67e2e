//! Sources and sinks, over memory and over standard input and output.
use ports::{Failed, MemSink, MemSource, Sink, Source, StdSink, StdSource};
use std::alloc::Global;
use std::io::{Error, ErrorKind, Read, Result as IoResult, Write};
use std::test::Fail;

// Moves one piece, through the bounds alone.
fn move_piece<S: Source, K: Sink>(source: &mut S, sink: &mut K) -> Result<usize, Failed> {
    let mut room = [0u8; 4];
    let count = source.take(&mut room)?;
    if count <= 4 {
        sink.put(&room[..count])?;
    }
    Ok(count)
}

fn memory_source(alloc: Global, failing: &[u64]) -> Result<MemSource, Fail> {
    let bytes = Vec::from_slice(alloc, b"abcdefg")?;
    let failing = Vec::from_slice(alloc, failing)?;
    Ok(MemSource::new(bytes, 3, failing))
}

#[test]
fn memory_to_memory(rt: HostRuntime) -> Result<(), Fail> {
    let mut source = memory_source(rt.alloc(), &[2])?;
    let mut sink = MemSink::new(rt.alloc(), Vec::from_slice(rt.alloc(), &[3])?);
    let mut counts = Vec::new(rt.alloc());
    for _ in 0..5 {
        counts.push(move_piece(&mut source, &mut sink))?;
    }
    let expected = [Ok(3), Err(Failed), Ok(3), Err(Failed), Ok(0)];
    assert_eq!(rt; counts.as_slice(), expected.as_slice());
    assert_eq!(rt; sink.bytes(), b"abcdef".as_slice());
    assert_eq!(rt; source.faults(), 1);
    assert_eq!(rt; sink.faults(), 1);
    Ok(())
}

#[test]
fn standard_to_standard(rt: HostRuntime) -> Result<(), Fail> {
    let text: &[u8] = b"abcdef";
    let mut source = StdSource::new(text);
    let mut sink = StdSink::new(Vec::<u8>::new(rt.alloc()));
    assert_eq!(rt; move_piece(&mut source, &mut sink), Ok(4));
    assert_eq!(rt; move_piece(&mut source, &mut sink), Ok(2));
    assert_eq!(rt; move_piece(&mut source, &mut sink), Ok(0));
    assert_eq!(rt; source.faults(), 0);
    assert_eq!(rt; sink.faults(), 0);
    Ok(())
}

// Is interrupted at each second call, and fails at the fourth.
#[derive(Drop)]
struct Flaky {
    calls: u8,
    left: u8,
}

impl Flaky {
    fn step(&mut self) -> IoResult<()> {
        self.calls = self.calls.wrapping_add(1);
        match self.calls {
            4 => Err(Error::from(ErrorKind::Other)),
            call if call % 2 == 1 => Err(Error::from(ErrorKind::Interrupted)),
            _ => Ok(()),
        }
    }
}

impl Read for Flaky {
    fn read(&mut self, buf: &mut [u8]) -> IoResult<usize> {
        self.step()?;
        Ok(buf.len().min(1))
    }
}

impl Write for Flaky {
    fn write(&mut self, buf: &[u8]) -> IoResult<usize> {
        self.step()?;
        let count = buf.len().min(1).min(self.left as usize);
        self.left = self.left.saturating_sub(1);
        Ok(count)
    }

    fn flush(&mut self) -> IoResult<()> {
        Ok(())
    }
}

#[test]
fn interrupted_calls_are_tried_again(rt: HostRuntime) {
    let mut source = StdSource::new(Flaky { calls: 0, left: 0 });
    let mut room = [0u8; 4];
    assert_eq!(rt; source.take(&mut room), Ok(1));
    assert_eq!(rt; source.faults(), 0);
    assert_eq!(rt; source.take(&mut room), Err(Failed));
    assert_eq!(rt; source.faults(), 1);
    assert_eq!(rt; source.take(&mut room), Ok(1));

    let mut sink = StdSink::new(Flaky { calls: 0, left: 9 });
    assert_eq!(rt; sink.put(b"a"), Ok(()));
    assert_eq!(rt; sink.put(b"b"), Err(Failed));
    assert_eq!(rt; sink.put(b"cde"), Ok(()));
    assert_eq!(rt; sink.faults(), 1);
}

#[test]
fn a_writer_that_takes_nothing_has_failed(rt: HostRuntime) {
    let mut sink = StdSink::new(Flaky { calls: 4, left: 2 });
    assert_eq!(rt; sink.put(b""), Ok(()));
    assert_eq!(rt; sink.put(b"abc"), Err(Failed));
    assert_eq!(rt; sink.faults(), 1);
}
