//! Rows that ask for spans, with their replies as text.
use crate::spans::{Kept, spans_of, two_versions};
use page_disk::PlainDisk;
use ports::{MemSink, MemSource};
use row_machine::{Ending, answer_lines};
use span_planes::SpanDesk;
use std::alloc::{AllocError, Global};
use std::test::Fail;

// What is replied to an input.
fn replies(alloc: Global, spans: Kept, input: &[u8]) -> Result<(Ending, Vec<u8>), AllocError> {
    let mut desk = SpanDesk::new(alloc, spans);
    let mut source = MemSource::new(Vec::from_slice(alloc, input)?, 7, Vec::new(alloc));
    let mut sink = MemSink::new(alloc, Vec::new(alloc));
    let ending = answer_lines(alloc, &mut desk, &mut source, &mut sink);
    Ok((ending, Vec::from_slice(alloc, sink.bytes())?))
}

// Lines, and what is replied to them over two versions.
const ANSWERED: (&str, &str) = (
    "spansum,1,2,5,5\nspansum,0,now,6,6\nspansum,2,1,5,5\nspansum,1,3,5,5\n",
    "spansum,1,2,24\nspansum,0,2,14\nbad,3\nnoversion,4\n",
);

const OF_THE_LAST: (&str, &str) = (
    "spansum,now,now,5,5\n\"spansum\",2,now,0,9\nspansum,now,1,5,5\nspansum,0,0,0,9",
    "spansum,2,2,7\nspansum,2,2,7\nbad,3\nspansum,0,0,0\n",
);

// A version that is not there comes before a first one above the last, and a bad box before both.
const REFUSED: (&str, &str) = (
    "spansum,3,1,5,5\nspansum,3,1,6,5\nspansum,1,2,6,5\nspansum,1,2,5\nsum,1,5,5\nspansum,-1,2,5,5\nspansum,1,4294967296,5,5\n\n",
    "noversion,1\nbad,2\nbad,3\nbad,4\nbad,5\nbad,6\nbad,7\nbad,8\n",
);

#[test]
fn each_row_has_its_reply(rt: HostRuntime) -> Result<(), Fail> {
    for (input, said) in [ANSWERED, OF_THE_LAST, REFUSED] {
        let house = two_versions(rt.alloc())?;
        assert!(rt; house.is_some());
        if let Some(mut house) = house {
            let spans = spans_of(rt.alloc(), &mut house, PlainDisk::blank(rt.alloc()));
            assert!(rt; spans.is_some());
            if let Some(spans) = spans {
                let (ending, text) = replies(rt.alloc(), spans, input.as_bytes())?;
                assert_eq!(rt; ending, Ending::Fine);
                assert_eq!(rt; text.as_slice(), said.as_bytes());
            }
        }
    }
    Ok(())
}
