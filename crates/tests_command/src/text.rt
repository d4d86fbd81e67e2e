//! The rows of a small history, and a sink that fails, with texts that were written by hand.
ghost use Rattle.bw_types.specs.Fits.{IsInRange};

use bw_types::{Object, Params};
use history_text::write_history;
use page_warehouse::Event;
use ports::{Failed, MemSink};
use std::test::Fail;

// A signed warehouse of two dimensions and of degree 1, so that there are four coefficients.
fn params() -> Params
    ensures { IsInRange result }
{
    Params {
        dims: 2,
        degree: Some(1),
        events: 1000,
        pages: 1000,
        origin: Params::SIGNED_ORIGIN,
    }
}

// The object with these stored numbers.
fn object(id: u64, low: [u32; 3], high: [u32; 3], weight: i64, front: [i64; 4]) -> Object {
    let mut coeffs = [0; 27];
    coeffs[..4].copy_from_slice(&front);
    Object {
        id,
        low,
        high,
        weight,
        coeffs,
    }
}

#[test]
fn a_small_history(rt: HostRuntime) -> Result<(), Fail> {
    let seven = object(
        7,
        [2147483644, 2147483647, 0],
        [2147483652, 2147483657, 0],
        -2,
        [1, -1, 0, 9],
    );
    let eight = object(
        8,
        [2147483648, 2147483649, 0],
        [2147483648, 2147483649, 0],
        5,
        [0, 0, 0, 0],
    );
    let moved = object(
        8,
        [2147483649, 2147483649, 0],
        [2147483650, 2147483649, 0],
        6,
        [0, 0, 0, -4],
    );
    let events = [
        Event {
            event: 0,
            version: 1,
            add: true,
            object: seven,
        },
        Event {
            event: 1,
            version: 1,
            add: true,
            object: eight,
        },
        Event {
            event: 2,
            version: 3,
            add: false,
            object: seven,
        },
        Event {
            event: 3,
            version: 3,
            add: false,
            object: eight,
        },
        Event {
            event: 4,
            version: 3,
            add: true,
            object: moved,
        },
        Event {
            event: 5,
            version: 4,
            add: false,
            object: moved,
        },
        Event {
            event: 6,
            version: 4,
            add: true,
            object: seven,
        },
    ];
    let mut sink = MemSink::new(rt.alloc(), Vec::new(rt.alloc()));
    assert_eq!(rt; write_history(&params(), &events, 4, &mut sink), Ok(()));
    let expected =
        b"add,1,7,-3,5,0,10,-2,1,-1,0,9\nadd,1,8,1,1,2,2,5,0,0,0,0\ncommit,1\ncommit,1\nwithdraw,1,7\nmove,1,8,2,3,2,2,6,0,0,0,-4\ncommit,1\nwithdraw,1,8\nadd,1,7,-3,5,0,10,-2,1,-1,0,9\ncommit,1\n";
    assert_eq!(rt; sink.bytes(), expected.as_slice());
    assert_eq!(rt; sink.faults(), 0);
    Ok(())
}

#[test]
fn no_coefficients_without_a_degree(rt: HostRuntime) -> Result<(), Fail> {
    let plain = Params {
        dims: 1,
        degree: None,
        events: 1000,
        pages: 1000,
        origin: 0,
    };
    let whole = object(
        18446744073709551615,
        [0, 0, 0],
        [4294967294, 0, 0],
        9223372036854775807,
        [0, 0, 0, 0],
    );
    let events = [Event {
        event: 0,
        version: 1,
        add: true,
        object: whole,
    }];
    let mut sink = MemSink::new(rt.alloc(), Vec::new(rt.alloc()));
    assert_eq!(rt; write_history(&plain, &events, 1, &mut sink), Ok(()));
    let expected = b"add,1,18446744073709551615,0,4294967294,9223372036854775807\ncommit,1\n";
    assert_eq!(rt; sink.bytes(), expected.as_slice());
    Ok(())
}

// 2,000 empty batches are 18,000 bytes, of which 910 commits fit the room of 8,192 bytes.
#[test]
fn a_failing_sink_has_a_front(rt: HostRuntime) -> Result<(), Fail> {
    let mut sink = MemSink::new(rt.alloc(), Vec::from_slice(rt.alloc(), &[2])?);
    assert_eq!(rt; write_history(&params(), &[], 2000, &mut sink), Err(Failed));
    assert_eq!(rt; sink.faults(), 1);
    assert_eq!(rt; sink.bytes().len(), 8190);
    assert_eq!(rt;
        sink.bytes().iter().filter(|byte| **byte == b'\n').count(),
        910
    );

    let mut sink = MemSink::new(rt.alloc(), Vec::new(rt.alloc()));
    assert_eq!(rt; write_history(&params(), &[], 2000, &mut sink), Ok(()));
    assert_eq!(rt; sink.bytes().len(), 18000);
    Ok(())
}
