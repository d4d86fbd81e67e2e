//! Batches, beside the same entries one after another, and where memory is wanting.
ghost use Rattle.bw_types.specs.Fits.{IsInRange};

use crate::forest::{Entered, ask, empty, object_of, params_of, put_all, query_of, try_enter};
use crate::random_boxes::{drawn_box, drawn_life};
use bw_types::{Kind, Params};
use corner_forest::{Entry, Forest};
use ports::{FailingStage, MemStage, StageFault};
use std::alloc::{AllocError, Global};
use std::test::Fail;

// So many entries from this event on: objects that are drawn, and each third time the last one taken out.
fn drawn_batch(
    alloc: Global,
    state: &mut u64,
    params: &Params,
    event: u32,
    count: u32,
) -> Result<Vec<Entry>, AllocError>
    requires { IsInRange params.now }
{
    let mut batch = Vec::new(alloc);
    let mut object = object_of([0; 3], [0; 3], 0);
    for i in 0..count {
        let minus = i % 3 == 2;
        if !minus {
            object = drawn_life(state, params, 0).object;
        }
        batch.push(Entry {
            object,
            minus,
            event: event.saturating_add(i),
        })?;
    }
    Ok(batch)
}

// Whether both answer the same at each version, at boxes that are drawn.
fn are_alike(first: &mut Entered, second: &mut Entered, dims: usize, state: &mut u64) -> bool {
    for version in 0..6u32 {
        for _ in 0..8u32 {
            let (low, high) = drawn_box(state, dims);
            for kind in [Kind::Sum, Kind::Count] {
                let query = query_of(kind, low, high);
                let answer = ask(first, &query, version);
                if answer.is_none() || ask(second, &query, version) != answer {
                    return false;
                }
            }
        }
    }
    true
}

// Batches of no entry, of one and of two hundred.
fn batches_agree(rt: &HostRuntime, dims: u8, degree: Option<u8>) -> Result<bool, AllocError> {
    let params = params_of(dims, degree);
    let mut together = empty(rt.alloc(), &params);
    let mut alone = empty(rt.alloc(), &params);
    let mut state = 5;
    let mut event = 0;
    let mut version = 0;
    for count in [0, 1, 200, 0, 200] {
        let batch = drawn_batch(rt.alloc(), &mut state, &params, event, count)?;
        if !put_all(&mut together, batch.as_slice(), version) {
            return Ok(false);
        }
        for entry in batch.as_slice() {
            if !put_all(&mut alone, &[*entry], version) {
                return Ok(false);
            }
        }
        event = event.saturating_add(count);
        version = version.saturating_add(1);
    }
    Ok(are_alike(
        &mut together,
        &mut alone,
        usize::from(params.dims),
        &mut state,
    ))
}

#[test]
fn batches_are_their_entries(rt: HostRuntime) -> Result<(), Fail> {
    assert!(rt; batches_agree(&rt, 1, Some(1))?);
    assert!(rt; batches_agree(&rt, 2, None)?);
    Ok(())
}

// A call of the stage fails at each place of a batch in turn. In the first tree of an interval each 64 points take a
// page, so memory is wanting at the first point and at the 65th.
#[test]
fn a_refused_batch_leaves_the_forest(rt: HostRuntime) -> Result<(), Fail> {
    let params = params_of(1, None);
    let mut state = 3;
    let batch = drawn_batch(rt.alloc(), &mut state, &params, 0, 80)?;
    let mut wants: u32 = 0;
    for calls in 0..150u64 {
        let mut forest = Forest::new(&params);
        let mut stage = FailingStage::over(MemStage::new(rt.alloc(), 1000));
        stage.calls_left = calls;
        let done = try_enter(rt.alloc(), &mut stage, &mut forest, batch.as_slice(), 1);
        let faults = [StageFault::NoMemory, StageFault::Disk];
        assert!(rt;
            done == Err(faults[0]) || done == Err(faults[1]),
            "call {calls}"
        );
        assert_eq!(rt; forest, Forest::new(&params), "call {calls}");
        if done == Err(StageFault::NoMemory) {
            wants = wants.saturating_add(1);
        }
    }
    assert_eq!(rt; wants, 2);
    Ok(())
}
