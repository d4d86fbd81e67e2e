//! Which call fails, and how.
use ports::{FailingStage, MemStage, PageFault, Pages, Stage, StageFault, blank_page};
use std::test::Fail;

// The second get fails, and each call of another kind that is the next one; how they answered.
fn failures<S: Stage + Drop>(
    stage: &mut FailingStage<S>,
) -> Result<[Result<(), StageFault>; 4], StageFault> {
    let mut bytes = blank_page();
    let page = stage.allot()?;
    stage.put(page, &[7; 4096])?;
    stage.calls_left = 1;
    stage.get(page, &mut bytes)?;
    let got = stage.get(page, &mut bytes);
    stage.calls_left = 0;
    let allotted = stage.allot();
    stage.calls_left = 0;
    let put = stage.put(page, &[8; 4096]);
    stage.calls_left = 0;
    let freed = stage.free(page);
    // What failed did not come to the stage below.
    stage.get(page, &mut bytes)?;
    stage.free(page)?;
    Ok([
        got.map_err(StageFault::from),
        allotted.map(|_| ()),
        put,
        if bytes == [7; 4096] { freed } else { Ok(()) },
    ])
}

#[test]
fn the_call_after_so_many_fails(rt: HostRuntime) -> Result<(), Fail> {
    let mut stage = FailingStage::over(MemStage::new(rt.alloc(), 10));
    assert_eq!(rt;
        failures(&mut stage)?,
        [
            Err(StageFault::Disk),
            Err(StageFault::NoMemory),
            Err(StageFault::Disk),
            Err(StageFault::Disk)
        ]
    );
    assert_eq!(rt; stage.faults, 3);
    let mut bytes = blank_page();
    assert_eq!(rt; stage.get(3, &mut bytes), Err(PageFault::Damaged(3)));
    Ok(())
}
