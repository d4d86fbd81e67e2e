//! A great load over one dimension: a query reads few pages, and answers as the list of objects does.

use crate::memory::run_over;
use boxsum::Status;
use page_disk::PlainDisk;
use std::alloc::Global;
use std::test::Fail;

// The next of numbers that look random.
fn draw(state: &mut u64) -> u32 {
    *state = state
        .wrapping_mul(6364136223846793005)
        .wrapping_add(1442695040888963407);
    (*state >> 32) as u32
}

// Adds of 40,000 intervals in ten batches, and the total weight of those that meet the interval from 500,000 to 500,999.
fn great_load(alloc: Global) -> Result<(String, i64), Fail> {
    let mut input = String::new(alloc);
    let mut total = 0_i64;
    let mut state = 17;
    for id in 1..40001u32 {
        let low = draw(&mut state) % 1000000;
        let high = low + draw(&mut state) % 1000;
        let weight = i64::from(draw(&mut state) % 2001) - 1000;
        if low <= 500999 && 500000 <= high {
            total = total.wrapping_add(weight);
        }
        input.push_str(format!(in alloc; "add,1,{id},{low},{high},{weight}\n")?.as_str())?;
        if id % 4000 == 0 {
            input.push_str("commit,1\n")?;
        }
    }
    Ok((input, total))
}

#[test]
fn forty_thousand_objects(rt: HostRuntime) -> Result<(), Fail> {
    let alloc = rt.alloc();
    let (input, total) = great_load(alloc)?;
    let (ran, _) = run_over(alloc, "create 1", b"", PlainDisk::blank(alloc))?;
    let (ran, _) = run_over(alloc, "run", input.as_bytes(), ran.disk)?;
    assert_eq!(rt; ran.status, Status::Fine);
    let before = ran.disk.reads();
    let (ran, sink) = run_over(alloc, "run", b"sum,now,500000,500999\n", ran.disk)?;
    let expected = format!(in alloc; "sum,10,{total}\n")?;
    assert_eq!(rt; sink.bytes(), expected.as_bytes());
    assert!(rt; ran.disk.reads().saturating_sub(before) <= 22);
    Ok(())
}
