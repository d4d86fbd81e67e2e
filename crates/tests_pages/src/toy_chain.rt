//! A toy chain of pages, whose changes are framed by the public laws alone, and the calls of `MemStage`.
ghost use Rattle.std.specs.Prelude.{◌≡◌, IsTrue, IsSome, IfOk, OnOk};
ghost use Rattle.ports.specs.MemStage.{page_map};
ghost use Rattle.ports.specs.Frame.{AgreeOn, AreApart, AreInMap, KeepsPages, Replaces};

use ports::{
    FREE_PAGE, MemStage, Page, PageFault, Pages, Stage, StageFault, blank_page, changes_compose,
};
use std::alloc::Global;
use std::test::Fail;

/// The kind of a page of the chain.
const CHAIN_PAGE: u8 = 1;

// Gives the chain a page more.
fn grow<S: Stage>(stage: &mut S, chain: &mut Vec<u64>) -> Result<(), StageFault>
    ensures change { OnOk result (IsTrue (S.tells stage.old)
        → Replaces chain.old.items chain.new.items (S.map stage.old) (S.map stage.new)) }
    ensures keeps { OnOk result (IsTrue (S.tells stage.old) → KeepsPages (S.map stage.old) (S.map stage.new)) }
    ensures tells { S.tells stage.new ≡ S.tells stage.old }
{
    let page = stage.allot()?;
    let mut bytes = blank_page();
    bytes[0] = CHAIN_PAGE;
    stage.put(page, &bytes)?;
    chain.push(page).map_err(|_| StageFault::NoMemory)
}

// Two changes of one chain compose, and a chain apart from it stays.
fn grow_twice<S: Stage>(
    stage: &mut S,
    chain: &mut Vec<u64>,
    other: &[u64],
) -> Result<(), StageFault>
    ensures change { OnOk result (IsTrue (S.tells stage.old)
        → Replaces chain.old.items chain.new.items (S.map stage.old) (S.map stage.new)) }
    ensures other { OnOk result (IsTrue (S.tells stage.old)
        → AreInMap (S.map stage.old) other.now → AreApart other.now chain.old.items
        → AgreeOn other.now (S.map stage.old) (S.map stage.new)) }
{
    grow(stage, chain)?;
    grow(stage, chain)
}

#[test]
fn changes_of_two_chains(rt: HostRuntime) -> Result<(), Fail> {
    let mut stage = MemStage::new(rt.alloc(), 10);
    let mut one = Vec::new(rt.alloc());
    let mut two = Vec::new(rt.alloc());
    grow(&mut stage, &mut one)?;
    grow_twice(&mut stage, &mut two, &one)?;
    assert_eq!(rt; one.as_slice(), [3].as_slice());
    assert_eq!(rt; two.as_slice(), [4, 5].as_slice());
    assert_eq!(rt; stage.allotted(), 6);
    Ok(())
}

fn first_byte(stage: &mut MemStage, page: u64) -> Result<u8, PageFault>
    ensures { page_map stage.new ≡ page_map stage.old }
{
    let mut buf = [FREE_PAGE; 4096];
    stage.get(page, &mut buf)?;
    Ok(buf[0])
}

// Gives out a page and overwrites it.
fn written<S: Stage>(stage: &mut S) -> Result<u64, StageFault>
    ensures { IfOk result (λ page. IsTrue (S.tells stage.new) → IsSome (S.map stage.new page)) }
{
    let page = stage.allot()?;
    stage.put(page, &[7; 4096])?;
    Ok(page)
}

fn written_and_freed<S: Stage>(stage: &mut S) -> Result<u64, StageFault> {
    let page = written(stage)?;
    stage.free(page)?;
    Ok(page)
}

#[test]
fn gives_out_overwrites_and_frees(rt: HostRuntime) -> Result<(), Fail> {
    let mut stage = MemStage::new(rt.alloc(), 5);
    assert_eq!(rt; stage.allotted(), 3);
    assert_eq!(rt; first_byte(&mut stage, 3), Err(PageFault::Damaged(3)));

    assert_eq!(rt; stage.allot(), Ok(3));
    assert_eq!(rt; first_byte(&mut stage, 3), Ok(0));
    assert_eq!(rt; written(&mut stage), Ok(4));
    assert_eq!(rt; first_byte(&mut stage, 4), Ok(7));

    assert_eq!(rt; stage.allot(), Err(StageFault::PageLimit(5)));
    assert_eq!(rt; first_byte(&mut stage, 4), Ok(7));
    assert_eq!(rt; stage.gets(), 4);
    Ok(())
}

#[test]
fn a_freed_page_is_gone(rt: HostRuntime) -> Result<(), Fail> {
    let mut stage = MemStage::new(rt.alloc(), 4);
    assert_eq!(rt; written_and_freed(&mut stage), Ok(3));
    assert_eq!(rt; first_byte(&mut stage, 3), Err(PageFault::Damaged(3)));
    assert_eq!(rt; stage.allotted(), 4);
    Ok(())
}

#[test]
fn the_page_freed_last_is_given_out_first(rt: HostRuntime) -> Result<(), Fail> {
    let mut stage = MemStage::new(rt.alloc(), 6);
    assert_eq!(rt; written_and_freed(&mut stage), Ok(3));
    assert_eq!(rt; written(&mut stage), Ok(3));
    assert_eq!(rt; written_and_freed(&mut stage), Ok(4));
    assert_eq!(rt; stage.allot(), Ok(4));
    assert_eq!(rt; first_byte(&mut stage, 4), Ok(0));
    assert_eq!(rt; first_byte(&mut stage, 3), Ok(7));
    assert_eq!(rt; stage.allot(), Ok(5));
    assert_eq!(rt; stage.allot(), Err(StageFault::PageLimit(6)));
    Ok(())
}

#[test]
fn laws_do_nothing(_: HostRuntime) -> Result<(), Fail> {
    changes_compose();
    Ok(())
}

// Reads a page and overwrites it.
fn put_again<S: Stage>(stage: &mut S, page: u64) -> Result<(), StageFault> {
    let mut buf = blank_page();
    stage.get(page, &mut buf)?;
    stage.put(page, &[7; 4096])
}

#[test]
fn hands_on_the_refusal_of_a_get(rt: HostRuntime) -> Result<(), Fail> {
    let mut stage = MemStage::new(rt.alloc(), 5);
    assert_eq!(rt; put_again(&mut stage, 3), Err(StageFault::Damaged(3)));
    assert_eq!(rt; stage.allot(), Ok(3));
    assert_eq!(rt; put_again(&mut stage, 3), Ok(()));
    assert_eq!(rt; first_byte(&mut stage, 3), Ok(7));
    Ok(())
}
