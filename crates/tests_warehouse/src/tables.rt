//! Tables in memory that are read back, and lives that tell a history or none.
ghost use Rattle.std.specs.Prelude.{◌≡◌, ◌≤◌, IsTrue};
ghost use Rattle.page_layout.specs.Dated.{by_life_fits};

use arrayvec::ArrayVec;
use bw_types::{Dated, Object, Params, Tree};
use image_check::{Told, are_lives, is_lawful, judge, numbers_hold, read_table, told_events};
use object_table::{Form, enter};
use page_layout::{Meta, Spelled, TableEntry, TableNode, make_page};
use page_warehouse::Event;
use ports::{MemStage, Pages, Stage, StageFault, blank_page};
use std::test::Fail;

fn point(id: u64) -> Object {
    Object {
        id,
        low: [0; 3],
        high: [0; 3],
        weight: 1,
        coeffs: [0; 27],
    }
}

// The first life of the id, which was added in version 1 by the event of that number and lives on.
fn first(id: u32) -> Dated
    ensures { IsTrue (by_life_fits result) }
{
    Dated {
        object: Object {
            id: u64::from(id),
            low: [0; 3],
            high: [0; 3],
            weight: 1,
            coeffs: [0; 27],
        },
        life: 1,
        added: 1,
        add_event: id,
        withdrawn: 0,
        withdraw_event: 0,
    }
}

// A table of the first lives of the ids from 0 on.
fn entered(stage: &mut MemStage, count: u32) -> Result<Tree, StageFault> {
    let mut table = Tree::default();
    for id in 0..count {
        enter(stage, &mut table, &first(id))?;
    }
    Ok(table)
}

// Whether the lives are the first ones of the ids from 0 on.
fn are_first(lives: &[Dated], count: u32) -> bool {
    let mut next = 0;
    for dated in lives {
        if next >= count || *dated != first(next) {
            return false;
        }
        next += 1;
    }
    next == count
}

// Changes one byte of a page.
fn change_byte(stage: &mut MemStage, page: u64, place: usize) -> Result<(), StageFault> {
    let mut bytes = blank_page();
    if stage.get(page, &mut bytes).is_err() || place >= 4096 {
        return Err(StageFault::Damaged(page));
    }
    bytes[place] = 255 - bytes[place];
    if bytes[0] == 9 {
        return Err(StageFault::Damaged(page));
    }
    stage.put(page, &bytes)
}

#[test]
fn a_table_that_was_entered_is_read(rt: HostRuntime) -> Result<(), Fail> {
    let mut stage = MemStage::new(rt.alloc(), 100);
    let table = entered(&mut stage, 40)?;
    assert_eq!(rt; table.levels, 2);
    match read_table(rt.alloc(), &mut stage, Form::ByLives, &table)? {
        Some(found) => {
            assert!(rt; are_first(found.lives.as_slice(), 40));
            assert_eq!(rt; found.pages.len() as u64 + 3, stage.allotted());
        }
        None => assert!(rt; false),
    }
    let more = Tree { count: 41, ..table };
    assert!(rt; read_table(rt.alloc(), &mut stage, Form::ByLives, &more)?.is_none());
    assert!(rt; read_table(rt.alloc(), &mut stage, Form::ByIds, &table)?.is_none());
    change_byte(&mut stage, 3, 4095)?;
    assert!(rt; read_table(rt.alloc(), &mut stage, Form::ByLives, &table)?.is_none());
    Ok(())
}

#[test]
fn the_empty_table_is_read(rt: HostRuntime) -> Result<(), Fail> {
    let mut stage = MemStage::new(rt.alloc(), 100);
    let table = Tree::default();
    match read_table(rt.alloc(), &mut stage, Form::ByLives, &table)? {
        Some(found) => assert!(rt; found.lives.is_empty() && found.pages.is_empty()),
        None => assert!(rt; false),
    }
    let rooted = Tree { root: 3, ..table };
    assert!(rt; read_table(rt.alloc(), &mut stage, Form::ByLives, &rooted)?.is_none());
    Ok(())
}

// A leaf of the earlier form with these first lives.
fn old_leaf(stage: &mut MemStage, from: u32, to: u32) -> Result<u64, StageFault> {
    let mut objects = ArrayVec::new();
    for id in from..to {
        if !objects.is_full() {
            objects.push(first(id));
        }
    }
    page_of(stage, &TableNode::Leaf { objects })
}

fn page_of(stage: &mut MemStage, node: &TableNode) -> Result<u64, StageFault> {
    if !node.keeps_rules() {
        return Err(StageFault::NoMemory);
    }
    make_page(stage, node)
}

#[test]
fn the_earlier_form_is_read(rt: HostRuntime) -> Result<(), Fail> {
    let mut stage = MemStage::new(rt.alloc(), 10);
    let low = old_leaf(&mut stage, 0, 8)?;
    let high = old_leaf(&mut stage, 8, 18)?;
    let mut entries = ArrayVec::new();
    entries.push(TableEntry { low: 0, child: low });
    entries.push(TableEntry {
        low: 8,
        child: high,
    });
    let root = page_of(&mut stage, &TableNode::Index { level: 2, entries })?;
    let table = Tree {
        root,
        levels: 2,
        count: 18,
        changes: 0,
        last: 0,
    };
    match read_table(rt.alloc(), &mut stage, Form::ByIds, &table)? {
        Some(found) => assert!(rt; are_first(found.lives.as_slice(), 18)),
        None => assert!(rt; false),
    }
    assert!(rt; read_table(rt.alloc(), &mut stage, Form::ByLives, &table)?.is_none());
    change_byte(&mut stage, high, 3)?;
    assert!(rt; read_table(rt.alloc(), &mut stage, Form::ByIds, &table)?.is_none());
    Ok(())
}

// A life with the versions and event numbers of its ends.
fn life(id: u64, number: u32, begin: (u32, u32), end: (u32, u32)) -> Dated {
    Dated {
        object: point(id),
        life: number,
        added: begin.0,
        add_event: begin.1,
        withdrawn: end.0,
        withdraw_event: end.1,
    }
}

fn event(version: u32, event: u32, add: bool, id: u64) -> Event {
    Event {
        event,
        version,
        add,
        object: point(id),
    }
}

// Two objects are added, one of them is moved, then a version has no changes, and it is withdrawn.
fn five_events() -> [Event; 5] {
    [
        event(1, 0, true, 2),
        event(1, 1, true, 1),
        event(2, 2, false, 1),
        event(2, 3, true, 1),
        event(4, 4, false, 1),
    ]
}

#[test]
fn changes_are_told_in_order(rt: HostRuntime) -> Result<(), Fail> {
    let lives = five_lives();
    let expected = five_events();
    match told_events(rt.alloc(), &lives, 5)? {
        Some(events) => assert_eq!(rt; events.as_slice(), expected.as_slice()),
        None => assert!(rt; false),
    }
    assert!(rt; told_events(rt.alloc(), &lives, 3)?.is_none());
    Ok(())
}

#[test]
fn lives_that_tell_no_history(rt: HostRuntime) -> Result<(), Fail> {
    let missing = [life(1, 1, (1, 0), (0, 0)), life(2, 1, (1, 2), (0, 0))];
    assert!(rt; told_events(rt.alloc(), &missing, 1)?.is_none());
    let twice = [life(1, 1, (1, 0), (0, 0)), life(2, 1, (1, 0), (0, 0))];
    assert!(rt; told_events(rt.alloc(), &twice, 1)?.is_none());
    let falls = [life(1, 1, (2, 0), (0, 0)), life(2, 1, (1, 1), (0, 0))];
    assert!(rt; told_events(rt.alloc(), &falls, 2)?.is_none());
    let none = [life(1, 1, (0, 0), (0, 0))];
    assert!(rt; told_events(rt.alloc(), &none, 2)?.is_none());
    Ok(())
}

const LINE: Params = Params {
    dims: 1,
    degree: None,
    events: 1000000,
    pages: 1048576,
    origin: 0,
};

#[test]
fn histories_are_judged(rt: HostRuntime) -> Result<(), Fail> {
    let events = five_events();
    assert!(rt; is_lawful(rt.alloc(), &LINE, &events, 5)?);
    let twice = [event(1, 0, true, 1), event(2, 1, true, 1)];
    assert!(rt; !is_lawful(rt.alloc(), &LINE, &twice, 2)?);
    let fresh = [event(1, 0, true, 1), event(1, 1, false, 1)];
    assert!(rt; !is_lawful(rt.alloc(), &LINE, &fresh, 1)?);
    let later = [event(1, 0, true, 1), event(2, 1, false, 1)];
    assert!(rt; is_lawful(rt.alloc(), &LINE, &later, 2)?);
    let unknown = [event(1, 0, false, 1)];
    assert!(rt; !is_lawful(rt.alloc(), &LINE, &unknown, 1)?);
    Ok(())
}

fn meta(events: u32, rows: u32, mass: u128) -> Meta {
    Meta {
        lives: 1,
        version: 5,
        events,
        rows,
        allotted: 3,
        free: 0,
        mass,
        table: Tree::default(),
        roots: ArrayVec::new(),
    }
}

#[test]
fn the_numbers_of_the_meta_page(rt: HostRuntime) {
    let events = five_events();
    assert!(rt; numbers_hold(&LINE, &meta(10, 5, 0), &events));
    assert!(rt; !numbers_hold(&LINE, &meta(9, 5, 0), &events));
    assert!(rt; !numbers_hold(&LINE, &meta(10, 4, 0), &events));
    assert!(rt; !numbers_hold(&LINE, &meta(10, 5, 1), &events));
}

// The lives of those events, ascending by id and then life.
fn five_lives() -> [Dated; 3] {
    [
        life(1, 1, (1, 1), (2, 2)),
        life(1, 2, (2, 3), (4, 4)),
        life(2, 1, (1, 0), (0, 0)),
    ]
}

#[test]
fn lives_of_events(rt: HostRuntime) -> Result<(), Fail> {
    let events = five_events();
    assert!(rt; are_lives(rt.alloc(), &five_lives(), &events)?);
    let mut renumbered = five_lives();
    renumbered[1].life = 3;
    assert!(rt; !are_lives(rt.alloc(), &renumbered, &events)?);
    let crossed = [
        life(1, 1, (1, 1), (4, 4)),
        life(1, 2, (2, 3), (2, 2)),
        life(2, 1, (1, 0), (0, 0)),
    ];
    assert!(rt; !are_lives(rt.alloc(), &crossed, &events)?);
    Ok(())
}

#[test]
fn tables_are_judged(rt: HostRuntime) -> Result<(), Fail> {
    let good = meta(10, 5, 0);
    let lives = five_lives();
    assert_eq!(rt; judge(rt.alloc(), &LINE, &good, &lives)?, Told::Lawful);
    let other = meta(11, 5, 0);
    assert_eq!(rt; judge(rt.alloc(), &LINE, &other, &lives)?, Told::Unlawful);
    let mut missing = five_lives();
    missing[2].add_event = 7;
    assert_eq!(rt; judge(rt.alloc(), &LINE, &good, &missing)?, Told::Nothing);
    Ok(())
}
