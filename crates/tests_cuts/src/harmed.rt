//! Trees of cuts of which a page is broken: each call returns, and what it refuses is damage.
use crate::samples::{
    GREATEST, add, built, collected, draw, drop_all, point_at, read_cuts, row, sum, total,
};
use bw_types::Tree;
use page_layout::{CutNode, CutPage, Spelled};
use ports::{FREE_PAGE, MemStage, Page, PageFault, Pages, Stage, StageFault, blank_page};
use std::alloc::Global;
use std::test::Fail;
use std::time::{Duration, Instant};

const COUNT: u32 = 300;

/// A tree of so many points in a row.
fn row_tree(
    alloc: Global,
    stage: &mut MemStage,
    three: bool,
    count: u32,
) -> Result<Tree, StageFault> {
    let mut points = row(alloc, count).map_err(|_| StageFault::NoMemory)?;
    built(alloc, stage, three, points.as_mut_slice())
}

/// Puts these bytes in the place of the page, where it is in use, and tells whether it is.
fn overwritten<S: Stage>(stage: &mut S, page: u64, bytes: &Page) -> Result<bool, StageFault> {
    let mut kept = blank_page();
    if bytes[0] == FREE_PAGE {
        return Ok(false);
    }
    match stage.get(page, &mut kept) {
        Err(_) => Ok(false),
        Ok(()) => {
            stage.put(page, bytes)?;
            Ok(true)
        }
    }
}

/// How the calls to a tree answered.
#[derive(Clone, Copy)]
struct Answers {
    total: Result<u128, PageFault>,
    low: Result<u128, PageFault>,
    kept: Result<usize, StageFault>,
    added: Result<(), StageFault>,
    dropped: Result<(), StageFault>,
}

/// Asks a tree for the sum of all and of its first points, collects it, adds a point to it and frees it.
fn ask(alloc: Global, stage: &mut MemStage, three: bool, tree: &Tree) -> Answers {
    let mut tree = *tree;
    let point = point_at(0, tree.count);
    let found = total(stage, three, &tree);
    let low = sum(stage, three, &tree, &[9, GREATEST, GREATEST], 1);
    let kept = match collected(alloc, stage, three, &tree) {
        Ok(points) => Ok(points.len()),
        Err(fault) => Err(fault),
    };
    let added = add(alloc, stage, three, &mut tree, &point);
    Answers {
        total: found,
        low,
        kept,
        added,
        dropped: drop_all(stage, three, &tree),
    }
}

fn is_damage(fault: StageFault) -> bool {
    match fault {
        StageFault::Damaged(_) => true,
        _ => false,
    }
}

fn is_read<T: Drop>(answer: Result<T, PageFault>) -> bool {
    match answer {
        Ok(_) => true,
        Err(fault) => fault != PageFault::Disk,
    }
}

fn is_done<T: Drop>(answer: Result<T, StageFault>) -> bool {
    match answer {
        Ok(_) => true,
        Err(fault) => is_damage(fault),
    }
}

/// Whether each call answered, or called a page damaged.
fn answer_or_damage(answers: &Answers) -> bool {
    is_read(answers.total)
        && is_read(answers.low)
        && is_done(answers.kept)
        && is_done(answers.added)
        && is_done(answers.dropped)
}

/// Whether the answer is this, or this page was called damaged.
fn is_right<T: Drop + PartialEq>(answer: Result<T, StageFault>, value: T, page: u64) -> bool {
    match answer {
        Ok(found) => found == value,
        Err(fault) => fault == StageFault::Damaged(page),
    }
}

/// Whether each call before the free answered rightly, or called this page damaged.
fn name_page(answers: &Answers, page: u64) -> bool {
    is_right(
        answers.total.map_err(StageFault::from),
        u128::from(COUNT),
        page,
    ) && is_right(answers.low.map_err(StageFault::from), 1, page)
        && is_right(answers.kept, COUNT as usize, page)
        && is_right(answers.added, (), page)
}

/// Whether the calls name a page in whose place these bytes are. A tree is freed where no addition was refused before.
fn bytes_are_seen(alloc: Global, three: bool, page: u64, bytes: &Page) -> Result<bool, StageFault> {
    let mut stage = MemStage::new(alloc, 100000);
    let tree = row_tree(alloc, &mut stage, three, COUNT)?;
    if !overwritten(&mut stage, page, bytes)? {
        return Ok(true);
    }
    let answers = ask(alloc, &mut stage, three, &tree);
    let mut stage = MemStage::new(alloc, 100000);
    let tree = row_tree(alloc, &mut stage, three, COUNT)?;
    overwritten(&mut stage, page, bytes)?;
    let dropped = drop_all(&mut stage, three, &tree);
    Ok(name_page(&answers, page) && is_done(answers.dropped) && is_right(dropped, (), page))
}

/// The bytes of a page; zeros where there is none.
fn bytes_of(stage: &mut MemStage, page: u64) -> Page {
    let mut bytes = blank_page();
    match stage.get(page, &mut bytes) {
        Ok(()) => bytes,
        Err(_) => [0; 4096],
    }
}

#[test]
fn a_page_of_noise(rt: HostRuntime) -> Result<(), Fail> {
    for three in [false, true] {
        let mut stage = MemStage::new(rt.alloc(), 100000);
        row_tree(rt.alloc(), &mut stage, three, COUNT)?;
        for page in 3..stage.allotted() {
            assert!(rt; bytes_are_seen(rt.alloc(), three, page, &[255; 4096])?);
            assert!(rt; bytes_are_seen(rt.alloc(), three, page, &[0; 4096])?);
            // A count that is too great, and a last byte that no page names.
            let mut bytes = bytes_of(&mut stage, page);
            bytes[2] = 255;
            assert!(rt; bytes_are_seen(rt.alloc(), three, page, &bytes)?);
            let mut bytes = bytes_of(&mut stage, page);
            bytes[4095] = 1;
            assert!(rt; bytes_are_seen(rt.alloc(), three, page, &bytes)?);
        }
    }
    Ok(())
}

/// Whether each call to a tree returns where these bytes are in the place of the page.
fn bytes_are_met(alloc: Global, three: bool, page: u64, bytes: &Page) -> Result<bool, StageFault> {
    let mut stage = MemStage::new(alloc, 100000);
    let tree = row_tree(alloc, &mut stage, three, COUNT)?;
    Ok(
        !overwritten(&mut stage, page, bytes)?
            || answer_or_damage(&ask(alloc, &mut stage, three, &tree)),
    )
}

#[test]
fn each_page_in_the_place_of_each(rt: HostRuntime) -> Result<(), Fail> {
    for three in [false, true] {
        let mut stage = MemStage::new(rt.alloc(), 100000);
        row_tree(rt.alloc(), &mut stage, three, COUNT)?;
        for page in 3..stage.allotted() {
            for other in 3..stage.allotted() {
                let bytes = bytes_of(&mut stage, other);
                assert!(rt; bytes_are_met(rt.alloc(), three, page, &bytes)?);
            }
        }
    }
    Ok(())
}

#[test]
fn drawn_bytes_behind_the_front(rt: HostRuntime) -> Result<(), Fail> {
    let mut state = 7;
    for three in [false, true] {
        let mut stage = MemStage::new(rt.alloc(), 100000);
        row_tree(rt.alloc(), &mut stage, three, COUNT)?;
        for page in 3..stage.allotted() {
            for _ in 0..10 {
                let mut bytes = bytes_of(&mut stage, page);
                for _ in 0..5 {
                    let place = 16 + (draw(&mut state) % 300) as usize;
                    bytes[place] = (draw(&mut state) % 256) as u8;
                }
                assert!(rt; bytes_are_met(rt.alloc(), three, page, &bytes)?);
            }
        }
    }
    Ok(())
}

/// Whether all calls to a tree of so many points return within a second where these bytes are in the place of the page.
fn calls_end_soon(
    rt: &HostRuntime,
    three: bool,
    count: u32,
    page: u64,
    bytes: &Page,
) -> Result<bool, Fail> {
    let mut stage = MemStage::new(rt.alloc(), 100000);
    let tree = row_tree(rt.alloc(), &mut stage, three, count)?;
    if !overwritten(&mut stage, page, bytes)? {
        return Ok(true);
    }
    let begun = Instant::now(rt)?;
    let answers = ask(rt.alloc(), &mut stage, three, &tree);
    Ok(answer_or_damage(&answers) && begun.elapsed(rt)? < Duration::from_secs(1))
}

/// Whether that holds of each page of such a tree with noise in it, with a page that the tree has elsewhere, and with its first bytes
/// before noise.
fn pages_are_met_soon(rt: &HostRuntime, three: bool, count: u32) -> Result<bool, Fail> {
    let mut state = u64::from(count);
    let mut stage = MemStage::new(rt.alloc(), 100000);
    let tree = row_tree(rt.alloc(), &mut stage, three, count)?;
    for page in 3..stage.allotted() {
        let mut noise = [255; 4096];
        for byte in noise.as_mut_slice() {
            *byte = (draw(&mut state) % 256) as u8;
        }
        let mut begun = bytes_of(&mut stage, page);
        for place in 64..4096 {
            begun[place] = noise[place];
        }
        let root = bytes_of(&mut stage, tree.root);
        let next = bytes_of(&mut stage, page.saturating_add(1));
        if !calls_end_soon(rt, three, count, page, &noise)?
            || !calls_end_soon(rt, three, count, page, &begun)?
            || !calls_end_soon(rt, three, count, page, &root)?
            || !calls_end_soon(rt, three, count, page, &next)?
        {
            return Ok(false);
        }
    }
    Ok(true)
}

#[test]
fn each_page_of_a_greater_tree(rt: HostRuntime) -> Result<(), Fail> {
    assert!(rt; pages_are_met_soon(&rt, false, 2000)?);
    Ok(())
}

#[test]
fn each_page_of_a_greater_tree_in_three_dimensions(rt: HostRuntime) -> Result<(), Fail> {
    assert!(rt; pages_are_met_soon(&rt, true, 600)?);
    Ok(())
}

/// How a page of cuts is changed.
#[derive(Clone, Copy)]
enum Turn {
    /// Each entry leads to this page.
    Entries(u64),
    /// Each border begins with this page.
    Borders(u64),
    /// Each cut has too many points low.
    Low,
    /// Each border counts a point too many.
    Count,
}

fn turned_border(border: &mut Tree, turn: Turn) {
    if border.count == 0 {
        return;
    }
    match turn {
        Turn::Borders(page) => border.root = page,
        Turn::Count => border.count = border.count.saturating_add(1),
        _ => {}
    }
}

fn turned_node(node: &mut CutNode, turn: Turn) {
    match node {
        CutNode::Entry { child } => {
            if let Turn::Entries(page) = turn {
                *child = page;
            }
        }
        CutNode::Cut {
            dimension: _,
            key: _,
            low,
            border,
        } => {
            if let Turn::Low = turn {
                *low = u32::MAX;
            }
            turned_border(border, turn);
        }
    }
}

/// Changes a page of cuts so.
fn turned(stage: &mut MemStage, page: u64, turn: Turn) -> Result<bool, StageFault> {
    let mut cuts: CutPage = read_cuts(stage, page)?;
    for node in cuts.nodes.as_mut_slice() {
        turned_node(node, turn);
    }
    if !cuts.keeps_rules() {
        return Ok(false);
    }
    let mut bytes = blank_page();
    cuts.write(&mut bytes);
    overwritten(stage, page, &bytes)
}

/// The two pages below a root of one cut.
fn two_below(stage: &mut MemStage, root: u64) -> Result<[u64; 2], StageFault> {
    let cuts = read_cuts(stage, root)?;
    if let [
        _,
        CutNode::Entry { child: low },
        CutNode::Entry { child: high },
    ] = cuts.nodes.as_slice()
    {
        return Ok([*low, *high]);
    }
    Err(StageFault::Damaged(root))
}

/// Enough points for two pages of cuts below the root.
const MANY: u32 = 4200;

/// Whether each call returns where a page of cuts leads to itself or to the root; `place` is 0 for the root, 1 and 2 for those below.
fn cycles_end(
    alloc: Global,
    three: bool,
    place: usize,
    itself: bool,
    borders: bool,
) -> Result<bool, StageFault> {
    let mut stage = MemStage::new(alloc, 1000000);
    let tree = row_tree(alloc, &mut stage, three, MANY)?;
    let [low, high] = two_below(&mut stage, tree.root)?;
    let page = match place {
        0 => tree.root,
        1 => low,
        _ => high,
    };
    let to = if itself { page } else { tree.root };
    let turn = if borders {
        Turn::Borders(to)
    } else {
        Turn::Entries(to)
    };
    let answers = if turned(&mut stage, page, turn)? {
        ask(alloc, &mut stage, three, &tree)
    } else {
        return Ok(false);
    };
    // The way to the greatest keys meets the page, unless this is the low one; each entry is collected.
    Ok(
        answer_or_damage(&answers)
            && (place == 1 || answers.total.is_err())
            && (borders || answers.kept.is_err()),
    )
}

#[test]
fn pages_that_lead_back(rt: HostRuntime) -> Result<(), Fail> {
    for three in [false, true] {
        for place in 0..3usize {
            for borders in [false, true] {
                assert!(rt; cycles_end(rt.alloc(), three, place, true, borders)?);
                assert!(rt; cycles_end(rt.alloc(), three, place, false, borders)?);
            }
        }
    }
    Ok(())
}

#[test]
fn numbers_that_are_too_great(rt: HostRuntime) -> Result<(), Fail> {
    for three in [false, true] {
        for turn in [Turn::Low, Turn::Count] {
            let mut stage = MemStage::new(rt.alloc(), 100000);
            let tree = row_tree(rt.alloc(), &mut stage, three, COUNT)?;
            assert!(rt; turned(&mut stage, tree.root, turn)?);
            let answers = ask(rt.alloc(), &mut stage, three, &tree);
            assert!(rt; answer_or_damage(&answers));
            assert_eq!(rt; answers.total, Err(PageFault::Damaged(tree.root)));
            assert_eq!(rt; answers.added, Err(StageFault::Damaged(tree.root)));
        }
        for count in [COUNT + 1, 0x7fff_ffff, 0x8000_0000, u32::MAX] {
            let mut stage = MemStage::new(rt.alloc(), 100000);
            let mut tree = row_tree(rt.alloc(), &mut stage, three, COUNT)?;
            tree.count = count;
            let answers = ask(rt.alloc(), &mut stage, three, &tree);
            assert!(rt; answer_or_damage(&answers));
            assert!(rt; answers.total.is_err() && answers.kept.is_err());
            assert!(rt; answers.dropped.is_err());
        }
    }
    Ok(())
}
