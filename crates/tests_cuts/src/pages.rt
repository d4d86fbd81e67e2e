//! Pages of cuts by hand: the entry whose region holds some keys, and a page of 65 entries that is split.
ghost use Rattle.cut_parts.specs.Nodes.{AreNodes};
ghost use Rattle.bw_types.specs.Empty.{empty_tree};
ghost use Rattle.page_layout.specs.CutPage.{entry_count};
ghost use Rattle.page_layout.specs.declared.cut_page.CutNode.TheVariants.{Cut, Entry};
ghost use Rattle.std.specs.Prelude.{◌≡◌, ◌≤◌, length};

use arrayvec::ArrayVec;
use bw_types::{Region, Tree};
use cut_parts::{find, region_of, split_first_cut};
use page_layout::{CutNode, CutPage};
use std::test::Fail;

// Where the regions of trees end, 2^64 - 2^32.
const END: u64 = 0xffff_ffff_0000_0000;

// The region of a root over two dimensions.
const ROOT: Region = Region {
    low: [0, 0, 0],
    high: [END, END, 1],
};

fn entry(child: u64) -> CutNode
    ensures { result ≡ Entry child }
{
    CutNode::Entry { child }
}

fn cut(dimension: u8, key: u64) -> CutNode
    ensures { result ≡ Cut dimension key 1 empty_tree }
{
    CutNode::Cut {
        dimension,
        key,
        low: 1,
        border: Tree::default(),
    }
}

// The nodes in a page of their own.
fn page_of(nodes: &[CutNode]) -> CutPage
    requires { length nodes.now ≤ 129 }
    ensures { result.nodes.items ≡ nodes.now }
{
    let mut copy = ArrayVec::new();
    let _fits = copy.try_extend_from_slice(nodes);
    CutPage { nodes: copy }
}

// A cut of dimension 0 at 100, with one of dimension 1 at 40 on its low side.
fn low_cut() -> CutPage
    ensures nodes { AreNodes result.nodes.items }
    ensures entries { entry_count result.nodes.items ≡ 3 }
{
    page_of(&[cut(0, 100), cut(1, 40), entry(3), entry(4), entry(5)])
}

// A cut of dimension 1 at 40, with one of dimension 0 at 100 on its high side, and one of dimension 1 at 70 on the high side of this.
fn high_cuts() -> CutPage
    ensures nodes { AreNodes result.nodes.items }
    ensures entries { entry_count result.nodes.items ≡ 4 }
{
    page_of(&[
        cut(1, 40),
        entry(3),
        cut(0, 100),
        entry(4),
        cut(1, 70),
        entry(5),
        entry(6),
    ])
}

fn region(low: [u64; 3], high: [u64; 3]) -> Region {
    Region { low, high }
}

#[test]
fn three_entries_are_found(rt: HostRuntime) -> Result<(), Fail> {
    let page = low_cut();
    let first = region([0, 0, 0], [100, 40, 1]);
    let second = region([0, 40, 0], [100, END, 1]);
    let third = region([100, 0, 0], [END, END, 1]);
    assert!(rt; find(&page, &ROOT, &[99, 39, 0]) == (0, first));
    assert!(rt; find(&page, &ROOT, &[99, 40, 0]) == (1, second));
    assert!(rt; find(&page, &ROOT, &[100, 0, 0]) == (2, third));
    assert!(rt; region_of(&page, &ROOT, 0) == first);
    assert!(rt; region_of(&page, &ROOT, 1) == second);
    assert!(rt; region_of(&page, &ROOT, 2) == third);
    Ok(())
}

#[test]
fn entries_of_high_sides_are_found(rt: HostRuntime) -> Result<(), Fail> {
    let page = high_cuts();
    let first = region([0, 0, 0], [END, 40, 1]);
    let second = region([0, 40, 0], [100, END, 1]);
    let third = region([100, 40, 0], [END, 70, 1]);
    let fourth = region([100, 70, 0], [END, END, 1]);
    assert!(rt; find(&page, &ROOT, &[100, 39, 0]) == (0, first));
    assert!(rt; find(&page, &ROOT, &[99, 70, 0]) == (1, second));
    assert!(rt; find(&page, &ROOT, &[100, 69, 0]) == (2, third));
    assert!(rt; find(&page, &ROOT, &[END - 1, 70, 0]) == (3, fourth));
    assert!(rt; region_of(&page, &ROOT, 0) == first);
    assert!(rt; region_of(&page, &ROOT, 1) == second);
    assert!(rt; region_of(&page, &ROOT, 2) == third);
    assert!(rt; region_of(&page, &ROOT, 3) == fourth);
    Ok(())
}

// A cut of dimension 1 at 77 with so many points low, and their border.
fn first_cut(low: u32) -> CutNode {
    CutNode::Cut {
        dimension: 1,
        key: 77,
        low,
        border: Tree {
            root: 9,
            levels: 1,
            count: low,
            changes: 1,
            last: 9,
        },
    }
}

// Makes these nodes a part in which each cut has one entry low.
fn make_part(nodes: &mut [CutNode; 129], from: usize, to: usize) {
    for place in from..to {
        if place < 129 {
            let is_cut = place % 2 == from % 2 && place + 1 != to;
            nodes[place] = if is_cut {
                cut(0, 100 + place as u64)
            } else {
                entry(3 + place as u64)
            };
        }
    }
}

// Whether a page of 65 entries, whose high side begins at this node, is split into its first cut and the nodes of the two sides.
fn is_split_at(high: usize) -> bool
    requires { (1 ≤ high) × (high ≤ 129) }
{
    let first = first_cut(700);
    let mut nodes = [first; 129];
    make_part(&mut nodes, 1, high);
    make_part(&mut nodes, high, 129);
    let (front, highs) = nodes.split_at(high);
    let (_, lows) = front.split_at(1);
    match split_first_cut(&page_of(&nodes)) {
        None => false,
        Some(sides) => {
            sides.cut == first && sides.low == page_of(lows) && sides.high == page_of(highs)
        }
    }
}

#[test]
fn one_entry_low_and_64_high(rt: HostRuntime) -> Result<(), Fail> {
    assert!(rt; is_split_at(2));
    Ok(())
}

#[test]
fn thirty_entries_low_and_35_high(rt: HostRuntime) -> Result<(), Fail> {
    assert!(rt; is_split_at(60));
    Ok(())
}
