//! Nodes of a multiversion tree: a leaf through the three additions of a small tree, an entry beside others, a child in two, copies.
ghost use Rattle.std.specs.Prelude.{◌≡◌, ◌≤◌, ◌∷◌, [], length};
ghost use Rattle.mv_pages.specs.Alive.{AreEntriesOf, IsChangeable};
ghost use Rattle.mv_pages.specs.Edits.{new_entry};

use arrayvec::ArrayVec;
use mv_pages::{
    Copied, Reached, add_at, add_beside, child_at, close_and_copy, is_alive, is_changeable,
    later_laws, new_child, reached_at, said_on, value_at,
};
use page_layout::{MvEntry, MvNode, Spelled, View};
use std::test::Fail;

fn leaf_entry(low: u64, value: u128) -> MvEntry
    ensures { result ≡ new_entry low 1 value 0 }
{
    MvEntry {
        low,
        start: 1,
        end: 4294967295,
        value,
        child: 0,
    }
}

// The leaf of an addition of 5 at 10 and version 1.
fn first_leaf() -> MvNode
    ensures leaf { result.level ≡ 1 }
    ensures entries { AreEntriesOf result.level result.entries.items }
    ensures changeable { IsChangeable 1 result.entries.items }
    ensures room { length result.entries.items ≤ 2 }
{
    let mut entries = ArrayVec::new();
    entries.push(leaf_entry(0, 0));
    entries.push(leaf_entry(10, 5));
    MvNode {
        level: 1,
        place: 1,
        before: 0,
        entries,
    }
}

#[test]
fn three_additions(rt: HostRuntime) -> Result<(), Fail> {
    let mut leaf = first_leaf();
    add_at(&mut leaf, 20, 1, 7);
    later_laws();
    add_at(&mut leaf, 5, 2, 1);
    assert!(rt; value_at(&leaf, 25, 0) == 0 && value_at(&leaf, 9, 1) == 0);
    assert!(rt; value_at(&leaf, 10, 1) == 5 && value_at(&leaf, 25, 1) == 12);
    assert!(rt; value_at(&leaf, 4, 2) == 0 && value_at(&leaf, 5, 2) == 1);
    assert!(rt; value_at(&leaf, 25, 2) == 13);
    assert!(rt; child_at(&leaf, 25, 2) == None);
    Ok(())
}

fn index_entry(low: u64, value: u128, child: u64) -> MvEntry
    ensures { result ≡ new_entry low 1 value child }
{
    MvEntry {
        low,
        start: 1,
        end: 4294967295,
        value,
        child,
    }
}

// An index node: keys below 10 lead to the page 3, and those from there on to the page 4.
fn index_node() -> MvNode
    ensures level { result.level ≡ 2 }
    ensures entries { AreEntriesOf result.level result.entries.items }
    ensures items { result.entries.items ≡ new_entry 0 1 5 3 ∷ new_entry 10 1 7 4 ∷ [] }
{
    let mut entries = ArrayVec::new();
    entries.push(index_entry(0, 5, 3));
    entries.push(index_entry(10, 7, 4));
    MvNode {
        level: 2,
        place: 1,
        before: 0,
        entries,
    }
}

// What a node says is the same where its page is read.
fn is_same_on_its_page(node: &MvNode, key: u64, version: u32) -> bool {
    if !node.keeps_rules() {
        return false;
    }
    let mut page = [0; 4096];
    node.write(&mut page);
    let Some(view) = View::<MvNode>::on(&page) else {
        return false;
    };
    let said = said_on(&view, key, version);
    said.reached == reached_at(node, key, version) && said.value == value_at(node, key, version)
}

#[test]
fn an_addition_beside(rt: HostRuntime) -> Result<(), Fail> {
    let mut node = index_node();
    if is_changeable(&node, 2) {
        add_beside(&mut node, 5, 2, 1);
    }
    assert!(rt; node.entries.len() == 3 && !is_changeable(&node, 1));
    assert!(rt; value_at(&node, 5, 2) == 5 && value_at(&node, 10, 1) == 12);
    assert!(rt; value_at(&node, 10, 2) == 13 && value_at(&node, 10, 3) == 13);
    let reached = Reached {
        child: 3,
        low: 0,
        next: Some(10),
    };
    assert!(rt; reached_at(&node, 5, 1) == Some(reached));
    assert!(rt; reached_at(&node, 5, 2) == Some(reached));
    assert!(rt; is_same_on_its_page(&node, 5, 1) && is_same_on_its_page(&node, 9, 2));
    Ok(())
}

#[test]
fn a_child_in_two(rt: HostRuntime) -> Result<(), Fail> {
    let mut node = index_node();
    if is_changeable(&node, 2) {
        new_child(&mut node, 5, 2, 8, Some((7, 9)));
    }
    assert!(rt; node.entries.len() == 4);
    assert!(rt; child_at(&node, 5, 1) == Some(3) && child_at(&node, 7, 1) == Some(3));
    assert!(rt; child_at(&node, 6, 2) == Some(8) && child_at(&node, 7, 2) == Some(9));
    assert!(rt; child_at(&node, 10, 2) == Some(4) && child_at(&node, 5, 0) == None);
    let reached = Reached {
        child: 9,
        low: 7,
        next: Some(10),
    };
    assert!(rt; reached_at(&node, 8, 2) == Some(reached));
    assert!(rt; value_at(&node, 8, 2) == 5 && value_at(&node, 8, 1) == 5);
    Ok(())
}

// A leaf of 49 entries that are alive at version 2, of which 48 start at 1.
fn leaf_of_49() -> MvNode
    ensures entries { AreEntriesOf result.level result.entries.items }
    ensures changeable { IsChangeable 1 result.entries.items }
{
    let mut leaf = first_leaf();
    for i in 0..47_u64 {
        add_at(&mut leaf, 100 + i, 1, 1);
    }
    leaf
}

#[test]
fn a_leaf_is_copied(rt: HostRuntime) -> Result<(), Fail> {
    let leaf = leaf_of_49();
    assert!(rt; leaf.entries.len() == 49);
    later_laws();
    match close_and_copy(&leaf, 2) {
        Copied::One(_) => assert!(rt; false),
        Copied::Two(first, cut, second) => {
            assert!(rt; first.entries.len() == 24 && second.entries.len() == 25);
            assert!(rt; cut == 122 && second.entries.as_slice()[0].start == 2);
            assert!(rt; value_at(&first, 121, 2) == 27 && value_at(&second, 122, 2) == 28);
            assert!(rt; value_at(&second, 146, 2) == 52 && value_at(&leaf, 146, 1) == 52);
        }
    }
    Ok(())
}

// A node of two alive entries is copied into one, which begins at the version.
fn is_copied_into_one() -> bool {
    let node = index_node();
    if !is_changeable(&node, 2) {
        return false;
    }
    match close_and_copy(&node, 2) {
        Copied::One(copy) => {
            copy.entries.len() == 2
                && child_at(&copy, 12, 2) == Some(4)
                && child_at(&copy, 12, 1) == None
                && value_at(&copy, 12, 2) == 12
        }
        Copied::Two(_, _, _) => false,
    }
}

#[test]
fn a_node_is_copied_into_one(rt: HostRuntime) -> Result<(), Fail> {
    assert!(rt; is_copied_into_one());
    Ok(())
}

// The last version is past every closed entry, and an open one is alive there too.
#[test]
fn alive_from_start_to_end(rt: HostRuntime) -> Result<(), Fail> {
    let mut e = index_entry(0, 5, 3);
    assert!(rt; !is_alive(&e, 0) && is_alive(&e, 1) && is_alive(&e, u32::MAX));
    e.end = 4;
    assert!(rt; is_alive(&e, 3) && !is_alive(&e, 4));
    e.end = u32::MAX - 1;
    assert!(rt;
        is_alive(&e, u32::MAX - 2) && !is_alive(&e, u32::MAX - 1) && !is_alive(&e, u32::MAX)
    );
    assert!(rt; is_same_on_its_page(&index_node(), 10, u32::MAX));
    Ok(())
}
