//! Pages made byte by byte, read, and written again.
use bw_types::{Params, Tree};
use page_layout::{
    FreePage, JournalHead, LifeEntry, LifeNode, Meta, MvEntry, MvNode, PointLeaf, SbEntry, SbNode,
    Spelled, Super, TableEntry, TableNode, TreePage, View, footprint_laws,
};
use ports::{Page, blank_page};
use std::process::Abort;
use std::test::Fail;

#[test]
fn a_full_journal_head(rt: HostRuntime) -> Result<(), Fail> {
    let mut page = blank_page();
    page[0] = 8;
    page[1] = 1;
    page[2] = 1;
    page[3] = 244;
    for i in 0..500u16 {
        let home = (i + 1).to_be_bytes();
        page[16 + 8 * usize::from(i) + 6] = home[0];
        page[16 + 8 * usize::from(i) + 7] = home[1];
    }
    let mut again = blank_page();
    match JournalHead::read(&page) {
        Some(head) => {
            assert!(rt; head.more && head.homes.len() == 500);
            head.write(&mut again);
        }
        None => assert!(rt; false),
    }
    assert!(rt; again == page);
    JournalHead::one_spelling();
    Ok(())
}

#[test]
fn a_node_over_versions(rt: HostRuntime) -> Result<(), Fail> {
    let mut page = blank_page();
    page[0] = 2;
    page[1] = 2;
    page[3] = 1;
    page[43] = 3;
    let mut again = blank_page();
    match SbNode::read(&page) {
        Some(node) => node.write(&mut again),
        None => assert!(rt; false),
    }
    assert!(rt; again == page);
    SbNode::one_spelling();
    Ok(())
}

#[test]
fn a_full_multiversion_node(rt: HostRuntime) -> Result<(), Fail> {
    let mut page = blank_page();
    page[0] = 3;
    page[1] = 1;
    page[3] = 96;
    page[7] = 2;
    page[14] = 1;
    for i in 0..96u8 {
        page[16 + 40 * usize::from(i) + 7] = 5;
        page[16 + 40 * usize::from(i) + 11] = i;
        page[16 + 40 * usize::from(i) + 12] = 255;
        page[16 + 40 * usize::from(i) + 16] = 1;
    }
    let mut again = blank_page();
    match MvNode::read(&page) {
        Some(node) => {
            assert!(rt; node.place == 2 && node.before == 256 && node.entries.len() == 96);
            node.write(&mut again);
        }
        None => assert!(rt; false),
    }
    assert!(rt; again == page);
    MvNode::one_spelling();
    Ok(())
}

#[test]
fn a_free_page(rt: HostRuntime) -> Result<(), Fail> {
    let free = FreePage { next: 65539 };
    let mut page = blank_page();
    free.write(&mut page);
    let start = [9u8, 0, 0, 0, 0, 0, 0, 0, 0, 0, 0, 0, 0, 1, 0, 3];
    assert!(rt; &page[..16] == start.as_slice());
    assert!(rt; FreePage::read(&page) == Some(free));
    // Another kind, a level, a count, a word, and a byte behind the number.
    for place in [0, 1, 3, 7, 16, 4095] {
        let byte = page[place];
        page[place] = byte ^ 1;
        assert!(rt; FreePage::read(&page).is_none());
        page[place] = byte;
    }
    assert!(rt; FreePage::read(&page) == Some(free));
    page[13] = 0;
    page[15] = 2;
    assert!(rt; FreePage::read(&page).is_none());
    page[15] = 0;
    assert!(rt; FreePage::read(&page) == Some(FreePage { next: 0 }));
    FreePage::one_spelling();
    Ok(())
}

#[test]
fn the_superblock_byte_by_byte(rt: HostRuntime) -> Result<(), Fail> {
    let params = Params {
        dims: 2,
        degree: None,
        events: 1000000,
        pages: 1048576,
        origin: 0,
    };
    let mut page = blank_page();
    Super { params }.write(&mut page);
    let start = [
        0x42u8, 0x4f, 0x58, 0x53, 0x55, 0x4d, 0x57, 0x48, 3, 2, 255, 0, 0x00, 0x0f, 0x42, 0x40,
        0x00, 0x00, 0x00, 0x00, 0x00, 0x10, 0x00, 0x00, 0, 0, 0, 0,
    ];
    assert!(rt; &page[..28] == start.as_slice());
    assert!(rt; Super::read(&page) == Some(Super { params }));
    // The text at both ends, a byte that is no format, the unnamed byte, and the zeros at both ends.
    for place in [0, 7, 8, 11, 28, 4095] {
        let byte = page[place];
        page[place] = byte ^ 1;
        assert!(rt; Super::read(&page).is_none());
        page[place] = byte;
    }
    // The formats of the trees before these, which no warehouse is kept in.
    for format in [1, 2] {
        page[8] = format;
        assert!(rt; Super::read(&page).is_none());
    }
    page[8] = 3;
    page[10] = 3;
    assert!(rt; Super::read(&page).is_none());
    page[10] = 2;
    let degree = Some(2);
    assert!(rt;
        Super::read(&page)
            == Some(Super {
                params: Params { degree, ..params }
            })
    );
    // The format of a signed warehouse, with its origin.
    page[8] = 4;
    assert!(rt; Super::read(&page).is_none());
    page[24] = 0x7f;
    page[25] = 0xff;
    page[26] = 0xff;
    page[27] = 0xff;
    assert!(rt; Super::read(&page).is_some());
    page[8] = 3;
    assert!(rt; Super::read(&page).is_none());
    Super::one_spelling();
    Ok(())
}

// What the meta page that the page spells is spelled by, after a look at its numbers.
fn meta_again(rt: &impl Abort, page: &Page) -> Page {
    let mut again = blank_page();
    match Meta::read(page) {
        Some(meta) => {
            assert!(rt; meta.lives == 1 && meta.version == 0 && meta.events == 0 && meta.rows == 0);
            assert!(rt; meta.allotted == 3 && meta.free == 0 && meta.mass == 0);
            assert!(rt; meta.table == Tree::default() && meta.roots.len() == 8);
            meta.write(&mut again);
        }
        None => assert!(rt; false),
    }
    again
}

#[test]
fn the_first_meta_page_byte_by_byte(rt: HostRuntime) -> Result<(), Fail> {
    let mut page = blank_page();
    page[0] = 7;
    page[1] = 1;
    page[23] = 3;
    page[79] = 8;
    let again = meta_again(&rt, &page);
    let start = [
        0x07u8, 1, 0, 0, 0, 0, 0, 0, 0, 0, 0, 0, 0, 0, 0, 0, 0, 0, 0, 0, 0, 0, 0, 3, 0, 0, 0, 0, 0,
        0, 0, 0,
    ];
    for i in 0..32usize {
        assert!(rt; again[i] == start[i]);
    }
    assert!(rt; again == page);
    // Another kind, unnamed bytes of the page, of the table and of the last root, and the zeros at both ends.
    let last = 80 + 28 * 7;
    for place in [0, 2, 3, 57, 59, last + 9, last + 11, last + 28, 4095] {
        let byte = page[place];
        page[place] = byte ^ 1;
        assert!(rt; Meta::read(&page).is_none());
        page[place] = byte;
    }
    Meta::one_spelling();
    Ok(())
}

#[test]
fn each_rule_of_a_meta_page(rt: HostRuntime) -> Result<(), Fail> {
    let mut page = blank_page();
    page[0] = 7;
    page[79] = 96;
    // The three pages that each warehouse has are not allotted; then they are.
    assert!(rt; Meta::read(&page).is_none());
    page[23] = 3;
    assert!(rt; Meta::read(&page).is_some());
    // A third form of the table, a free page that may not be one, a table and a last root with levels alone,
    // and one root more than there may be.
    for (place, byte) in [(1, 2), (31, 2), (56, 1), (80 + 28 * 95 + 8, 1), (79, 97)] {
        let before = page[place];
        page[place] = byte;
        assert!(rt; Meta::read(&page).is_none());
        page[place] = before;
    }
    // The last root is a tree with a directory, which the table may not have.
    for tree in [48, 80 + 28 * 95] {
        page[tree + 7] = 3;
        page[tree + 8] = 16;
        page[tree + 15] = 1;
        assert!(rt; Meta::read(&page).is_some());
        page[tree + 19] = 1;
        assert!(rt; Meta::read(&page).is_some() == (tree > 48));
        page[tree + 19] = 0;
    }
    Ok(())
}

#[test]
fn a_full_page_of_points(rt: HostRuntime) -> Result<(), Fail> {
    let mut page = blank_page();
    page[0] = 5;
    page[1] = 1;
    page[3] = 64;
    page[14] = 1;
    for i in 0..64u8 {
        page[16 + 44 * usize::from(i) + 22] = 1;
        page[16 + 44 * usize::from(i) + 27] = i;
        page[16 + 44 * usize::from(i) + 43] = 9;
    }
    let mut again = blank_page();
    match PointLeaf::read(&page) {
        Some(leaf) => {
            assert_eq!(rt; leaf.points.len(), 64);
            assert!(rt; leaf.next == 256 && leaf.points.as_slice()[5].keys == [0, 0, 256]);
            assert!(rt;
                leaf.points.as_slice()[5].version == 5 && leaf.points.as_slice()[5].weight == 9
            );
            leaf.write(&mut again);
        }
        None => assert!(rt; false),
    }
    assert!(rt; again == page);
    PointLeaf::one_spelling();
    Ok(())
}

// How many objects a leaf has that is read in place, and the id and life of the last one.
fn last_life(page: &Page) -> Option<(usize, u64, u32)> {
    let view = View::<LifeNode>::on(page)?;
    let last = view.object_count().checked_sub(1)?;
    let life = view.object_life(last);
    let same = view.object(last).life == life;
    if same {
        Some((last + 1, view.object_id(last), life))
    } else {
        None
    }
}

// How many entries an index node has that is read in place, and the last one.
fn last_entry(page: &Page) -> Option<(usize, LifeEntry)> {
    let view = View::<LifeNode>::on(page)?;
    // A law, which does nothing.
    view.keeps_rules();
    let last = view.entry_count().checked_sub(1)?;
    Some((last + 1, view.entry(last)))
}

#[test]
fn full_nodes_by_id_and_life(rt: HostRuntime) -> Result<(), Fail> {
    let mut page = blank_page();
    page[0] = 10;
    page[1] = 1;
    page[3] = 14;
    for i in 0..14u8 {
        page[16 + 276 * usize::from(i) + 32] = 255;
        page[16 + 276 * usize::from(i) + 259] = 1;
        page[16 + 276 * usize::from(i) + 275] = i + 1;
    }
    let mut again = blank_page();
    match LifeNode::read(&page) {
        Some(leaf) => leaf.write(&mut again),
        None => assert!(rt; false),
    }
    assert!(rt; again == page);
    assert_eq!(rt; last_life(&page), Some((14, 0, 14)));
    assert_eq!(rt; last_entry(&page), None);
    page = blank_page();
    page[0] = 10;
    page[1] = 2;
    page[3] = 200;
    for i in 0..200u8 {
        page[16 + 20 * usize::from(i) + 11] = i;
        page[16 + 20 * usize::from(i) + 19] = 3;
    }
    match LifeNode::read(&page) {
        Some(index) => index.write(&mut again),
        None => assert!(rt; false),
    }
    assert!(rt; again == page);
    let entry = LifeEntry {
        low_id: 0,
        low_life: 199,
        child: 3,
    };
    assert_eq!(rt; last_entry(&page), Some((200, entry)));
    assert_eq!(rt; last_life(&page), None);
    LifeNode::one_spelling();
    Ok(())
}

// The same of a node by id alone.
fn last_id(page: &Page) -> Option<(usize, u64)> {
    let view = View::<TableNode>::on(page)?;
    let last = view.object_count().checked_sub(1)?;
    let id = view.object_id(last);
    let same = view.object(last).object.id == id;
    if same { Some((last + 1, id)) } else { None }
}

fn last_low(page: &Page) -> Option<(usize, TableEntry)> {
    let view = View::<TableNode>::on(page)?;
    let last = view.entry_count().checked_sub(1)?;
    Some((last + 1, view.entry(last)))
}

#[test]
fn full_nodes_by_id(rt: HostRuntime) -> Result<(), Fail> {
    let mut page = blank_page();
    page[0] = 6;
    page[1] = 1;
    page[3] = 15;
    for i in 0..15u8 {
        page[16 + 272 * usize::from(i) + 7] = i;
        page[16 + 272 * usize::from(i) + 259] = 1;
        page[16 + 272 * usize::from(i) + 267] = 2;
    }
    let mut again = blank_page();
    match TableNode::read(&page) {
        Some(leaf) => leaf.write(&mut again),
        None => assert!(rt; false),
    }
    assert!(rt; again == page);
    assert_eq!(rt; last_id(&page), Some((15, 14)));
    assert_eq!(rt; last_low(&page), None);
    page = blank_page();
    page[0] = 6;
    page[1] = 2;
    page[3] = 200;
    for i in 0..200u8 {
        page[16 + 16 * usize::from(i) + 7] = i;
        page[16 + 16 * usize::from(i) + 15] = 3;
    }
    match TableNode::read(&page) {
        Some(index) => index.write(&mut again),
        None => assert!(rt; false),
    }
    assert!(rt; again == page);
    assert_eq!(rt;
        last_low(&page),
        Some((200, TableEntry { low: 199, child: 3 }))
    );
    assert_eq!(rt; last_id(&page), None);
    TableNode::one_spelling();
    Ok(())
}

#[test]
fn laws_do_nothing(_: HostRuntime) -> Result<(), Fail> {
    footprint_laws();
    Ok(())
}
