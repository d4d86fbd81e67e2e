//! Pages of cuts that have borders, made byte by byte, read, and written again.
use bw_types::Tree;
use page_layout::{CutNode, CutPage, CutStep, Spelled, TreePage, View, cuts_stand_in_order};
use ports::{Page, blank_page};
use std::process::Abort;
use std::test::Fail;

// A number in the last bytes of so many.
fn number(page: &mut Page, last: usize, value: u16) {
    let bytes = value.to_be_bytes();
    if last < 4096 && last > 0 {
        page[last - 1] = bytes[0];
        page[last] = bytes[1];
    }
}

// A byte at a place.
fn set(page: &mut Page, place: usize, byte: u8) {
    if place < 4096 {
        page[place] = byte;
    }
}

// A page of three entries: a cut of dimension 0 at 100 with 40 points low and no border, whose low side is page 5, and
// whose high side is a cut of dimension 1 at 7 with 65 points low and a border, between the pages 6 and 9.
fn three_entries() -> Page {
    let mut page = blank_page();
    page[0] = 11;
    number(&mut page, 3, 3);
    page[16] = 1;
    number(&mut page, 23, 40);
    number(&mut page, 31, 100);
    number(&mut page, 47, 5);
    page[48] = 1;
    page[49] = 1;
    number(&mut page, 55, 65);
    number(&mut page, 63, 7);
    number(&mut page, 79, 6);
    number(&mut page, 95, 9);
    // Behind the five nodes the borders: of the first cut the empty tree; of the second one of 65 points.
    number(&mut page, 131, 300);
    page[132] = 2;
    number(&mut page, 139, 65);
    number(&mut page, 143, 3);
    number(&mut page, 151, 301);
    page
}

#[test]
fn a_page_of_three_entries(rt: HostRuntime) -> Result<(), Fail> {
    let page = three_entries();
    let mut again = blank_page();
    match CutPage::read(&page) {
        Some(cuts) => {
            let nodes = cuts.nodes.as_slice();
            assert_eq!(rt; nodes.len(), 5);
            assert!(rt;
                nodes[0]
                    == CutNode::Cut {
                        dimension: 0,
                        key: 100,
                        low: 40,
                        border: Tree::default(),
                    }
            );
            assert!(rt; nodes[1] == CutNode::Entry { child: 5 });
            let border = Tree {
                root: 300,
                levels: 2,
                count: 65,
                changes: 3,
                last: 301,
            };
            assert!(rt;
                nodes[2]
                    == CutNode::Cut {
                        dimension: 1,
                        key: 7,
                        low: 65,
                        border,
                    }
            );
            assert!(rt; nodes[3] == CutNode::Entry { child: 6 });
            assert!(rt; nodes[4] == CutNode::Entry { child: 9 });
            cuts.write(&mut again);
        }
        None => assert!(rt; false),
    }
    assert!(rt; again == page);
    CutPage::one_spelling();
    cuts_stand_in_order();
    Ok(())
}

#[test]
fn it_is_read_in_place(rt: HostRuntime) -> Result<(), Fail> {
    let page = three_entries();
    let Some(view) = View::<CutPage>::on(&page) else {
        assert!(rt; false);
        return Ok(());
    };
    assert!(rt; view.level() == 0);
    if view.node_count() != 5 {
        assert!(rt; false);
        return Ok(());
    }
    assert!(rt;
        view.step(2)
            == CutStep::Parts {
                dimension: 1,
                key: 7,
                low: 65,
            }
    );
    assert!(rt; view.step(4) == CutStep::Leads { child: 9 });
    let value = view.to_value();
    assert!(rt; value.level() == 0);
    Ok(())
}

#[test]
fn what_is_no_spelling(rt: HostRuntime) -> Result<(), Fail> {
    let page = three_entries();
    // Another kind, level or word of the front; a tag; a dimension; a byte without a name of a node, of an entry, and behind
    // the last border; a low side without points; a child below 3; a border with levels and no root.
    for (place, byte) in [
        (0, 4),
        (1, 1),
        (4, 1),
        (15, 1),
        (2, 1),
        (3, 2),
        (3, 4),
        (16, 0),
        (16, 2),
        (17, 3),
        (18, 1),
        (23, 0),
        (33, 1),
        (39, 1),
        (47, 2),
        (104, 1),
        (107, 1),
        (130, 1),
        (152, 1),
        (4095, 1),
    ] {
        let mut other = page;
        set(&mut other, place, byte);
        assert!(rt; CutPage::read(&other).is_none() == (place != 130));
    }
    // The cuts change places with their entries, so that the first side is no node.
    let mut turned = page;
    turned[16] = 0;
    turned[23] = 0;
    turned[32] = 1;
    turned[39] = 40;
    assert!(rt; CutPage::read(&turned).is_none());
    Ok(())
}

#[test]
fn a_full_page(rt: HostRuntime) -> Result<(), Fail> {
    let mut page = blank_page();
    page[0] = 11;
    for entries in [64u16, 65] {
        number(&mut page, 3, entries);
        let cuts = usize::from(entries) - 1;
        for i in 0..cuts {
            page[16 + 32 * i] = 1;
            page[16 + 32 * i + 1] = 2;
            number(&mut page, 16 + 32 * i + 7, 9);
            number(&mut page, 16 + 32 * i + 15, 7);
            number(&mut page, 32 + 32 * i + 15, 3);
        }
        number(&mut page, 16 + 32 * cuts + 15, 3);
        assert!(rt; CutPage::read(&page).is_some() == (entries == 64));
    }
    Ok(())
}
