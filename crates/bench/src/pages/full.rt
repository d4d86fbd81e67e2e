//! Full pages, byte by byte.
use ports::{Page, blank_page};

fn fronted(kind: u8, level: u8, count: u8) -> Page {
    let mut page = blank_page();
    page[0] = kind;
    page[1] = level;
    page[3] = count;
    page
}

/// The superblock of two dimensions without a degree.
pub(crate) fn superblock() -> Page {
    let mut page = blank_page();
    let start = [
        0x42, 0x4f, 0x58, 0x53, 0x55, 0x4d, 0x57, 0x48, 3, 2, 255, 0, 0x00, 0x0f, 0x42, 0x40, 0x00,
        0x00, 0x00, 0x00, 0x00, 0x10, 0x00, 0x00,
    ];
    page[..24].copy_from_slice(&start);
    page
}

/// A meta page with 96 roots.
pub(crate) fn meta() -> Page {
    let mut page = blank_page();
    page[0] = 7;
    page[1] = 1;
    page[23] = 100;
    page[79] = 96;
    for i in 0..96usize {
        page[80 + 28 * i + 7] = 3;
        page[80 + 28 * i + 8] = 2;
        page[80 + 28 * i + 15] = 9;
    }
    page
}

/// A free page.
pub(crate) fn free_page() -> Page {
    let mut page = fronted(9, 0, 0);
    page[15] = 3;
    page
}

/// A head of 500 homes.
pub(crate) fn journal_head() -> Page {
    let mut page = fronted(8, 1, 244);
    page[2] = 1;
    for i in 0..500u16 {
        let home = (i + 1).to_be_bytes();
        page[16 + 8 * usize::from(i) + 6] = home[0];
        page[16 + 8 * usize::from(i) + 7] = home[1];
    }
    page
}

/// A leaf of 64 entries.
pub(crate) fn sb_node() -> Page {
    let mut page = fronted(2, 1, 64);
    for i in 0..64u8 {
        page[16 + 28 * usize::from(i) + 3] = i;
        page[16 + 28 * usize::from(i) + 19] = 7;
    }
    page
}

/// A leaf of 96 entries.
pub(crate) fn mv_node() -> Page {
    let mut page = fronted(3, 1, 96);
    page[7] = 1;
    for i in 0..96u8 {
        page[16 + 40 * usize::from(i) + 7] = i;
        page[16 + 40 * usize::from(i) + 12] = 255;
        page[16 + 40 * usize::from(i) + 31] = 7;
    }
    page
}

/// A page of 64 points.
pub(crate) fn point_leaf() -> Page {
    let mut page = fronted(5, 1, 64);
    for i in 0..64u8 {
        page[16 + 44 * usize::from(i) + 7] = i;
        page[16 + 44 * usize::from(i) + 27] = i;
        page[16 + 44 * usize::from(i) + 43] = 7;
    }
    page
}

/// A page of 64 entries, cut off one after the other, whose cuts have the empty border.
pub(crate) fn cut_page_without_borders() -> Page {
    let mut page = fronted(11, 0, 64);
    for i in 0..63usize {
        page[16 + 32 * i] = 1;
        page[16 + 32 * i + 1] = (i % 2) as u8;
        page[16 + 32 * i + 7] = 64;
        page[16 + 32 * i + 15] = 9;
        page[32 + 32 * i + 15] = 3;
    }
    page[2047] = 3;
    page
}

/// The same page, in which each cut has a border.
pub(crate) fn cut_page() -> Page {
    let mut page = cut_page_without_borders();
    for i in 0..63usize {
        page[16 + 32 * i + 7] = 65;
        page[2048 + 28 * i + 7] = 3;
        page[2048 + 28 * i + 8] = 1;
        page[2048 + 28 * i + 15] = 65;
    }
    page
}

/// A leaf of 14 objects, by id and life.
pub(crate) fn life_leaf() -> Page {
    let mut page = fronted(10, 1, 14);
    for i in 0..14u8 {
        page[16 + 276 * usize::from(i) + 7] = i;
        page[16 + 276 * usize::from(i) + 259] = 1;
        page[16 + 276 * usize::from(i) + 275] = 1;
    }
    page
}

/// An index node of 200 entries, by id and life.
pub(crate) fn life_index() -> Page {
    let mut page = fronted(10, 2, 200);
    for i in 0..200u8 {
        page[16 + 20 * usize::from(i) + 7] = i;
        page[16 + 20 * usize::from(i) + 19] = 3;
    }
    page
}

/// A leaf of 15 objects, by id alone.
pub(crate) fn table_leaf() -> Page {
    let mut page = fronted(6, 1, 15);
    for i in 0..15u8 {
        page[16 + 272 * usize::from(i) + 7] = i;
        page[16 + 272 * usize::from(i) + 259] = 1;
    }
    page
}

/// An index node of 200 entries, by id alone.
pub(crate) fn table_index() -> Page {
    let mut page = fronted(6, 2, 200);
    for i in 0..200u8 {
        page[16 + 16 * usize::from(i) + 7] = i;
        page[16 + 16 * usize::from(i) + 15] = 3;
    }
    page
}
