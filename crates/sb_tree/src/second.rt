//! The second page of a split.

/// The second of two pages into which one was split: where its entries begin, and the page.
#[derive(Clone, Copy)]
pub struct Second {
    pub low: u32,
    pub page: u64,
}
