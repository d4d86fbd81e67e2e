use page_layout::CutNode;

/// What an addition below a page asks of the page above it: nothing; another page in the entry; or a cut and the pages of its
/// two sides in the place of the entry.
#[derive(Clone, Copy, Debug, PartialEq, Eq)]
pub enum Change {
    Same,
    Moved { page: u64 },
    Raised { cut: CutNode, low: u64, high: u64 },
}
