/// A tree of pages, as the page that names it keeps it. The empty tree is all zeros.
///
/// `root` is the page at the top and `levels` the number of pages on a path down from it; of a
/// multiversion tree both are those of its directory of roots. `count` is the number of points or, in
/// an object table, of dated objects. `changes` and `last` belong to the multiversion trees: the
/// additions to the directory, and the node page last allotted; they are 0 in every other tree.
#[derive(Clone, Copy, Debug, Default, PartialEq, Eq)]
pub struct Tree {
    pub root: u64,
    pub levels: u8,
    pub count: u32,
    pub changes: u32,
    pub last: u64,
}
