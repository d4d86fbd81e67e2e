//! An index whose trees can be checked.
ghost use Rattle.std.specs.Prelude.{◌≡◌, ◌↔◌, ◌≤◌, ◌++◌, Ok, true, IsTrue, IfOk, IsPermutation};
ghost use Rattle.page_checks.specs.Reads.{OnlyChecks};

use bw_types::{Point, Tree};
use dom_index::DomIndex;
use page_checks::CheckFault;
use ports::Pages;
use std::alloc::Global;

/// An index of which it can be decided whether a tree stands for a list of points.
pub trait CheckedIndex: DomIndex {
    /// Whether the tree over so many dimensions stands for exactly these points and is balanced. Where it is so, its pages are put
    /// behind those named, in any order.
    ///
    /// The pages are only read, whatever they hold. `Disk` comes only where the count of faults rose. After a no, or a fault, what
    /// is named beside the pages that were named before is not said. What memory it takes is the index's to say.
    fn tree_stands<P: Pages>(
        alloc: Global,
        pages: &mut P,
        dims: u8,
        tree: &Tree,
        points: &[Point],
        named: &mut Vec<u64>,
    ) -> Result<bool, CheckFault>
        requires dims { (1 ≤ dims) × (dims ≤ Self.DIMS) }
        ensures stands { IfOk result (λ stands. IsTrue (P.tells pages.old)
            → IsTrue stands ↔ (Self.stands (P.map pages.old) dims tree.now points.now × Self.balanced (P.map pages.old) dims tree.now)) }
        ensures named { result ≡ Ok true → IsTrue (P.tells pages.old)
            → IsPermutation (named.old.items ++ Self.footprint (P.map pages.old) dims tree.now) named.new.items }
        ensures reads { OnlyChecks P.Pages pages.old pages.new result };
}
