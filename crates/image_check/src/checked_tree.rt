//! A kind of borders whose standing can be decided.
ghost use Rattle.std.specs.Prelude.{◌≡◌, ◌↔◌, ◌++◌, Ok, true, IsTrue, IfOk, IsPermutation};
ghost use Rattle.page_checks.specs.Reads.{OnlyChecks};

use bw_types::{Point, Tree};
use cut_parts::BorderTree;
use page_checks::CheckFault;
use ports::Pages;
use std::alloc::Global;

/// Borders of which it can be decided whether they stand for a list of points.
pub trait CheckedTree: BorderTree {
    /// Whether the tree stands for exactly these points and is balanced. Where it is so, its pages are put behind those named,
    /// in any order.
    ///
    /// The pages are only read, whatever they hold. `Disk` comes only where the count of faults rose. After a no, or a fault,
    /// what is named beside the pages that were named before is not said. What memory it takes is its kind's to say.
    fn tree_stands<P: Pages>(
        alloc: Global,
        pages: &mut P,
        tree: &Tree,
        points: &[Point],
        named: &mut Vec<u64>,
    ) -> Result<bool, CheckFault>
        ensures stands { IfOk result (λ stands. IsTrue (P.tells pages.old)
            → IsTrue stands ↔ (Self.stands (P.map pages.old) tree.now points.now × Self.balanced (P.map pages.old) tree.now)) }
        ensures named { result ≡ Ok true → IsTrue (P.tells pages.old)
            → IsPermutation (named.old.items ++ Self.footprint (P.map pages.old) tree.now) named.new.items }
        ensures reads { OnlyChecks P.Pages pages.old pages.new result };
}
