//! The directory of roots.
ghost use Rattle.std.specs.Prelude.{◌≡◌, ◌≢◌, ◌<◌, ◌^◌, ℕ, List, Err, IsTrue, IfOk};
ghost use Rattle.bw_types.specs.declared.point.Point.{Point};
ghost use Rattle.ports.specs.Calls.{OnlyReads};
ghost use Rattle.sb_tree.specs.Stands.{SbStands};
ghost use Rattle.mvsb_tree.specs.Damage.{IsDamagedToRoot, IsWholeToRoot};
ghost use Rattle.mvsb_tree.specs.Steps.{directory as spec_directory, root_at as spec_root_at};

use bw_types::Tree;
use ports::{PageFault, Pages};
use sb_tree::sb_value;

/// The directory of a tree: a tree over versions, whose value at a version is the page of the root.
pub fn directory(tree: &Tree) -> Tree
    ensures { result ≡ spec_directory tree.now }
{
    Tree {
        root: tree.root,
        levels: tree.levels,
        count: tree.changes,
        changes: 0,
        last: 0,
    }
}

/// The page of the root at a version, or 0 before the first one.
///
/// `Damaged` carries a page on the way through the directory, or the directory's root where what it
/// tells is no number of a page.
pub fn root_at<P: Pages>(pages: &mut P, tree: &Tree, version: u32) -> Result<u64, PageFault>
    ensures root { IfOk result (λ root. IsTrue (P.tells pages.old) → root ≡ spec_root_at (P.map pages.old) tree.now version) }
    ensures damaged { (page : ℕ) → result ≡ Err (PageFault.Damaged page) → IsTrue (P.tells pages.old)
        → IsDamagedToRoot (P.map pages.old) tree.now version page }
    // Where it answers, no page on its way is damaged.
    ensures whole { IfOk result (λ root. IsTrue (P.tells pages.old) → IsWholeToRoot (P.map pages.old) tree.now version) }
    ensures sound { (changes : List Point) (page : ℕ) → IsTrue (P.tells pages.old)
        → SbStands (P.map pages.old) (spec_directory tree.now) changes → spec_root_at (P.map pages.old) tree.now version < 2 ^ 64
        → result ≢ Err (PageFault.Damaged page) }
    ensures reads { OnlyReads P.Pages tree.now.levels pages.old pages.new result }
{
    let root = sb_value(pages, &directory(tree), version)?;
    if root >= 1 << 64 {
        return Err(PageFault::Damaged(tree.root));
    }
    Ok(root as u64)
}
