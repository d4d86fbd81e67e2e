//! Trees as the page that names them spells them.
ghost use Rattle.std.specs.Prelude.{◌≡◌, IsTrue};
ghost use Rattle.page_layout.specs.TreeValue.{tree_bytes, tree_at, IsTreeTyped, is_all_zero, has_pages, tree_fits, plain_tree_fits, length-tree, tree-back};

use crate::entry::{Entry, Own};
use crate::front::{put, put_u8, put_u32, put_u64};
use crate::number::{number_u32, number_u64, skip};
use bw_types::Tree;
use ports::Page;

fn is_all_zero(tree: &Tree) -> bool
    ensures { result ≡ is_all_zero tree.now }
{
    (tree.root == 0 && tree.count == 0) && (tree.changes == 0 && tree.last == 0)
}

fn has_pages(tree: &Tree) -> bool
    ensures { result ≡ has_pages tree.now }
{
    tree.levels <= 16 && (tree.root >= 3 && tree.count >= 1)
}

/// Whether a page may spell this tree: it is all zeros, or has 1 to 16 levels, a root of at least 3 and
/// a count of at least 1.
pub(crate) fn tree_fits(tree: &Tree) -> bool
    ensures { result ≡ tree_fits tree.now }
{
    if tree.levels == 0 {
        is_all_zero(tree)
    } else {
        has_pages(tree)
    }
}

/// Whether a page may spell this tree where no tree with a directory of roots may stand: it has no
/// changes and no last page besides.
pub(crate) fn plain_tree_fits(tree: &Tree) -> bool
    ensures { result ≡ plain_tree_fits tree.now }
{
    tree_fits(tree) && (tree.changes == 0 && tree.last == 0)
}

impl Entry<Own> for Tree {
    const SIZE: usize = 28;

    ghost SIZE = { 28 };

    ghost spelling = { tree_bytes };

    ghost value_at = { tree_at };

    ghost is_typed = { IsTreeTyped };

    // The rule of a tree does not depend on the page's level, and trees follow one another in any order.
    ghost keeps = { λ _ t. IsTrue (tree_fits t) };

    ghost precedes = { λ _ _. Unit {0} };

    fn put(&self, page: &mut Page, place: usize) {
        put_u64(page, place, self.root);
        put_u8(page, place + 8, self.levels);
        put(page, place + 9, &[0, 0, 0]);
        put_u32(page, place + 12, self.count);
        put_u32(page, place + 16, self.changes);
        put_u64(page, place + 20, self.last);
    }

    fn get(bytes: &[u8]) -> Tree {
        Tree {
            root: number_u64(bytes),
            levels: bytes[8],
            count: number_u32(skip(bytes, 12)),
            changes: number_u32(skip(bytes, 16)),
            last: number_u64(skip(bytes, 20)),
        }
    }

    fn keeps(&self, _level: u8) -> bool {
        tree_fits(self)
    }

    fn precedes(&self, _next: &Tree) -> bool {
        true
    }

    ghost has_size = { λ x _. length-tree x };

    ghost reads_back = { λ _ x rest typed _. tree-back x rest typed };
}
