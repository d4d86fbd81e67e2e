//! A copy of a meta page.
ghost use Rattle.std.specs.Prelude.{◌≡◌, ◌≤◌, length};
ghost use Rattle.std.specs.List.{All};
ghost use Rattle.page_layout.specs.TreeValue.{IsTreeTyped};
ghost use Rattle.page_layout.specs.Meta.{IsTyped};

use arrayvec::ArrayVec;
use bw_types::Tree;
use page_layout::Meta;

fn copied_tree(tree: &Tree) -> Tree
    ensures value { result ≡ tree.now }
    ensures typed { IsTreeTyped result }
{
    // A number is known to be one of its type where it is read.
    let (root, count, changes, last) = (tree.root, tree.count, tree.changes, tree.last);
    Tree {
        root,
        levels: tree.levels,
        count,
        changes,
        last,
    }
}

fn copied_trees(trees: &[Tree]) -> ArrayVec<Tree, 96>
    requires { length trees.now ≤ 96 }
    ensures items { result.items ≡ trees.now }
    ensures typed { All IsTreeTyped result.items }
{
    let mut copies = ArrayVec::new();
    for tree in trees {
        copies.push(copied_tree(tree));
    }
    copies
}

/// A copy, whose numbers are shown to be those of their types.
pub(crate) fn copied(meta: &Meta) -> Meta
    ensures value { result ≡ meta.now }
    ensures typed { IsTyped result }
{
    let (version, events, rows) = (meta.version, meta.events, meta.rows);
    let (allotted, free, mass) = (meta.allotted, meta.free, meta.mass);
    Meta {
        lives: meta.lives,
        version,
        events,
        rows,
        allotted,
        free,
        mass,
        table: copied_tree(&meta.table),
        roots: copied_trees(meta.roots.as_slice()),
    }
}
