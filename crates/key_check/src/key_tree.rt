//! Whether a multiversion tree stands for a list of points.
ghost use Rattle.std.specs.Prelude.{◌≡◌, ◌↔◌, ◌++◌, ◌<◌, Ok, true, IsTrue, IfOk, IsPermutation};
ghost use Rattle.std.specs.List.{All};
ghost use Rattle.mvsb_tree.specs.Stands.{IsBalanced, MvStands};
ghost use Rattle.mvsb_tree.specs.Steps.{directory, tree_pages};
ghost use Rattle.key_check.specs.KeyTrees.{HasKeyNumbers};
ghost use Rattle.page_checks.specs.Reads.{OnlyChecks};
ghost use Rattle.page_layout.specs.Footprint.{NamesNoneTwice};

use crate::chain::walk_chain;
use crate::changes::walk_changes;
use crate::digits::has_digits;
use crate::marks::marks_of;
use crate::rooted::is_rooted;
use crate::roots::roots_stand;
use crate::version_tree::MOST;
use bw_types::{Point, Tree};
use page_checks::{CheckFault, name_none_twice};
use ports::Pages;
use std::alloc::{AllocError, Global};

// No point is added at this version.
const LAST: u32 = 4294967295;

/// Whether the multiversion tree stands for exactly these points and is balanced. Where it is so, its pages are put behind
/// those named, in any order.
///
/// The pages are only read, whatever they hold. `Disk` comes only where the count of faults rose. It takes memory for the
/// numbers of the tree's pages, for a few corners an entry of its nodes, for the pieces in which the roots and the nodes of one
/// level are reached, and for the versions and keys of the points.
pub fn key_tree_stands<P: Pages>(
    alloc: Global,
    pages: &mut P,
    tree: &Tree,
    points: &[Point],
    named: &mut Vec<u64>,
) -> Result<bool, CheckFault>
    ensures stands { IfOk result (λ stands. IsTrue (P.tells pages.old)
        → IsTrue stands ↔ (MvStands (P.map pages.old) tree.now points.now × IsBalanced (P.map pages.old) tree.now)) }
    ensures named { result ≡ Ok true → IsTrue (P.tells pages.old)
        → IsPermutation (named.old.items ++ tree_pages (P.map pages.old) tree.now) named.new.items }
    ensures reads { OnlyChecks P.Pages pages.old pages.new result }
{
    if !has_key_numbers(tree, points) {
        return Ok(false);
    }
    let Some(mut walk) = walk_changes(alloc, pages, &directory_of(tree), points)? else {
        return Ok(false);
    };
    if !is_rooted(walk.steps.as_slice(), points) {
        return Ok(false);
    }
    let marks = marks_of(alloc, points)?;
    let mut nodes = Vec::new(alloc);
    if !walk_chain(pages, tree, &marks, &mut nodes)? {
        return Ok(false);
    }
    if !name_once(&mut walk.named, nodes.as_slice(), named)? {
        return Ok(false);
    }
    Ok(roots_stand(
        alloc,
        pages,
        walk.steps.as_slice(),
        nodes,
        tree.count,
        points,
    )?)
}

// Whether the tree's numbers are those of a tree of so many points, with a balanced directory.
fn has_key_numbers(tree: &Tree, points: &[Point]) -> bool
    ensures { IsTrue result ↔ HasKeyNumbers tree.now points.now }
{
    let count = points.len();
    count <= MOST
        && tree.count as usize == count
        && (tree.levels != 0 || count == 0)
        && have_room(points)
        && tree.changes <= tree.count
        && has_digits(32, tree.changes, tree.levels)
}

// Whether each point is at a version at which points are added.
fn have_room(points: &[Point]) -> bool
    ensures { IsTrue result ↔ All (λ p. p.version < 4294967295) points.now }
{
    points.iter().all(|point| point.version < LAST)
}

// The directory of the roots, a tree over versions.
fn directory_of(tree: &Tree) -> Tree
    ensures { result ≡ directory tree.now }
{
    Tree {
        count: tree.changes,
        changes: 0,
        last: 0,
        ..*tree
    }
}

// Whether no page is named twice among those found and the nodes. Puts all of them behind those named.
fn name_once(found: &mut Vec<u64>, nodes: &[u64], named: &mut Vec<u64>) -> Result<bool, AllocError>
    ensures once { IfOk result (λ once. IsTrue once ↔ NamesNoneTwice (found.old.items ++ nodes.now)) }
    ensures named { result ≡ Ok true → IsPermutation (named.old.items ++ (found.old.items ++ nodes.now)) named.new.items }
{
    found.extend_from_slice(nodes)?;
    if !name_none_twice(found.as_mut_slice()) {
        return Ok(false);
    }
    named.extend_from_slice(found.as_slice())?;
    Ok(true)
}
