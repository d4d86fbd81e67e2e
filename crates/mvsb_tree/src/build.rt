//! Trees that are built of points.
ghost use Rattle.std.specs.Prelude.{◌≡◌, ◌+◌, ◌*◌, ◌^◌, ◌<◌, ◌≤◌, ℕ, Err, IsTrue, IfOk, length, take};
ghost use Rattle.std.specs.List.{All};
ghost use Rattle.std.specs.List.Sorted.{IsNonDecreasingBy};
ghost use Rattle.ports.specs.Calls.{Grows};
ghost use Rattle.page_layout.specs.MvNode.{IsMvNode, IsTyped};
ghost use Rattle.page_layout.specs.TreeValue.{IsTreeTyped, tree_fits};
ghost use Rattle.mv_pages.specs.Alive.{IsChangeable};
ghost use Rattle.mvsb_tree.specs.Built.{IsBuilt, TakesPoints};

use crate::add::mv_add;
use crate::change::add_to_leaf;
use crate::laws::mv_laws;
use crate::node::{no_node, put_node, read_node};
use bw_types::{Point, Tree};
use mv_pages::{is_changeable, later_laws, path_laws};
use page_layout::{MvNode, View, view_page};
use ports::{Stage, StageFault, blank_page};
use sb_tree::tree_laws;

/// Builds a tree of points, none of which is later than one behind it: at most `2^31`, their versions below `2^32 - 1`. The
/// tree stands for them, past versions included, and is balanced; its pages are new, and no other page changed. No points give
/// the empty tree.
///
/// Where the stage tells its map, at most 24 pages a point are given out, and `Damaged` comes only where the free pages are not
/// in order; where it does not, `Damaged` may carry any page that an addition could name. `Disk` comes only where the count of
/// faults rose, `PageLimit` only where as many pages are given out as the limit allows, and `NoMemory` where the stage has
/// none. After a refusal the stage is to be abandoned.
///
/// The first points, until the leaf has 96 entries, are taken in memory; each one after them is an addition.
pub fn mv_build<S: Stage>(stage: &mut S, points: &[Point]) -> Result<Tree, StageFault>
    requires few { length points.now ≤ 2 ^ 31 }
    requires versions { All (λ p. p.version < 4294967295) points.now }
    requires in_order { IsNonDecreasingBy (λ p. p.version) points.now }
    ensures built { IfOk result (λ tree. IsTrue (S.tells stage.old) → IsBuilt points.now (S.map stage.old) (S.map stage.new) tree) }
    ensures count { IfOk result (λ tree. tree.count ≡ length points.now) }
    ensures rules { IfOk result (λ tree. IsTrue (tree_fits tree)) }
    ensures typed { IfOk result (λ tree. IsTreeTyped tree) }
    ensures damaged { (page : ℕ) → result ≡ Err (StageFault.Damaged page) → IsTrue (S.tells stage.old) → ¬ S.free_in_order stage.old }
    // Where the stage does not tell its map, the number of pages is not bounded.
    ensures grows { Grows S.Pages (S.allotted stage.new + 1) stage.old stage.new result }
    ensures few { IsTrue (S.tells stage.old) → Grows S.Pages (length points.now * 24) stage.old stage.new result }
{
    mv_laws();
    if points.is_empty() {
        return Ok(Tree::default());
    }
    let mut tree = build_leaf(stage, points)?;
    for index in tree.count as usize..points.len() {
        let point = &points[index];
        mv_add(stage, &mut tree, point.keys[0], point.version, point.weight)?;
    }
    Ok(tree)
}

// Builds a tree of as many of the first points as one leaf has room for.
fn build_leaf<S: Stage>(stage: &mut S, points: &[Point]) -> Result<Tree, StageFault>
    requires some { 1 ≤ length points.now }
    requires few { length points.now ≤ 2 ^ 31 }
    requires versions { All (λ p. p.version < 4294967295) points.now }
    requires in_order { IsNonDecreasingBy (λ p. p.version) points.now }
    ensures built { IfOk result (λ tree. IsTrue (S.tells stage.old) → IsBuilt (take tree.count points.now) (S.map stage.old) (S.map stage.new) tree) }
    ensures count { IfOk result (λ tree. (1 ≤ tree.count) × (tree.count ≤ length points.now)) }
    ensures rules { IfOk result (λ tree. IsTrue (tree_fits tree)) }
    ensures typed { IfOk result (λ tree. IsTreeTyped tree) }
    ensures damaged { (page : ℕ) → result ≡ Err (StageFault.Damaged page) → IsTrue (S.tells stage.old) → ¬ S.free_in_order stage.old }
    ensures grows { Grows S.Pages (S.allotted stage.new + 1) stage.old stage.new result }
    ensures few { IsTrue (S.tells stage.old) → Grows S.Pages 24 stage.old stage.new result }
{
    later_laws();
    let first = &points[0];
    let mut tree = build_point(stage, points)?;
    let mut bytes = blank_page();
    let view: View<MvNode> = view_page(stage, tree.last, &mut bytes)?;
    let mut leaf = no_node();
    read_node(&view, &mut leaf);
    // This is so where the stage tells its map; one that does not may have given any node.
    if leaf.level == 1 && leaf.place == 1 && is_changeable(&leaf, first.version) {
        let taken = fill(&mut leaf, points);
        put_node(stage, tree.last, &leaf, &mut bytes)?;
        tree.count = taken as u32;
    }
    Ok(tree)
}

// Builds a tree of the first point alone.
fn build_point<S: Stage>(stage: &mut S, points: &[Point]) -> Result<Tree, StageFault>
    requires some { 1 ≤ length points.now }
    requires versions { All (λ p. p.version < 4294967295) points.now }
    ensures built { IfOk result (λ tree. IsTrue (S.tells stage.old) → IsBuilt (take 1 points.now) (S.map stage.old) (S.map stage.new) tree) }
    ensures count { IfOk result (λ tree. tree.count ≡ 1) }
    ensures rules { IfOk result (λ tree. IsTrue (tree_fits tree)) }
    ensures typed { IfOk result (λ tree. IsTreeTyped tree) }
    ensures damaged { (page : ℕ) → result ≡ Err (StageFault.Damaged page) → IsTrue (S.tells stage.old) → ¬ S.free_in_order stage.old }
    ensures grows { Grows S.Pages 34 stage.old stage.new result }
    ensures few { IsTrue (S.tells stage.old) → Grows S.Pages 24 stage.old stage.new result }
{
    mv_laws();
    let first = &points[0];
    let mut tree = Tree::default();
    mv_add(stage, &mut tree, first.keys[0], first.version, first.weight)?;
    Ok(tree)
}

// As many entries as the page of a leaf has room for.
const FULL: usize = 96;

// Takes points after the first one into the leaf until it is full, and tells how many of all points it has then.
fn fill(leaf: &mut MvNode, points: &[Point]) -> usize
    requires some { 1 ≤ length points.now }
    requires few { length points.now ≤ 2 ^ 31 }
    requires versions { All (λ p. p.version < 4294967295) points.now }
    requires in_order { IsNonDecreasingBy (λ p. p.version) points.now }
    requires leaf { leaf.old.level ≡ 1 }
    requires rules { IsMvNode leaf.old }
    requires typed { IsTyped leaf.old }
    requires changeable { All (λ p. IsChangeable p.version leaf.old.entries.items) points.now }
    ensures count { (1 ≤ result) × (result ≤ length points.now) }
    ensures rules { IsMvNode leaf.new }
    ensures takes { TakesPoints (take 1 points.now) (take result points.now) result leaf.old leaf.new }
{
    tree_laws();
    mv_laws();
    later_laws();
    path_laws();
    for index in 1..points.len() {
        if leaf.entries.len() >= FULL {
            return index;
        }
        let point = &points[index];
        add_to_leaf(leaf, point.keys[0], point.version, point.weight);
    }
    points.len()
}
