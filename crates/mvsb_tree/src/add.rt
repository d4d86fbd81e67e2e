//! Additions.
ghost use Rattle.std.specs.Prelude.{◌≡◌, ◌≢◌, ◌⊎◌, ◌+◌, ◌^◌, ◌<◌, ◌≤◌, ℕ, List, ◌∷◌, length, Err, None, IsTrue, IfOk, OnOk, OnErr};
ghost use Rattle.std.specs.List.{All};
ghost use Rattle.bw_types.specs.declared.point.Point.{Point};
ghost use Rattle.ports.specs.Calls.{Grows};
ghost use Rattle.ports.specs.Frame.{Replaces};
ghost use Rattle.ports.specs.Pages.{PageMap};
ghost use Rattle.page_layout.specs.TreeValue.{IsTreeTyped, tree_fits};
ghost use Rattle.sb_tree.specs.Stored.{OthersStay};
ghost use Rattle.mvsb_tree.specs.AddDamage.{ChangesRoot, IsDamagedForAdd, IsDamagedInNodes, IsWholeForAdd, KeepsDirectories, directory_pages, node_way};
ghost use Rattle.mvsb_tree.specs.Index.{BecomesTree};
ghost use Rattle.mvsb_tree.specs.Stands.{IsBalanced, MvStands, is_marked, key_of};
ghost use Rattle.mvsb_tree.specs.Steps.{place_count, root_at as spec_root_at, tree_pages};
ghost use Rattle.mvsb_tree.specs.Tops.{RootAdded};

use crate::directory::{directory, root_at};
use crate::first::first_leaf;
use crate::lead::lead_to;
use crate::root::add_at_root;
use bw_types::Tree;
use mv_pages::path_laws;
use ports::{Stage, StageFault};
use sb_tree::tree_laws;

/// Adds a value, a residue modulo `2^128`, from a key and a version on. The version is to be at least
/// that of every addition so far. An addition out of order is found only where it meets no root, or an
/// entry that starts or was closed later; else it is made, and the tree may stand for no list of points.
///
/// Where the tree stood, it stands for one point more, past versions included, and stays balanced; at
/// most 24 pages are given out then, and no page is found damaged where the free pages are in order.
/// After a refusal the tree value is as it was, and the stage is to be abandoned. `Disk` comes only
/// where the count of faults rose, and `PageLimit` only where as many pages are given out as the limit
/// allows; `NoMemory` is the stage's. `Damaged` names
///
/// - the directory's root, where the tree has `2^31` additions, where the directory tells no root at the
///   version, or no number of a page, or where a root of level 16 would have to be split;
/// - the first page on the way of the version through the directory, or of the key through the nodes, that
///   holds no node for its place, or one that may not be changed at the version;
/// - where new pages are needed, the last page of the chain of places, if it holds no node or has the
///   last place, or the new page that took the last place, if one more is needed;
/// - what an addition to the directory calls damaged, where the root changes;
/// - any page, where the free pages are not in order.
pub fn mv_add<S: Stage>(
    stage: &mut S,
    tree: &mut Tree,
    key: u64,
    version: u32,
    value: u128,
) -> Result<(), StageFault>
    requires { version < 4294967295 }
    // Where the tree stands, and no point is later, it stands for one more.
    ensures stands { OnOk result (IsTrue (S.tells stage.old) → (points : List Point) (p : Point)
        → MvStands (S.map stage.old) tree.old points → length points < 2 ^ 31 → All (λ q. q.version ≤ version) points
        → key_of p ≡ key → p.version ≡ version → p.weight ≡ value → MvStands (S.map stage.new) tree.new (p ∷ points)) }
    ensures balanced { OnOk result (IsTrue (S.tells stage.old) → (points : List Point)
        → MvStands (S.map stage.old) tree.old points → length points < 2 ^ 31 → All (λ q. q.version ≤ version) points
        → IsBalanced (S.map stage.old) tree.old → IsBalanced (S.map stage.new) tree.new) }
    // The map changes exactly by the tree's pages.
    ensures change { OnOk result (IsTrue (S.tells stage.old) → (points : List Point)
        → MvStands (S.map stage.old) tree.old points → All (λ q. q.version ≤ version) points
        → Replaces (tree_pages (S.map stage.old) tree.old) (tree_pages (S.map stage.new) tree.new) (S.map stage.old) (S.map stage.new)) }
    // Whatever the pages hold: the nodes on the way of the key are changed first, and then pages of the directory, as these are then.
    ensures apart { OnOk result (IsTrue (S.tells stage.old) → (between : PageMap)
        × OthersStay (node_way (S.map stage.old) tree.old key version) (S.map stage.old) between
        × OthersStay (directory_pages between tree.old) between (S.map stage.new)) }
    ensures becomes { OnOk result (IsTrue (S.tells stage.old) → BecomesTree (S.map stage.old) tree.old key version tree.new) }
    // Where it answers, no page on its way was damaged; the first addition has no way.
    ensures whole { OnOk result (IsTrue (S.tells stage.old) → tree.old.levels ≢ 0 → IsWholeForAdd (S.map stage.old) tree.old key version) }
    ensures count { OnOk result (tree.new.count ≡ tree.old.count + 1) }
    // The directory is changed only where the root is, and then by one addition.
    ensures changes { OnOk result (IsTrue (S.tells stage.old) → (tree.new.changes ≡ tree.old.changes) ⊎ ChangesRoot (S.map stage.old) tree.old key version value) }
    ensures one_change { OnOk result ((tree.old.changes ≤ tree.new.changes) × (tree.new.changes ≤ tree.old.changes + 1)) }
    ensures rules { OnOk result (IsTrue (tree_fits tree.old) → IsTrue (tree_fits tree.new)) }
    ensures typed { IsTreeTyped tree.new }
    ensures unchanged { OnErr result (tree.new ≡ tree.old) }
    ensures damaged { (page : ℕ) → result ≡ Err (StageFault.Damaged page) → IsTrue (S.tells stage.old)
        → IsDamagedForAdd (S.map stage.old) (S.free_in_order stage.old) tree.old key version value page }
    ensures sound { (points : List Point) (page : ℕ) → IsTrue (S.tells stage.old) → MvStands (S.map stage.old) tree.old points
        → length points < 2 ^ 31 → All (λ q. q.version ≤ version) points → IsBalanced (S.map stage.old) tree.old
        → S.free_in_order stage.old → result ≢ Err (StageFault.Damaged page) }
    // Two pages a level of the root, of which there are 16 at most, a new root, and what the directory takes.
    ensures grows { Grows S.Pages (tree.old.levels + 34) stage.old stage.new result }
    // Neither the root nor the directory of a balanced tree has more than 7 levels.
    ensures few { (points : List Point) → IsTrue (S.tells stage.old) → MvStands (S.map stage.old) tree.old points → length points < 2 ^ 31
        → All (λ q. q.version ≤ version) points → IsBalanced (S.map stage.old) tree.old → Grows S.Pages 24 stage.old stage.new result }
{
    let mut roots = directory(tree);
    let mut last = tree.last;
    if tree.count >= 1 << 31 {
        return Err(StageFault::Damaged(tree.root));
    }
    let ends = add_to_nodes(stage, tree, key, version, value, &mut last)?;
    tree_laws();
    lead_to(stage, &mut roots, version, ends.root, ends.top)?;
    path_laws();
    *tree = grown(tree, &roots, last);
    Ok(())
}

/// The pages of the root before an addition, or 0 where there was none, and from then on.
#[derive(Clone, Copy)]
struct Ends {
    root: u64,
    top: u64,
}

// Adds to the nodes, of which the first addition makes one.
fn add_to_nodes<S: Stage>(
    stage: &mut S,
    tree: &Tree,
    key: u64,
    version: u32,
    value: u128,
    last: &mut u64,
) -> Result<Ends, StageFault>
    requires version { version < 4294967295 }
    requires last { last.old ≡ tree.now.last }
    ensures number { IfOk result (λ ends. (3 ≤ ends.top) × (tree.now.levels ≡ 0 → ends.root ≡ 0)) }
    ensures root { IfOk result (λ ends. IsTrue (S.tells stage.old) → ends.root ≡ spec_root_at (S.map stage.old) tree.now version) }
    ensures added { IfOk result (λ ends. IsTrue (S.tells stage.old) → (points : List Point) (p : Point)
        → MvStands (S.map stage.old) tree.now points → All (λ q. q.version ≤ version) points → key_of p ≡ key
        → RootAdded (is_marked (p ∷ points)) (S.map stage.old) (S.map stage.new) ends.root ends.top version key value (place_count (S.map stage.old) tree.now) last.old last.new) }
    ensures apart { IfOk result (λ ends. IsTrue (S.tells stage.old) → OthersStay (node_way (S.map stage.old) tree.now key version) (S.map stage.old) (S.map stage.new)) }
    // The last page of the chain is the one of before, or one that was given out.
    ensures ends { IfOk result (λ ends. IsTrue (S.tells stage.old) → (last.new ≡ last.old) ⊎ (S.map stage.old last.new ≡ None)) }
    ensures whole { IfOk result (λ ends. IsTrue (S.tells stage.old) → tree.now.levels ≢ 0 → IsWholeForAdd (S.map stage.old) tree.now key version) }
    ensures closed { IfOk result (λ ends. IsTrue (S.tells stage.old) → (ends.top ≡ ends.root) ⊎ ChangesRoot (S.map stage.old) tree.now key version value) }
    ensures directories { IfOk result (λ ends. IsTrue (S.tells stage.old) → KeepsDirectories (S.map stage.old) (S.map stage.new)) }
    ensures damaged { (page : ℕ) → result ≡ Err (StageFault.Damaged page) → IsTrue (S.tells stage.old)
        → ((tree.now.levels ≢ 0) × IsDamagedInNodes (S.map stage.old) tree.now key version value page) ⊎ (¬ S.free_in_order stage.old) }
    ensures sound { (points : List Point) (page : ℕ) → IsTrue (S.tells stage.old) → MvStands (S.map stage.old) tree.now points
        → length points < 2 ^ 31 → All (λ q. q.version ≤ version) points → IsBalanced (S.map stage.old) tree.now
        → S.free_in_order stage.old → result ≢ Err (StageFault.Damaged page) }
    ensures grows { Grows S.Pages 33 stage.old stage.new result }
    // The root of a balanced tree has at most 7 levels.
    ensures few { (points : List Point) → IsTrue (S.tells stage.old) → MvStands (S.map stage.old) tree.now points → length points < 2 ^ 31
        → IsBalanced (S.map stage.old) tree.now → Grows S.Pages 15 stage.old stage.new result }
{
    if tree.levels == 0 {
        let top = first_leaf(stage, key, version, value)?;
        *last = top;
        return Ok(Ends { root: 0, top });
    }
    let root = root_at(stage, tree, version)?;
    if root == 0 {
        return Err(StageFault::Damaged(tree.root));
    }
    let top = add_at_root(stage, root, key, version, value, last, tree.root)?;
    Ok(Ends { root, top })
}

// The tree with an addition more.
fn grown(tree: &Tree, roots: &Tree, last: u64) -> Tree
    requires { tree.now.count < 2 ^ 31 }
    ensures root { result.root ≡ roots.now.root }
    ensures levels { result.levels ≡ roots.now.levels }
    ensures count { result.count ≡ tree.now.count + 1 }
    ensures changes { result.changes ≡ roots.now.count }
    ensures last { result.last ≡ last }
{
    Tree {
        root: roots.root,
        levels: roots.levels,
        count: tree.count + 1,
        changes: roots.count,
        last,
    }
}
