//! The pages of a tree of cuts, and of a part of one, freed.
ghost use Rattle.std.specs.Prelude.{◌≡◌, ◌≢◌, ◌++◌, ◌∷◌, ◌<◌, ◌≤◌, ℕ, List, [], None, Some, Err, IsTrue, OnOk, length};
ghost use Rattle.bw_types.specs.Empty.{empty_tree};
ghost use Rattle.bw_types.specs.declared.point.Point.{Point};
ghost use Rattle.ports.specs.Calls.{Changes};
ghost use Rattle.ports.specs.Frame.{AreInMap, Replaces};
ghost use Rattle.ports.specs.Pages.{PageMap, remove_page};
ghost use Rattle.page_layout.specs.Footprint.{NamesNoneTwice};
ghost use Rattle.page_layout.specs.declared.cut_page.CutNode.{CutNode};
ghost use Rattle.page_layout.specs.declared.cut_page.CutNode.TheVariants.{Entry};
ghost use Rattle.cut_parts.specs.Damage.{BeforeCut, BeforePage, BeforePart};
ghost use Rattle.cut_parts.specs.Parts.{Part};
ghost use Rattle.cut_parts.specs.Reach.{IsDamagedForDrop, IsDropped};
ghost use Rattle.cut_parts.specs.Spelling.{HoldsCuts, HoldsLeaf, first_page, nodes_of};
ghost use Rattle.cut_parts.specs.Standing.{CutsStand, PartStands, part_pages, tree_pages};
ghost use Rattle.cut_parts.specs.Nodes.{AreNodes};

use crate::sides::{after_part, laws_of_borders};
use bw_types::Tree;
use cut_parts::{BorderTree, is_sound, no_cuts, read_cuts, read_leaf};
use page_layout::{CutNode, CutPage};
use ports::{PageFault, Stage, StageFault, blank_page};

/// Frees the pages of a tree and of its borders, and no other. Each page is read before it is freed, since it names others.
///
/// `Damaged` never comes where the tree stands; else it carries a page that is gone by then, one that holds no leaf of as many points as
/// are told of it or no cuts, one with a cut that is not sound, or what dropping a border calls damaged. `PageLimit` never comes, and
/// `NoMemory` only from the stage. After a refusal the stage is to be abandoned.
pub fn drop_tree<B: BorderTree, S: Stage>(stage: &mut S, tree: &Tree) -> Result<(), StageFault>
    ensures dropped { OnOk result (IsTrue (S.tells stage.old) → (points : List Point) → CutsStand B.BorderTree (S.map stage.old) tree.now points
        → Replaces (tree_pages B.BorderTree (S.map stage.old) tree.now) [] (S.map stage.old) (S.map stage.new)) }
    // Whatever the pages hold, and of whatever map this was before other pages were freed: the tree's pages were all still there, and
    // are gone; nothing else changed.
    ensures gone { OnOk result (IsTrue (S.tells stage.old) → (first : PageMap) (freed : List ℕ) → Replaces freed [] first (S.map stage.old)
        → AreInMap (S.map stage.old) (tree_pages B.BorderTree first tree.now)
        × Replaces (tree_pages B.BorderTree first tree.now) [] (S.map stage.old) (S.map stage.new)) }
    // They are the pages of a part of as many points as the tree counts.
    ensures there { OnOk result (IsTrue (S.tells stage.old) → (first : PageMap) (freed : List ℕ) → Replaces freed [] first (S.map stage.old)
        → 1 ≤ tree.now.count → IsDropped B.BorderTree first (S.map stage.old) (S.map stage.new) tree.now.count (Entry tree.now.root ∷ [])) }
    ensures damaged { (page : ℕ) → result ≡ Err (StageFault.Damaged page) → IsTrue (S.tells stage.old)
        → (first : PageMap) (freed : List ℕ) → Replaces freed [] first (S.map stage.old)
        → (1 ≤ tree.now.count) × IsDamagedForDrop B.BorderTree first freed tree.now.count (BeforePage tree.now.root) page }
    ensures sound { (points : List Point) (page : ℕ) → IsTrue (S.tells stage.old) → CutsStand B.BorderTree (S.map stage.old) tree.now points
        → result ≢ Err (StageFault.Damaged page) }
    ensures changes { Changes S.Pages 0 stage.old stage.new result }
{
    if tree.count == 0 {
        return Ok(());
    }
    match drop_page::<B, S>(stage, tree.root, tree.count) {
        Err(fault) => Err(fault),
        Ok(()) => Ok(()),
    }
}

// Frees the pages of the part of so many points that begins with this page.
#[cycle(drops)]
fn drop_page<B: BorderTree, S: Stage>(
    stage: &mut S,
    page: u64,
    count: u32,
) -> Result<(), StageFault>
    ensures dropped { OnOk result (IsTrue (S.tells stage.old) → (part : Part) → first_page part ≡ Some page
        → PartStands B.BorderTree (S.map stage.old) count part → NamesNoneTwice (part_pages B.BorderTree (S.map stage.old) part)
        → Replaces (part_pages B.BorderTree (S.map stage.old) part) [] (S.map stage.old) (S.map stage.new)) }
    ensures gone { OnOk result (IsTrue (S.tells stage.old) → (first : PageMap) (freed : List ℕ) → Replaces freed [] first (S.map stage.old)
        → IsDropped B.BorderTree first (S.map stage.old) (S.map stage.new) count (Entry page ∷ [])) }
    ensures damaged { (damaged : ℕ) → result ≡ Err (StageFault.Damaged damaged) → IsTrue (S.tells stage.old)
        → (first : PageMap) (freed : List ℕ) → Replaces freed [] first (S.map stage.old)
        → IsDamagedForDrop B.BorderTree first freed count (BeforePage page) damaged }
    ensures sound { (part : Part) (damaged : ℕ) → IsTrue (S.tells stage.old) → first_page part ≡ Some page
        → PartStands B.BorderTree (S.map stage.old) count part → NamesNoneTwice (part_pages B.BorderTree (S.map stage.old) part)
        → result ≢ Err (StageFault.Damaged damaged) }
    ensures changes { Changes S.Pages 0 stage.old stage.new result }
{
    laws_of_borders::<B>();
    if count <= 64 {
        return match free_leaf(stage, page, count) {
            Err(fault) => Err(fault),
            Ok(()) => Ok(()),
        };
    }
    let mut cuts = no_cuts();
    match free_cuts(stage, page, &mut cuts) {
        Err(fault) => Err(fault),
        Ok(()) => match drop_cut::<B, S>(stage, page, cuts.nodes.as_slice(), count) {
            Err(fault) => Err(fault),
            Ok(()) => Ok(()),
        },
    }
}

// Frees the page of a leaf of so many points. It is read before, since a stage frees only what is there.
fn free_leaf<S: Stage>(stage: &mut S, page: u64, count: u32) -> Result<(), StageFault>
    ensures freed { OnOk result (IsTrue (S.tells stage.old) → S.map stage.new ≡ remove_page (S.map stage.old) page) }
    ensures held { OnOk result (IsTrue (S.tells stage.old)
        → (points : List Point) × HoldsLeaf (S.map stage.old) page points × (length points ≡ count) × (1 ≤ count)) }
    ensures damaged { (damaged : ℕ) → result ≡ Err (StageFault.Damaged damaged)
        → (damaged ≡ page) × (IsTrue (S.tells stage.old) → (points : List Point) → HoldsLeaf (S.map stage.old) page points → length points ≡ count → ⊥) }
    ensures sound { (points : List Point) (damaged : ℕ) → IsTrue (S.tells stage.old) → HoldsLeaf (S.map stage.old) page points
        → length points ≡ count → result ≢ Err (StageFault.Damaged damaged) }
    ensures changes { Changes S.Pages 0 stage.old stage.new result }
{
    match read_leaf(stage, page, count) {
        Err(PageFault::Disk) => Err(StageFault::Disk),
        Err(PageFault::Damaged(damaged)) => Err(StageFault::Damaged(damaged)),
        Ok(_) => match stage.free(page) {
            Err(fault) => Err(fault),
            Ok(()) => Ok(()),
        },
    }
}

// Frees a page of cuts, and makes `cuts` its nodes.
fn free_cuts<S: Stage>(stage: &mut S, page: u64, cuts: &mut CutPage) -> Result<(), StageFault>
    ensures freed { OnOk result (IsTrue (S.tells stage.old)
        → HoldsCuts (S.map stage.old) page cuts.new.nodes.items × (S.map stage.new ≡ remove_page (S.map stage.old) page)) }
    ensures nodes { OnOk result (AreNodes cuts.new.nodes.items × (3 ≤ length cuts.new.nodes.items)) }
    ensures damaged { (damaged : ℕ) → result ≡ Err (StageFault.Damaged damaged)
        → (damaged ≡ page) × (IsTrue (S.tells stage.old) → (nodes : List CutNode) → HoldsCuts (S.map stage.old) page nodes → ⊥) }
    ensures sound { (nodes : List CutNode) (damaged : ℕ) → IsTrue (S.tells stage.old) → HoldsCuts (S.map stage.old) page nodes
        → result ≢ Err (StageFault.Damaged damaged) }
    ensures changes { Changes S.Pages 0 stage.old stage.new result }
{
    let mut bytes = blank_page();
    match read_cuts(stage, page, &mut bytes, cuts) {
        Err(PageFault::Disk) => Err(StageFault::Disk),
        Err(PageFault::Damaged(damaged)) => Err(StageFault::Damaged(damaged)),
        Ok(()) => match stage.free(page) {
            Err(fault) => Err(fault),
            Ok(()) => Ok(()),
        },
    }
}

/// Frees the pages of the part of so many points with whose nodes these begin, which are nodes of this page, and no other. `Damaged`
/// carries pages as for `drop_tree`, or this page, where the nodes are none of a part.
#[cycle(drops)]
pub fn drop_nodes<B: BorderTree, S: Stage>(
    stage: &mut S,
    page: u64,
    nodes: &[CutNode],
    count: u32,
) -> Result<(), StageFault>
    ensures dropped { OnOk result (IsTrue (S.tells stage.old) → (part : Part) (rest : List CutNode) → nodes.now ≡ nodes_of part ++ rest
        → PartStands B.BorderTree (S.map stage.old) count part → NamesNoneTwice (part_pages B.BorderTree (S.map stage.old) part)
        → Replaces (part_pages B.BorderTree (S.map stage.old) part) [] (S.map stage.old) (S.map stage.new)) }
    ensures gone { OnOk result (IsTrue (S.tells stage.old) → (first : PageMap) (freed : List ℕ) → Replaces freed [] first (S.map stage.old)
        → IsDropped B.BorderTree first (S.map stage.old) (S.map stage.new) count nodes.now) }
    ensures damaged { (damaged : ℕ) → result ≡ Err (StageFault.Damaged damaged) → IsTrue (S.tells stage.old)
        → (first : PageMap) (freed : List ℕ) → Replaces freed [] first (S.map stage.old)
        → IsDamagedForDrop B.BorderTree first freed count (BeforePart page nodes.now) damaged }
    ensures sound { (part : Part) (rest : List CutNode) (damaged : ℕ) → IsTrue (S.tells stage.old) → nodes.now ≡ nodes_of part ++ rest
        → PartStands B.BorderTree (S.map stage.old) count part → NamesNoneTwice (part_pages B.BorderTree (S.map stage.old) part)
        → result ≢ Err (StageFault.Damaged damaged) }
    ensures changes { Changes S.Pages 0 stage.old stage.new result }
{
    match nodes.first() {
        None => Err(StageFault::Damaged(page)),
        Some(CutNode::Entry { child }) => match drop_page::<B, S>(stage, *child, count) {
            Err(fault) => Err(fault),
            Ok(()) => Ok(()),
        },
        Some(
            CutNode::Cut {
                dimension: _,
                key: _,
                low: _,
                border: _,
            },
        ) => match drop_cut::<B, S>(stage, page, nodes, count) {
            Err(fault) => Err(fault),
            Ok(()) => Ok(()),
        },
    }
}

// Frees the pages of a part that is a cut, and does not begin a page there: those of its border, and of its two sides.
#[cycle(drops)]
fn drop_cut<B: BorderTree, S: Stage>(
    stage: &mut S,
    page: u64,
    nodes: &[CutNode],
    count: u32,
) -> Result<(), StageFault>
    ensures dropped { OnOk result (IsTrue (S.tells stage.old) → (part : Part) (rest : List CutNode) → nodes.now ≡ nodes_of part ++ rest
        → PartStands B.BorderTree (S.map stage.old) count part → NamesNoneTwice (part_pages B.BorderTree (S.map stage.old) part)
        → Replaces (part_pages B.BorderTree (S.map stage.old) part) [] (S.map stage.old) (S.map stage.new)) }
    ensures gone { OnOk result (IsTrue (S.tells stage.old) → (first : PageMap) (freed : List ℕ) → Replaces freed [] first (S.map stage.old)
        → IsDropped B.BorderTree first (S.map stage.old) (S.map stage.new) count nodes.now) }
    ensures damaged { (damaged : ℕ) → result ≡ Err (StageFault.Damaged damaged) → IsTrue (S.tells stage.old)
        → (first : PageMap) (freed : List ℕ) → Replaces freed [] first (S.map stage.old)
        → IsDamagedForDrop B.BorderTree first freed count (BeforeCut page nodes.now) damaged }
    ensures sound { (part : Part) (rest : List CutNode) (damaged : ℕ) → IsTrue (S.tells stage.old) → nodes.now ≡ nodes_of part ++ rest
        → first_page part ≡ None → PartStands B.BorderTree (S.map stage.old) count part
        → NamesNoneTwice (part_pages B.BorderTree (S.map stage.old) part) → result ≢ Err (StageFault.Damaged damaged) }
    ensures changes { Changes S.Pages 0 stage.old stage.new result }
{
    laws_of_borders::<B>();
    let Some((first, rest)) = nodes.split_first() else {
        return Err(StageFault::Damaged(page));
    };
    let CutNode::Cut {
        dimension,
        key: _,
        low,
        border,
    } = first
    else {
        return Err(StageFault::Damaged(page));
    };
    if !is_sound::<B>(count, *dimension, *low, border) {
        return Err(StageFault::Damaged(page));
    }
    match drop_border::<B, S>(stage, *low, border) {
        Err(fault) => return Err(fault),
        Ok(()) => {}
    }
    match drop_nodes::<B, S>(stage, page, rest, *low) {
        Err(fault) => return Err(fault),
        Ok(()) => {}
    }
    match drop_nodes::<B, S>(stage, page, after_part(rest), count - *low) {
        Err(fault) => Err(fault),
        Ok(()) => Ok(()),
    }
}

// Frees the pages of the border of a cut with so many points low. It has none where these are a leaf.
fn drop_border<B: BorderTree, S: Stage>(
    stage: &mut S,
    low: u32,
    border: &Tree,
) -> Result<(), StageFault>
    ensures dropped { OnOk result (IsTrue (S.tells stage.old) → (points : List Point) → (low ≤ 64 → border.now ≡ empty_tree)
        → (64 < low → B.stands (S.map stage.old) border.now points)
        → Replaces (B.footprint (S.map stage.old) border.now) [] (S.map stage.old) (S.map stage.new)) }
    ensures gone { OnOk result (IsTrue (S.tells stage.old) → (first : PageMap) (freed : List ℕ) → Replaces freed [] first (S.map stage.old)
        → (low ≤ 64 → border.now ≡ empty_tree)
        → AreInMap (S.map stage.old) (B.footprint first border.now)
        × Replaces (B.footprint first border.now) [] (S.map stage.old) (S.map stage.new)) }
    ensures damaged { (page : ℕ) → result ≡ Err (StageFault.Damaged page) → IsTrue (S.tells stage.old)
        → (first : PageMap) (freed : List ℕ) → Replaces freed [] first (S.map stage.old) → (64 < low) × B.damaged_for_drop first freed border.now page }
    ensures sound { (points : List Point) (damaged : ℕ) → IsTrue (S.tells stage.old) → (64 < low → B.stands (S.map stage.old) border.now points)
        → result ≢ Err (StageFault.Damaged damaged) }
    ensures changes { Changes S.Pages 0 stage.old stage.new result }
{
    laws_of_borders::<B>();
    if low <= 64 {
        return Ok(());
    }
    match B::drop_tree(stage, border) {
        Err(fault) => Err(fault),
        Ok(()) => Ok(()),
    }
}
