//! The laws of parts: a function here does nothing, and its contract is the law.
ghost use Rattle.std.specs.Prelude.{◌≡◌, ◌≤◌, ◌*◌, ◌++◌, ◌∷◌, [], ℕ, Option, Some, None, List};
ghost use Rattle.bw_types.specs.declared.tree.Tree.{Tree};
ghost use Rattle.ports.specs.Frame.{AgreeOn, AreInMap};
ghost use Rattle.ports.specs.Pages.{PageMap};
ghost use Rattle.page_layout.specs.declared.cut_page.CutNode.{CutNode};
ghost use Rattle.page_layout.specs.declared.cut_page.CutNode.TheVariants.{Entry};
ghost use Rattle.cut_parts.specs.Borders.{HoldForTrees};
ghost use Rattle.cut_parts.specs.Laws.{AnyOrderMayBeBuilt, BorderMayBeBuilt, GetsAreFew, HighSideIsBeyond, LowSideGoesWithout, PartsAreCounted, PathsAreShort, SidesMayBeBuilt, SumBelowCut, SumByParts, SumFromCut, ValuesAreSums};
ghost use Rattle.cut_parts.specs.Parts.{Part, HasShape, points_of};
ghost use Rattle.cut_parts.specs.Regions.{RegionsFollow};
ghost use Rattle.cut_parts.specs.Spelling.{HoldsCuts, IsSpelled, at_page, first_page, nodes_of, pages_of, part_in};
ghost use Rattle.cut_parts.specs.Standing.{CutsBalanced, CutsStand, PartBalanced, PartStands, cuts_cost, cuts_growth, cuts_share, part_pages, tree_pages};

use crate::border_tree::BorderTree;

/// From below a cut no point of its high side counts; from the cut on a point of its low side counts exactly where it
/// does without the cut's dimension.
pub fn cuts_part()
    ensures high { HighSideIsBeyond }
    ensures low { LowSideGoesWithout }
    ensures below { SumBelowCut }
    ensures from { SumFromCut }
    ensures parts { SumByParts }
{}

/// The value of a part is the dominance sum of its points.
pub fn values_are_sums()
    ensures { ValuesAreSums }
{}

/// How many points a part has, how many cuts lie on a path in it, and how many pages its value is read from.
pub fn parts_are_low()
    ensures counted { PartsAreCounted }
    ensures paths { PathsAreShort }
    ensures gets { GetsAreFew }
{}

/// Which points may be built where others may.
pub fn points_may_be_built()
    ensures order { AnyOrderMayBeBuilt }
    ensures border { BorderMayBeBuilt }
    ensures sides { SidesMayBeBuilt }
{}

/// That each cut lies inside its region, and each leaf's points in the leaf's, follows where the points lie in the region
/// of the whole part and the cuts part them.
pub fn regions_follow()
    ensures { RegionsFollow }
{}

/// A part that begins with another page means the same. Where a page holds the nodes of a part inside a page, the part may
/// begin with that page.
pub fn homes_are_free()
    ensures points { (home : Option ℕ) (part : Part) → points_of (at_page home part) ≡ points_of part }
    ensures shape { (home : Option ℕ) (n : ℕ) (part : Part) → HasShape n part → HasShape n (at_page home part) }
    ensures moved { (a : PageMap) (page : ℕ) (part : Part) → first_page part ≡ None → IsSpelled a part → HoldsCuts a page (nodes_of part)
        → IsSpelled a (at_page (Some page) part) × (nodes_of (at_page (Some page) part) ≡ Entry page ∷ []) }
    ensures pages { (page : ℕ) (border_pages : Tree → List ℕ) (part : Part) → first_page part ≡ None
        → pages_of border_pages (at_page (Some page) part) ≡ page ∷ pages_of border_pages part }
{}

/// Whether a part stands and its borders are balanced, and which pages are its own, depends on these pages alone, which are in
/// the map; and the nodes tell the part.
pub fn part_laws<B: BorderTree>()
    ensures by_its_pages { (a b : PageMap) (n : ℕ) (part : Part) → PartStands B.BorderTree a n part → AgreeOn (part_pages B.BorderTree a part) a b
        → PartStands B.BorderTree b n part × (part_pages B.BorderTree b part ≡ part_pages B.BorderTree a part) }
    ensures balance { (a b : PageMap) (n : ℕ) (part : Part) → PartStands B.BorderTree a n part → AgreeOn (part_pages B.BorderTree a part) a b
        → PartBalanced B.BorderTree a part → PartBalanced B.BorderTree b part }
    ensures in_map { (a : PageMap) (n : ℕ) (part : Part) → PartStands B.BorderTree a n part → AreInMap a (part_pages B.BorderTree a part) }
    ensures told { (a : PageMap) (steps n : ℕ) (part : Part) (rest : List CutNode) → 2 * n ≤ steps → HasShape n part → IsSpelled a part
        → part_in a steps n (nodes_of part ++ rest) ≡ (part, rest) }
{
    B::border_laws();
}

/// What holds of every tree of cuts: such trees may be borders themselves.
pub fn cuts_laws<B: BorderTree>()
    ensures { HoldForTrees (CutsStand B.BorderTree) (tree_pages B.BorderTree) (CutsBalanced B.BorderTree) (cuts_cost B.BorderTree) (cuts_growth B.BorderTree) (cuts_share B.BorderTree) }
{
    B::border_laws();
}
