//! The laws of nodes and of the pages that hold them: a function here does nothing, and its contract is the law.
ghost use Rattle.cut_parts.specs.Nodes.{LeavesHoldPoints, PagesHoldNodes, PartsAreSkipped, PartsFillPlaces};
ghost use Rattle.cut_parts.specs.PageRegions.{EntriesAreCutInTwo, PartsLieInside, RegionsLieWithin, SidesDivideRegions};

/// The nodes of a part fill one place, and are passed as one part.
pub fn parts_fill_places()
    ensures filled { PartsFillPlaces }
    ensures skipped { PartsAreSkipped }
{}

/// What a page holds is one thing; nodes are those of one part.
pub fn pages_hold_one()
    ensures cuts { PagesHoldNodes }
    ensures leaf { LeavesHoldPoints }
{}

/// What `replace_by_cut` and `split_first_cut` do to the regions of a page's entries; when the cuts of a page lie inside their regions; and
/// that the regions of the entries then lie in the page's.
pub fn cuts_divide_regions()
    ensures replaced { EntriesAreCutInTwo }
    ensures split { SidesDivideRegions }
    ensures inside { PartsLieInside }
    ensures within { RegionsLieWithin }
{}
