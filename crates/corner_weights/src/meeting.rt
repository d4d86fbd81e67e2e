//! Meeting by corners: a function here does nothing, and its contract is the law.
ghost use Rattle.corner_weights.specs.Subsets.{ResidueKeepsSign, SignOfResidueSum, SignOfNothing};
ghost use Rattle.corner_weights.specs.Sums.{ResidueOfSumBelow, SumBelowOfSums, SumBelowOfNothing, SumBelowOfEqual};
ghost use Rattle.corner_weights.specs.Meeting.{WeightsMeetByCorners, BoxesMeetByCorners, ResiduesMeetByCorners, PointCountsAtCorner, NothingCountsWithoutCorner};
ghost use Rattle.corner_weights.specs.Entries.{DominanceAtCorner, NothingAtMissingCorner, EntriesMeetByCorners, SumsMeetByCorners};

/// Boxes that keep the rules meet exactly where the signed count of corners is 1; else it is 0.
pub fn boxes_meet_by_corners()
    ensures boxes { BoxesMeetByCorners }
    ensures weights { WeightsMeetByCorners }
    ensures residues { ResiduesMeetByCorners }
{}

/// Signs and sums of residues follow those of their numbers.
pub fn residues_follow_corners()
    ensures sign { ResidueKeepsSign }
    ensures sum { ResidueOfSumBelow }
{}

/// Signed sums over the subsets add up over lists: the sign of a sum, and the sum of sums.
pub fn signed_sums_add_up()
    ensures sign { SignOfResidueSum }
    ensures sign_of_nothing { SignOfNothing }
    ensures sums { SumBelowOfSums }
    ensures sum_of_nothing { SumBelowOfNothing }
    ensures equal { SumBelowOfEqual }
{}

/// A point at the object's corner is dominated by the query's corner exactly where the corner counts.
pub fn points_count_at_corners()
    ensures at_corner { PointCountsAtCorner }
    ensures without_corner { NothingCountsWithoutCorner }
{}

/// Over a list of weighted objects the signed totals of what counts at the corners come to the weight that
/// meets the query, modulo `2^128`, and so do the signed dominance sums of the points at the corners.
pub fn entries_meet_by_corners()
    ensures entries { EntriesMeetByCorners }
    ensures sums { SumsMeetByCorners }
{}

/// Over a list of weighted objects the dominance sum of their corners at the query's corner is what counts
/// there, and nothing counts where the query has no corner.
pub fn entries_count_at_corners()
    ensures at_corner { DominanceAtCorner }
    ensures without_corner { NothingAtMissingCorner }
{}
