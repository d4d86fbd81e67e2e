//! The index over which this program keeps its points.

use ba_tree::BaIndex;

/// The index of every warehouse that this program makes and opens. It serves one to three dimensions.
pub type Index = BaIndex;
