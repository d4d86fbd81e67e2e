//! The trees of a warehouse.
ghost use Rattle.std.specs.Prelude.{◌≡◌, ◌≤◌, replicate};
ghost use Rattle.bw_types.specs.Empty.{empty_tree};
ghost use Rattle.bw_types.specs.Fits.{IsInRange};
ghost use Rattle.corner_forest.specs.Entries.{root_count, corner_count};

use arrayvec::ArrayVec;
use bw_types::{Params, Tree};
use corner_weights::plane_count;

/// The trees in which objects are entered: first those by subset, of which sums and counts are both read, and
/// where there is a degree one for each plane.
#[derive(Debug, PartialEq, Drop)]
pub struct Forest {
    pub params: Params,
    pub roots: ArrayVec<Tree, 96>,
}

impl Forest {
    /// The forest without entries: all its trees are empty.
    pub fn new(params: &Params) -> Forest
        requires { IsInRange params.now }
        ensures params { result.params ≡ params.now }
        ensures roots { result.roots.items ≡ replicate (root_count params.now) empty_tree }
    {
        let mut roots = ArrayVec::new();
        for _ in 0..root_count(params) {
            roots.push(Tree::default());
        }
        Forest {
            params: *params,
            roots,
        }
    }
}

/// How many corners a box has.
pub fn corner_count(params: &Params) -> u8
    requires { IsInRange params.now }
    ensures count { result ≡ corner_count params.now }
    ensures at_most { result ≤ 8 }
{
    match params.dims {
        1 => 2,
        2 => 4,
        _ => 8,
    }
}

/// How many trees there are.
pub fn root_count(params: &Params) -> usize
    requires { IsInRange params.now }
    ensures count { result ≡ root_count params.now }
    ensures at_most { result ≤ 72 }
{
    usize::from(corner_count(params)) + plane_count(params)
}
