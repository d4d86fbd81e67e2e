//! In which dimension points lie widest.
ghost use Rattle.std.specs.Prelude.{◌≡◌, ◌≤◌, ◌<◌};
ghost use Rattle.cut_parts.specs.Widest as spec;

use bw_types::Point;

/// The dimension in which the points lie farthest apart, the least such dimension at a tie.
pub(crate) fn widest(points: &[Point], dims: u8) -> u8
    requires dims { (1 ≤ dims) × (dims ≤ 3) }
    ensures dimension { result < dims }
    ensures widest { spec.IsWidest dims points.now result }
{
    let mut widest = 0;
    let mut most = spread(points, 0);
    for dimension in 1..dims {
        let here = spread(points, dimension);
        if here > most {
            widest = dimension;
            most = here;
        }
    }
    widest
}

// How far the points lie apart in the dimension.
fn spread(points: &[Point], dimension: u8) -> u64
    requires { dimension < 3 }
    ensures { result ≡ spec.spread dimension points.now }
{
    let Some((first, rest)) = points.split_first() else {
        return 0;
    };
    let by = usize::from(dimension);
    let mut least = first.keys[by];
    let mut greatest = least;
    for point in rest {
        least = least.min(point.keys[by]);
        greatest = greatest.max(point.keys[by]);
    }
    greatest - least
}
