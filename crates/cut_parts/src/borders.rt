//! Points without one of their dimensions, as the border of a cut in that dimension keeps them.
ghost use Rattle.std.specs.Prelude.{◌≡◌, ◌<◌, IfOk};
ghost use Rattle.bw_types.specs.Without.{keys_without, without_dimension};
ghost use Rattle.cut_parts.specs.Parts as parts;

use bw_types::Point;
use std::alloc::{AllocError, Global};

/// The keys without that of one dimension, counted from 0: those after it close up and the last one is 0.
pub fn drop_key(keys: &[u64; 3], dimension: u8) -> [u64; 3]
    requires { dimension < 3 }
    ensures { result ≡ keys_without dimension keys.now }
{
    let [first, second, third] = *keys;
    match dimension {
        0 => [second, third, 0],
        1 => [first, third, 0],
        _ => [first, second, 0],
    }
}

/// The point without its key of one dimension, of the same version and weight.
pub fn drop_dimension(point: &Point, dimension: u8) -> Point
    requires { dimension < 3 }
    ensures { result ≡ without_dimension dimension point.now }
{
    let keys = drop_key(&point.keys, dimension);
    Point { keys, ..*point }
}

/// The points without their keys of one dimension, in the same order. `AllocError` comes where memory is wanting.
pub fn border_points(
    alloc: Global,
    points: &[Point],
    dimension: u8,
) -> Result<Vec<Point>, AllocError>
    requires { dimension < 3 }
    ensures { IfOk result (λ made. made.items ≡ parts.border_points dimension points.now) }
{
    let mut made = Vec::with_capacity(alloc, points.len())?;
    for point in points {
        made.push(drop_dimension(point, dimension))?;
    }
    Ok(made)
}
