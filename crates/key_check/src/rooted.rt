//! Whether there is a root from the first point on.
ghost use Rattle.std.specs.Prelude.{◌≡◌, ◌↔◌, ◌^◌, ℕ, ◌||◌, nat_le, false, IsTrue};
ghost use Rattle.std.specs.Option.{option_map_or};
ghost use Rattle.mvsb_tree.specs.Stands.{has_begun};
ghost use Rattle.key_check.specs.KeyTrees.{IsRooted, never_zero};
ghost use Rattle.key_check.specs.Steps.{AscendFrom};

use crate::step::Step;
use bw_types::Point;

/// Whether the steps' value is not 0 at any version from the first point's on.
pub(crate) fn is_rooted(steps: &[Step], points: &[Point]) -> bool
    ensures { AscendFrom 0 steps.now (2 ^ 32) → IsTrue result ↔ IsRooted steps.now points.now }
{
    match first_version(points) {
        Some(first) => is_never_zero(steps, first),
        None => true,
    }
}

// The first of the points' versions.
fn first_version(points: &[Point]) -> Option<u32>
    ensures { (version : ℕ) → has_begun points.now version ≡ option_map_or (λ first. nat_le first version) result false }
{
    let mut first: Option<u32> = None;
    for point in points {
        first = Some(earlier(first, point.version));
    }
    first
}

// The earlier one of two versions, where there are two.
fn earlier(first: Option<u32>, version: u32) -> u32
    ensures { (v : ℕ) → nat_le result v ≡ (option_map_or (λ f. nat_le f v) first false || nat_le version v) }
{
    match first {
        Some(first) if first <= version => first,
        _ => version,
    }
}

// Whether the steps' value is not 0 at any version from this one on.
fn is_never_zero(steps: &[Step], from: u32) -> bool
    ensures { result ≡ never_zero from 0 steps.now }
{
    let mut from = from;
    let mut value = 0;
    for step in steps {
        if from < step.version {
            if value == 0 {
                return false;
            }
            from = step.version;
        }
        value = step.value;
    }
    value != 0
}
