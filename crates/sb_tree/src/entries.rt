//! The entries of a node.
ghost use Rattle.std.specs.Prelude.{◌≡◌, ◌≤◌, ◌<◌, ℕ, length};
ghost use Rattle.std.specs.List.{AllAdjacentBelow};
ghost use Rattle.sb_tree.specs.Cut.{IsCut};
ghost use Rattle.sb_tree.specs.Damage.{low_from, next_from};
ghost use Rattle.sb_tree.specs.Steps.{child_at};

use crate::place::Place;
use page_layout::SbEntry;

/// How many of the entries begin at or below the version.
pub fn begun_count(entries: &[SbEntry], version: u32) -> usize
    requires { AllAdjacentBelow (λ e next. e.low < next.low) entries.now (length entries.now) }
    ensures { IsCut entries.now result version }
{
    entries.partition_point(|e| e.low <= version)
}

/// The place of the child at which the first `begun` entries end, which are those that have begun at
/// the version sought.
pub fn inner_place(entries: &[SbEntry], begun: usize, place: Place) -> Place
    requires { (1 ≤ begun) × IsCut entries.now begun place.sought }
    ensures low { result.low ≡ low_from place.low entries.now place.sought }
    ensures high { result.high ≡ next_from entries.now place.sought place.high }
    ensures sought { result.sought ≡ place.sought }
{
    let high = match entries.get(begun) {
        Some(next) => u64::from(next.low),
        None => place.high,
    };
    Place {
        low: entries[begun - 1].low,
        high,
        sought: place.sought,
    }
}

/// The child of the last of the first `begun` entries.
pub fn child_before(entries: &[SbEntry], begun: usize) -> u64
    requires { (1 ≤ begun) × (begun ≤ length entries.now) }
    ensures { (version : ℕ) → IsCut entries.now begun version → result ≡ child_at entries.now version }
{
    entries[begun - 1].child
}
