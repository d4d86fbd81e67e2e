//! How a call comes to a node.
ghost use Rattle.std.specs.Prelude.{◌≡◌, ◌≤◌, ◌<◌, ◌↔◌, IsTrue};
ghost use Rattle.std.specs.List.{All};
ghost use Rattle.sb_tree.specs.Damage.{IsInPlace, root_place as spec_root_place};
ghost use Rattle.sb_tree.specs.Stands.{first_low};

use crate::view::is_in_place;
use page_layout::{PlaceFor, SbEntry, SbNode, View};

/// How a call that seeks a version reaches a node: as the one for the versions from `low` to before
/// `high`.
#[derive(Clone, Copy)]
pub struct Place {
    pub low: u32,
    pub high: u64,
    pub sought: u32,
}

/// The place of the root for a version.
pub fn root_place(version: u32) -> Place
    ensures { result ≡ spec_root_place version }
{
    Place {
        low: 0,
        high: 1 << 32,
        sought: version,
    }
}

impl PlaceFor<SbNode> for Place {
    ghost admits = { IsInPlace };

    fn admits(&self, level: u8, node: &SbNode) -> bool {
        let entries = node.entries.as_slice();
        lie_within(entries, self.low, self.high)
            && (level == 1 || lead_to(entries, self.high, self.sought))
    }

    fn admits_view(&self, level: u8, view: &View<SbNode>) -> bool {
        is_in_place(view, level, *self)
    }
}

fn lie_within(entries: &[SbEntry], low: u32, high: u64) -> bool
    ensures { IsTrue result ↔ (All (λ e. low ≤ e.low) entries.now × All (λ e. e.low < high) entries.now) }
{
    entries
        .iter()
        .all(|e| low <= e.low && u64::from(e.low) < high)
}

// Whether one of the entries begins at or below the version.
fn lead_to(entries: &[SbEntry], high: u64, version: u32) -> bool
    ensures { IsTrue result ↔ (first_low entries.now high ≤ version) }
{
    match entries.first() {
        Some(first) => first.low <= version,
        None => high <= u64::from(version),
    }
}
