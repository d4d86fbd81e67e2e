//! Whether the entries of lives keep the rules of a forest.
ghost use Rattle.std.specs.Prelude.{◌≡◌, ◌↔◌, ◌*◌, ◌^◌, ◌≤◌, IsTrue, length, nat_abs};
ghost use Rattle.std.specs.List.{All};
ghost use Rattle.bw_types.specs.Fits.{IsInRange};
ghost use Rattle.corner_weights.specs.PlaneSums.{EnteredFits};
ghost use Rattle.history_laws.specs.Entries.{begun_entry, entries_of, life_entries};
ghost use Rattle.corner_forest.specs.Entries.{corner_count as count_of_corners};
ghost use Rattle.corner_forest.specs.Stands.{HasSmallWeight};

use bw_types::{Dated, Params, object_fits};
use corner_forest::corner_count;

// The event numbers of entries are below it.
const EVENTS: u32 = 268435456;

// The most points of a tree.
const MOST_POINTS: u128 = 2147483648;

/// Whether what the lives enter keeps the rules.
pub(crate) fn entries_fit(lives: &[Dated], params: &Params) -> bool
    requires { IsInRange params.now }
    ensures fits { IsTrue result ↔ All (EnteredFits params.now) (entries_of lives.now) }
    ensures small { IsTrue result → All HasSmallWeight (entries_of lives.now) }
{
    for life in lives {
        if !life_fits(life, params) {
            return false;
        }
    }
    true
}

// Whether the entries of a life keep the rules.
fn life_fits(life: &Dated, params: &Params) -> bool
    requires { IsInRange params.now }
    ensures fits { IsTrue result ↔ All (EnteredFits params.now) (life_entries life.now) }
    ensures small { All HasSmallWeight (life_entries life.now) }
{
    is_small(life.object.weight);
    if life.withdrawn == 0 {
        return begun_fits(life, params);
    }
    begun_fits(life, params) && life.withdraw_event < EVENTS
}

// Whether the entry of its begin keeps the rules.
fn begun_fits(life: &Dated, params: &Params) -> bool
    requires { IsInRange params.now }
    ensures { IsTrue result ↔ EnteredFits params.now (begun_entry life.now) }
{
    object_fits(&life.object, params) && life.add_event < EVENTS
}

// Proves that a weight has 64 bits; it does nothing when it runs.
fn is_small(weight: i64)
    ensures { nat_abs weight ≤ 2 ^ 63 }
{}

/// Whether no tree has more than 2^31 points of what the lives enter.
pub(crate) fn are_few(lives: &[Dated], params: &Params) -> bool
    requires { IsInRange params.now }
    ensures { IsTrue result ↔ (length (entries_of lives.now) * count_of_corners params.now ≤ 2 ^ 31) }
{
    entry_count(lives) as u128 * u128::from(corner_count(params)) <= MOST_POINTS
}

// How many entries the lives have.
fn entry_count(lives: &[Dated]) -> usize
    ensures { result ≡ length (entries_of lives.now) }
{
    let mut count = 0;
    for life in lives {
        count += life_count(life);
    }
    count
}

// How many entries a life has: one, and another one where it has ended.
fn life_count(life: &Dated) -> usize
    ensures count { result ≡ length (life_entries life.now) }
    ensures at_most { result ≤ 2 }
{
    if life.withdrawn == 0 { 1 } else { 2 }
}
