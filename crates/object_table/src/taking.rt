//! Taking an object into those of a leaf.
ghost use Rattle.std.specs.Prelude.{◌≡◌, ◌<◌, ◌≤◌, true, false, length, take, drop};
ghost use Rattle.std.specs.List.{All, AllAdjacentBelow};
ghost use Rattle.object_table.specs.Keys.{key as spec_key};
ghost use Rattle.object_table.specs.Damage.{HaveNot};
ghost use Rattle.object_table.specs.Edits.{IsPutIn};

use crate::key::key;
use arrayvec::ArrayVec;
use bw_types::Dated;

/// Takes an object into those of a leaf, at its place. It answers whether no object had the id and the
/// life; where one has them, nothing changes.
pub fn take_in(objects: &mut ArrayVec<Dated, 15>, dated: &Dated) -> bool
    requires order { AllAdjacentBelow (λ d next. spec_key d < spec_key next) objects.old.items (length objects.old.items) }
    requires room { length objects.old.items ≤ 14 }
    ensures taken { result ≡ true → IsPutIn objects.old.items objects.new.items dated.now }
    ensures refused { result ≡ false → ¬ HaveNot (spec_key dated.now) objects.old.items }
{
    let sought = key(dated);
    let begun = begun_objects(objects.as_slice(), sought);
    if begun > 0 && key(&objects.as_slice()[begun - 1]) == sought {
        return false;
    }
    objects.insert(begun, *dated);
    true
}

/// How many of the objects stand at or before the key.
pub fn begun_objects(objects: &[Dated], sought: u128) -> usize
    requires { AllAdjacentBelow (λ d next. spec_key d < spec_key next) objects.now (length objects.now) }
    ensures bound { result ≤ length objects.now }
    ensures begun { All (λ d. spec_key d ≤ sought) (take result objects.now) }
    ensures later { All (λ d. sought < spec_key d) (drop result objects.now) }
{
    objects.partition_point(|d| key(d) <= sought)
}
