//! A copy of an object.
ghost use Rattle.std.specs.Prelude.{◌≡◌, ◌^◌, length};
ghost use Rattle.std.specs.List.{All};
ghost use Rattle.std.specs.Int.{w64};
ghost use Rattle.std.specs.Int.RustNames.{FitsSigned};
ghost use Rattle.page_layout.specs.Dated.{IsDatedTyped, IsObjectTyped};
ghost use Rattle.page_layout.specs.Three.{AreThree};

use arrayvec::ArrayVec;
use bw_types::{Dated, Object};

/// A copy, whose numbers are shown to be those of their types.
pub fn copied_dated(dated: &Dated) -> Dated
    ensures value { result ≡ dated.now }
    ensures typed { IsDatedTyped result }
{
    // A number is known to be one of its type where it is read.
    let (life, added, add_event) = (dated.life, dated.added, dated.add_event);
    let (withdrawn, withdraw_event) = (dated.withdrawn, dated.withdraw_event);
    Dated {
        object: copied_object(&dated.object),
        life,
        added,
        add_event,
        withdrawn,
        withdraw_event,
    }
}

fn copied_object(object: &Object) -> Object
    ensures value { result ≡ object.now }
    ensures typed { IsObjectTyped result }
{
    let (id, weight) = (object.id, object.weight);
    Object {
        id,
        low: copied_ends(&object.low),
        high: copied_ends(&object.high),
        weight,
        coeffs: copied_coefficients(&object.coeffs),
    }
}

fn copied_ends(ends: &[u32; 3]) -> [u32; 3]
    ensures value { result ≡ ends.now }
    ensures typed { AreThree (2 ^ 32) result }
{
    let (first, second, third) = (ends[0], ends[1], ends[2]);
    [first, second, third]
}

fn copied_coefficients(coefficients: &[i64; 27]) -> [i64; 27]
    ensures value { result ≡ coefficients.now }
    ensures many { length result ≡ 27 }
    ensures typed { All (FitsSigned w64) result }
{
    let mut row: ArrayVec<i64, 27> = ArrayVec::new();
    for coefficient in coefficients {
        row.push(*coefficient);
    }
    let mut copies = [0; 27];
    copies.copy_from_slice(row.as_slice());
    copies
}
