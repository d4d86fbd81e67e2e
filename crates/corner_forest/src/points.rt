//! The points of an entry.
ghost use Rattle.std.specs.Prelude.{◌≡◌, ◌+◌, ◌*◌, ◌^◌, ◌<◌, IsTrue, IsSome, nat_lt, if◌then◌else◌};
ghost use Rattle.bw_types.specs.Fits.{IsInRange, object_fits};
ghost use Rattle.bw_types.specs.Keys.{point_key as key_of_point};
ghost use Rattle.corner_weights.specs.Corners.{corner_keys};
ghost use Rattle.dom_index.specs.Points.{AreKeysBelow};
ghost use Rattle.corner_weights.specs.Powers.{ArePowersOf};
ghost use Rattle.corner_forest.specs.Enters.{entered_at};
ghost use Rattle.corner_forest.specs.Entries.{corner_count as count_of_corners, entered_residue, entry_point as point_of_entry, root_count};

use crate::entry::Entry;
use crate::forest::corner_count;
use bw_types::{Object, Params, Point, point_key, res_neg, res_of};
use corner_weights::{BoxPowers, object_corner, plane_weight_by};

/// The entry's point in a tree; in a plane that of this corner, by the powers of the object's box.
pub fn entry_point(
    params: &Params,
    powers: &BoxPowers,
    entry: &Entry,
    version: u32,
    root: u8,
    corner: u8,
) -> Point
    requires in_range { IsInRange params.now }
    requires powers { IsSome params.now.degree → ArePowersOf params.now entry.now.object powers.now }
    requires fits { IsTrue (object_fits params.now entry.now.object) }
    requires event { entry.now.event < 2 ^ 28 }
    requires root { root < root_count params.now }
    requires corner { corner < count_of_corners params.now }
    ensures point { result ≡ point_of_entry params.now (entered_at version entry.now) root corner }
    ensures keys { AreKeysBelow params.now.dims result.keys }
    ensures version { result.version ≡ version }
{
    let object = &entry.object;
    let corners = corner_count(params);
    if root < corners {
        let met = i128::from(object.weight) * 4294967296 + 1;
        let weight = weighed(entry.minus, res_of(met));
        return corner_point(params, object, entry.event, version, root, weight);
    }
    let number = entry.event * u32::from(corners) + u32::from(corner);
    let weight = weighed(
        entry.minus,
        plane_weight_by(powers, object, params, corner, root - corners),
    );
    corner_point(params, object, number, version, corner, weight)
}

// The residue, or its opposite where the entry takes its object out.
fn weighed(minus: bool, residue: u128) -> u128
    ensures { result ≡ entered_residue minus residue }
{
    if minus { res_neg(residue) } else { residue }
}

// The point with this number at the object's corner of the subset.
fn corner_point(
    params: &Params,
    object: &Object,
    number: u32,
    version: u32,
    subset: u8,
    weight: u128,
) -> Point
    requires fits { IsTrue (object_fits params.now object.now) }
    ensures keys { result.keys ≡ corner_keys params.now.dims object.now number subset }
    ensures version { result.version ≡ version }
    ensures weight { result.weight ≡ weight }
    ensures below { AreKeysBelow params.now.dims result.keys }
{
    let corner = object_corner(object, subset);
    Point {
        keys: [
            key_within(params.dims, 0, corner[0], number),
            key_within(params.dims, 1, corner[1], number),
            key_within(params.dims, 2, corner[2], number),
        ],
        version,
        weight,
    }
}

fn key_within(dims: u8, i: u8, coord: u32, number: u32) -> u64
    ensures { result ≡ (if nat_lt i dims then key_of_point coord number else 0) }
{
    if i < dims {
        point_key(coord, number)
    } else {
        0
    }
}
