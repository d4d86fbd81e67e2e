//! The keys of points and of queries.
ghost use Rattle.std.specs.Prelude.{◌≡◌, ◌+◌, ◌-◌, ◌*◌, ◌^◌};
ghost use Rattle.bw_types.specs.Keys.{KeysKeepOrder, KeysSetApart, KeysAreBelow, QueryKeysAreBelow};

/// The key of a point at a coordinate: the coordinate in the upper 32 bits, the point's number in the
/// lower ones.
pub fn point_key(coord: u32, number: u32) -> u64
    ensures { result ≡ coord * 2 ^ 32 + number }
{
    (u64::from(coord) << 32) + u64::from(number)
}

/// The key of a query at a coordinate: the greatest that a point there can have.
pub fn query_key(coord: u32) -> u64
    ensures { result ≡ coord * 2 ^ 32 + (2 ^ 32 - 1) }
{
    point_key(coord, u32::MAX)
}

/// Proves the laws of keys; it does nothing when it runs.
pub fn keys_are_ordered()
    ensures order { KeysKeepOrder }
    ensures apart { KeysSetApart }
    ensures below { KeysAreBelow }
    ensures query_below { QueryKeysAreBelow }
{}
