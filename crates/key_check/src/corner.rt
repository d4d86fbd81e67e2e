//! Corners.
ghost use Rattle.std.specs.Prelude.{◌≡◌};
ghost use Rattle.key_check.specs.Sums.{IsTyped, rank};

/// A weight that counts from a version and a key on. The weight is a residue modulo `2^128`.
#[derive(Clone, Copy, Debug, Default, PartialEq, Eq)]
pub(crate) struct Corner {
    pub version: u32,
    pub key: u64,
    pub weight: u128,
}

// The corner's place in the order by versions, and by keys within a version.
pub(crate) fn rank_of(corner: Corner) -> u128
    ensures value { result ≡ rank corner }
    ensures typed { IsTyped corner }
{
    u128::from(corner.version) * 0x1_0000_0000_0000_0000 + u128::from(corner.key)
}
