//! How a call comes to a node.
ghost use Rattle.std.specs.Prelude.{◌≡◌};
ghost use Rattle.object_table.specs.Damage.{root_place as spec_root_place};

/// How a call that seeks a key reaches a node: as the one for the keys from `low` to before `high`.
#[derive(Clone, Copy)]
pub struct Place {
    pub low: u128,
    pub high: u128,
    pub sought: u128,
}

/// The place of the root for a key.
pub fn root_place(sought: u128) -> Place
    ensures { result ≡ spec_root_place sought }
{
    Place {
        low: 0,
        high: 1 << 96,
        sought,
    }
}
