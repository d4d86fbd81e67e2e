ghost use Rattle.std.specs.Prelude.{◌≡◌, ◌≤◌, pos, ◌-ℤ◌};
ghost use Rattle.bw_types.specs.Mass.{reach};

/// Six times the integral of `|x|^e` over the parts of `[low, high]` below and above 0, where these
/// are coordinates; the arguments are the numbers that are stored for them.
pub fn reach(e: u32, low: u32, high: u32, origin: u32) -> u128
    requires { e ≤ 2 }
    ensures { result ≡ reach e (pos low -ℤ pos origin) (pos high -ℤ pos origin) }
{
    let above = u128::from(high.saturating_sub(origin));
    let below = u128::from(origin.saturating_sub(low));
    u128::from(6 / (e + 1)) * (above.pow(e + 1) + below.pow(e + 1))
}
