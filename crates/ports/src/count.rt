//! A count of calls or of failures.
ghost use Rattle.std.specs.Prelude.{◌≡◌, ◌≤◌};
ghost use Rattle.ports.specs.Count.{Rose, raised as one_more};

/// The count after one more: it stands still at its last value.
pub fn raised(count: u64) -> u64
    ensures value { result ≡ one_more count }
    ensures rose { Rose count result }
    ensures never_falls { count ≤ result }
{
    count.saturating_add(1)
}
