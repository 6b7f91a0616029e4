//! Counts that stand still at the end of their range.

ghost use Rattle.std.specs.Prelude.{◌≡◌, ◌+◌, ◌-◌, ◌^◌, ◌≤◌, min};
ghost use Rattle.edge_devices.specs.Faults.{HasRisen};

/// The count, raised by one.
pub fn raised(count: u64) -> u64
    ensures next { result ≡ min (count + 1) (2 ^ 64 - 1) }
    ensures risen { HasRisen count result }
    ensures later { count ≤ result }
{
    count.saturating_add(1)
}
