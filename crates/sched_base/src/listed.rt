ghost use Rattle.std.specs.Prelude.{◌≡◌};
ghost use Rattle.sched_base.specs.Memory.{is_listed as is_listed_after};

/// Whether the call after so many is listed.
pub fn is_listed(failing: &[u64], calls: u64) -> bool
    ensures { result ≡ is_listed_after failing.now calls }
{
    let number = calls.saturating_add(1);
    failing.iter().any(|listed| *listed == number)
}
