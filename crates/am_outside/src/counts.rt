// Counts of faults and of calls.
ghost use Rattle.std.specs.Prelude.{◌≡◌};
ghost use Rattle.am_outside.specs.Faults.{one_more};

pub(crate) fn count_one(count: u64) -> u64
    ensures { result ≡ one_more count }
{
    count.saturating_add(1)
}
