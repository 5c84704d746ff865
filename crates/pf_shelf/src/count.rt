// Counts that stand still at their last value.
ghost use Rattle.std.specs.Prelude.{◌≡◌};
ghost use Rattle.pf_shelf.specs.Count.{raised};

pub(crate) fn raise(count: u64, by: u64) -> u64
    ensures { result ≡ raised count by }
{
    count.saturating_add(by)
}
