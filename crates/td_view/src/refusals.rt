ghost use Rattle.std.specs.Prelude.{◌≡◌};
ghost use Rattle.td_view.specs.Values.{one_more};

/// One more, as far as a number goes.
pub fn raised(count: u64) -> u64
    ensures { result ≡ one_more count }
{
    count.saturating_add(1)
}
