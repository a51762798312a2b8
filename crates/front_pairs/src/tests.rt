// A test of numbers. Both of its sides are made, so that nothing branches: so it is with each `&` and `|` in this crate.
ghost use Rattle.std.specs.Prelude.{◌≡◌};
ghost use Rattle.format.specs.Choice.{within as withinOf};

// A number from `low` to `high`.
pub(crate) fn within(low: usize, high: usize, n: usize) -> bool
    ensures { result ≡ withinOf low high n }
{
    (low <= n) & (n <= high)
}
