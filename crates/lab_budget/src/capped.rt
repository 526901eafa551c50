ghost use Rattle.std.specs.Prelude.{◌≡◌, ◌+◌};
ghost use Rattle.lab_budget.specs.Capped.{capped};

use lab_table::LIMIT;

/// The sum of two numbers, or `LIMIT + 1` where it is more than `LIMIT`.
pub(crate) fn capped_sum(a: u64, b: u64) -> u64
    ensures { result ≡ capped (a + b) }
{
    a.saturating_add(b).min(LIMIT + 1)
}
