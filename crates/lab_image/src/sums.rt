ghost use Rattle.std.specs.Prelude.{◌≡◌, ◌+◌, IfOk};

use lab_sector::NoMemory;

/// The sum of two numbers. There is no memory for more than a number counts.
pub(crate) fn sum(one: u64, other: u64) -> Result<u64, NoMemory>
    ensures { IfOk result (λ sum. sum ≡ one + other) }
{
    one.checked_add(other).ok_or(NoMemory)
}
