ghost use Rattle.std.specs.Prelude.{◌≡◌, ◌+◌, IfOk, count_by};
ghost use Rattle.lab_sweep.specs.SeedLine.{eio_count, is_eio};

use lab_model::{Answer, Outcome};
use lab_sector::NoMemory;
use lab_state::LogState;

/// The sum of two counts of things that lie in memory. There is no memory for more than a number counts.
pub(crate) fn add(count: u64, more: u64) -> Result<u64, NoMemory>
    ensures { IfOk result (λ sum. sum ≡ count + more) }
{
    count.checked_add(more).ok_or(NoMemory)
}

/// How many of some logs' answers are EIO.
pub(crate) fn count_eio(logs: &[LogState]) -> Result<u64, NoMemory>
    ensures { IfOk result (λ count. count ≡ eio_count logs.now) }
{
    let mut count = 0;
    for log in logs {
        count = add(count, count_failed(&log.answers))?;
    }
    Ok(count)
}

/// How many answers are EIO.
fn count_failed(answers: &[Answer]) -> u64
    ensures { result ≡ count_by (λ answer. is_eio answer.outcome) answers.now }
{
    answers
        .iter()
        .filter(|answer| is_eio(&answer.outcome))
        .count() as u64
}

/// Whether an operation ended with EIO.
fn is_eio(outcome: &Outcome) -> bool
    ensures { result ≡ is_eio outcome.now }
{
    matches!(outcome, Outcome::Eio)
}
