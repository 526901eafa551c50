ghost use Rattle.std.specs.Prelude.{IfOk};
ghost use Rattle.lab_sweep.specs.Told.{Tells};

use crate::counts::count_eio;
use crate::digest::Digests;
use crate::outcome::SeedOutcome;
use lab_core::Lab;
use lab_sector::NoMemory;
use lab_target::Target;

/// What is told of a run, whose digest is of this text.
pub(crate) fn outcome_in<T: Target>(
    digests: &mut Digests,
    lab: &Lab<T>,
    text: Vec<u8>,
    seed: u64,
) -> Result<SeedOutcome, NoMemory>
    ensures { IfOk result (λ outcome.
        Tells seed text.items lab.now.history lab.now.state outcome) }
{
    let eio = count_eio(lab.state().logs.as_slice())?;
    Ok(SeedOutcome {
        seed,
        digest: digests.digest_of(text)?,
        eio,
        steps: lab.steps(),
        clock: lab.clock_steps(),
        time: lab.now(),
    })
}
