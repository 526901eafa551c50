ghost use Rattle.std.specs.Prelude.{◌≡◌, IfOk, true};
ghost use Rattle.lab_model.specs.Guard.{is_done};
ghost use Rattle.lab_core.specs.Running.{begun};
ghost use Rattle.lab_core.specs.Runs.{IsPaced};

use crate::lab::Lab;
use lab_rulebook::Accepted;
use lab_sector::NoMemory;
use lab_target::Target;
use std::alloc::Global;

/// The run by the words of a generator with this seed, promptly or not, up to where all is done.
pub fn complete_run<T: Target>(
    alloc: Global,
    accepted: Accepted<T>,
    seed: u64,
    prompt: bool,
) -> Result<Lab<T>, NoMemory>
    ensures paced { IfOk result (λ lab. IsPaced T.meaning prompt seed (begun accepted) lab) }
    ensures done { IfOk result (λ lab. is_done lab.scenario lab.state ≡ true) }
{
    let mut lab = begin(alloc, accepted)?;
    match lab.simulate_paced(alloc, seed, prompt) {
        Ok(()) => Ok(lab),
        Err(NoMemory) => {
            lab.discard();
            Err(NoMemory)
        }
    }
}

/// The laboratory before its first event.
pub fn begin<T: Target>(alloc: Global, accepted: Accepted<T>) -> Result<Lab<T>, NoMemory>
    ensures { IfOk result (λ lab. lab ≡ begun accepted) }
{
    match Lab::new(alloc, accepted) {
        Ok(lab) => Ok(lab),
        Err(_) => Err(NoMemory),
    }
}
