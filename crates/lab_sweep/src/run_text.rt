ghost use Rattle.std.specs.Prelude.{◌≡◌, [], true, IfOk, OnOk};
ghost use Rattle.lab_model.specs.Guard.{is_done};
ghost use Rattle.lab_model.specs.State.{opening};
ghost use Rattle.lab_core.specs.Running.{begun};
ghost use Rattle.lab_core.specs.Runs.{IsPaced};
ghost use Rattle.lab_sweep.specs.Told.{digested_text};

use lab_core::{Lab, begin};
use lab_image::disks_of_run;
use lab_rulebook::Accepted;
use lab_sector::NoMemory;
use lab_target::Target;
use std::alloc::Global;

/// The text that tells a run by the words of a generator with this seed, promptly or not, from others: its report, or
/// what stands on the disks then. And the laboratory, where all is done.
pub(crate) fn digested_run<T: Target>(
    alloc: Global,
    accepted: Accepted<T>,
    seed: u64,
    prompt: bool,
    disks: bool,
) -> Result<(Vec<u8>, Lab<T>), NoMemory>
    ensures paced { IfOk result (λ pair. IsPaced T.meaning prompt seed (begun accepted) pair.1) }
    ensures done { IfOk result (λ pair. is_done pair.1.scenario pair.1.state ≡ true) }
    ensures text { IfOk result (λ pair. pair.0.items
        ≡ digested_text T.meaning disks pair.1.scenario pair.1.history pair.1.state) }
{
    let mut lab = begin(alloc, accepted)?;
    match run_digested(alloc, &mut lab, seed, prompt, disks) {
        Ok(text) => Ok((text, lab)),
        Err(NoMemory) => {
            lab.discard();
            Err(NoMemory)
        }
    }
}

/// Runs a laboratory before its first event so, until all is done: the text.
fn run_digested<T: Target>(
    alloc: Global,
    lab: &mut Lab<T>,
    seed: u64,
    prompt: bool,
    disks: bool,
) -> Result<Vec<u8>, NoMemory>
    requires first { lab.old.history ≡ [] }
    requires opening { lab.old.state ≡ opening lab.old.scenario }
    ensures paced { IsPaced T.meaning prompt seed lab.old lab.new }
    ensures done { OnOk result (is_done lab.new.scenario lab.new.state ≡ true) }
    ensures text { IfOk result (λ text. text.items
        ≡ digested_text T.meaning disks lab.new.scenario lab.new.history lab.new.state) }
{
    if disks {
        return disks_of_run(alloc, lab, seed, prompt);
    }
    lab.simulate_watched(alloc, seed, prompt, &mut ())?;
    lab.report(alloc)
}
