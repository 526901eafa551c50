ghost use Rattle.std.specs.Prelude.{◌≡◌, [], true, IfOk, OnOk};
ghost use Rattle.lab_model.specs.Guard.{is_done};
ghost use Rattle.lab_model.specs.State.{opening};
ghost use Rattle.lab_core.specs.Running.{begun};
ghost use Rattle.lab_core.specs.Runs.{IsPaced};
ghost use Rattle.lab_findings.specs.Searched.{FindsIn};
ghost use Rattle.lab_findings.specs.Watched.{unwatched};

use crate::finder::Finder;
use lab_core::{Lab, begin};
use lab_findings::{Noted, Sought};
use lab_rulebook::Accepted;
use lab_sector::NoMemory;
use lab_target::Target;
use std::alloc::Global;

/// The run by the words of a generator with this seed, promptly or not, up to where all is done, and what was noted in
/// it while it went, of what is asked for.
pub(crate) fn found_run<T: Target>(
    alloc: Global,
    accepted: Accepted<T>,
    seed: u64,
    prompt: bool,
    sought: Sought,
) -> Result<(Vec<Noted>, Lab<T>), NoMemory>
    ensures paced { IfOk result (λ pair. IsPaced T.meaning prompt seed (begun accepted) pair.1) }
    ensures done { IfOk result (λ pair. is_done pair.1.scenario pair.1.state ≡ true) }
    ensures noted { IfOk result (λ pair. FindsIn T.meaning accepted.scenario
        (opening accepted.scenario) (unwatched sought) pair.1.history pair.0.items) }
{
    let mut lab = begin(alloc, accepted)?;
    match find_all(alloc, &mut lab, seed, prompt, sought) {
        Ok(noted) => Ok((noted, lab)),
        Err(NoMemory) => {
            lab.discard();
            Err(NoMemory)
        }
    }
}

/// Runs a laboratory before its first event by the words of a generator with this seed, promptly or not, until all is
/// done: what is noted in the run, of what is asked for.
fn find_all<T: Target>(
    alloc: Global,
    lab: &mut Lab<T>,
    seed: u64,
    prompt: bool,
    sought: Sought,
) -> Result<Vec<Noted>, NoMemory>
    requires { lab.old.history ≡ [] }
    ensures paced { IsPaced T.meaning prompt seed lab.old lab.new }
    ensures done { OnOk result (is_done lab.new.scenario lab.new.state ≡ true) }
    ensures noted { IfOk result (λ noted. FindsIn T.meaning lab.old.scenario lab.old.state
        (unwatched sought) lab.new.history noted.items) }
{
    let mut finder = Finder::new(alloc, sought);
    lab.simulate_watched(alloc, seed, prompt, &mut finder)?;
    Ok(finder.into_noted())
}
