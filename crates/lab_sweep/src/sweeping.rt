ghost use Rattle.std.specs.Prelude.{◌≡◌, ◌+◌, ◌-◌, IfOk, length};
ghost use Rattle.lab_sweep.specs.Sweep.{IsSweep, OutcomesFrom};

use crate::outcome::SeedOutcome;
use crate::progress::Progress;
use crate::room::make_room;
use crate::seeds::Seeds;
use crate::sweep_lines::text_of;
use crate::sweeper::Sweeper;
use lab_rulebook::Accepted;
use lab_sector::NoMemory;
use lab_target::Target;
use std::alloc::Global;

/// Runs an accepted scenario by each of the seeds: a line for each seed tells its run, with a digest of its report, or
/// of what stands on the disks then, and then a line for each digest tells the first seed that has it, and how many have
/// it. Before each seed but the last the progress is told.
pub fn sweep<T: Target, P: Progress>(
    alloc: Global,
    accepted: Accepted<T>,
    seeds: Seeds,
    disks: bool,
    progress: &P,
) -> Result<Vec<u8>, NoMemory>
    ensures { IfOk result (λ text. IsSweep T.meaning accepted.scenario seeds.prompt disks
        seeds.first seeds.last text.items) }
{
    make_room(alloc);
    let outcomes = outcomes_of(alloc, accepted, seeds, disks, progress);
    progress.ended();
    text_of(alloc, &outcomes?)
}

/// The outcomes of the seeds from the first to the last.
fn outcomes_of<T: Target, P: Progress>(
    alloc: Global,
    accepted: Accepted<T>,
    seeds: Seeds,
    disks: bool,
    progress: &P,
) -> Result<Vec<SeedOutcome>, NoMemory>
    ensures each { IfOk result (λ outcomes. OutcomesFrom T.meaning accepted.scenario seeds.prompt
        disks seeds.first outcomes.items) }
    ensures count { IfOk result (λ outcomes.
        length outcomes.items ≡ seeds.last + 1 - seeds.first) }
{
    let mut sweeper = Sweeper::new(alloc, disks);
    let back = sweeper.add_all(alloc, accepted, seeds, progress)?;
    drop(back);
    Ok(sweeper.outcomes)
}
