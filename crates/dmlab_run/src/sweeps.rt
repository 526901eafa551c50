ghost use Rattle.std.specs.Prelude.{◌≡◌, Bool, IfOk, true};
ghost use Rattle.lab_any.specs.Any.{any_meaning};
ghost use Rattle.dmlab_words.specs.Findings.{is_seeking};
ghost use Rattle.dmlab_words.specs.declared.study.Study.TheVariants.{Sweep};
ghost use Rattle.dmlab_run.specs.Answering.{told_of};
ghost use Rattle.dmlab_run.specs.Studies.{IsStudyOutput, TellsSeeds};

use crate::answer::{Answer, answer_to_refusal, done};
use crate::findings::{found, sought_by};
use crate::judged::judged;
use dmlab_words::Asked;
use lab_any::AnyTarget;
use lab_sector::NoMemory;
use lab_sweep::{Progress, Seeds, search, sweep};
use lab_verify::Accepted;
use std::alloc::Global;

/// The sweep of a bundle of these bytes by some seeds, or the search of their runs.
pub(crate) fn answer_to_sweep<'a, R: AllocGlobal + Progress>(
    rt: &R,
    seeds: Seeds,
    asked: Asked,
    by_line: bool,
    disks: bool,
    bytes: &'a [u8],
) -> Result<Answer<'a>, NoMemory>
    ensures { IfOk result (λ answer. IsStudyOutput any_meaning
        (Sweep seeds.first seeds.last seeds.prompt asked by_line disks) bytes.now (told_of answer)) }
{
    match judged(rt.alloc(), bytes) {
        Ok(accepted) => seeds_told(rt, accepted, seeds, asked, by_line, disks),
        Err(refusal) => answer_to_refusal(rt.alloc(), refusal),
    }
}

/// The sweep of the seeds from the first to the last, or the search of their runs where findings
/// are asked for.
fn seeds_told<'a, R: AllocGlobal + Progress>(
    rt: &R,
    accepted: Accepted<AnyTarget>,
    seeds: Seeds,
    asked: Asked,
    by_line: bool,
    disks: bool,
) -> Result<Answer<'a>, NoMemory>
    ensures { IfOk result (λ answer. TellsSeeds any_meaning accepted.scenario seeds.prompt
        seeds.first seeds.last asked by_line disks (told_of answer)) }
{
    if asked.is_seeking() {
        seeds_searched(rt, accepted, seeds, asked, by_line)
    } else {
        let text = sweep(rt.alloc(), accepted, seeds, disks, rt)?;
        done(rt.alloc(), text)
    }
}

/// The search of the runs of the seeds from the first to the last.
fn seeds_searched<'a, R: AllocGlobal + Progress>(
    rt: &R,
    accepted: Accepted<AnyTarget>,
    seeds: Seeds,
    asked: Asked,
    by_line: bool,
) -> Result<Answer<'a>, NoMemory>
    requires { is_seeking asked ≡ true }
    ensures { (disks : Bool) → IfOk result (λ answer. TellsSeeds any_meaning accepted.scenario
        seeds.prompt seeds.first seeds.last asked by_line disks (told_of answer)) }
{
    let it = search(rt.alloc(), accepted, seeds, sought_by(asked), by_line, rt)?;
    found(rt.alloc(), asked, it.text, it.totals)
}
