ghost use Rattle.std.specs.Prelude.{IfOk};
ghost use Rattle.lab_any.specs.Any.{any_meaning};
ghost use Rattle.dmlab_words.specs.declared.study.Study.TheVariants.{Disks, DisksHistory};
ghost use Rattle.dmlab_run.specs.Answering.{told_of};
ghost use Rattle.dmlab_run.specs.Studies.{DisksOfEvents, DisksOfSeed, IsStudyOutput};

use crate::answer::{Answer, answer_to_refusal, done};
use crate::audit::answer_of_run;
use crate::judged::{judged, judged_run};
use lab_any::AnyTarget;
use lab_core::Event;
use lab_image::{disks_of_events, disks_of_seed};
use lab_sector::NoMemory;
use lab_verify::Accepted;
use std::alloc::Global;

/// What stands on the disks after the run of a bundle of these bytes by a seed, promptly or not.
pub(crate) fn disks_by_seed<'a>(
    alloc: Global,
    seed: u64,
    prompt: bool,
    bytes: &'a [u8],
) -> Result<Answer<'a>, NoMemory>
    ensures { IfOk result (λ answer.
        IsStudyOutput any_meaning (Disks seed prompt) bytes.now (told_of answer)) }
{
    match judged(alloc, bytes) {
        Ok(accepted) => done(alloc, seed_disks(alloc, accepted, seed, prompt)?),
        Err(refusal) => answer_to_refusal(alloc, refusal),
    }
}

/// What stands there after the history of a bundle of these bytes, or where it is no complete run.
pub(crate) fn disks_of_history<'a>(alloc: Global, bytes: &'a [u8]) -> Result<Answer<'a>, NoMemory>
    ensures { IfOk result (λ answer.
        IsStudyOutput any_meaning DisksHistory bytes.now (told_of answer)) }
{
    match judged_run(alloc, bytes) {
        Ok((accepted, events)) => event_disks(alloc, accepted, &events),
        Err(refusal) => answer_to_refusal(alloc, refusal),
    }
}

/// What stands there after a run by the words of a generator with this seed, promptly or not.
fn seed_disks(
    alloc: Global,
    accepted: Accepted<AnyTarget>,
    seed: u64,
    prompt: bool,
) -> Result<Vec<u8>, NoMemory>
    ensures { IfOk result (λ text.
        DisksOfSeed any_meaning accepted.scenario prompt seed text.items) }
{
    disks_of_seed(alloc, accepted, seed, prompt)
}

/// What stands there after a run of these events, or where they are no complete run.
fn event_disks<'a>(
    alloc: Global,
    accepted: Accepted<AnyTarget>,
    events: &[Event],
) -> Result<Answer<'a>, NoMemory>
    ensures { IfOk result (λ answer. DisksOfEvents any_meaning accepted.scenario events.now
        (told_of answer)) }
{
    answer_of_run(alloc, disks_of_events(alloc, accepted, events))
}
