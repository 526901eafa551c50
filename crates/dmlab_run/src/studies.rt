ghost use Rattle.std.specs.Prelude.{IfOk};
ghost use Rattle.lab_any.specs.Any.{any_meaning};
ghost use Rattle.dmlab_words.specs.declared.study.Study.TheVariants.{Trace, TraceHistory};
ghost use Rattle.dmlab_run.specs.Answering.{told_of};
ghost use Rattle.dmlab_run.specs.Studies.{IsStudyOutput, TracesEvents, TracesSeed};

use crate::Study;
use crate::answer::{Answer, answer_to_refusal, done};
use crate::audit::answer_of_run;
use crate::disks::{disks_by_seed, disks_of_history};
use crate::judged::{judged, judged_run};
use crate::sweeps::answer_to_sweep;
use lab_any::AnyTarget;
use lab_core::Event;
use lab_sector::NoMemory;
use lab_sweep::{Progress, Seeds};
use lab_trace::{trace_events, trace_seed};
use lab_verify::Accepted;
use std::alloc::Global;

/// The answer to a study of a bundle of these bytes.
pub(crate) fn answer_to_study<'a, R: AllocGlobal + Progress>(
    rt: &R,
    study: Study,
    bytes: &'a [u8],
) -> Result<Answer<'a>, NoMemory>
    ensures { IfOk result (λ answer.
        IsStudyOutput any_meaning study bytes.now (told_of answer)) }
{
    match study {
        Study::Trace { seed, prompt } => trace_by_seed(rt.alloc(), seed, prompt, bytes),
        Study::TraceHistory => trace_of_history(rt.alloc(), bytes),
        Study::Disks { seed, prompt } => disks_by_seed(rt.alloc(), seed, prompt, bytes),
        Study::DisksHistory => disks_of_history(rt.alloc(), bytes),
        Study::Sweep {
            first,
            last,
            prompt,
            asked,
            by_line,
            disks,
        } => {
            let seeds = Seeds {
                first,
                last,
                prompt,
            };
            answer_to_sweep(rt, seeds, asked, by_line, disks, bytes)
        }
    }
}

/// The trace of the run of a bundle of these bytes by a seed, promptly or not.
fn trace_by_seed<'a>(
    alloc: Global,
    seed: u64,
    prompt: bool,
    bytes: &'a [u8],
) -> Result<Answer<'a>, NoMemory>
    ensures { IfOk result (λ answer.
        IsStudyOutput any_meaning (Trace seed prompt) bytes.now (told_of answer)) }
{
    match judged(alloc, bytes) {
        Ok(accepted) => done(alloc, trace_of_seed(alloc, accepted, seed, prompt)?),
        Err(refusal) => answer_to_refusal(alloc, refusal),
    }
}

/// The trace of the history of a bundle of these bytes, or where it is no complete run.
fn trace_of_history<'a>(alloc: Global, bytes: &'a [u8]) -> Result<Answer<'a>, NoMemory>
    ensures { IfOk result (λ answer.
        IsStudyOutput any_meaning TraceHistory bytes.now (told_of answer)) }
{
    match judged_run(alloc, bytes) {
        Ok((accepted, events)) => trace_of_events(alloc, accepted, &events),
        Err(refusal) => answer_to_refusal(alloc, refusal),
    }
}

/// The trace of a run by the words of a generator with this seed, promptly or not.
fn trace_of_seed(
    alloc: Global,
    accepted: Accepted<AnyTarget>,
    seed: u64,
    prompt: bool,
) -> Result<Vec<u8>, NoMemory>
    ensures { IfOk result (λ text.
        TracesSeed any_meaning accepted.scenario prompt seed text.items) }
{
    trace_seed(alloc, accepted, seed, prompt)
}

/// The trace of a run of these events, or where they are no complete run.
fn trace_of_events<'a>(
    alloc: Global,
    accepted: Accepted<AnyTarget>,
    events: &[Event],
) -> Result<Answer<'a>, NoMemory>
    ensures { IfOk result (λ answer. TracesEvents any_meaning accepted.scenario events.now
        (told_of answer)) }
{
    answer_of_run(alloc, trace_events(alloc, accepted, events))
}
