ghost use Rattle.std.specs.Prelude.{◌≡◌, ◌++◌, IfOk, OnOk, true};
ghost use Rattle.lab_text.specs.Numbers.{spaced_numbers};
ghost use Rattle.lab_any.specs.Any.{any_meaning};
ghost use Rattle.lab_model.specs.Guard.{is_done};
ghost use Rattle.lab_model.specs.Report.{report};
ghost use Rattle.lab_runner.specs.Finished.{IsFinished};
ghost use Rattle.dmlab_run.specs.Answering.{told_of};
ghost use Rattle.dmlab_run.specs.Output.{history_part};
ghost use Rattle.dmlab_run.specs.Threads.{IsThreadsOutput, RunsByThreads, fired_line};

use crate::answer::{Answer, answer_to_refusal, done, push_part};
use crate::judged::judged;
use lab_any::AnyTarget;
use lab_core::begin;
use lab_runner::{Finished, Open, run_threads};
use lab_sector::NoMemory;
use lab_text::{push_number, push_numbered};
use lab_verify::Accepted;
use std::alloc::Global;
use std::sync::Wait;
use std::thread::Threads;

/// The answer to a run by threads of a bundle of these bytes.
pub(crate) fn answer_by_threads<'a, R: AllocGlobal + Threads + Wait + Sync>(
    rt: &R,
    history: bool,
    bytes: &'a [u8],
) -> Result<Answer<'a>, NoMemory>
    ensures { IfOk result (λ answer.
        IsThreadsOutput any_meaning history bytes.now (told_of answer)) }
{
    match judged(rt.alloc(), bytes) {
        Ok(accepted) => done(rt.alloc(), run_accepted(rt, accepted, history)?),
        Err(refusal) => answer_to_refusal(rt.alloc(), refusal),
    }
}

/// The report of a run by threads, its counts, and its events where asked.
fn run_accepted<R: AllocGlobal + Threads + Wait + Sync>(
    rt: &R,
    accepted: Accepted<AnyTarget>,
    history: bool,
) -> Result<Vec<u8>, NoMemory>
    ensures { IfOk result (λ text.
        RunsByThreads any_meaning accepted.scenario history text.items) }
{
    let finished = finished_run(rt, accepted)?;
    let text = text_of(rt.alloc(), &finished, history);
    finished.lab.discard();
    text
}

/// The run of an accepted scenario by threads, up to where all is done.
fn finished_run<R: AllocGlobal + Threads + Wait + Sync>(
    rt: &R,
    accepted: Accepted<AnyTarget>,
) -> Result<Finished, NoMemory>
    ensures { IfOk result (λ run. IsFinished any_meaning accepted.scenario run) }
{
    let lab = begin(rt.alloc(), accepted)?;
    match run_threads(rt, rt.alloc(), lab, &Open) {
        Ok(finished) => Ok(finished),
        Err(fault) => {
            fault.lab.discard();
            Err(NoMemory)
        }
    }
}

/// What is told of a run by threads that is done: its report, its counts, and its events where
/// asked.
fn text_of(alloc: Global, run: &Finished, history: bool) -> Result<Vec<u8>, NoMemory>
    requires { is_done run.now.lab.scenario run.now.lab.state ≡ true }
    ensures { IfOk result (λ text. text.items
        ≡ report any_meaning run.now.lab.scenario run.now.lab.history run.now.lab.state
        ++ fired_line run.now.counts.items run.now.swept
        ++ history_part history run.now.lab.history) }
{
    let mut text = run.lab.report(alloc)?;
    push_fired(&mut text, run)?;
    push_part(&mut text, history, run.lab.history())?;
    Ok(text)
}

/// Appends the line that tells how many events each worker fired, and how many came after them.
fn push_fired(text: &mut Vec<u8>, run: &Finished) -> Result<(), NoMemory>
    ensures { OnOk result (text.new.items
        ≡ text.old.items ++ fired_line run.now.counts.items run.now.swept) }
{
    text.extend_from_slice(b"fired")?;
    push_spaced(text, &run.counts)?;
    text.extend_from_slice(b" swept ")?;
    push_number(text, run.swept)?;
    text.push(b'\n')?;
    Ok(())
}

/// Appends a space and a number, for each number.
fn push_spaced(text: &mut Vec<u8>, numbers: &[u64]) -> Result<(), NoMemory>
    ensures { OnOk result (text.new.items ≡ text.old.items ++ spaced_numbers numbers.now) }
{
    for number in numbers {
        push_numbered(text, b" ", *number)?;
    }
    Ok(())
}
