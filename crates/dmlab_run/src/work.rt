ghost use Rattle.dmlab_words.specs.declared.job.Job.TheVariants.{Sim};
ghost use Rattle.dmlab_words.specs.declared.work.Work.TheVariants.{Alone};
ghost use Rattle.dmlab_run.specs.Counting.{IsUncalled};
ghost use Rattle.dmlab_run.specs.Running.{TellsWork};

use crate::all::answer_to_check_all;
use crate::answer::{answer_to_check, answer_to_refusal};
use crate::audit::answer_to_audit;
use crate::judged::judged;
use crate::simulated::answer_to_run;
use crate::studies::answer_to_study;
use crate::telling::tell_if_any;
use crate::threads::answer_by_threads;
use crate::{Counted, Job, Status, Work};
use dmlab_words::Asked;
use lab_sweep::Progress;
use std::alloc::Global;
use std::io::Write;
use std::sync::Wait;
use std::thread::Threads;

/// Writes the answer to the work on a bundle of these bytes.
pub(crate) fn tell_work<R: AllocGlobal + Threads + Wait + Sync + Progress, O: Write>(
    rt: &R,
    work: Work,
    bytes: Vec<u8>,
    output: &mut Counted<O>,
) -> Status
    requires { IsUncalled output.old }
    ensures { TellsWork O.contents work bytes.items result output.old output.new }
{
    match work {
        Work::Alone(job) => tell_job(rt.alloc(), job, bytes, output),
        Work::CheckAll => {
            let answer = answer_to_check_all(rt.alloc(), bytes.as_slice());
            tell_if_any(rt.alloc(), bytes.as_slice(), answer, output)
        }
        Work::Threads { history } => {
            let answer = answer_by_threads(rt, history, bytes.as_slice());
            tell_if_any(rt.alloc(), bytes.as_slice(), answer, output)
        }
        Work::Study(study) => {
            let answer = answer_to_study(rt, study, bytes.as_slice());
            tell_if_any(rt.alloc(), bytes.as_slice(), answer, output)
        }
    }
}

/// Writes the answer to the job on a bundle of these bytes.
pub(crate) fn tell_job<O: Write>(
    alloc: Global,
    job: Job,
    bytes: Vec<u8>,
    output: &mut Counted<O>,
) -> Status
    requires { IsUncalled output.old }
    ensures { TellsWork O.contents (Alone job) bytes.items result output.old output.new }
{
    match job {
        Job::Check => {
            let answer = answer_to_check(alloc, bytes.as_slice());
            tell_if_any(alloc, bytes.as_slice(), answer, output)
        }
        Job::Sim {
            seed,
            history,
            prompt,
            asked,
        } => tell_run(alloc, seed, history, prompt, asked, bytes, output),
        Job::Audit => {
            let answer = answer_to_audit(alloc, bytes.as_slice());
            tell_if_any(alloc, bytes.as_slice(), answer, output)
        }
    }
}

/// Runs a bundle of these bytes by a seed, and writes the report. The bytes are given back once the
/// bundle is accepted, before the run.
fn tell_run<O: Write>(
    alloc: Global,
    seed: u64,
    history: bool,
    prompt: bool,
    asked: Asked,
    bytes: Vec<u8>,
    output: &mut Counted<O>,
) -> Status
    requires { IsUncalled output.old }
    ensures { TellsWork O.contents (Alone (Sim seed history prompt asked)) bytes.items result
        output.old output.new }
{
    match judged(alloc, bytes.as_slice()) {
        Ok(accepted) => {
            drop(bytes);
            let answer = answer_to_run(alloc, accepted, seed, history, prompt, asked);
            tell_if_any(alloc, b"", answer, output)
        }
        Err(refusal) => {
            let answer = answer_to_refusal(alloc, refusal);
            tell_if_any(alloc, bytes.as_slice(), answer, output)
        }
    }
}
