ghost use Rattle.std.specs.Prelude.{◌≡◌, ◌<◌, ◌≤◌, ◌+◌, ◌↔◌, ◌⊎◌, IfErr, IfOk, map, option_map};
ghost use Rattle.dmlab_words.specs.CommandLine.{file_of};
ghost use Rattle.dmlab_words.specs.declared.work.Work.TheVariants.{Alone};
ghost use Rattle.dmlab_run.specs.Counting.{IsUncalled, ReadsWithin, WritesInOrder};
ghost use Rattle.dmlab_run.specs.Moved.{ConsumesUpTo};
ghost use Rattle.dmlab_run.specs.Running.{IsSilent, IsStatusOf, IsWords, Runs, Writes};

use crate::input::{InputFault, read_input};
use crate::work::{tell_job, tell_work};
use crate::{Counted, Job, Status};
use clap::Error;
use clap::error::ErrorKind;
use dmlab_words::read_words;
use lab_sweep::Progress;
use std::alloc::Global;
use std::convert::AsStr;
use std::io::{Read, Write};
use std::sync::Wait;
use std::thread::Threads;

/// Reads the words, and does what they ask for. The first word is the program's own. Only a run
/// by threads may wait. How far a sweep or a search is, is told to the runtime.
pub fn run<R: AllocGlobal + Threads + Wait + Sync + Progress, S: AsStr, I: Read, O: Write>(
    rt: &R,
    words: &[S],
    input: &mut Counted<I>,
    output: &mut Counted<O>,
) -> Status
    requires input { IsUncalled input.old }
    requires output { IsUncalled output.old }

    // The faults are those that the counts tell.
    ensures read_fault { (result ≡ Status.ReadFault)
        ↔ (input.old.failures < input.new.failures) }
    ensures write_fault { (result ≡ Status.WriteFault)
        ↔ (output.old.failures < output.new.failures) }

    // At most one call of the input fails, and at most one of the output.
    ensures one_read_fault { input.new.failures ≤ input.old.failures + 1 }
    ensures one_write_fault { output.new.failures ≤ output.old.failures + 1 }

    // The words come first: where they are refused nothing is read.
    ensures words_first { IsWords result → input.new ≡ input.old }

    // What is read and written, and by which calls.
    ensures reads { ConsumesUpTo 16777217 (I.remaining input.old.inner)
        (I.remaining input.new.inner) }
    ensures calls { ReadsWithin 16777217 input.new }
    ensures order { WritesInOrder output.new }
    ensures runs { Runs result (map S.text words.now) (I.remaining input.old.inner)
        output.new.bytes (O.contents output.old.inner) (O.contents output.new.inner) }
    ensures silent { IsSilent result → output.new ≡ output.old }
{
    let work = match read_words(rt.alloc(), words) {
        Ok(work) => work,
        Err(error) => return status_of(error),
    };
    match read_input(rt.alloc(), input) {
        Ok(bytes) => tell_work(rt, work, bytes, output),
        Err(InputFault::NoMemory) => Status::NoMemory,
        Err(InputFault::Read) => Status::ReadFault,
    }
}

/// Reads the bundle, and writes the answer to the job.
pub fn run_alone<I: Read, O: Write>(
    alloc: Global,
    job: Job,
    input: &mut Counted<I>,
    output: &mut Counted<O>,
) -> Status
    requires input { IsUncalled input.old }
    requires output { IsUncalled output.old }

    // The faults are those that the counts tell.
    ensures read_fault { (result ≡ Status.ReadFault)
        ↔ (input.old.failures < input.new.failures) }
    ensures write_fault { (result ≡ Status.WriteFault)
        ↔ (output.old.failures < output.new.failures) }

    // At most one call of the input fails, and at most one of the output.
    ensures one_read_fault { input.new.failures ≤ input.old.failures + 1 }
    ensures one_write_fault { output.new.failures ≤ output.old.failures + 1 }

    // What is read and written, and by which calls.
    ensures reads { ConsumesUpTo 16777217 (I.remaining input.old.inner)
        (I.remaining input.new.inner) }
    ensures calls { ReadsWithin 16777217 input.new }
    ensures order { WritesInOrder output.new }
    ensures writes { Writes result (Alone job) (I.remaining input.old.inner)
        output.new.bytes (O.contents output.old.inner) (O.contents output.new.inner) }
    ensures silent { IsSilent result → output.new ≡ output.old }
{
    match read_input(alloc, input) {
        Ok(bytes) => tell_job(alloc, job, bytes, output),
        Err(InputFault::NoMemory) => Status::NoMemory,
        Err(InputFault::Read) => Status::ReadFault,
    }
}

/// The name that the words give the bundle's file, if they give one, or how a run by these words ends before it reads.
pub fn file_named<'a, S: AsStr>(alloc: Global, words: &'a [S]) -> Result<Option<&'a str>, Status>
    ensures named { IfOk result (λ file.
        option_map (λ s. s.now) file ≡ file_of (map S.text words.now)) }
    ensures ends { IfErr result (λ status. (status ≡ Status.NoMemory) ⊎ IsWords status) }
{
    match dmlab_words::file_named(alloc, words) {
        Ok(file) => Ok(file),
        Err(error) => Err(status_of(error)),
    }
}

// The status of words that ask for no work.
fn status_of(error: Error) -> Status
    ensures { IsStatusOf error result }
{
    match error.kind() {
        ErrorKind::OutOfMemory => Status::NoMemory,
        ErrorKind::DisplayVersion => Status::Version(error),
        _ => Status::Words(error),
    }
}
