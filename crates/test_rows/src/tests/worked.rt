//! How a run of the program on an input ends, and the job that most tests give it.

use dmlab_run::{Asked, Counted, Job, Status, run_alone};
use std::alloc::Global;
use std::io::{Read, Write};

/// How the program's run on an input ends, and its output after that. Nothing is ensured, so that the
/// tests above are proved without what is known of a run.
pub(super) fn ended<I: Read + Drop, O: Write>(
    alloc: Global,
    job: Job,
    input: I,
    output: O,
) -> (Status, O) {
    let mut input = Counted::new(input);
    let mut output = Counted::new(output);
    let status = run_alone(alloc, job, &mut input, &mut output);
    (status, output.into_inner())
}

/// No finding is asked for.
pub(super) const NOTHING: Asked = Asked {
    eio: false,
    lost: false,
    corrupt: false,
    stale: false,
    misplaced: false,
    broken_sync: false,
    fail: false,
};

/// A run without a seed.
pub(super) const SIM: Job = Job::Sim {
    seed: 0,
    history: false,
    prompt: false,
    asked: NOTHING,
};
