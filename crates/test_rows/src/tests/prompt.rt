//! A run in which the clock goes on only where nothing else may come: what was due before an outage is not late for it.

use super::worked::{NOTHING, ended};
use dmlab_run::{Job, Status};
use std::alloc::Global;

/// A write that is due at 4 seconds on a disk that drops writes from 5 seconds on, beside a script that sleeps until 6.
/// So the clock could go on to 6 seconds before the write.
const DUE_BEFORE_OUTAGE: &[u8] = b"\
== table t
0 8 flakey /dev/ram0 0 5 5 1 drop_writes
== script
ram 0 8
create m t
replay
sleep 6000000
status m
== log a
fio version 2 iolog
/dev/mapper/m add
/dev/mapper/m open
/dev/mapper/m wait 4000000 0
/dev/mapper/m write 0 512
/dev/mapper/m wait 7000000 0
/dev/mapper/m read 0 512
";

/// What each prompt run of it reports: line 5 of log 1 writes 16 + 5, and the read finds it. The clock goes on to 4, 6
/// and 11 seconds.
const KEPT: &[u8] = b"\
accepted budget=16
script 5 0 8 flakey down
log a
5 write ok
7 read 512x15
done steps=16 clock=3 now=11000000
";

/// Whether a prompt run by a seed keeps the write.
fn keeps_write(alloc: Global, seed: u64) -> bool {
    let job = Job::Sim {
        seed,
        history: false,
        prompt: true,
        asked: NOTHING,
    };
    let (status, text) = ended(alloc, job, DUE_BEFORE_OUTAGE, Vec::new(alloc));
    matches!(status, Status::Done(_)) && text.as_slice() == KEPT
}

/// Whether the prompt runs by 20 seeds keep it.
fn seeds_keep_write(alloc: Global) -> bool {
    for seed in 0..20 {
        if !keeps_write(alloc, seed) {
            return false;
        }
    }
    true
}

#[test]
fn a_prompt_run_loses_no_write_that_was_due(rt: HostRuntime) {
    assert!(rt; seeds_keep_write(rt.alloc()));
}
