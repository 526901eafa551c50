//! Runs by threads: what each worker fires, and a gate that makes all of them work side by side.

ghost use Rattle.std.specs.Prelude.{◌≡◌, ◌<◌, []};

use super::laboratory::{is_done, lab_of};
use lab_any::AnyTarget;
use lab_core::{Lab, Who};
use lab_runner::{Finished, Gate, Naming, Open, Shared, Turn, run_threads};
use std::alloc::Global;
use std::marker::Brand;
use std::process::Abort;
use std::sync::{Mutex, Wait};
use std::thread;
use std::thread::Threads;
use std::time::{Clock, Duration};

/// A device, and a log that asks nothing of it.
const NO_LINES: &[u8] = b"\
== table t
0 8 linear /dev/ram0 0
== script
ram 0 8
create m t
replay
== log a
fio version 2 iolog
";

/// Two logs write a sector, and a third one reads it.
pub(super) const THREE_LOGS: &[u8] = b"\
== script
ram 0 8
replay
== log a
fio version 2 iolog
/dev/ram0 add
/dev/ram0 open
/dev/ram0 write 0 512
== log b
fio version 2 iolog
/dev/ram0 add
/dev/ram0 open
/dev/ram0 write 0 512
== log c
fio version 2 iolog
/dev/ram0 add
/dev/ram0 open
/dev/ram0 read 0 512
";

/// The turns that are wanted of the shared laboratory of a log without lines: its worker has nothing to do until the
/// script's has fired twice, and then nothing is left for anyone.
const TURNS: [(Who, Turn); 6] = [
    (Who::Log(1), Turn::Idle),
    (Who::Control, Turn::Fired),
    (Who::Control, Turn::Fired),
    (Who::Control, Turn::Over),
    (Who::Log(1), Turn::Over),
    (Who::Timers, Turn::Over),
];

/// Whether the turns of a shared laboratory end as they have to.
fn turns_are<N: Naming>(alloc: Global, shared: &mut Shared<N>, wanted: &[(Who, Turn)]) -> bool {
    for (who, turn) in wanted {
        if shared.turn(alloc, *who) != *turn {
            return false;
        }
    }
    true
}

/// Whether this scenario's workers take the turns that they have to.
fn takes_turns<N: Naming>(alloc: Global, lab: Lab<AnyTarget>) -> bool
    requires named { lab.scenario ≡ N.scenario }
    requires first { lab.history ≡ [] }
{
    match Shared::<N>::new(alloc, lab) {
        Ok(shared) => take_turns(alloc, shared),
        Err(lab) => {
            lab.discard();
            false
        }
    }
}

/// Whether the workers of a shared laboratory take the turns that they have to.
fn take_turns<N: Naming>(alloc: Global, shared: Shared<N>) -> bool {
    let mut shared = shared;
    let well = turns_are(alloc, &mut shared, &TURNS);
    let (lab, _counts) = shared.into_parts();
    lab.discard();
    well
}

/// How often a worker's turns were told to the gate, and how many of them fired an event.
#[derive(Clone, Copy, Debug, PartialEq, Eq)]
struct Told {
    turns: u64,
    fired: u64,
}

/// Holds each worker's first turn until all five have entered theirs; and once log 1's or log 2's worker has fired,
/// its next turn until the other one has.
#[derive(Drop)]
struct SideBySide<'a, R> {
    rt: &'a R,
    told: Mutex<[Told; 5]>,
    /// Whether a hold has ended without what it waited for.
    failed: Mutex<bool>,
}

/// A worker's place among those of three logs, the script and the timers.
fn place(who: Who) -> usize
    ensures { result < 5 }
{
    match who {
        Who::Log(1) => 0,
        Who::Log(2) => 1,
        Who::Log(_) => 2,
        Who::Control => 3,
        Who::Timers => 4,
    }
}

/// Whether a worker may take its turn: all have entered, and where it has fired, the other one has too.
fn may_go(told: &[Told; 5], who: Who) -> bool {
    let entered = told.iter().all(|worker| worker.turns > 0);
    match who {
        Who::Log(1) => entered && (told[0].fired == 0 || told[1].fired > 0),
        Who::Log(2) => entered && (told[1].fired == 0 || told[0].fired > 0),
        _ => entered,
    }
}

impl<R: Wait + Clock + Sync> Gate for SideBySide<'_, R> {
    fn before(&self, who: Who, _turn: u64) {
        self.enter(who);
        for _look in 0..20_000u32 {
            if may_go(&self.told.lock(self.rt), who) {
                return;
            }
            thread::sleep(self.rt, Duration::from_millis(1));
        }
        *self.failed.lock(self.rt) = true;
    }

    fn after(&self, who: Who, _turn: u64, fired: bool) {
        if fired {
            let mut told = self.told.lock(self.rt);
            let count = &mut told[place(who)].fired;
            *count = count.saturating_add(1);
        }
    }
}

impl<R: Wait> SideBySide<'_, R> {
    /// One turn more of this worker.
    fn enter(&self, who: Who) {
        let mut told = self.told.lock(self.rt);
        let count = &mut told[place(who)].turns;
        *count = count.saturating_add(1);
    }
}

/// What is looked at of a run by threads: whether its laboratory is done, how many events each
/// worker fired, and how many were fired after the workers had ended.
#[derive(Drop)]
struct Seen {
    done: bool,
    counts: Vec<u64>,
    swept: u64,
}

/// What is looked at of a run by threads of a bundle.
fn run_of<R: Threads + Wait + Sync, G: Gate>(
    rt: &R,
    alloc: Global,
    bundle: &[u8],
    gate: &G,
) -> Option<Seen> {
    match lab_of(alloc, bundle) {
        Some(lab) => seen_run(rt, alloc, lab, gate),
        None => None,
    }
}

/// What is looked at of a run by threads of a laboratory.
fn seen_run<R: Threads + Wait + Sync, G: Gate>(
    rt: &R,
    alloc: Global,
    lab: Lab<AnyTarget>,
    gate: &G,
) -> Option<Seen>
    requires { lab.history ≡ [] }
{
    match run_threads(rt, alloc, lab, gate) {
        Ok(run) => Some(look_at(run)),
        Err(fault) => {
            fault.lab.discard();
            None
        }
    }
}

/// What is looked at of a run.
fn look_at(run: Finished) -> Seen {
    let Finished { lab, counts, swept } = run;
    let done = is_done(&lab);
    lab.discard();
    Seen {
        done,
        counts,
        swept,
    }
}

/// Whether there is a run that is done, and was so by its workers, each of which fired so many events.
fn has_counts(run: &Option<Seen>, wanted: &[u64]) -> bool {
    match run {
        Some(run) => run.done && run.counts.as_slice() == wanted && run.swept == 0,
        None => false,
    }
}

/// Whether each worker of three logs counts its own events.
fn each_counts<R: Threads + Wait + Sync>(rt: &R, alloc: Global) -> bool {
    let run = run_of(rt, alloc, THREE_LOGS, &Open);
    has_counts(&run, &[4, 4, 4, 1, 0])
}

#[test]
fn each_worker_counts_its_own_events(rt: HostRuntime) {
    assert!(rt; each_counts(&rt, rt.alloc()));
}

/// Whether no hold of a gate has failed, and each worker of the run fired as often as its gate was told.
fn is_side_by_side<R: Wait>(rt: &R, gate: &SideBySide<'_, R>, run: &Option<Seen>) -> bool {
    let failed = *gate.failed.lock(rt);
    let told = *gate.told.lock(rt);
    let fired = told.map(|worker| worker.fired);
    match run {
        Some(run) => !failed && run.counts.as_slice() == fired.as_slice() && run.swept == 0,
        None => false,
    }
}

/// Whether the workers of three logs run side by side behind a gate.
fn run_side_by_side<R: Threads + Wait + Clock + Sync>(
    rt: &R,
    alloc: Global,
    gate: &SideBySide<'_, R>,
) -> bool {
    let run = run_of(rt, alloc, THREE_LOGS, gate);
    is_side_by_side(rt, gate, &run)
}

#[test]
fn workers_run_side_by_side(rt: HostRuntime) {
    let gate = SideBySide {
        rt: &rt,
        told: Mutex::new([Told { turns: 0, fired: 0 }; 5]),
        failed: Mutex::new(false),
    };
    assert!(rt; run_side_by_side(&rt, rt.alloc(), &gate));
}

/// Whether the workers of a log without lines take the turns that they have to.
fn no_lines_take_turns(alloc: Global) -> bool {
    match lab_of::<AnyTarget>(alloc, NO_LINES) {
        Some(lab) => takes_turns::<Brand>(alloc, lab),
        None => false,
    }
}

#[test]
fn a_log_without_lines_is_over_after_the_script(rt: HostRuntime) {
    assert!(rt; no_lines_take_turns(rt.alloc()));
}
