ghost use Rattle.std.specs.Prelude.{◌≡◌, ◌+◌, ◌<◌, [], IfErr, IfOk};
ghost use Rattle.lab_any.specs.Any.{any_meaning};
ghost use Rattle.lab_runner.specs.Counts.{CountsTurns, IsWorker, place_of};
ghost use Rattle.lab_runner.specs.Finished.{IsFinished, IsHandedBack};

use crate::gate::Gate;
use crate::places::count_logs;
use crate::shared::{Naming, Shared};
use crate::sweep::{Finished, RunFault, sweep};
use crate::worker::{Bells, work};
use lab_any::AnyTarget;
use lab_core::{Lab, Who};
use std::alloc::Global;
use std::marker::Brand;
use std::sync::{Mutex, Wait};
use std::thread;
use std::thread::Threads;

/// Runs a scenario by threads: one for each log, one for the script and one for the timers. A thread that can't be
/// started, or memory that runs out under the lock, asks for a stop; once all have ended, what is left is fired in the
/// written order. The laboratory is handed back where memory runs out there too, or for the counts before the first
/// start.
pub fn run_threads<R: Threads + Wait + Sync, G: Gate>(
    rt: &R,
    alloc: Global,
    lab: Lab<AnyTarget>,
    gate: &G,
) -> Result<Finished, RunFault>
    requires { lab.history ≡ [] }
    ensures ok { IfOk result (λ f. IsFinished any_meaning lab.scenario f) }
    ensures err { IfErr result (λ fault. IsHandedBack any_meaning lab.scenario fault.lab) }
{
    let mut lab = lab;
    lab.follow_logs();
    match run_named::<Brand, R, G>(rt, alloc, lab, gate) {
        Ok((lab, counts)) => sweep(alloc, lab, counts),
        Err(lab) => Err(RunFault { lab }),
    }
}

/// The workers' part of a run: where the laboratory stands once all have ended, and the counts.
fn run_named<N: Naming + Send + Sync, R: Threads + Wait + Sync, G: Gate>(
    rt: &R,
    alloc: Global,
    lab: Lab<AnyTarget>,
    gate: &G,
) -> Result<(Lab<AnyTarget>, Vec<u64>), Lab<AnyTarget>>
    requires named { lab.scenario ≡ N.scenario }
    requires first { lab.history ≡ [] }
    ensures scenario { IfOk result (λ r. r.0.scenario ≡ lab.scenario) }
    ensures counted { IfOk result (λ r. CountsTurns any_meaning lab.scenario r.0.history r.1.items) }
    ensures err { IfErr result (λ back. IsHandedBack any_meaning lab.scenario back) }
{
    let logs = count_logs(&lab);
    let shared = Mutex::new(Shared::<N>::new(alloc, lab)?);
    let bells = Bells::new();
    start_all(rt, alloc, &shared, &bells, logs as u32, gate);
    Ok(shared.into_inner().into_parts())
}

/// Starts the workers and waits until all have ended.
fn start_all<N: Naming + Send + Sync, R: Threads + Wait + Sync, G: Gate>(
    rt: &R,
    alloc: Global,
    shared: &Mutex<Shared<N>>,
    bells: &Bells,
    logs: u32,
    gate: &G,
) {
    thread::scope(thread::scope_env(), rt, |scope| {
        for place in 0..u64::from(logs) + 2 {
            let who = worker_at(logs, place);
            if scope
                .spawn(move || work(rt, alloc, shared, bells, who, gate))
                .is_err()
            {
                shared.lock(rt).ask_stop();
                bells.ring_all();
            }
        }
    });
}

/// The worker at a place: those of the logs come first, then the script's, then the timers'.
fn worker_at(logs: u32, place: u64) -> Who
    ensures there { IsWorker logs result }
    ensures place { place < logs + 2 → place_of logs result ≡ place }
{
    if place < u64::from(logs) {
        Who::Log(place as u32 + 1)
    } else if place == u64::from(logs) {
        Who::Control
    } else {
        Who::Timers
    }
}
