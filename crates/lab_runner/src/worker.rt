use crate::gate::Gate;
use crate::shared::{Naming, Shared};
use crate::turn::Turn;
use lab_core::Who;
use std::alloc::Global;
use std::array;
use std::sync::{Mutex, Wait};
use std::thread::Parker;
use std::time::Duration;

/// The most workers that there are: 64 logs, the script and the timers.
const WORKERS: usize = 66;

// How long an idle worker sleeps at first, and at most, in microseconds, where nobody wakes it.
const SHORT: u64 = 500;

const LONG: u64 = 32_000;

/// What wakes the workers that sleep, one for each worker.
#[derive(Drop)]
pub(crate) struct Bells {
    rows: [Parker; WORKERS],
}

impl Bells {
    /// Bells for all workers that there can be.
    pub(crate) fn new() -> Bells {
        Bells {
            rows: array::from_fn(|_| Parker::new()),
        }
    }

    /// The bell of a worker.
    fn of(&self, who: Who) -> &Parker {
        let place = match who {
            Who::Control => 0,
            Who::Timers => 1,
            Who::Log(log) => (log as usize % (WORKERS - 2)) + 2,
        };
        &self.rows[place]
    }

    /// Wakes each worker that may have work after a worker's events: a log's events give none to other logs.
    fn ring_after(&self, who: Who) {
        match who {
            Who::Log(_) => {
                self.of(Who::Control).unpark();
                self.of(Who::Timers).unpark();
            }
            Who::Control | Who::Timers => self.ring_all(),
        }
    }

    /// Wakes all.
    pub(crate) fn ring_all(&self) {
        for bell in &self.rows {
            bell.unpark();
        }
    }
}

/// A worker of a run: takes its turns until nothing is left for it or a stop was asked for. Where it has nothing to do
/// it wakes those that its own events may have given work, and sleeps until it is woken or a short time is over.
pub(crate) fn work<N: Naming, R: Wait, G: Gate>(
    rt: &R,
    alloc: Global,
    shared: &Mutex<Shared<N>>,
    bells: &Bells,
    who: Who,
    gate: &G,
) {
    let mut number = 0u64;
    let mut pause = SHORT;
    for _ in rt.forever() {
        number = number.saturating_add(1);
        match take_turn(rt, alloc, shared, who, number, gate) {
            Turn::Fired => pause = SHORT,
            Turn::Idle => {
                if pause == SHORT {
                    bells.ring_after(who);
                }
                bells.of(who).park_timeout(rt, Duration::from_micros(pause));
                pause = LONG.min(pause.saturating_mul(2));
            }
            Turn::Over | Turn::Stop => break,
        }
    }
    bells.ring_all();
}

/// One turn, between the gate's two calls.
fn take_turn<N: Naming, R: Wait, G: Gate>(
    rt: &R,
    alloc: Global,
    shared: &Mutex<Shared<N>>,
    who: Who,
    number: u64,
    gate: &G,
) -> Turn {
    gate.before(who, number);
    let turn = shared.lock(rt).turn(alloc, who);
    gate.after(who, number, turn == Turn::Fired);
    turn
}
