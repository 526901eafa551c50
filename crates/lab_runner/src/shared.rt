ghost use Rattle.std.specs.Prelude.{◌≡◌, ◌++◌, ◌∷◌, [], true, IfErr, IfOk, OnErr, OnOk};
ghost use Rattle.std.specs.Prelude.{length, replicate};
ghost use Rattle.lab_any.specs.Any.{any_meaning};
ghost use Rattle.lab_model.specs.After.{Next};
ghost use Rattle.lab_model.specs.Effect.{effect};
ghost use Rattle.lab_model.specs.Guard.{is_enabled};
ghost use Rattle.lab_core.specs.Running.{IsRunning};
ghost use Rattle.lab_runner.specs.Counts.{CountsTurns, IsWorker, one_more, place_of};
ghost use Rattle.lab_runner.specs.Shared.{IsShared, IsTurn, shared_first};

use crate::places::{count_logs, place_of as place_at};
use crate::turn::Turn;
use lab_any::AnyTarget;
use lab_core::{Event, Lab, Who};
use lab_sector::NoMemory;
use std::alloc::{AllocError, Global};
use std::marker::{Brand, Model, PhantomData};

/// Which scenario the threads run. Each call of a run picks it; it exists in the proofs alone.
pub trait Naming {
    ghost use Rattle.lab_any.specs.declared.any_target.AnyTarget.{AnyTarget};
    ghost use Rattle.lab_model.specs.Scenario.{Scenario};

    ghost scenario: { Scenario AnyTarget };
}

impl Naming for Brand {
    ghost use Rattle.std.specs.Prelude.{[]};

    ghost scenario = { record { disks = []; versions = []; micros = []; logs = [] } };
}

/// The value of the lock: the laboratory, how many events each worker has fired, and whether a stop was asked for.
///
/// Whenever the lock is free, the events so far are a run of the named scenario that ends in the laboratory's state,
/// they and what is left are within the budget, and each worker's count is the number of them that belong to it.
#[derive(Drop)]
pub struct Shared<N: Naming> {
    lab: Lab<AnyTarget>,
    /// One number for each log, then one for the script and one for the timers.
    counts: Vec<u64>,
    stop: bool,
    of: PhantomData<N>,
}

impl<N: Naming> Model for Shared<N> {
    ghost use Rattle.lab_any.specs.Any.{any_meaning};
    ghost use Rattle.lab_any.specs.declared.any_target.AnyTarget.{AnyTarget};
    ghost use Rattle.lab_runner.specs.Shared.{IsShared, Sharing};

    ghost Value = { Sharing AnyTarget };

    ghost view = { λ s. record { lab = s.lab; counts = s.counts.items; stop = s.stop } };

    ghost invariant = { λ s. IsShared any_meaning N.scenario
        (record { lab = s.lab; counts = s.counts.items; stop = s.stop }) };
}

impl<N: Naming> Shared<N> {
    /// A laboratory before its first event, with zero counts and no stop asked for. Where memory runs out, the
    /// laboratory is handed back.
    pub fn new(alloc: Global, lab: Lab<AnyTarget>) -> Result<Shared<N>, Lab<AnyTarget>>
        requires named { lab.scenario ≡ N.scenario }
        requires first { lab.history ≡ [] }
        ensures ok { IfOk result (λ shared. shared ≡ shared_first lab) }
        ensures err { IfErr result (λ back. back ≡ lab) }
    {
        match zeroes(alloc, count_logs(&lab) + 2) {
            Ok(counts) => Ok(Shared {
                lab,
                counts,
                stop: false,
                of: PhantomData,
            }),
            Err(_) => Err(lab),
        }
    }

    /// A worker's turn: fires the first event, in the written order, that may come next and belongs to it. Where
    /// memory runs out, a stop is asked for and nothing else is changed.
    pub fn turn(&mut self, alloc: Global, who: Who) -> Turn
        ensures { IsTurn any_meaning who self.old result self.new }
    {
        if self.stop {
            return Turn::Stop;
        }
        if self.lab.is_over(who) {
            return Turn::Over;
        }
        let Some(event) = self.lab.next_for(who) else {
            return Turn::Idle;
        };
        match fire_counted(&mut self.lab, &mut self.counts, alloc, who, event) {
            Ok(()) => Turn::Fired,
            Err(_) => {
                self.stop = true;
                Turn::Stop
            }
        }
    }

    /// Asks for a stop: no turn fires an event from then on.
    pub fn ask_stop(&mut self)
        ensures { self.new ≡ record self.old { stop = true } }
    {
        self.stop = true;
    }

    /// The laboratory and the counts.
    pub fn into_parts(self) -> (Lab<AnyTarget>, Vec<u64>)
        ensures lab { result.0 ≡ self.lab }
        ensures counts { result.1.items ≡ self.counts }
        ensures shared { IsShared any_meaning N.scenario self }
    {
        (self.lab, self.counts)
    }
}

/// So many zeroes.
fn zeroes(alloc: Global, count: usize) -> Result<Vec<u64>, AllocError>
    ensures { IfOk result (λ counts. counts.items ≡ replicate count 0) }
{
    vec![in alloc; 0; count]
}

/// Fires an event of a worker and counts it for the worker. Where memory runs out, nothing is changed.
fn fire_counted(
    lab: &mut Lab<AnyTarget>,
    counts: &mut [u64],
    alloc: Global,
    who: Who,
    event: Event,
) -> Result<(), NoMemory>
    requires enabled { is_enabled lab.old.scenario lab.old.state event ≡ true }
    requires worker { IsWorker (length lab.old.scenario.logs) who }
    requires counted { CountsTurns any_meaning lab.old.scenario lab.old.history counts.old }
    ensures next { OnOk result (effect any_meaning lab.old.scenario lab.old.state event
        ≡ Next lab.new.state) }
    ensures history { OnOk result (lab.new.history ≡ lab.old.history ++ event ∷ []) }
    ensures scenario { lab.new.scenario ≡ lab.old.scenario }
    ensures budget { lab.new.budget ≡ lab.old.budget }
    ensures running { IsRunning any_meaning lab.new }
    ensures counts { OnOk result (counts.new
        ≡ one_more counts.old (place_of (length lab.old.scenario.logs) who)) }
    ensures lab { OnErr result (lab.new ≡ lab.old) }
    ensures kept { OnErr result (counts.new ≡ counts.old) }
{
    lab.fire(alloc, event)?;
    counts[place_at(count_logs(lab), who)] += 1;
    Ok(())
}
