ghost use Rattle.std.specs.Prelude.{◌≡◌, ◌≤◌, ◌++◌, ◌∷◌, [], true, IfErr, IfOk, OnErr, OnOk, length};
ghost use Rattle.lab_model.specs.After.{Next};
ghost use Rattle.lab_model.specs.Effect.{effect};
ghost use Rattle.lab_model.specs.Guard.{is_enabled};
ghost use Rattle.lab_model.specs.State.{opening as opened};
ghost use Rattle.lab_model.specs.Ready.{IsReady};
ghost use Rattle.lab_core.specs.Free.{IsUpdated, touched_logs};
ghost use Rattle.lab_core.specs.Running.{IsRunning, begun};

use crate::free_logs::{touched_by, update};
use lab_effect::{apply, opening};
use lab_index::WordSet;
use lab_model::Event;
use lab_rulebook::Accepted;
use lab_sector::NoMemory;
use lab_state::State;
use lab_table::Scenario;
use lab_target::Target;
use std::alloc::Global;
use std::marker::Model;

/// An accepted scenario and how far it has run: its events so far are a run of it.
#[derive(Drop)]
pub struct Lab<T: Target> {
    pub(crate) accepted: Accepted<T>,
    pub(crate) state: State<T>,
    /// The events that were fired, in order.
    pub(crate) history: Vec<Event>,
    /// The numbers, less one, of the logs that may take their next line.
    pub(crate) free: WordSet,
}

impl<T: Target> Model for Lab<T> {
    ghost use Rattle.lab_core.specs.Free.{KeepsInside};
    ghost use Rattle.lab_core.specs.Running.{Running};

    ghost Value = { Running T };

    ghost view = { λ lab. record {
      scenario = lab.accepted.scenario;
      budget = lab.accepted.budget;
      state = lab.state;
      history = lab.history.items;
    } };

    ghost invariant = { λ lab. KeepsInside T.meaning (record {
      scenario = lab.accepted.scenario;
      budget = lab.accepted.budget;
      state = lab.state;
      history = lab.history.items;
    }) lab.free };
}

impl<T: Target> Lab<T> {
    /// The laboratory before its first event. Where memory runs out, the scenario is handed back.
    pub fn new(alloc: Global, accepted: Accepted<T>) -> Result<Lab<T>, Accepted<T>>
        ensures ok { IfOk result (λ lab. lab ≡ begun accepted) }
        ensures err { IfErr result (λ back. back ≡ accepted) }
    {
        match begin(alloc, accepted.scenario(), accepted.budget()) {
            Ok((state, history)) => Ok(Lab {
                accepted,
                state,
                history,
                free: WordSet::new(),
            }),
            Err(_) => Err(accepted),
        }
    }

    /// From now on it is kept whose event each request waits for, if no event was fired yet: then `next_for` goes through
    /// no other request. No answer is changed by it.
    pub fn follow_logs(&mut self)
        ensures { self.new ≡ self.old }
    {
        self.state.traffic.follow();
    }

    /// The accepted scenario with its budget, for another run. The events so far are forgotten.
    pub fn into_accepted(self) -> Accepted<T>
        ensures scenario { result.scenario ≡ self.scenario }
        ensures budget { result.budget ≡ self.budget }
    {
        self.accepted
    }

    /// Lets the run and its scenario go. An owner that ends with this is proved in a fraction of the time that one takes
    /// whose scope ends with the laboratory.
    pub fn discard(self) {
        self.into_accepted();
    }

    /// Fires an event that may come next. It is never wrong; where memory runs out, nothing is changed.
    pub fn fire(&mut self, alloc: Global, event: Event) -> Result<(), NoMemory>
        requires { is_enabled self.old.scenario self.old.state event ≡ true }
        ensures next { OnOk result (effect T.meaning self.old.scenario self.old.state event
            ≡ Next self.new.state) }
        ensures history { OnOk result (self.new.history ≡ self.old.history ++ event ∷ []) }
        ensures scenario { self.new.scenario ≡ self.old.scenario }
        ensures budget { self.new.budget ≡ self.old.budget }
        ensures err { OnErr result (self.new ≡ self.old) }
        ensures running { IsRunning T.meaning self.new }
    {
        fire_in(
            &mut self.state,
            &mut self.history,
            &mut self.free,
            alloc,
            self.accepted.scenario(),
            event,
        )
    }
}

/// The state before the first event, and a history of none with room for a run's events, the clock's left out: so it is
/// not moved while they come.
fn begin<T: Target>(
    alloc: Global,
    scenario: &Scenario<T>,
    budget: u64,
) -> Result<(State<T>, Vec<Event>), NoMemory>
    ensures state { IfOk result (λ begun. begun.0 ≡ opened scenario.now) }
    ensures history { IfOk result (λ begun. begun.1.items ≡ []) }
{
    let history = Vec::with_capacity(alloc, budget as usize)?;
    let state = opening(alloc, scenario)?;
    Ok((state, history))
}

/// An event that may come and finds all that it needs changes the state, and is put at the history's end. The room
/// for it is made first, so that nothing is changed where memory runs out. Whether a log may take its next line is
/// found anew for those that the event touches.
fn fire_in<T: Target>(
    state: &mut State<T>,
    history: &mut Vec<Event>,
    free: &mut WordSet,
    alloc: Global,
    scenario: &Scenario<T>,
    event: Event,
) -> Result<(), NoMemory>
    requires ready { IsReady T.meaning scenario.now state.old event }
    requires logs { length scenario.now.logs ≤ 64 }
    ensures next { OnOk result (effect T.meaning scenario.now state.old event ≡ Next state.new) }
    ensures history { OnOk result (history.new.items ≡ history.old.items ++ event ∷ []) }
    ensures free { OnOk result (IsUpdated scenario.now state.new
        (touched_logs scenario.now state.old event) free.old free.new) }
    ensures state { OnErr result (state.new ≡ state.old) }
    ensures kept { OnErr result (history.new.items ≡ history.old.items) }
    ensures marks { OnErr result (free.new ≡ free.old) }
{
    history.reserve(1)?;
    let touched = touched_by(scenario, state, event);
    apply(state, alloc, scenario, event)?;
    update(free, state, scenario, touched);
    history.push_reserved(event);
    Ok(())
}
