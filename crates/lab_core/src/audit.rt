ghost use Rattle.std.specs.Prelude.{◌≡◌, ◌+◌, [], true, IfErr, IfOk, OnOk, length};
ghost use Rattle.lab_core.specs.Running.{IsRunning, begun};
ghost use Rattle.lab_core.specs.Watching.{IsWatched};

use crate::lab::Lab;
use crate::observer::Observer;
use lab_model::Event;
use lab_rulebook::Accepted;
use lab_sector::NoMemory;
use lab_target::Target;
use std::alloc::Global;
use thiserror::Error;

/// Why a list of events is no complete run of a scenario. Places are counted from 1.
#[derive(Clone, Copy, Debug, PartialEq, Eq, Error)]
pub enum AuditFault {
    /// The event at this place may not come there; those before it are a run.
    #[error("the event at place {0} may not come there")]
    NotEnabled(u64),
    /// All events are a run, and not all is done; the place is the one after them.
    #[error("an event is wanting at place {0}")]
    Unfinished(u64),
    #[error("no memory")]
    NoMemory,
}

impl From<NoMemory> for AuditFault {
    ghost use Rattle.lab_core.specs.declared.audit.AuditFault.TheVariants.{NoMemory as Refused};

    ghost from_gives = { λ refused fault. fault ≡ Refused };

    fn from(_refused: NoMemory) -> AuditFault
        ensures { result ≡ Refused }
    {
        AuditFault::NoMemory
    }
}

impl<T: Target> Lab<T> {
    ghost use Rattle.lab_model.specs.Guard.{is_done};
    ghost use Rattle.lab_core.specs.Audit.{IsFaultOf};

    /// The laboratory after these events, if they are a complete run of the scenario.
    pub fn audit(
        alloc: Global,
        accepted: Accepted<T>,
        events: &[Event],
    ) -> Result<Lab<T>, AuditFault>
        ensures scenario { IfOk result (λ lab. lab.scenario ≡ accepted.scenario) }
        ensures budget { IfOk result (λ lab. lab.budget ≡ accepted.budget) }
        ensures history { IfOk result (λ lab. lab.history ≡ events.now) }
        ensures done { IfOk result (λ lab. is_done lab.scenario lab.state ≡ true) }
        ensures running { IfOk result (λ lab. IsRunning T.meaning lab) }
        ensures fault { IfErr result (λ fault.
            IsFaultOf T.meaning accepted.scenario events.now fault) }
    {
        Lab::audit_watched(alloc, accepted, events, &mut ())
    }

    /// The laboratory after these events, if they are a complete run of the scenario; the observer is told of each that
    /// is fired.
    pub fn audit_watched<O: Observer<T>>(
        alloc: Global,
        accepted: Accepted<T>,
        events: &[Event],
        observer: &mut O,
    ) -> Result<Lab<T>, AuditFault>
        ensures scenario { IfOk result (λ lab. lab.scenario ≡ accepted.scenario) }
        ensures budget { IfOk result (λ lab. lab.budget ≡ accepted.budget) }
        ensures history { IfOk result (λ lab. lab.history ≡ events.now) }
        ensures done { IfOk result (λ lab. is_done lab.scenario lab.state ≡ true) }
        ensures running { IfOk result (λ lab. IsRunning T.meaning lab) }
        ensures watched { IfOk result (λ lab. IsWatched T.meaning O.awaits O.sees
            (begun accepted) observer.old lab observer.new) }
        ensures fault { IfErr result (λ fault.
            IsFaultOf T.meaning accepted.scenario events.now fault) }
    {
        let Ok(mut lab) = Lab::new(alloc, accepted) else {
            return Err(AuditFault::NoMemory);
        };
        match lab.complete(alloc, events, observer) {
            Ok(()) => Ok(lab),
            Err(fault) => {
                lab.discard();
                Err(fault)
            }
        }
    }

    /// Fires the events in order, up to the first that may not come after those before it. All is to be done then.
    fn complete<O: Observer<T>>(
        &mut self,
        alloc: Global,
        events: &[Event],
        observer: &mut O,
    ) -> Result<(), AuditFault>
        requires { self.old.history ≡ [] }
        ensures scenario { self.new.scenario ≡ self.old.scenario }
        ensures budget { self.new.budget ≡ self.old.budget }
        ensures history { OnOk result (self.new.history ≡ events.now) }
        ensures done { OnOk result (is_done self.new.scenario self.new.state ≡ true) }
        ensures running { OnOk result (IsRunning T.meaning self.new) }
        ensures watched { OnOk result (IsWatched T.meaning O.awaits O.sees
            self.old observer.old self.new observer.new) }
        ensures fault { IfErr result (λ fault.
            IsFaultOf T.meaning self.old.scenario events.now fault) }
    {
        self.follow(alloc, events, observer)?;
        let place = self.place();
        if self.is_done() {
            Ok(())
        } else {
            Err(AuditFault::Unfinished(place))
        }
    }

    /// Fires the events in order, up to the first that may not come after those before it.
    fn follow<O: Observer<T>>(
        &mut self,
        alloc: Global,
        events: &[Event],
        observer: &mut O,
    ) -> Result<(), AuditFault>
        requires { self.old.history ≡ [] }
        ensures scenario { self.new.scenario ≡ self.old.scenario }
        ensures budget { self.new.budget ≡ self.old.budget }
        ensures history { OnOk result (self.new.history ≡ events.now) }
        ensures watched { OnOk result (IsWatched T.meaning O.awaits O.sees
            self.old observer.old self.new observer.new) }
        ensures fault { IfErr result (λ fault.
            IsFaultOf T.meaning self.old.scenario events.now fault) }
    {
        for event in events {
            if !self.is_enabled(*event) {
                return Err(AuditFault::NotEnabled(self.place()));
            }
            observer.about_to(alloc, self, *event)?;
            self.fire(alloc, *event)?;
            observer.fired(alloc, self, *event)?;
        }
        Ok(())
    }

    /// The place after the events so far, counted from 1; they are a run.
    fn place(&self) -> u64
        ensures place { result ≡ length self.now.history + 1 }
        ensures running { IsRunning T.meaning self.now }
    {
        self.history().len() as u64 + 1
    }
}
