ghost use Rattle.std.specs.Prelude.{◌≡◌};
ghost use Rattle.lab_rulebook.specs.IsAccepted.{IsAccepted};

use lab_table::Scenario;
use lab_target::Target;
use std::marker::Model;

/// A scenario that was verified: no rule is broken.
#[derive(Debug, Drop)]
pub struct Accepted<T: Target> {
    /// The disks, the tables that are ever loaded, by device, the logs, and the script's steps.
    scenario: Scenario<T>,
    /// The most events that a run takes, the clock's left out.
    budget: u64,
}

impl<T: Target> Model for Accepted<T> {
    ghost use Rattle.lab_rulebook.specs.IsAccepted.{IsAccepted, Verified};

    ghost Value = { Verified T };

    ghost view = { λ accepted. record { scenario = accepted.scenario; budget = accepted.budget } };

    ghost invariant = { λ accepted. IsAccepted T.meaning accepted.scenario accepted.budget };
}

impl<T: Target> Accepted<T> {
    /// A scenario that the rules accept, with its budget.
    pub fn new(scenario: Scenario<T>, budget: u64) -> Accepted<T>
        requires { IsAccepted T.meaning scenario budget }
        ensures scenario { result.scenario ≡ scenario }
        ensures budget { result.budget ≡ budget }
    {
        Accepted { scenario, budget }
    }

    /// The scenario.
    pub fn scenario(&self) -> &Scenario<T>
        ensures value { result.now ≡ self.now.scenario }
        ensures accepted { IsAccepted T.meaning self.now.scenario self.now.budget }
    {
        &self.scenario
    }

    /// The most events that a run takes, the clock's left out.
    pub fn budget(&self) -> u64
        ensures { result ≡ self.now.budget }
    {
        self.budget
    }
}
