ghost use Rattle.std.specs.Prelude.{◌≡◌, ◌+◌, ◌≤◌, true};
ghost use Rattle.lab_model.specs.Guard.{is_done};
ghost use Rattle.lab_model.specs.Potential.{clock_steps, is_clock, potential, steps};
ghost use Rattle.law_within_budget.specs.PassesAll.{HasOneVersion, TablesPassAll};

use crate::lab::Lab;
use lab_model::Event;
use lab_target::Target;

impl<T: Target> Lab<T> {
    /// How many events were fired, the clock's left out: with those that can still come at most the budget. Once
    /// all is done it is the budget, if no device has more than one version and all lines that are ever loaded
    /// take the dearest course of each piece, as linear, zero, error and delay lines do.
    pub fn steps(&self) -> u64
        ensures count { result ≡ steps self.now.history }
        ensures within { result ≤ self.now.budget }
        ensures whole { result + potential T.meaning self.now.scenario self.now.state
            ≤ self.now.budget }
        ensures met { HasOneVersion self.now.scenario → TablesPassAll T.meaning self.now.scenario
            → is_done self.now.scenario self.now.state ≡ true → result ≡ self.now.budget }
    {
        count_steps(self.history(), self.clock_steps())
    }

    /// How many of the clock's events were fired: at most the budget.
    pub fn clock_steps(&self) -> u64
        ensures count { result ≡ clock_steps self.now.history }
        ensures within { result ≤ self.now.budget }
    {
        count_ticks(self.history())
    }
}

/// How many events aren't the clock's, where so many are.
pub(crate) fn count_steps(events: &[Event], ticks: u64) -> u64
    requires { ticks ≡ clock_steps events.now }
    ensures { result ≡ steps events.now }
{
    events.len() as u64 - ticks
}

/// How many events are the clock's.
fn count_ticks(events: &[Event]) -> u64
    ensures { result ≡ clock_steps events.now }
{
    events.iter().filter(|event| is_tick(**event)).count() as u64
}

/// Whether an event is the clock's.
fn is_tick(event: Event) -> bool
    ensures { result ≡ is_clock event }
{
    matches!(event, Event::Clock)
}
