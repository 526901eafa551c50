ghost use Rattle.std.specs.Prelude.{◌≡◌, ◌+◌, ◌*◌, ◌<◌, ◌≤◌, ℕ, None, length, slice_get, true};
ghost use Rattle.std.specs.List.{find};
ghost use Rattle.law_answered_once.specs.AnsweredOnce.{times_answered};
ghost use Rattle.law_slots.specs.Timely.{hour};
ghost use Rattle.lab_model.specs.State.{answers_of};
ghost use Rattle.lab_core.specs.Running.{IsRunning};
ghost use Rattle.lab_core.specs.Standing.{AllAnsweredInOrder, StandsWell};
ghost use Rattle.law_headline.specs.Bounds.{StaysBounded};
ghost use Rattle.law_headline.specs.Headline.{RunsWell};
ghost use Rattle.lab_model.specs.Potential.{potential};
ghost use Rattle.lab_model.specs.Order.{enabled_events};
ghost use Rattle.lab_next.specs.Over.{is_same};

use crate::lab::Lab;
use lab_model::{Answer, Event, Who};
use lab_next::{is_done, is_enabled, is_over, next_for};
use lab_state::State;
use lab_table::Scenario;
use lab_target::Target;

impl<T: Target> Lab<T> {
    ghost use Rattle.lab_model.specs.Guard.{is_done, is_enabled};
    ghost use Rattle.lab_model.specs.Owner.{owner_of};
    ghost use Rattle.lab_next.specs.Over.{is_over};

    /// Whether the event may come next.
    #[inline(always)]
    pub fn is_enabled(&self, event: Event) -> bool
        ensures { result ≡ is_enabled self.now.scenario self.now.state event }
    {
        is_enabled(
            &self.state,
            self.accepted.scenario(),
            event,
            self.can_take_line(),
        )
    }

    /// The first event, in the written order, that may come next; `None` when all is done, and only then.
    pub fn next_event(&self) -> Option<Event>
        ensures first { result ≡ slice_get (enabled_events self.now.scenario self.now.state) 0 }
        ensures done { result ≡ None → is_done self.now.scenario self.now.state ≡ true }
        ensures rests { is_done self.now.scenario self.now.state ≡ true → result ≡ None }
    {
        self.nth_behind_front(self.count_front(), 0)
    }

    /// The first event, in the written order, that may come next and belongs to `who`.
    pub fn next_for(&self, who: Who) -> Option<Event>
        ensures { result ≡ find (λ event. is_same (owner_of self.now.state event) who)
            (enabled_events self.now.scenario self.now.state) }
    {
        next_for(
            &self.state,
            self.accepted.scenario(),
            who,
            self.can_take_line(),
        )
    }

    /// How many events may come next: none only when all is done.
    pub fn count_enabled(&self) -> u64
        ensures count { result ≡ length (enabled_events self.now.scenario self.now.state) }
        ensures done { result ≡ 0 → is_done self.now.scenario self.now.state ≡ true }
    {
        self.count_from(self.count_front())
    }

    /// The event of this number, counted from 0, among those that may come next, in the written order: the
    /// script's, those of logs by number, those of bios by number, the clock's.
    pub fn nth_enabled(&self, number: u64) -> Option<Event>
        ensures { result
            ≡ slice_get (enabled_events self.now.scenario self.now.state) number }
    {
        self.nth_behind_front(self.count_front(), number)
    }

    /// Whether the script and the logs have ended and no bio lives. Each bio that was made has been answered
    /// exactly once then, and each log has one answer to each of its operations, in line order.
    pub fn is_done(&self) -> bool
        ensures done { result ≡ is_done self.now.scenario self.now.state }
        ensures answered { result ≡ true → (number : ℕ) → 0 < number
            → number ≤ length self.now.state.bios
            → times_answered self.now.history number ≡ 1 }
        ensures in_order { result ≡ true → AllAnsweredInOrder self.now }
    {
        is_done(&self.state, self.accepted.scenario(), self.can_take_line())
    }

    /// Whether nothing is left that belongs to `who`: the log has ended, the script has, or all is done. A log
    /// that isn't there has ended.
    pub fn is_over(&self, who: Who) -> bool
        ensures { result ≡ is_over self.now.scenario self.now.state who }
    {
        is_over(
            &self.state,
            self.accepted.scenario(),
            who,
            self.can_take_line(),
        )
    }

    /// The clock, in microseconds: at most an hour for each event of the budget.
    pub fn now(&self) -> u64
        ensures clock { result ≡ self.now.state.clock }
        ensures within { result ≤ self.now.budget * hour }
        ensures whole { result + potential T.meaning self.now.scenario self.now.state * hour
            ≤ self.now.budget * hour }
    {
        clock_of(&self.state)
    }

    /// The most events that a run takes, the clock's left out.
    pub fn budget(&self) -> u64
        ensures { result ≡ self.now.budget }
    {
        self.accepted.budget()
    }

    /// The accepted scenario. The headline holds of it: it runs well, and its runs stay bounded.
    pub fn scenario(&self) -> &Scenario<T>
        ensures value { result.now ≡ self.now.scenario }
        ensures runs_well { RunsWell T.meaning self.now.scenario }
        ensures bounded { StaysBounded T.meaning self.now.scenario }
    {
        self.accepted.scenario()
    }

    /// Where the run stands.
    pub fn state(&self) -> &State<T>
        ensures { result.now ≡ self.now.state }
    {
        &self.state
    }

    /// The events that were fired, in order: a run of the accepted scenario. All that is promised of a run so far
    /// holds of it: no more events than the budget, one answer for each dead bio and none for a living one, each log's
    /// answers in line order, and slots and modes as the script's steps so far make them.
    pub fn history(&self) -> &[Event]
        ensures events { result.now ≡ self.now.history }
        ensures running { IsRunning T.meaning self.now }
        ensures stands { StandsWell T.meaning self.now }
    {
        self.history.as_slice()
    }

    /// The answers of a log so far, in order. Logs are numbered from 1; one that isn't there has none.
    pub fn answers(&self, log: u32) -> &[Answer]
        ensures { result.now ≡ answers_of self.now.state log }
    {
        match self.state.logs.get(log) {
            Some(log) => log.answers.as_slice(),
            None => &[],
        }
    }
}

/// The clock of a state.
fn clock_of<T: Target>(state: &State<T>) -> u64
    ensures { result ≡ state.now.clock }
{
    state.traffic.clock()
}
