ghost use Rattle.std.specs.Prelude.{◌≡◌, ◌≤◌, length, slice_get, true};
ghost use Rattle.lab_model.specs.declared.event.Event.TheVariants.{Control};
ghost use Rattle.lab_model.specs.Guard.{is_done, is_enabled};
ghost use Rattle.lab_model.specs.Order.{enabled_events};
ghost use Rattle.lab_next.specs.Over.{KnowsLines};
ghost use Rattle.lab_next.specs.Places.{front_events};
ghost use Rattle.lab_core.specs.Free.{line_events};
ghost use Rattle.lab_core.specs.Running.{IsRunning};

use crate::lab::Lab;
use lab_model::Event;
use lab_next::{control_may, count_behind, nth_behind};
use lab_target::Target;

impl<T: Target> Lab<T> {
    /// How many events of the script and of the logs may come next. No log is gone through. The events so far are a
    /// run.
    pub(crate) fn count_front(&self) -> u64
        ensures count { result ≡ length (front_events self.now.scenario self.now.state) }
        ensures few { result ≤ 65 }
        ensures running { IsRunning T.meaning self.now }
    {
        let script = u64::from(self.script_may());
        script + self.count_lines()
    }

    /// How many events of the logs may come next. The events so far are a run.
    #[inline(always)]
    fn count_lines(&self) -> u64
        ensures count { result ≡ length (line_events self.now.scenario self.now.state) }
        ensures few { result ≤ 64 }
        ensures running { IsRunning T.meaning self.now }
    {
        self.free.count()
    }

    /// Whether some log may take its next line. No log is gone through.
    #[inline(always)]
    #[tactic(auto, using(crate::proofs::Rulesets::can_take_line))]
    pub(crate) fn can_take_line(&self) -> bool
        ensures { KnowsLines self.now.scenario self.now.state result }
    {
        self.free.count() > 0
    }

    /// Whether the script's next step may be done.
    #[inline(always)]
    fn script_may(&self) -> bool
        ensures { result ≡ is_enabled self.now.scenario self.now.state Control }
    {
        control_may(&self.state, self.accepted.scenario(), self.can_take_line())
    }

    /// How many events may come next, of which so many are the script's and the logs': none only when all is done.
    pub(crate) fn count_from(&self, front: u64) -> u64
        requires front { front ≡ length (front_events self.now.scenario self.now.state) }
        requires few { front ≤ 65 }
        ensures count { result ≡ length (enabled_events self.now.scenario self.now.state) }
        ensures done { result ≡ 0 → is_done self.now.scenario self.now.state ≡ true }
    {
        front + count_behind(&self.state, self.accepted.scenario())
    }

    /// The event of this number, counted from 0, among those that may come next, of which so many are the script's and
    /// the logs'.
    pub(crate) fn nth_behind_front(&self, front: u64, number: u64) -> Option<Event>
        requires { front ≡ length (front_events self.now.scenario self.now.state) }
        ensures { result
            ≡ slice_get (enabled_events self.now.scenario self.now.state) number }
    {
        match number.checked_sub(front) {
            Some(left) => nth_behind(&self.state, self.accepted.scenario(), left),
            None => self.nth_front(front, number),
        }
    }

    /// The event of this number, counted from 0, among those of the script and of the logs that may come next, of which
    /// there are so many: the script's is one where the logs' are fewer.
    fn nth_front(&self, front: u64, number: u64) -> Option<Event>
        requires { front ≡ length (front_events self.now.scenario self.now.state) }
        ensures { result
            ≡ slice_get (front_events self.now.scenario self.now.state) number }
    {
        if front == self.count_lines() {
            return self.nth_line(number);
        }
        match number.checked_sub(1) {
            Some(rank) => self.nth_line(rank),
            None => Some(Event::Control),
        }
    }

    /// The event of this number, counted from 0, among those of the logs that may come next.
    fn nth_line(&self, number: u64) -> Option<Event>
        ensures { result
            ≡ slice_get (line_events self.now.scenario self.now.state) number }
    {
        let place = self.free.nth(number)?;
        Some(Event::Line(place as u32 + 1))
    }
}
