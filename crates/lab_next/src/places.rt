ghost use Rattle.std.specs.Prelude.{◌≡◌};
ghost use Rattle.lab_model.specs.declared.event.Event.TheVariants.{Clock, Control, Line};
ghost use Rattle.lab_model.specs.Guard.{is_enabled};
ghost use Rattle.lab_next.specs.Places.{if_passes};
ghost use Rattle.lab_next.specs.Over.{KnowsLines};

use crate::guard::{clock_may, control_may, line_may};
use lab_model::Event;
use lab_state::State;
use lab_table::Scenario;
use lab_target::Target;

/// The next line of the log of this number, if it may come next.
pub(crate) fn line_at<T: Target>(
    state: &State<T>,
    scenario: &Scenario<T>,
    number: u32,
) -> Option<Event>
    ensures { result ≡ if_passes (is_enabled scenario.now state.now) (Line number) }
{
    line_may(state, scenario, number).then_some(Event::Line(number))
}

/// The script's event, if it may come next. `can_take` is whether some log may take its next line.
pub(crate) fn control_at<T: Target>(
    state: &State<T>,
    scenario: &Scenario<T>,
    can_take: bool,
) -> Option<Event>
    requires { KnowsLines scenario.now state.now can_take }
    ensures { result ≡ if_passes (is_enabled scenario.now state.now) Control }
{
    control_may(state, scenario, can_take).then_some(Event::Control)
}

/// The clock's event, if it may come next.
pub(crate) fn clock_at<T: Target>(state: &State<T>, scenario: &Scenario<T>) -> Option<Event>
    ensures { result ≡ if_passes (is_enabled scenario.now state.now) Clock }
{
    clock_may(state).then_some(Event::Clock)
}
