ghost use Rattle.std.specs.Prelude.{◌≡◌};
ghost use Rattle.lab_model.specs.declared.event.Event.TheVariants.{Control, Line};
ghost use Rattle.lab_model.specs.Guard.{has_come, is_enabled, order_may};
ghost use Rattle.lab_next.specs.Over.{KnowsLines};
ghost use Rattle.lab_next.specs.Places.{clock_may};

use crate::bio_guard::{finish_may, map_may, release_may, serve_may};
use crate::ended::logs_ended;
use lab_model::{Event, Order};
use lab_state::{State, numbered as log_numbered};
use lab_table::Scenario;
use lab_target::Target;

/// Whether the event may come next. `can_take` is whether some log may take its next line.
#[inline(always)]
pub fn is_enabled<T: Target>(
    state: &State<T>,
    scenario: &Scenario<T>,
    event: Event,
    can_take: bool,
) -> bool
    requires { KnowsLines scenario.now state.now can_take }
    ensures { result ≡ is_enabled scenario.now state.now event }
{
    match event {
        Event::Line(log) => line_may(state, scenario, log),
        Event::Map(number) => map_may(state, number),
        Event::Serve(number) => serve_may(state, number),
        Event::Release(number) => release_may(state, number),
        Event::Finish(number) => finish_may(state, number),
        Event::Control => control_may(state, scenario, can_take),
        Event::Clock => clock_may(state),
    }
}

/// Whether the clock may go on: a moment that stands lies ahead.
#[tactic(auto, using(lab_model::proofs::LeastAhead::ahead_some))]
#[inline(always)]
pub(crate) fn clock_may<T: Target>(state: &State<T>) -> bool
    ensures { result ≡ clock_may state.now }
{
    state.least_moment().is_some()
}

/// Whether the log of this number may take its next line: it has started, has a line left and no
/// operation under way, and its moment has come.
#[inline(always)]
pub fn line_may<T: Target>(state: &State<T>, scenario: &Scenario<T>, number: u32) -> bool
    ensures { result ≡ is_enabled scenario.now state.now (Line number) }
{
    let plan = log_numbered(&scenario.lines, number);
    let log = state.logs.get(number);
    let (Some(plan), Some(log)) = (plan, log) else {
        return false;
    };
    state.started
        && log.taken < plan.lines.len()
        && !state.traffic.has_log(u64::from(number))
        && has_come(state, log.moment)
}

/// Whether the next micro-command may be done: there is one, the script's moment has come, and it waits
/// for nothing. `can_take` is whether some log may take its next line.
#[inline(always)]
pub fn control_may<T: Target>(state: &State<T>, scenario: &Scenario<T>, can_take: bool) -> bool
    requires { KnowsLines scenario.now state.now can_take }
    ensures { result ≡ is_enabled scenario.now state.now Control }
{
    match scenario.micros.get(state.done) {
        Some(micro) => {
            has_come(state, state.moment) && order_may(state, scenario, &micro.order, can_take)
        }
        None => false,
    }
}

/// Whether a step of the script waits for nothing: Drained for bios in flight at its device, Wait for the
/// logs. `can_take` is whether some log may take its next line.
fn order_may<T: Target>(
    state: &State<T>,
    scenario: &Scenario<T>,
    order: &Order,
    can_take: bool,
) -> bool
    requires { KnowsLines scenario.now state.now can_take }
    ensures { result ≡ order_may scenario.now state.now order.now }
{
    match order {
        Order::Drained(device) => !state.traffic.has_flight(*device),
        Order::Wait => logs_ended(state, scenario, can_take),
        _ => true,
    }
}

/// Whether a moment has come.
#[inline(always)]
pub(crate) fn has_come<T: Target>(state: &State<T>, moment: u64) -> bool
    ensures { result ≡ has_come state.now moment }
{
    moment <= state.traffic.clock()
}
