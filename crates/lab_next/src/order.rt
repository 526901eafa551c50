ghost use Rattle.std.specs.Prelude.{◌≡◌, ◌<◌, ◌≤◌, ◌^◌, length, slice_get};
ghost use Rattle.std.specs.List.{find};
ghost use Rattle.lab_model.specs.Order.{enabled_events};
ghost use Rattle.lab_model.specs.Bounds.{CanNumber};
ghost use Rattle.lab_next.specs.Over.{is_same as same};
ghost use Rattle.lab_state.specs.Places.{bio_events};
ghost use Rattle.lab_next.specs.Places.{behind_events, clock_events, front_events};
ghost use Rattle.lab_model.specs.Owner.{owner_of};
ghost use Rattle.lab_next.specs.Over.{KnowsLines};

use crate::guard::clock_may;
use crate::owner::owner_of;
use crate::places::{clock_at, control_at, line_at};
use lab_model::{Event, Who};
use lab_state::State;
use lab_table::Scenario;
use lab_target::Target;
use std::cmp::Ordering;

/// How many events of the bios and of the clock may come next.
pub fn count_behind<T: Target>(state: &State<T>, scenario: &Scenario<T>) -> u64
    requires { CanNumber scenario.now state.now }
    ensures count { result ≡ length (behind_events scenario.now state.now) }
    ensures few { result ≤ 2 ^ 40 }
{
    let clock = u64::from(clock_may(state));
    state.traffic.count_ready() + clock
}

/// The event of this number, counted from 0, among those of the bios and of the clock that may come next.
pub fn nth_behind<T: Target>(state: &State<T>, scenario: &Scenario<T>, number: u64) -> Option<Event>
    ensures { result ≡ slice_get (behind_events scenario.now state.now) number }
{
    let ready = state.traffic.count_ready();
    match number.cmp(&ready) {
        Ordering::Less => state.traffic.nth_ready(number),
        Ordering::Equal => clock_at(state, scenario),
        Ordering::Greater => None,
    }
}

/// The first event in the written order that may come next and belongs to `who`. `can_take` is whether some log may
/// take its next line.
pub fn next_for<T: Target>(
    state: &State<T>,
    scenario: &Scenario<T>,
    who: Who,
    can_take: bool,
) -> Option<Event>
    requires numbers { CanNumber scenario.now state.now }
    requires lines { KnowsLines scenario.now state.now can_take }
    ensures { result
        ≡ find (λ event. same (owner_of state.now event) who)
        (enabled_events scenario.now state.now) }
{
    if let Some(event) = front_for(state, scenario, who, can_take) {
        return Some(event);
    }
    match ready_for(state, who) {
        Some(event) => Some(event),
        None => clock_for(state, scenario, who),
    }
}

/// The event of the script or of a log that may come next and belongs to `who`. No other log is asked. `can_take` is
/// whether some log may take its next line.
fn front_for<T: Target>(
    state: &State<T>,
    scenario: &Scenario<T>,
    who: Who,
    can_take: bool,
) -> Option<Event>
    requires { KnowsLines scenario.now state.now can_take }
    ensures { result
        ≡ find (λ event. same (owner_of state.now event) who)
        (front_events scenario.now state.now) }
{
    match who {
        Who::Log(log) => line_at(state, scenario, log),
        Who::Control => control_at(state, scenario, can_take),
        Who::Timers => None,
    }
}

/// The first event of a bio that may come next and belongs to `who`: none is the script's.
fn ready_for<T: Target>(state: &State<T>, who: Who) -> Option<Event>
    requires { length state.now.bios < 2 ^ 40 }
    ensures { result
        ≡ find (λ event. same (owner_of state.now event) who) (bio_events state.now) }
{
    match who {
        Who::Control => None,
        _ => next_ready(state, who),
    }
}

/// The first event of a bio that may come next and belongs to `who`. Where it is kept whose event each bio waits for,
/// no other one is gone through; else the bios are asked one after another.
fn next_ready<T: Target>(state: &State<T>, who: Who) -> Option<Event>
    requires { length state.now.bios < 2 ^ 40 }
    ensures { result
        ≡ find (λ event. same (owner_of state.now event) who) (bio_events state.now) }
{
    let mut from = 1;
    while let Some(number) = state.traffic.next_of(who, from) {
        if let Some(event) = state.traffic.event_at(number) {
            if is_same(owner_of(state, event), who) {
                return Some(event);
            }
        }
        from = number + 1;
    }
    None
}

/// The clock's event, if it may come next and belongs to `who`.
fn clock_for<T: Target>(state: &State<T>, scenario: &Scenario<T>, who: Who) -> Option<Event>
    ensures { result
        ≡ find (λ event. same (owner_of state.now event) who)
        (clock_events scenario.now state.now) }
{
    let event = clock_at(state, scenario)?;
    is_same(owner_of(state, event), who).then_some(event)
}

/// Whether an event's owner is `who`.
fn is_same(owner: Who, who: Who) -> bool
    ensures { result ≡ same owner who }
{
    owner == who
}
