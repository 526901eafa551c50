ghost use Rattle.std.specs.Prelude.{◌≡◌, OnErr, OnOk};
ghost use Rattle.lab_model.specs.After.{Next};
ghost use Rattle.lab_model.specs.Effect.{effect, tick};
ghost use Rattle.lab_model.specs.Ready.{IsReady};

use crate::control_effect::control;
use crate::disk_events::{finish, release, serve};
use crate::log_effect::take_line;
use crate::map_effect::map_bio;
use lab_model::Event;
use lab_sector::NoMemory;
use lab_state::State;
use lab_table::Scenario;
use lab_target::Target;
use std::alloc::Global;

/// What an event does to the state of a run.
pub fn apply<T: Target>(
    state: &mut State<T>,
    alloc: Global,
    scenario: &Scenario<T>,
    event: Event,
) -> Result<(), NoMemory>
    requires { IsReady T.meaning scenario.now state.old event }
    ensures next { OnOk result (effect T.meaning scenario.now state.old event ≡ Next state.new) }
    ensures err { OnErr result (state.new ≡ state.old) }
{
    match event {
        Event::Line(log) => take_line(state, alloc, scenario, log),
        Event::Map(number) => map_bio(state, alloc, number),
        Event::Serve(number) => serve(state, alloc, number),
        Event::Release(number) => {
            release(state, number);
            Ok(())
        }
        Event::Finish(number) => finish(state, alloc, number),
        Event::Control => control(state, alloc, scenario),
        Event::Clock => {
            tick(state);
            Ok(())
        }
    }
}

/// The clock goes on to the least moment that lies ahead.
pub fn tick<T: Target>(state: &mut State<T>)
    ensures { tick state.old ≡ Next state.new }
{
    if let Some(moment) = state.least_moment() {
        state.traffic.clock_to(moment);
    }
}
