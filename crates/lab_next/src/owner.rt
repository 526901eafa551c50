ghost use Rattle.std.specs.Prelude.{◌≡◌};
ghost use Rattle.lab_model.specs.Owner.{owner_of};

use lab_model::{Event, Who};
use lab_state::State;
use lab_target::Target;

/// Whom an event belongs to where it stands: a log's lines, and what is done to the bios that come from
/// them, are the log's; releases and the clock are the timers'.
pub fn owner_of<T: Target>(state: &State<T>, event: Event) -> Who
    ensures { result ≡ owner_of state.now event }
{
    match event {
        Event::Line(log) => Who::Log(log),
        Event::Map(number) | Event::Serve(number) | Event::Finish(number) => {
            Who::Log(state.traffic.log_of(number))
        }
        Event::Release(_) | Event::Clock => Who::Timers,
        Event::Control => Who::Control,
    }
}
