ghost use Rattle.std.specs.Prelude.{◌≡◌, option_copied};
ghost use Rattle.lab_model.specs.Owner.{owner_of};
ghost use Rattle.lab_model.specs.Bounds.{CanNumber};
ghost use Rattle.lab_trace.specs.Owners.{TellsOwner};
ghost use Rattle.lab_trace.specs.Rows.{bio_row, event_row, line_to_take, log_row, named_row};
ghost use Rattle.lab_trace.specs.Rows.{start_of};

use crate::fields::{row_with_bio, with_line, with_origin};
use crate::micros::with_micro;
use crate::row::TraceRow;
use lab_model::Event;
use lab_next::origin_of;
use lab_state::{State, numbered};
use lab_table::{LogLine, Scenario};
use lab_target::Target;

/// What a trace tells of the event at a place of a run, in the state in which it comes.
pub fn row_of<T: Target>(
    scenario: &Scenario<T>,
    state: &State<T>,
    place: u64,
    event: Event,
) -> TraceRow
    requires { CanNumber scenario.now state.now }
    ensures row { result ≡ event_row scenario.now state.now place event }
    ensures owner { TellsOwner (owner_of state.now event) result.log }
{
    let start = start_of(state, place, event);
    named_row(scenario, state, start, event)
}

/// The row with what the event names: a log with its next line, a bio, or the script's next micro-command.
fn named_row<T: Target>(
    scenario: &Scenario<T>,
    state: &State<T>,
    row: TraceRow,
    event: Event,
) -> TraceRow
    requires { CanNumber scenario.now state.now }
    ensures { result ≡ named_row scenario.now state.now row event }
{
    match event {
        Event::Line(log) => log_row(scenario, state, row, log),
        Event::Map(number)
        | Event::Serve(number)
        | Event::Release(number)
        | Event::Finish(number) => bio_row(state, row, number),
        Event::Control => with_micro(row, scenario.micros.get(state.done)),
        Event::Clock => row,
    }
}

/// The row of an event that is no log's, no bio's and not the script's.
fn start_of<T: Target>(state: &State<T>, place: u64, event: Event) -> TraceRow
    ensures { result ≡ start_of state.now place event }
{
    TraceRow {
        place,
        clock: state.traffic.clock(),
        event,
        log: None,
        line: None,
        bio: None,
        parent: None,
        kind: None,
        device: None,
        span: None,
    }
}

/// The row with the bio of this number, and with the operation that it comes from.
fn bio_row<T: Target>(state: &State<T>, row: TraceRow, number: u64) -> TraceRow
    ensures { result ≡ bio_row state.now row number }
{
    let told = row_with_bio(row, number, state.traffic.get(number));
    with_origin(told, origin_of(state, number))
}

/// The row with a log and the line that it takes next.
fn log_row<T: Target>(scenario: &Scenario<T>, state: &State<T>, row: TraceRow, log: u32) -> TraceRow
    requires { CanNumber scenario.now state.now }
    ensures { result ≡ log_row scenario.now state.now row log }
{
    let told = TraceRow {
        log: Some(log),
        ..row
    };
    with_line(
        told,
        state.traffic.count() + 1,
        line_to_take(scenario, state, log),
    )
}

/// The line that the log of this number takes next.
pub(crate) fn line_to_take<'a, T: Target>(
    scenario: &'a Scenario<T>,
    state: &State<T>,
    log: u32,
) -> Option<&'a LogLine>
    ensures { option_copied result ≡ line_to_take scenario.now state.now log }
{
    let plan = numbered(&scenario.lines, log)?;
    let state = state.logs.get(log)?;
    plan.lines.get(state.taken)
}
