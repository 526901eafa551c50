// The logs that may take their next line. They are kept up to date with each event, so that none has to be gone through
// where an event is looked for.

ghost use Rattle.std.specs.Prelude.{◌≡◌, ◌≢◌, ◌<◌, ◌≤◌, ℕ, length, slice_get};
ghost use Rattle.lab_index.specs.Numbers.{has};
ghost use Rattle.lab_core.specs.declared.free_logs.TouchedLogs.TheVariants.{AllLogs, LogsSince, OneLog};
ghost use Rattle.lab_core.specs.Free.{IsUpdated, step_logs, told_log, touched_logs};

use lab_index::WordSet;
use lab_model::{Event, Order};
use lab_next::line_may;
use lab_state::{Parent, State};
use lab_table::Scenario;
use lab_target::Target;

/// The logs whose next line may come after an event where it couldn't before, or the other way round.
#[derive(Clone, Copy)]
pub(crate) enum TouchedLogs {
    /// None.
    NoLog,
    /// The log of this number at most.
    OneLog(u32),
    /// Those whose moment is later than this one, in microseconds, and has come.
    LogsSince(u64),
    /// Any.
    AllLogs,
}

/// The logs that an event touches where it comes: a log whose line it takes, or that it gives an answer, those to
/// whose moment the clock goes on, and all where the script starts them.
pub(crate) fn touched_by<T: Target>(
    scenario: &Scenario<T>,
    state: &State<T>,
    event: Event,
) -> TouchedLogs
    ensures { result ≡ touched_logs scenario.now state.now event }
{
    match event {
        Event::Line(log) => TouchedLogs::OneLog(log),
        Event::Serve(number) | Event::Finish(number) => told_log(state, number),
        Event::Map(_) | Event::Release(_) => TouchedLogs::NoLog,
        Event::Control => script_logs(scenario, state),
        Event::Clock => TouchedLogs::LogsSince(state.traffic.clock()),
    }
}

/// The log that the bio of this number answers, if it answers one.
fn told_log<T: Target>(state: &State<T>, number: u64) -> TouchedLogs
    ensures { result ≡ told_log state.now number }
{
    match state.traffic.get(number) {
        Some(bio) => match bio.parent {
            Parent::FromLog(log, _, _) => TouchedLogs::OneLog(log),
            Parent::FromBio(_, _) => TouchedLogs::NoLog,
        },
        None => TouchedLogs::NoLog,
    }
}

/// All logs, if the next step of the script is the replay; no other step concerns a log.
fn script_logs<T: Target>(scenario: &Scenario<T>, state: &State<T>) -> TouchedLogs
    ensures { result ≡ step_logs (slice_get scenario.now.micros state.now.done) }
{
    match scenario.micros.get(state.done) {
        Some(micro) if matches!(micro.order, Order::Replay) => TouchedLogs::AllLogs,
        _ => TouchedLogs::NoLog,
    }
}

/// Whether a log may take its next line is found anew for those that an event touched.
pub(crate) fn update<T: Target>(
    free: &mut WordSet,
    state: &State<T>,
    scenario: &Scenario<T>,
    touched: TouchedLogs,
)
    requires { length scenario.now.logs ≤ 64 }
    ensures { IsUpdated scenario.now state.now touched free.old free.new }
{
    match touched {
        TouchedLogs::NoLog => {}
        TouchedLogs::OneLog(log) => update_log(free, state, scenario, log),
        TouchedLogs::LogsSince(moment) => update_due(free, state, scenario, moment),
        TouchedLogs::AllLogs => update_all(free, state, scenario),
    }
}

/// It is found anew for the logs whose moment is later than one, in microseconds, and has come. No other is looked at.
fn update_due<T: Target>(free: &mut WordSet, state: &State<T>, scenario: &Scenario<T>, since: u64)
    requires { length scenario.now.logs ≤ 64 }
    ensures { IsUpdated scenario.now state.now (LogsSince since) free.old free.new }
{
    for due in state.logs.due(since, state.traffic.clock()) {
        update_log(free, state, scenario, due.log);
    }
}

/// It is found anew for each log.
fn update_all<T: Target>(free: &mut WordSet, state: &State<T>, scenario: &Scenario<T>)
    requires { length scenario.now.logs ≤ 64 }
    ensures { IsUpdated scenario.now state.now AllLogs free.old free.new }
{
    for place in 0..scenario.lines.len() {
        update_log(free, state, scenario, place as u32 + 1);
    }
}

/// It is found anew for the log of this number, if there is that log.
fn update_log<T: Target>(free: &mut WordSet, state: &State<T>, scenario: &Scenario<T>, log: u32)
    requires { length scenario.now.logs ≤ 64 }
    ensures { IsUpdated scenario.now state.now (OneLog log) free.old free.new }
{
    let Some(place) = (log as usize).checked_sub(1) else {
        return;
    };
    if place >= scenario.lines.len() {
        return;
    }
    let may = line_may(state, scenario, log);
    put_mark(free, place as u64, may);
}

/// The number becomes a member or none.
fn put_mark(free: &mut WordSet, place: u64, is_member: bool)
    requires { place < 64 }
    ensures mark { has free.new place ≡ is_member }
    ensures others { (n : ℕ) → n ≢ place → has free.new n ≡ has free.old n }
{
    if is_member {
        free.insert(place);
    } else {
        free.remove(place);
    }
}
