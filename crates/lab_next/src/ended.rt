ghost use Rattle.std.specs.Prelude.{◌≡◌};
ghost use Rattle.lab_model.specs.Lists.{numbered};
ghost use Rattle.lab_model.specs.Guard.{is_done, log_ended, logs_ended, script_ended};
ghost use Rattle.lab_next.specs.Over.{KnowsLines, are_idle, has_ended, is_over};

use crate::guard::has_come;
use lab_logs::LogState;
use lab_model::Who;
use lab_state::{State, numbered as log_numbered};
use lab_table::{LogPlan, Scenario};
use lab_target::Target;

/// Whether nothing is left that belongs to `who`: the log has ended, the script has, or all is done. `can_take` is
/// whether some log may take its next line.
pub fn is_over<T: Target>(
    state: &State<T>,
    scenario: &Scenario<T>,
    who: Who,
    can_take: bool,
) -> bool
    requires { KnowsLines scenario.now state.now can_take }
    ensures { result ≡ is_over scenario.now state.now who }
{
    match who {
        Who::Log(log) => log_ended(state, scenario, log),
        Who::Control => script_ended(state, scenario),
        Who::Timers => is_done(state, scenario, can_take),
    }
}

/// Whether the log of this number has ended. A log that isn't there has.
pub fn log_ended<T: Target>(state: &State<T>, scenario: &Scenario<T>, number: u32) -> bool
    ensures { result ≡ has_ended state.now number
        (numbered scenario.now.logs number) (numbered state.now.logs number) }
{
    let plan = log_numbered(&scenario.lines, number);
    let log = state.logs.get(number);
    let (Some(plan), Some(log)) = (plan, log) else {
        return true;
    };
    is_ended(state, u64::from(number), plan, log)
}

/// Whether a log of this number has ended: it has started, no line is left, no operation is under way, and
/// its moment has come.
pub(crate) fn is_ended<T: Target>(
    state: &State<T>,
    number: u64,
    plan: &LogPlan,
    log: &LogState,
) -> bool
    ensures { result ≡ log_ended state.now number plan.now log.now }
{
    state.started
        && plan.lines.len() <= log.taken
        && !state.traffic.has_log(number)
        && has_come(state, log.moment)
}

/// Whether all logs have ended; `can_take` is whether some log may take its next line. No log is gone through: a log
/// that is idle and may take no line has none left.
#[tactic(auto, using(crate::proofs::EndedLogs::idle_decides, crate::proofs::EndedLogs::taken_not_ended))]
pub fn logs_ended<T: Target>(state: &State<T>, scenario: &Scenario<T>, can_take: bool) -> bool
    requires { KnowsLines scenario.now state.now can_take }
    ensures { result ≡ logs_ended scenario.now state.now }
{
    !can_take && are_idle(state)
}

/// Whether the logs are idle: there are none, or they have started, no operation of one is under way, and no moment of
/// one lies ahead.
fn are_idle<T: Target>(state: &State<T>) -> bool
    ensures { result ≡ are_idle state.now }
{
    let count = state.logs.as_slice().len() as u64;
    count == 0
        || (state.started
            && !state.traffic.has_log_within(count)
            && !state.logs.is_one_ahead(state.traffic.clock()))
}

/// Whether the script has ended: no micro-command is left, and its moment has come.
pub fn script_ended<T: Target>(state: &State<T>, scenario: &Scenario<T>) -> bool
    ensures { result ≡ script_ended scenario.now state.now }
{
    scenario.micros.len() <= state.done && has_come(state, state.moment)
}

/// Whether all is done: logs and script have ended, and no bio lives. `can_take` is whether some log may take its
/// next line.
pub fn is_done<T: Target>(state: &State<T>, scenario: &Scenario<T>, can_take: bool) -> bool
    requires { KnowsLines scenario.now state.now can_take }
    ensures { result ≡ is_done scenario.now state.now }
{
    script_ended(state, scenario)
        && logs_ended(state, scenario, can_take)
        && state.traffic.none_lives()
}
