ghost use Rattle.std.specs.Prelude.{◌≡◌, ◌++◌, ◌∷◌, [], IfOk, OnOk, map};
ghost use Rattle.lab_script.specs.Task.{replay as replay_task};
ghost use Rattle.lab_rulebook.specs.Parts.{Parts};
ghost use Rattle.lab_rulebook.specs.Walked.{bound_log, standing_next};
ghost use Rattle.lab_refusal.specs.Refusals.{refusal_at};
ghost use Rattle.lab_standing.specs.Sound.{IsSound};
ghost use Rattle.lab_standing.specs.Stands.{standing_of};
ghost use Rattle.lab_verify.specs.NamedLogs.{named_log_part};
ghost use Rattle.lab_verify.specs.Steps.{TellsLog, TellsLogs, TellsNext};

use crate::bound::bound_log;
use crate::parts::NamedLog;
use lab_refusal::{PartName, Refusal, Rule};
use lab_rule_checks::broken_line;
use lab_sector::NoMemory;
use lab_standing::{Phase, Standing};
use lab_table::LogPlan;
use lab_target::Target;
use std::alloc::Global;

/// Logs as the replay binds them, and the first fault of a line.
#[derive(Drop)]
struct Binding<'a> {
    /// The logs with their files bound to devices.
    pub plans: Vec<LogPlan>,
    /// The fault of the first line that breaks a rule, if one does.
    pub fault: Option<Refusal<'a>>,
}

/// The logs start: their files are bound to the devices that stand now, and the first fault of a line is kept. The
/// lines that were read are given back.
#[tactic(auto, using(crate::proofs::Rulesets::replay))]
pub(crate) fn replay<'a, T: Target>(
    standing: &mut Standing<'a, T>,
    alloc: Global,
    logs: &mut Vec<NamedLog<'a>>,
) -> Result<(), NoMemory>
    ensures stands { IfOk result
        (λ done. (parts : Parts T) → parts.logs ≡ map named_log_part logs.old.items
        → standing_of T.meaning standing.new
        ≡ standing_next T.meaning parts (standing_of T.meaning standing.old) replay_task) }
    ensures sound { IfOk result (λ done. IsSound T.meaning standing.old → IsSound T.meaning standing.new) }
    ensures fault { IfOk result (λ done.
        TellsLogs (standing_of T.meaning standing.old) standing.new.logs.items standing.new.fault) }
{
    let replay = bound_logs(standing, alloc, logs)?;
    standing.logs = replay.plans;
    standing.fault = replay.fault;
    standing.phase = Phase::Replayed;
    Ok(())
}

/// The logs with their files bound to the devices that stand, and the first fault of a line. The lines of each log are
/// given back once they are bound, so that the next one's find their room.
fn bound_logs<'a, T: Target>(
    standing: &Standing<'a, T>,
    alloc: Global,
    logs: &mut Vec<NamedLog<'a>>,
) -> Result<Binding<'a>, NoMemory>
    ensures plans { IfOk result (λ replay. replay.plans.items
        ≡ map (λ log. bound_log (standing_of T.meaning standing.now)
        (named_log_part log)) logs.old.items) }
    ensures fault { IfOk result (λ replay.
        TellsLogs (standing_of T.meaning standing.now) replay.plans.items replay.fault) }
{
    let mut plans = Vec::with_capacity(alloc, logs.len())?;
    let mut fault = None;
    for place in 0..logs.len() {
        fault = bind_more(&mut plans, standing, alloc, fault, &logs[place])?;
        logs[place].log.lines = Vec::new(alloc);
    }
    Ok(Binding { plans, fault })
}

/// Binds one log more behind the others: the fault that was found before, or else that of its first line that breaks
/// a rule, if one does.
fn bind_more<'a, T: Target>(
    plans: &mut Vec<LogPlan>,
    standing: &Standing<'a, T>,
    alloc: Global,
    before: Option<Refusal<'a>>,
    log: &NamedLog<'a>,
) -> Result<Option<Refusal<'a>>, NoMemory>
    ensures plan { OnOk result (plans.new.items ≡ plans.old.items
        ++ bound_log (standing_of T.meaning standing.now) (named_log_part log.now) ∷ []) }
    ensures fault { IfOk result (TellsNext (standing_of T.meaning standing.now) log.now.name
        (bound_log (standing_of T.meaning standing.now)
        (named_log_part log.now)).lines before.entry) }
{
    let plan = bound_log(standing, alloc, log)?;
    let fault = next_fault(standing, alloc, before, log, &plan);
    plans.push(plan)?;
    fault
}

/// The fault that was found before, or else that of a log's first line that breaks a rule, if one does.
fn next_fault<'a, T: Target>(
    standing: &Standing<'a, T>,
    alloc: Global,
    before: Option<Refusal<'a>>,
    log: &NamedLog<'a>,
    plan: &LogPlan,
) -> Result<Option<Refusal<'a>>, NoMemory>
    ensures { IfOk result
        (TellsNext (standing_of T.meaning standing.now) log.now.name plan.now.lines before.entry) }
{
    match before {
        Some(fault) => Ok(Some(fault)),
        None => log_fault(standing, alloc, log, plan),
    }
}

/// The fault of a log's first line that breaks a rule, if one does.
fn log_fault<'a, T: Target>(
    standing: &Standing<'a, T>,
    alloc: Global,
    log: &NamedLog<'a>,
    plan: &LogPlan,
) -> Result<Option<Refusal<'a>>, NoMemory>
    ensures { IfOk result (TellsLog (standing_of T.meaning standing.now) log.now.name plan.now.lines) }
{
    match broken_line(standing, alloc, plan)? {
        Some((line, rule)) => Ok(Some(line_refusal(log, line, rule))),
        None => Ok(None),
    }
}

/// The refusal of a log for a line.
fn line_refusal<'a>(log: &NamedLog<'a>, line: u64, rule: Rule) -> Refusal<'a>
    ensures { result ≡ refusal_at (PartName.Log log.now.name) line rule }
{
    Refusal::at(PartName::Log(log.name), line, rule)
}
