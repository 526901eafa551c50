ghost use Rattle.std.specs.Prelude.{◌≡◌, ◌++◌, IfOk, OnOk, codes, decimal, true};
ghost use Rattle.std.specs.List.{flat_map, zip};
ghost use Rattle.lab_model.specs.Report.{log_text, report, text_line};

use crate::counts::count_steps;
use crate::lab::Lab;
use crate::texts::{push_answers, push_budget, push_replies};
use lab_sector::NoMemory;
use lab_state::LogState;
use lab_table::LogPlan;
use lab_target::Target;
use lab_text::push_number;
use std::alloc::Global;

impl<T: Target> Lab<T> {
    ghost use Rattle.lab_model.specs.Guard.{is_done};

    /// What a complete run has shown, a line each: the budget, what commands told, each log's answers, and the
    /// counts.
    pub fn report(&self, alloc: Global) -> Result<Vec<u8>, NoMemory>
        requires { is_done self.now.scenario self.now.state ≡ true }
        ensures { IfOk result (λ text. text.items ≡ report T.meaning self.now.scenario
            self.now.history self.now.state) }
    {
        let mut out = Vec::new(alloc);
        push_budget(&mut out, self.budget())?;
        push_replies(&mut out, &self.state.replies)?;
        push_logs(
            &mut out,
            &self.accepted.scenario().lines,
            self.state.logs.as_slice(),
        )?;
        let ticks = self.clock_steps();
        let steps = count_steps(self.history(), ticks);
        push_counts(&mut out, steps, ticks, self.now())?;
        Ok(out)
    }
}

/// Appends each log's name and answers.
fn push_logs(out: &mut Vec<u8>, plans: &[LogPlan], logs: &[LogState]) -> Result<(), NoMemory>
    ensures { OnOk result (out.new.items
        ≡ out.old.items ++ flat_map log_text (zip plans.now logs.now)) }
{
    for place in 0..plans.len().min(logs.len()) {
        push_log(out, &plans[place], &logs[place])?;
    }
    Ok(())
}

/// Appends `log NAME` and the log's answers, a line each.
fn push_log(out: &mut Vec<u8>, plan: &LogPlan, log: &LogState) -> Result<(), NoMemory>
    ensures { OnOk result (out.new.items ≡ out.old.items ++ log_text (plan.now, log.now)) }
{
    out.extend_from_slice(b"log ")?;
    out.extend_from_slice(&plan.name)?;
    out.push(b'\n')?;
    push_answers(out, &log.answers)
}

/// Appends `done steps=S clock=C now=T`, as a line.
fn push_counts(out: &mut Vec<u8>, steps: u64, ticks: u64, now: u64) -> Result<(), NoMemory>
    ensures { OnOk result (out.new.items ≡ out.old.items ++ text_line
        (codes "done steps=" ++ decimal steps ++ codes " clock=" ++ decimal ticks
        ++ codes " now=" ++ decimal now)) }
{
    out.extend_from_slice(b"done steps=")?;
    push_number(out, steps)?;
    out.extend_from_slice(b" clock=")?;
    push_number(out, ticks)?;
    out.extend_from_slice(b" now=")?;
    push_number(out, now)?;
    out.push(b'\n')?;
    Ok(())
}
