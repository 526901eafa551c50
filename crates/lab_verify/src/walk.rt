ghost use Rattle.std.specs.Prelude.{◌≡◌, ◌++◌, None, IfOk};
ghost use Rattle.lab_script.specs.Script.{row_of};
ghost use Rattle.lab_script.specs.Steps.{on_line};
ghost use Rattle.lab_script.specs.Task.{task_of};
ghost use Rattle.lab_script.specs.Walk.{steps_of};
ghost use Rattle.lab_rulebook.specs.Parts.{Parts};
ghost use Rattle.lab_rulebook.specs.ScriptRules.{Breaks};
ghost use Rattle.lab_model.specs.declared.rule.Rule.{Rule};
ghost use Rattle.lab_rulebook.specs.Standing.{table_meant, walk_of};
ghost use Rattle.lab_rulebook.specs.Walked.{standing_next};
ghost use Rattle.lab_standing.specs.Sound.{IsSound};
ghost use Rattle.lab_standing.specs.Stands.{standing_of};
ghost use Rattle.lab_rule_checks.specs.Least.{TellsFirst, script_rules};
ghost use Rattle.lab_verify.specs.Steps.{FaultAfter, HasReadLogs, HasReadParts, KeepsLogs};
ghost use Rattle.lab_verify.specs.Steps.{StepTells};

use crate::parts::NamedLog;
use crate::replayed::replay;
use lab_model::Micro;
use lab_refusal::{Refusal, Rule};
use lab_rule_checks::broken;
use lab_script::{Command, ScriptLine};
use lab_sector::NoMemory;
use lab_standing::{NamedTable, Phase, Standing};
use lab_table::{DiskPlan, Table};
use lab_target::Target;
use std::alloc::Global;

/// Does one line of the script and adds its micro-commands, or tells the least rule that it breaks.
pub(crate) fn step<'a, T: Target>(
    standing: &mut Standing<'a, T>,
    alloc: Global,
    tables: &[NamedTable<'a, T>],
    logs: &mut Vec<NamedLog<'a>>,
    micros: &mut Vec<Micro>,
    line: &ScriptLine<'a>,
) -> Result<(), Refusal<'a>>
    ensures told { (parts : Parts T)
        → HasReadParts T.meaning parts tables.now logs.old.items standing.old.phase
        → IsSound T.meaning standing.old
        → StepTells T.meaning parts (standing_of T.meaning standing.old) (standing_of T.meaning standing.new)
        (row_of line.now) result }
    ensures sound { IfOk result (λ done. IsSound T.meaning standing.old → IsSound T.meaning standing.new) }
    ensures fault { IfOk result (λ done. FaultAfter T.meaning standing.old standing.new (task_of line.now.command)) }
    ensures logs { IfOk result (λ done. KeepsLogs (task_of line.now.command) logs.old.items logs.new.items) }
    ensures micros { IfOk result (λ done. IsSound T.meaning standing.old
        → micros.new.items ≡ micros.old.items ++ on_line line.now.number
        (steps_of (walk_of (standing_of T.meaning standing.old)) (task_of line.now.command))) }
{
    standing.push_orders(alloc, line, micros)?;
    match try_step(standing, alloc, tables, logs, line.command) {
        Ok(None) => Ok(()),
        Ok(Some(rule)) => Err(Refusal::script(line.number, rule)),
        Err(NoMemory) => Err(Refusal::NoMemory),
    }
}

/// Does one command if it breaks no rule, and tells the least that it breaks.
fn try_step<'a, T: Target>(
    standing: &mut Standing<'a, T>,
    alloc: Global,
    tables: &[NamedTable<'a, T>],
    logs: &mut Vec<NamedLog<'a>>,
    command: Command<'a>,
) -> Result<Option<Rule>, NoMemory>
    ensures told { IfOk result
        (λ told. (parts : Parts T)
        → HasReadParts T.meaning parts tables.now logs.old.items standing.old.phase
        → IsSound T.meaning standing.old
        → TellsFirst
        (Breaks T.meaning parts (standing_of T.meaning standing.old) (task_of command.entry)) script_rules told) }
    ensures stands { IfOk result
        (λ told. (parts : Parts T)
        → HasReadParts T.meaning parts tables.now logs.old.items standing.old.phase
        → IsSound T.meaning standing.old → told ≡ None
        → standing_of T.meaning standing.new
        ≡ standing_next T.meaning parts (standing_of T.meaning standing.old)
        (task_of command.entry)) }
    ensures sound { IfOk result (λ told. told ≡ None
        → IsSound T.meaning standing.old → IsSound T.meaning standing.new) }
    ensures fault { IfOk result (λ told. told ≡ None
        → FaultAfter T.meaning standing.old standing.new (task_of command.entry)) }
    ensures logs { IfOk result (λ told. KeepsLogs (task_of command.entry) logs.old.items logs.new.items) }
{
    let mut table = standing.table_of(alloc, tables, command.table())?;
    let told = try_with(standing, alloc, logs, command, &mut table);
    drop(table);
    told
}

/// Does one command, with the table that it asks for, if it breaks no rule, and tells the least that it breaks.
fn try_with<'a, T: Target>(
    standing: &mut Standing<'a, T>,
    alloc: Global,
    logs: &mut Vec<NamedLog<'a>>,
    command: Command<'a>,
    table: &mut Option<Table<T>>,
) -> Result<Option<Rule>, NoMemory>
    ensures told { IfOk result (λ told. (parts : Parts T)
        → HasReadLogs parts standing.old.phase logs.old.items
        → table.old ≡ table_meant parts (standing_of T.meaning standing.old) (task_of command.entry)
        → IsSound T.meaning standing.old
        → TellsFirst
        (Breaks T.meaning parts (standing_of T.meaning standing.old) (task_of command.entry)) script_rules told) }
    ensures stands { IfOk result (λ told. (parts : Parts T)
        → HasReadLogs parts standing.old.phase logs.old.items
        → table.old ≡ table_meant parts (standing_of T.meaning standing.old) (task_of command.entry)
        → IsSound T.meaning standing.old → told ≡ None
        → standing_of T.meaning standing.new
        ≡ standing_next T.meaning parts (standing_of T.meaning standing.old)
        (task_of command.entry)) }
    ensures sound { IfOk result (λ told. told ≡ None
        → IsSound T.meaning standing.old → IsSound T.meaning standing.new) }
    ensures fault { IfOk result (λ told. told ≡ None
        → FaultAfter T.meaning standing.old standing.new (task_of command.entry)) }
    ensures logs { IfOk result (λ told. KeepsLogs (task_of command.entry) logs.old.items logs.new.items) }
{
    match broken(standing, alloc, command, table.as_ref())? {
        Some(rule) => Ok(Some(rule)),
        None => {
            take_command(standing, alloc, logs, command, table)?;
            Ok(None)
        }
    }
}

/// Does a command that breaks no rule, with the table that it asks for, which it takes.
fn take_command<'a, T: Target>(
    standing: &mut Standing<'a, T>,
    alloc: Global,
    logs: &mut Vec<NamedLog<'a>>,
    command: Command<'a>,
    table: &mut Option<Table<T>>,
) -> Result<(), NoMemory>
    ensures stands { IfOk result (λ done. (parts : Parts T)
        → HasReadLogs parts standing.old.phase logs.old.items
        → table.old ≡ table_meant parts (standing_of T.meaning standing.old) (task_of command.entry)
        → IsSound T.meaning standing.old
        → ((rule : Rule)
        → Breaks T.meaning parts (standing_of T.meaning standing.old) (task_of command.entry) rule → ⊥)
        → standing_of T.meaning standing.new
        ≡ standing_next T.meaning parts (standing_of T.meaning standing.old)
        (task_of command.entry)) }
    ensures sound { IfOk result (λ done. IsSound T.meaning standing.old → IsSound T.meaning standing.new) }
    ensures fault { IfOk result (λ done. FaultAfter T.meaning standing.old standing.new (task_of command.entry)) }
    ensures logs { IfOk result (λ done. KeepsLogs (task_of command.entry) logs.old.items logs.new.items) }
{
    match command {
        Command::Ram(number, size) => standing.disks.push(DiskPlan { number, size })?,
        Command::Replay => replay(standing, alloc, logs)?,
        Command::Wait => standing.phase = Phase::Waited,
        _ => standing.obey(alloc, command, table.take())?,
    }
    Ok(())
}
