ghost use Rattle.std.specs.Prelude.{◌≡◌, [], ◌∷◌, Some, IfOk, option_copied};
ghost use Rattle.lab_script.specs.Task.{task_of};
ghost use Rattle.lab_rulebook.specs.ScriptRules.{Breaks};
ghost use Rattle.lab_model.specs.declared.rule.Rule.TheVariants.{V1, V2, V3, V4, V5, V7, V8, V9, V10};
ghost use Rattle.lab_rulebook.specs.Standing.{table_meant};
ghost use Rattle.lab_rulebook.specs.Parts.{Parts};
ghost use Rattle.lab_standing.specs.Linked.{IsLinked};
ghost use Rattle.lab_standing.specs.Stands.{standing_of};
ghost use Rattle.lab_rule_checks.specs.Least.{TellsFirst, script_rules};

use crate::rule_cycles::breaks_v11;
use crate::rule_messages::breaks_v9;
use crate::rule_names::{breaks_v1, breaks_v2, breaks_v3};
use crate::rule_phases::{breaks_v7, breaks_v10};
use crate::rule_remove::breaks_v8;
use crate::rule_suspend::breaks_v6;
use crate::rule_tables::{breaks_v5, reaches_past};
use lab_refusal::Rule;
use lab_script::Command;
use lab_sector::NoMemory;
use lab_standing::Standing;
use lab_table::Table;
use lab_target::Target;
use std::alloc::Global;

/// The rule of the least number that a command breaks where it stands. `table` is the table that it asks for,
/// if there is one and it can be read.
pub fn broken<T: Target>(
    standing: &Standing<'_, T>,
    alloc: Global,
    command: Command<'_>,
    table: Option<&Table<T>>,
) -> Result<Option<Rule>, NoMemory>
    ensures { (parts : Parts T)
        → option_copied table.entry ≡ table_meant parts (standing_of T.meaning standing.now) (task_of command.entry)
        → IsLinked T.meaning standing.now
        → IfOk result (λ told. TellsFirst
        (Breaks T.meaning parts (standing_of T.meaning standing.now) (task_of command.entry))
        script_rules told) }
{
    if let Some(rule) = broken_name(standing, command, table) {
        return Ok(Some(rule));
    }
    if let Some(rule) = broken_table(standing, command, table) {
        return Ok(Some(rule));
    }
    if breaks_v6(standing, alloc, command)? {
        return Ok(Some(Rule::V6));
    }
    if let Some(rule) = broken_step(standing, command) {
        return Ok(Some(rule));
    }
    if breaks_v11(standing, alloc, command, table)? {
        return Ok(Some(Rule::V11));
    }
    Ok(None)
}

/// The least rule of names, if the command breaks one.
fn broken_name<T: Target>(
    standing: &Standing<'_, T>,
    command: Command<'_>,
    table: Option<&Table<T>>,
) -> Option<Rule>
    ensures { (parts : Parts T)
        → option_copied table.entry ≡ table_meant parts (standing_of T.meaning standing.now) (task_of command.entry)
        → TellsFirst
        (Breaks T.meaning parts (standing_of T.meaning standing.now) (task_of command.entry))
        (V1 ∷ V2 ∷ V3 ∷ []) result }
{
    if breaks_v1(standing, command, table) {
        Some(Rule::V1)
    } else if breaks_v2(standing, command) {
        Some(Rule::V2)
    } else if breaks_v3(standing, command) {
        Some(Rule::V3)
    } else {
        None
    }
}

/// V4 or V5, if the command breaks one.
fn broken_table<T: Target>(
    standing: &Standing<'_, T>,
    command: Command<'_>,
    table: Option<&Table<T>>,
) -> Option<Rule>
    ensures { (parts : Parts T)
        → option_copied table.entry ≡ table_meant parts (standing_of T.meaning standing.now) (task_of command.entry)
        → TellsFirst
        (Breaks T.meaning parts (standing_of T.meaning standing.now) (task_of command.entry))
        (V4 ∷ V5 ∷ []) result }
{
    match table {
        Some(table) => broken_by(standing, command, table),
        None => None,
    }
}

/// V4 or V5, if the command breaks one by this table.
fn broken_by<T: Target>(
    standing: &Standing<'_, T>,
    command: Command<'_>,
    table: &Table<T>,
) -> Option<Rule>
    ensures { (parts : Parts T)
        → table_meant parts (standing_of T.meaning standing.now) (task_of command.entry) ≡ Some table.now
        → TellsFirst
        (Breaks T.meaning parts (standing_of T.meaning standing.now) (task_of command.entry))
        (V4 ∷ V5 ∷ []) result }
{
    if reaches_past(standing, table) {
        Some(Rule::V4)
    } else if breaks_v5(standing, command, table) {
        Some(Rule::V5)
    } else {
        None
    }
}

/// The least of V7 to V10, if the command breaks one.
fn broken_step<T: Target>(standing: &Standing<'_, T>, command: Command<'_>) -> Option<Rule>
    ensures { (parts : Parts T)
        → TellsFirst
        (Breaks T.meaning parts (standing_of T.meaning standing.now) (task_of command.entry))
        (V7 ∷ V8 ∷ V9 ∷ V10 ∷ []) result }
{
    if breaks_v7(standing, command) {
        Some(Rule::V7)
    } else if breaks_v8(standing, command) {
        Some(Rule::V8)
    } else if breaks_v9(standing, command) {
        Some(Rule::V9)
    } else if breaks_v10(standing, command) {
        Some(Rule::V10)
    } else {
        None
    }
}
