ghost use Rattle.std.specs.Prelude.{◌≡◌, Some, Decides, IfOk, option_copied};
ghost use Rattle.lab_model.specs.Below.{devices_under};
ghost use Rattle.lab_model.specs.Tables.{image};
ghost use Rattle.lab_script.specs.Task.{task_of};
ghost use Rattle.lab_rulebook.specs.Parts.{Parts};
ghost use Rattle.lab_rulebook.specs.Standing.{table_meant};
ghost use Rattle.lab_model.specs.declared.rule.Rule.TheVariants.{V11};
ghost use Rattle.lab_rulebook.specs.ScriptRules.{Breaks};
ghost use Rattle.lab_standing.specs.Image.{own_of};
ghost use Rattle.lab_standing.specs.Linked.{IsLinked, grown, link_rows};
ghost use Rattle.lab_standing.specs.Stands.{standing_of};
ghost use Rattle.lab_rule_checks.specs.Cycles.{ClosesCycle, NamedCloses};

use crate::search::{is_set, reached};
use lab_script::Command;
use lab_sector::NoMemory;
use lab_standing::{Standing, link_row};
use lab_table::Table;
use lab_target::Target;
use std::alloc::Global;

/// V11: a load that closes a cycle over all tables loaded so far, with its own; a create can't, since its
/// device has no name yet.
pub(crate) fn breaks_v11<T: Target>(
    standing: &Standing<'_, T>,
    alloc: Global,
    command: Command<'_>,
    table: Option<&Table<T>>,
) -> Result<bool, NoMemory>
    ensures { (parts : Parts T)
        → option_copied table.entry ≡ table_meant parts (standing_of T.meaning standing.now) (task_of command.entry)
        → IsLinked T.meaning standing.now
        → IfOk result (λ told. Decides told
        (Breaks T.meaning parts (standing_of T.meaning standing.now) (task_of command.entry) V11)) }
{
    match table {
        Some(table) => closed_by(standing, alloc, command, table),
        None => Ok(false),
    }
}

/// Whether a command closes a cycle with this table.
fn closed_by<T: Target>(
    standing: &Standing<'_, T>,
    alloc: Global,
    command: Command<'_>,
    table: &Table<T>,
) -> Result<bool, NoMemory>
    ensures { (parts : Parts T)
        → table_meant parts (standing_of T.meaning standing.now) (task_of command.entry) ≡ Some table.now
        → IsLinked T.meaning standing.now
        → IfOk result (λ told. Decides told
        (Breaks T.meaning parts (standing_of T.meaning standing.now) (task_of command.entry) V11)) }
{
    match command {
        Command::Load(name, _) => closed_at(standing, alloc, name, table),
        _ => Ok(false),
    }
}

/// Whether the device of a name would lie below itself with one more table.
fn closed_at<T: Target>(
    standing: &Standing<'_, T>,
    alloc: Global,
    name: &[u8],
    table: &Table<T>,
) -> Result<bool, NoMemory>
    ensures { IsLinked T.meaning standing.now → IfOk result (λ told. Decides told
        (NamedCloses T.meaning (standing_of T.meaning standing.now) name.now table.now)) }
{
    match standing.device_named(name) {
        Some(device) => closes_cycle(standing, alloc, device as usize, table),
        None => Ok(false),
    }
}

/// Whether a device would lie below itself with one more table.
fn closes_cycle<T: Target>(
    standing: &Standing<'_, T>,
    alloc: Global,
    device: usize,
    table: &Table<T>,
) -> Result<bool, NoMemory>
    ensures { IsLinked T.meaning standing.now → IfOk result (λ told. Decides told
        (ClosesCycle T.meaning (standing_of T.meaning standing.now) device table.now)) }
{
    let first = row_with(standing, alloc, device, table)?;
    let marks = reached(alloc, &standing.ever, &first)?;
    Ok(is_set(&marks, device))
}

/// The numbers that a device refers to with one more table.
fn row_with<T: Target>(
    standing: &Standing<'_, T>,
    alloc: Global,
    device: usize,
    table: &Table<T>,
) -> Result<Vec<u32>, NoMemory>
    ensures { IfOk result (λ row. row.items
        ≡ grown (devices_under (image T.meaning table.now))
        (own_of (link_rows standing.now.ever) device)) }
{
    let mut row = Vec::from_slice(alloc, standing.ever.row(device))?;
    link_row(&mut row, table)?;
    Ok(row)
}
