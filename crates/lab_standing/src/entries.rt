ghost use Rattle.std.specs.Prelude.{◌≡◌, [], IfOk};
ghost use Rattle.lab_model.specs.Lists.{change};
ghost use Rattle.lab_rulebook.specs.Standing.{with_version};
ghost use Rattle.lab_script.specs.Task.{task_of};
ghost use Rattle.lab_script.specs.Walk.{loads_after};
ghost use Rattle.lab_standing.specs.Image.{tables_of};

use lab_script::Command;
use lab_sector::NoMemory;
use lab_table::Table;
use lab_target::Target;
use std::alloc::Global;

/// Keeps the table of a create or a load with those that were loaded into its device before.
pub(crate) fn keep_table<T: Target>(
    versions: &mut Vec<Vec<Table<T>>>,
    alloc: Global,
    command: Command<'_>,
    device: Option<u32>,
    table: Option<Table<T>>,
) -> Result<(), NoMemory>
    ensures { IfOk result (λ done. tables_of versions.new.items
        ≡ loads_after with_version [] (tables_of versions.old.items) device (task_of command.entry) table) }
{
    match (command, device) {
        (Command::Create(_, _), _) => {
            let own = first_versions(alloc, table)?;
            versions.push(own)?;
            Ok(())
        }
        (Command::Load(_, _), Some(device)) => add_version(versions, device as usize, table),
        _ => Ok(()),
    }
}

/// The versions of a new device: its table, if it has one.
fn first_versions<T: Target>(
    alloc: Global,
    table: Option<Table<T>>,
) -> Result<Vec<Table<T>>, NoMemory>
    ensures { IfOk result (λ versions. versions.items ≡ with_version [] table) }
{
    let mut versions = Vec::new(alloc);
    push_version(&mut versions, table)?;
    Ok(versions)
}

/// A device has a version more, if there is a table.
#[tactic(auto, using(crate::proofs::Rulesets::add_version))]
fn add_version<T: Target>(
    versions: &mut Vec<Vec<Table<T>>>,
    device: usize,
    table: Option<Table<T>>,
) -> Result<(), NoMemory>
    ensures { IfOk result (λ done. tables_of versions.new.items
        ≡ change (tables_of versions.old.items) device (λ own. with_version own table)) }
{
    match versions.get_mut(device) {
        Some(own) => push_version(own, table),
        None => Ok(()),
    }
}

/// One more version, if there is a table.
fn push_version<T: Target>(own: &mut Vec<Table<T>>, table: Option<Table<T>>) -> Result<(), NoMemory>
    ensures { IfOk result (λ done. own.new.items ≡ with_version own.old.items table) }
{
    if let Some(table) = table {
        own.push(table)?;
    }
    Ok(())
}
