ghost use Rattle.std.specs.Prelude.{◌≡◌, Decides, option_copied};
ghost use Rattle.lab_script.specs.Task.{task_of};
ghost use Rattle.lab_rulebook.specs.Parts.{Parts};
ghost use Rattle.lab_rulebook.specs.Standing.{table_meant};
ghost use Rattle.lab_model.specs.declared.rule.Rule.TheVariants.{V1, V2, V3};
ghost use Rattle.lab_rulebook.specs.ScriptRules.{Breaks};
ghost use Rattle.lab_standing.specs.Seen.{has_neither, has_no_live, passes, slot_named};
ghost use Rattle.lab_standing.specs.Stands.{standing_of};
ghost use Rattle.lab_rule_checks.specs.Asked.{is_missing, is_unknown};

use lab_script::Command;
use lab_standing::Standing;
use lab_table::Table;
use lab_target::Target;

/// V1: the device's name is unknown, or the table is, or the table names an unknown device.
pub(crate) fn breaks_v1<T: Target>(
    standing: &Standing<'_, T>,
    command: Command<'_>,
    table: Option<&Table<T>>,
) -> bool
    ensures { (parts : Parts T)
        → option_copied table.entry ≡ table_meant parts (standing_of T.meaning standing.now) (task_of command.entry)
        → Decides result (Breaks T.meaning parts (standing_of T.meaning standing.now) (task_of command.entry) V1) }
{
    is_unknown(standing, command.device()) || is_missing(command.table(), table)
}

/// Whether it is a name that no device has.
fn is_unknown<T: Target>(standing: &Standing<'_, T>, name: Option<&[u8]>) -> bool
    ensures { result ≡ is_unknown (standing_of T.meaning standing.now) (option_copied name.entry) }
{
    match name {
        Some(name) => standing.device_named(name).is_none(),
        None => false,
    }
}

/// V2: a create of a name in use, or a disk of a number in use.
pub(crate) fn breaks_v2<T: Target>(standing: &Standing<'_, T>, command: Command<'_>) -> bool
    ensures { (parts : Parts T)
        → Decides result (Breaks T.meaning parts (standing_of T.meaning standing.now) (task_of command.entry) V2) }
{
    match command {
        Command::Create(name, _) => standing.device_named(name).is_some(),
        Command::Ram(number, _) => standing.has_disk(number),
        _ => false,
    }
}

/// V3: a suspend, message, status or table of a device without a live table, or a resume of one without any
/// table.
pub(crate) fn breaks_v3<T: Target>(standing: &Standing<'_, T>, command: Command<'_>) -> bool
    ensures { (parts : Parts T)
        → Decides result (Breaks T.meaning parts (standing_of T.meaning standing.now) (task_of command.entry) V3) }
{
    match command {
        Command::Suspend(name)
        | Command::Message(name, _, _)
        | Command::Status(name)
        | Command::Table(name) => has_no_live(standing, name),
        Command::Resume(name) => has_neither(standing, name),
        _ => false,
    }
}

/// Whether it is a device without a live table.
fn has_no_live<T: Target>(standing: &Standing<'_, T>, name: &[u8]) -> bool
    ensures { result ≡ passes (slot_named (standing_of T.meaning standing.now) name.now) has_no_live }
{
    match standing.device_of(name) {
        Some(device) => device.live.is_none(),
        None => false,
    }
}

/// Whether it is a device with neither a live nor an inactive table.
fn has_neither<T: Target>(standing: &Standing<'_, T>, name: &[u8]) -> bool
    ensures { result ≡ passes (slot_named (standing_of T.meaning standing.now) name.now) has_neither }
{
    match standing.device_of(name) {
        Some(device) => device.live.is_none() && device.inactive.is_none(),
        None => false,
    }
}

/// Whether a table is asked for that isn't there.
fn is_missing<T: Target>(asked: Option<&[u8]>, table: Option<&Table<T>>) -> bool
    ensures { result ≡ is_missing (option_copied asked.entry) (option_copied table.entry) }
{
    asked.is_some() && table.is_none()
}
