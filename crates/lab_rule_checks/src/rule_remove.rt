ghost use Rattle.std.specs.Prelude.{◌≡◌, Decides, option_copied, option_map};
ghost use Rattle.std.specs.List.{list_any};
ghost use Rattle.lab_sector.specs.declared.device.DevNo.TheVariants.{Dm};
ghost use Rattle.lab_model.specs.Files.{has_device};
ghost use Rattle.lab_model.specs.Fine.{under_live};
ghost use Rattle.lab_model.specs.Tables.{image};
ghost use Rattle.lab_model.specs.declared.phase.Phase.TheVariants.{Replayed};
ghost use Rattle.lab_model.specs.Slots.{slot_at};
ghost use Rattle.lab_script.specs.Task.{task_of};
ghost use Rattle.lab_rulebook.specs.Parts.{Parts};
ghost use Rattle.lab_model.specs.declared.rule.Rule.TheVariants.{V8};
ghost use Rattle.lab_rulebook.specs.ScriptRules.{Breaks, IsLogged, IsReferred, IsUsed};
ghost use Rattle.lab_standing.specs.Stands.{standing_of};
ghost use Rattle.lab_rule_checks.specs.Used.{is_named_by, names_device, refers_in};

use crate::rule_phases::has_replayed;
use lab_script::Command;
use lab_sector::DevNo;
use lab_standing::{Standing, is_same, refers_to};
use lab_table::{LogLine, LogPlan, Table};
use lab_target::Target;

/// V8: a remove of a device that is still used.
pub(crate) fn breaks_v8<T: Target>(standing: &Standing<'_, T>, command: Command<'_>) -> bool
    ensures { (parts : Parts T)
        → Decides result (Breaks T.meaning parts (standing_of T.meaning standing.now) (task_of command.entry) V8) }
{
    match command {
        Command::Remove(name) => match standing.device_named(name) {
            Some(device) => is_used(standing, device),
            None => false,
        },
        _ => false,
    }
}

/// Whether a table refers to a device, or, between the replay and the wait, a log line names it.
fn is_used<T: Target>(standing: &Standing<'_, T>, device: u32) -> bool
    ensures { (parts : Parts T)
        → Decides result (IsUsed T.meaning parts (standing_of T.meaning standing.now) device) }
{
    is_referred(standing, device) || is_logged_now(standing, device)
}

/// Whether, between the replay and the wait, a log line names a device.
fn is_logged_now<T: Target>(standing: &Standing<'_, T>, device: u32) -> bool
    ensures { (parts : Parts T) → Decides result (((standing_of T.meaning standing.now).phase ≡ Replayed)
        × IsLogged T.meaning parts (standing_of T.meaning standing.now) device) }
{
    has_replayed(standing) && is_logged(standing, device)
}

/// Whether a live or inactive table refers to a device.
fn is_referred<T: Target>(standing: &Standing<'_, T>, device: u32) -> bool
    ensures { (parts : Parts T)
        → Decides result (IsReferred T.meaning parts (standing_of T.meaning standing.now) device) }
{
    for other in 0..standing.walk.slots.len() {
        if refers(standing, other, DevNo::Dm(device)) {
            return true;
        }
    }
    false
}

/// Whether a table in one of a device's slots refers to another device.
#[tactic(auto, using(crate::proofs::Rulesets::refers))]
fn refers<T: Target>(standing: &Standing<'_, T>, number: usize, device: DevNo) -> bool
    ensures { result ≡ refers_in (slot_at (standing_of T.meaning standing.now).devices number) device }
{
    match standing.device(number) {
        Some(seen) => table_refers(seen.live, device) || table_refers(seen.inactive, device),
        None => false,
    }
}

/// Whether a log line other than a wait names a device.
fn is_logged<T: Target>(standing: &Standing<'_, T>, device: u32) -> bool
    ensures { result ≡ list_any (names_device (Dm device)) standing.now.logs.items }
{
    standing
        .logs
        .iter()
        .any(|log| log_names(log, DevNo::Dm(device)))
}

/// Whether a table is there and refers to a device.
fn table_refers<T: Target>(table: Option<&Table<T>>, device: DevNo) -> bool
    ensures { result ≡ has_device device
        (under_live (option_map (image T.meaning) (option_copied table.entry))) }
{
    match table {
        Some(table) => refers_to(table, device),
        None => false,
    }
}

/// Whether a line of a log names a device.
fn log_names(log: &LogPlan, device: DevNo) -> bool
    ensures { result ≡ names_device device log.now }
{
    log.lines.iter().any(|line| line_names(line, device))
}

/// Whether a line of a log names a device.
fn line_names(line: &LogLine, device: DevNo) -> bool
    ensures { result ≡ is_named_by device line.now }
{
    match line.device {
        Some(named) => is_same(device, named),
        None => false,
    }
}
