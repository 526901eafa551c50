ghost use Rattle.std.specs.Prelude.{◌≡◌, ◌+◌, Decides, Some};
ghost use Rattle.lab_model.specs.Sizes.{size_at};
ghost use Rattle.lab_script.specs.Task.{task_of};
ghost use Rattle.lab_rulebook.specs.Parts.{Parts};
ghost use Rattle.lab_rulebook.specs.Standing.{table_meant};
ghost use Rattle.lab_model.specs.declared.rule.Rule.TheVariants.{V5};
ghost use Rattle.lab_rulebook.specs.ScriptRules.{Breaks, ReachesPast};
ghost use Rattle.lab_standing.specs.Seen.{is_longer_than, passes, slot_named};
ghost use Rattle.lab_standing.specs.Stands.{standing_of};
ghost use Rattle.lab_rule_checks.specs.Reach.{is_past, line_is_past, reaches, table_is_past};

use lab_script::Command;
use lab_sector::{DevNo, Span};
use lab_standing::{KINDS, Standing, size_of};
use lab_table::{Table, TableLine};
use lab_target::{Ref, Target};

/// V4: some reference of a table isn't inside the size of its device, over the whole line.
pub(crate) fn reaches_past<T: Target>(standing: &Standing<'_, T>, table: &Table<T>) -> bool
    ensures { (parts : Parts T)
        → Decides result (ReachesPast T.meaning parts (standing_of T.meaning standing.now) table.now) }
{
    some_line_reaches_past(standing, table.lines())
}

/// Whether some reference of some lines isn't inside the size of its device.
fn some_line_reaches_past<T: Target>(standing: &Standing<'_, T>, lines: &[TableLine<T>]) -> bool
    ensures { result ≡ table_is_past T.meaning (standing_of T.meaning standing.now) lines.now }
{
    lines.iter().any(|line| line_reaches_past(standing, line))
}

/// Whether some reference of a line isn't inside the size of its device.
fn line_reaches_past<T: Target>(standing: &Standing<'_, T>, line: &TableLine<T>) -> bool
    ensures { result ≡ line_is_past T.meaning (standing_of T.meaning standing.now) line.now }
{
    KINDS.iter().any(|kind| is_past(standing, line.target.reference(*kind), line.len))
}

/// Whether so many sectors from a reference on aren't inside the size of its device.
fn is_past<T: Target>(standing: &Standing<'_, T>, reference: Option<Ref>, len: u64) -> bool
    ensures { result ≡ is_past (standing_of T.meaning standing.now) len reference }
{
    match reference {
        None => false,
        Some(Ref { dev, first }) => !reaches(standing, dev, Span { first, len }),
    }
}

/// Whether a device stands and these sectors end inside it.
pub(crate) fn reaches<T: Target>(standing: &Standing<'_, T>, device: DevNo, span: Span) -> bool
    ensures { result ≡ reaches (size_at standing.now.disks.items
        (standing_of T.meaning standing.now).devices device) (span.first + span.len) }
{
    match standing.size(device) {
        Some(size) => span.first <= size && span.len <= size - span.first,
        None => false,
    }
}

/// V5: a load of a table that is shorter than the live one.
pub(crate) fn breaks_v5<T: Target>(
    standing: &Standing<'_, T>,
    command: Command<'_>,
    table: &Table<T>,
) -> bool
    ensures { (parts : Parts T)
        → table_meant parts (standing_of T.meaning standing.now) (task_of command.entry) ≡ Some table.now
        → Decides result (Breaks T.meaning parts (standing_of T.meaning standing.now) (task_of command.entry) V5) }
{
    match command {
        Command::Load(name, _) => is_shorter(standing, name, table),
        _ => false,
    }
}

/// Whether a table is shorter than the live one of the device of a name.
#[tactic(auto, using(crate::proofs::Rulesets::is_shorter))]
fn is_shorter<T: Target>(standing: &Standing<'_, T>, name: &[u8], table: &Table<T>) -> bool
    ensures { result ≡ passes (slot_named (standing_of T.meaning standing.now) name.now)
        (is_longer_than table.now) }
{
    match standing.device_of(name) {
        Some(device) => table.size() < size_of(device.live),
        None => false,
    }
}
