ghost use Rattle.std.specs.Prelude.{◌≡◌, ◌+◌, false, [], ◌∷◌, Decides};
ghost use Rattle.std.specs.Option.{IsSomeAnd};
ghost use Rattle.lab_model.specs.LogEffect.{kind_of};
ghost use Rattle.lab_model.specs.Files.{Files as FilesThen, allows};
ghost use Rattle.lab_model.specs.Fine.{HasTable, entry_end};
ghost use Rattle.lab_model.specs.Sizes.{Reaches, size_at};
ghost use Rattle.lab_model.specs.Tables.{end_of};
ghost use Rattle.lab_model.specs.declared.rule.Rule.TheVariants.{V12, V13, V14};
ghost use Rattle.lab_rulebook.specs.LogRules.{Breaks};
ghost use Rattle.lab_standing.specs.Stands.{standing_of};
ghost use Rattle.lab_rule_checks.specs.Least.{TellsFirst};

use crate::rule_tables::reaches;
use lab_logs::Files;
use lab_model::{Action, Entry};
use lab_refusal::Rule;
use lab_sector::{DevNo, Span};
use lab_standing::Standing;
use lab_table::LogLine;
use lab_target::Target;

/// The least rule of logs that a line breaks, with the files as they are before it.
pub(crate) fn broken_entry<T: Target>(
    standing: &Standing<'_, T>,
    files: &Files,
    line: &LogLine,
) -> Option<Rule>
    ensures { TellsFirst (Breaks (standing_of T.meaning standing.now) files.now line.now)
        (V12 ∷ V13 ∷ V14 ∷ []) result }
{
    broken_use(standing, files, line.device, line.entry)
}

/// The least rule of logs that what a line asks for breaks.
fn broken_use<T: Target>(
    standing: &Standing<'_, T>,
    files: &Files,
    device: Option<DevNo>,
    entry: Entry,
) -> Option<Rule>
    ensures { TellsFirst (Breaks (standing_of T.meaning standing.now) files.now
        (record { number = 0; device = device; entry = entry })) (V12 ∷ V13 ∷ V14 ∷ []) result }
{
    if breaks_v12(standing, device, entry) {
        Some(Rule::V12)
    } else if breaks_v13(files, device, entry) {
        Some(Rule::V13)
    } else if breaks_v14(standing, device, entry) {
        Some(Rule::V14)
    } else {
        None
    }
}

/// V12: the line is no wait, and names no device, or one without a live table.
fn breaks_v12<T: Target>(standing: &Standing<'_, T>, device: Option<DevNo>, entry: Entry) -> bool
    ensures { (files : FilesThen) → Decides result (Breaks (standing_of T.meaning standing.now) files
        (record { number = 0; device = device; entry = entry }) V12) }
{
    match (entry, device) {
        (Entry::Wait(_), _) => false,
        (Entry::Add | Entry::Open | Entry::Close | Entry::Operate(..), None) => true,
        (Entry::Add | Entry::Open | Entry::Close | Entry::Operate(..), Some(device)) => {
            !has_table(standing, device)
        }
    }
}

/// V14: the line's range goes past the size of its device.
fn breaks_v14<T: Target>(standing: &Standing<'_, T>, device: Option<DevNo>, entry: Entry) -> bool
    ensures { Decides result (IsSomeAnd device (λ device.
        Reaches (size_at standing.now.disks.items (standing_of T.meaning standing.now).devices device)
        (entry_end entry) → ⊥)) }
{
    match device {
        Some(device) => !reaches(standing, device, sectors_of(entry)),
        None => false,
    }
}

/// Whether a device has a live table, or is a disk.
fn has_table<T: Target>(standing: &Standing<'_, T>, device: DevNo) -> bool
    ensures { Decides result (HasTable (standing_of T.meaning standing.now).devices device) }
{
    match device {
        DevNo::Ram(_) => true,
        DevNo::Dm(number) => standing.live(number as usize).is_some(),
    }
}

/// V13: the file's state doesn't allow the line.
fn breaks_v13(files: &Files, device: Option<DevNo>, entry: Entry) -> bool
    ensures { Decides result (IsSomeAnd device (λ device. allows files.now device entry ≡ false)) }
{
    match device {
        Some(device) => !files.allow(device, entry),
        None => false,
    }
}

/// The sectors of a line's operation; none of a flush, or of another line.
fn sectors_of(entry: Entry) -> Span
    ensures { result.first + result.len ≡ entry_end entry }
{
    match entry {
        Entry::Operate(action, span) => span_of(action, span),
        _ => Span { first: 0, len: 0 },
    }
}

/// The sectors of an operation; a flush has none.
fn span_of(action: Action, span: Span) -> Span
    ensures { result.first + result.len ≡ end_of (kind_of action) span }
{
    match action {
        Action::Sync | Action::Datasync => Span { first: 0, len: 0 },
        Action::Read | Action::Write | Action::Trim => span,
    }
}
