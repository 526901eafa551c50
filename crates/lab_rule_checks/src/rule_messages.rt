ghost use Rattle.std.specs.Prelude.{◌≡◌, Decides, option_copied, slice_get};
ghost use Rattle.lab_text.specs.Words.{words_left};
ghost use Rattle.lab_model.specs.Tables.{image};
ghost use Rattle.lab_script.specs.Task.{task_of};
ghost use Rattle.lab_rulebook.specs.Parts.{Parts};
ghost use Rattle.lab_model.specs.declared.rule.Rule.TheVariants.{V9};
ghost use Rattle.lab_rulebook.specs.ScriptRules.{Breaks};
ghost use Rattle.lab_standing.specs.Stands.{standing_of};
ghost use Rattle.lab_rule_checks.specs.Takes.{refuses};

use lab_script::Command;
use lab_standing::Standing;
use lab_table::{Table, TableLine};
use lab_target::Target;
use lab_text::Words;

/// V9: a message to a sector past the end, or one that the line there doesn't take.
pub(crate) fn breaks_v9<T: Target>(standing: &Standing<'_, T>, command: Command<'_>) -> bool
    ensures { (parts : Parts T)
        → Decides result (Breaks T.meaning parts (standing_of T.meaning standing.now) (task_of command.entry) V9) }
{
    match command {
        Command::Message(name, sector, text) => match standing.live_of(name) {
            Some(table) => refuses(table, sector, Words::new(text)),
            None => false,
        },
        _ => false,
    }
}

/// Whether a table doesn't take a message at a sector: it is past the end, or the line there doesn't take it.
fn refuses<T: Target>(table: &Table<T>, sector: u64, words: Words<'_>) -> bool
    ensures { result ≡ refuses (image T.meaning table.now) sector (words_left words.entry) }
{
    let lines = table.lines();
    if sector >= table.size() {
        return true;
    }
    match line_numbered(lines, table.line_at(sector)) {
        Some(line) => !line.target.takes(words),
        None => true,
    }
}

/// The line of a number.
fn line_numbered<T: Target>(lines: &[TableLine<T>], number: usize) -> Option<&TableLine<T>>
    ensures { option_copied result ≡ slice_get lines.now number }
{
    lines.get(number)
}
