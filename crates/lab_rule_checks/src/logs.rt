ghost use Rattle.std.specs.Prelude.{IfOk};
ghost use Rattle.lab_standing.specs.Stands.{standing_of};
ghost use Rattle.lab_rule_checks.specs.Logs.{TellsLine};

use crate::rule_files::broken_entry;
use lab_logs::Files;
use lab_refusal::Rule;
use lab_sector::NoMemory;
use lab_standing::Standing;
use lab_table::{LogLine, LogPlan};
use lab_target::Target;
use std::alloc::Global;

/// The first line of a log that breaks a rule, and the least rule that it breaks.
pub fn broken_line<T: Target>(
    standing: &Standing<'_, T>,
    alloc: Global,
    log: &LogPlan,
) -> Result<Option<(u64, Rule)>, NoMemory>
    ensures { IfOk result (TellsLine (standing_of T.meaning standing.now) log.now.lines) }
{
    broken_among(standing, alloc, &log.lines)
}

/// The first of a log's lines that breaks a rule, and the least rule that it breaks.
fn broken_among<T: Target>(
    standing: &Standing<'_, T>,
    alloc: Global,
    lines: &[LogLine],
) -> Result<Option<(u64, Rule)>, NoMemory>
    ensures { IfOk result (TellsLine (standing_of T.meaning standing.now) lines.now) }
{
    let mut files = Files::new(alloc);
    for line in lines {
        match broken_entry(standing, &files, line) {
            Some(rule) => return Ok(Some((line.number, rule))),
            None => files.follow(line.entry, line.device)?,
        }
    }
    Ok(None)
}
