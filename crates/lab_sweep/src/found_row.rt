ghost use Rattle.std.specs.Prelude.{◌≡◌, ◌∷◌, ◌++◌, OnOk, decimal};
ghost use Rattle.lab_sweep.specs.FoundRow.{culprit_columns, finding_word, found_row_text};
ghost use Rattle.lab_sweep.specs.FoundRow.{moment_columns, operation_columns, other_columns};
ghost use Rattle.lab_sweep.specs.FoundRow.{row_names, tabbed, wrong_columns};

use crate::columns::{
    push_column, push_device, push_name, push_sectors, push_sync, push_type, push_word,
    push_writer, word_of,
};
use lab_findings::{Culprit, Finding, Found, Wrong};
use lab_next::Origin;
use lab_sector::NoMemory;
use lab_table::Scenario;
use lab_target::Target;
use lab_text::push_numbered;

/// What a row tells: a finding, and of a lost operation the first sync of its device after it.
#[derive(Clone, Copy, Debug)]
pub(crate) struct FoundRow {
    /// The finding.
    pub(crate) found: Found,
    /// The sync, if there is one to tell.
    pub(crate) sync: Option<Origin>,
}

/// Appends the names of the columns, as a line.
pub(crate) fn push_row_names(text: &mut Vec<u8>) -> Result<(), NoMemory>
    ensures { OnOk result (text.new.items ≡ text.old.items ++ row_names) }
{
    push_word(
        text,
        b"finding\tseed\tlog\tname\tline\tkind\tdevice\tsectors\tissued\ttook\tat\tcount\t",
    )?;
    push_word(text, b"by\ttable_line\ttarget\tfound\twanted\tsync\n")
}

/// Appends the row of a finding in the run by this seed.
pub(crate) fn push_row<T: Target>(
    text: &mut Vec<u8>,
    scenario: &Scenario<T>,
    seed: u64,
    row: &FoundRow,
) -> Result<(), NoMemory>
    ensures { OnOk result (text.new.items ≡ text.old.items
        ++ found_row_text scenario.now seed row.now) }
{
    push_finding(text, row.found.finding, seed)?;
    push_operation(text, scenario, &row.found)?;
    push_moments(text, &row.found)?;
    push_wrong(text, row.found.wrong)?;
    push_culprit(text, row.found.culprit)?;
    push_others(text, row)?;
    text.push(b'\n')?;
    Ok(())
}

/// Appends the finding's word and the seed.
fn push_finding(text: &mut Vec<u8>, finding: Finding, seed: u64) -> Result<(), NoMemory>
    ensures { OnOk result (text.new.items
        ≡ text.old.items ++ (finding_word finding ++ 9 ∷ decimal seed)) }
{
    push_word(text, word_of(finding))?;
    push_numbered(text, b"\t", seed)
}

/// Appends the operation: its log, the log's name, its line, its word, its device and its sectors.
fn push_operation<T: Target>(
    text: &mut Vec<u8>,
    scenario: &Scenario<T>,
    found: &Found,
) -> Result<(), NoMemory>
    ensures { OnOk result (text.new.items
        ≡ text.old.items ++ tabbed (operation_columns scenario.now found.now)) }
{
    push_numbered(text, b"\t", u64::from(found.origin.log))?;
    push_name(text, scenario, found.origin.log)?;
    push_numbered(text, b"\t", found.origin.line)?;
    push_column(text, found.action.word().as_bytes())?;
    push_device(text, found.device)?;
    push_sectors(text, found.action, found.span)
}

/// Appends when the log issued the operation, and how long it took up to its answer.
fn push_moments(text: &mut Vec<u8>, found: &Found) -> Result<(), NoMemory>
    ensures { OnOk result (text.new.items ≡ text.old.items ++ tabbed (moment_columns found.now)) }
{
    push_numbered(text, b"\t", found.issued)?;
    push_numbered(text, b"\t", found.answered.saturating_sub(found.issued))
}

/// Appends the first of the wrong sectors, and how many they are.
fn push_wrong(text: &mut Vec<u8>, wrong: Option<Wrong>) -> Result<(), NoMemory>
    ensures { OnOk result (text.new.items ≡ text.old.items ++ tabbed (wrong_columns wrong)) }
{
    let Some(wrong) = wrong else {
        return push_word(text, b"\t-\t-");
    };
    push_numbered(text, b"\t", wrong.first)?;
    push_numbered(text, b"\t", wrong.count)
}

/// Appends the device, the line and the target that did it.
fn push_culprit(text: &mut Vec<u8>, culprit: Option<Culprit>) -> Result<(), NoMemory>
    ensures { OnOk result (text.new.items ≡ text.old.items ++ tabbed (culprit_columns culprit)) }
{
    let Some(culprit) = culprit else {
        return push_word(text, b"\t-\t-\t-");
    };
    push_numbered(text, b"\tdm", u64::from(culprit.device))?;
    push_numbered(text, b"\t", culprit.line)?;
    push_type(text, &culprit.target)
}

/// Appends whose data was found, whose should have been there, and the sync that came after it.
fn push_others(text: &mut Vec<u8>, row: &FoundRow) -> Result<(), NoMemory>
    ensures { OnOk result (text.new.items ≡ text.old.items ++ tabbed (other_columns row.now)) }
{
    push_writer(text, row.found.got)?;
    push_writer(text, row.found.wanted)?;
    push_sync(text, row.sync)
}
