ghost use Rattle.std.specs.Prelude.{◌≡◌, OnOk};
ghost use Rattle.lab_sweep.specs.ByLine.{count_noted, count_run, found_at, same_found_at};
ghost use Rattle.lab_sweep.specs.Tally.{counted_seed};

use crate::tally::{SeedCount, count_with};
use indexmap::IndexMap;
use lab_findings::{Finding, Found, Noted};
use lab_sector::NoMemory;

/// A finding at an operation of a log.
#[derive(Clone, Copy, Debug, PartialEq, Eq)]
#[derive_where(Hash)]
pub(crate) struct FoundAt {
    /// The finding.
    #[derive_where(skip(Hash))]
    pub(crate) finding: Finding,
    /// The log, counted from 1.
    pub(crate) log: u32,
    /// The line in the log's part, counted from 1.
    pub(crate) line: u64,
}

/// How many seeds have each finding at each operation, in the order of the first that has it.
pub(crate) type LineCounts = IndexMap<FoundAt, SeedCount>;

/// Counts what was noted in a seed's run.
pub(crate) fn count_run(counts: &mut LineCounts, seed: u64, noted: &[Noted]) -> Result<(), NoMemory>
    ensures { OnOk result (counts.new.entries ≡ count_run counts.old.entries seed noted.now) }
{
    for one in noted {
        count_noted(counts, seed, one)?;
    }
    Ok(())
}

/// Counts something that was noted in a seed's run, if it is a finding.
fn count_noted(counts: &mut LineCounts, seed: u64, noted: &Noted) -> Result<(), NoMemory>
    ensures { OnOk result (counts.new.entries ≡ count_noted seed counts.old.entries noted.now) }
{
    match noted {
        Noted::Found(found) => count_at(counts, found_at(found), seed),
        Noted::Synced(_) => Ok(()),
    }
}

/// What a finding is, and at which operation.
fn found_at(found: &Found) -> FoundAt
    ensures { result ≡ found_at found.now }
{
    FoundAt {
        finding: found.finding,
        log: found.origin.log,
        line: found.origin.line,
    }
}

/// Counts one seed more for a finding at an operation.
fn count_at(counts: &mut LineCounts, at: FoundAt, seed: u64) -> Result<(), NoMemory>
    ensures { OnOk result (counts.new.entries
        ≡ counted_seed same_found_at counts.old.entries at seed) }
{
    let count = count_with(counts.get(&at).copied(), seed)?;
    counts.insert(at, count)?;
    Ok(())
}
