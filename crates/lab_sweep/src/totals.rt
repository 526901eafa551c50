ghost use Rattle.std.specs.Prelude.{◌≡◌, [], ◌++◌, IfOk, OnOk};
ghost use Rattle.lab_sweep.specs.Totals.{count_in_run, has_finding, is_finding, is_of};
ghost use Rattle.lab_sweep.specs.Totals.{runs_found_text, sought_text, totals_of, totals_text};
ghost use Rattle.lab_sweep.specs.Totals.{totals_with};

use crate::columns::word_of;
use crate::counts::add;
use lab_findings::{Finding, Noted, Sought};
use lab_sector::NoMemory;
use lab_text::push_numbered;

/// How much was found in all.
#[derive(Clone, Copy, Debug, PartialEq, Eq)]
pub struct Totals {
    /// How many seeds were run.
    pub runs: u64,
    /// In the runs of how many of them something was found.
    pub found: u64,
    /// How many answers were failures.
    pub eio: u64,
    /// How many writes and trims were lost.
    pub lost: u64,
    /// How many writes and reads were corrupt.
    pub corrupt: u64,
    /// How many reads were stale.
    pub stale: u64,
    /// How many reads were misplaced.
    pub misplaced: u64,
    /// How many syncs were broken.
    pub broken_sync: u64,
}

/// Before the first run.
pub(crate) fn no_totals() -> Totals
    ensures { result ≡ totals_of [] }
{
    Totals {
        runs: 0,
        found: 0,
        eio: 0,
        lost: 0,
        corrupt: 0,
        stale: 0,
        misplaced: 0,
        broken_sync: 0,
    }
}

/// The totals with one run more, in which this was noted.
pub(crate) fn totals_with(totals: Totals, noted: &[Noted]) -> Result<Totals, NoMemory>
    ensures { IfOk result (λ more. more ≡ totals_with totals noted.now) }
{
    Ok(Totals {
        runs: add(totals.runs, 1)?,
        found: add(totals.found, u64::from(has_finding(noted)))?,
        eio: add(totals.eio, count_in_run(Finding::Eio, noted))?,
        lost: add(totals.lost, count_in_run(Finding::Lost, noted))?,
        corrupt: add(totals.corrupt, count_in_run(Finding::Corrupt, noted))?,
        stale: add(totals.stale, count_in_run(Finding::Stale, noted))?,
        misplaced: add(totals.misplaced, count_in_run(Finding::Misplaced, noted))?,
        broken_sync: add(totals.broken_sync, count_in_run(Finding::BrokenSync, noted))?,
    })
}

/// Whether anything was found in a run.
fn has_finding(noted: &[Noted]) -> bool
    ensures { result ≡ has_finding noted.now }
{
    noted.iter().any(|one| is_finding(one))
}

/// Whether it is a finding.
fn is_finding(noted: &Noted) -> bool
    ensures { result ≡ is_finding noted.now }
{
    matches!(noted, Noted::Found(_))
}

/// How many findings of a sort were noted in a run.
fn count_in_run(sort: Finding, noted: &[Noted]) -> u64
    ensures { result ≡ count_in_run sort noted.now }
{
    noted.iter().filter(|one| is_of(sort, one)).count() as u64
}

/// Whether it is a finding of this sort.
fn is_of(sort: Finding, noted: &Noted) -> bool
    ensures { result ≡ is_of sort noted.now }
{
    match noted {
        Noted::Found(found) => sort == found.finding,
        Noted::Synced(_) => false,
    }
}

/// Appends the totals as a line: of the findings only those that are sought.
pub fn push_totals(text: &mut Vec<u8>, sought: Sought, totals: Totals) -> Result<(), NoMemory>
    ensures { OnOk result (text.new.items ≡ text.old.items ++ totals_text sought totals) }
{
    push_runs(text, totals)?;
    push_sought(text, sought.eio, Finding::Eio, totals.eio)?;
    push_sought(text, sought.lost, Finding::Lost, totals.lost)?;
    push_sought(text, sought.corrupt, Finding::Corrupt, totals.corrupt)?;
    push_sought(text, sought.stale, Finding::Stale, totals.stale)?;
    push_sought(text, sought.misplaced, Finding::Misplaced, totals.misplaced)?;
    push_sought(
        text,
        sought.broken_sync,
        Finding::BrokenSync,
        totals.broken_sync,
    )?;
    text.push(b'\n')?;
    Ok(())
}

/// Appends `runs=N found=N`.
fn push_runs(text: &mut Vec<u8>, totals: Totals) -> Result<(), NoMemory>
    ensures { OnOk result (text.new.items ≡ text.old.items ++ runs_found_text totals) }
{
    push_numbered(text, b"runs=", totals.runs)?;
    push_numbered(text, b" found=", totals.found)
}

/// Appends ` WORD=COUNT` of a finding that is sought.
fn push_sought(text: &mut Vec<u8>, asked: bool, sort: Finding, count: u64) -> Result<(), NoMemory>
    ensures { OnOk result (text.new.items ≡ text.old.items ++ sought_text asked sort count) }
{
    if asked {
        text.push(b' ')?;
        text.extend_from_slice(word_of(sort))?;
        push_numbered(text, b"=", count)?;
    }
    Ok(())
}
