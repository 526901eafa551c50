ghost use Rattle.std.specs.Prelude.{◌≡◌, ◌-◌, ◌+◌, [], List, IfOk, OnOk};
ghost use Rattle.lab_findings.specs.declared.noted.Noted.{Noted};
ghost use Rattle.lab_sweep.specs.Found.{IsNotedOf};
ghost use Rattle.lab_sweep.specs.Searching.{AddsRun, IsSearched, begun_text};
ghost use Rattle.lab_sweep.specs.Totals.{totals_of};

use crate::progress::Progress;
use crate::searcher::Searcher;
use crate::seeds::Seeds;
use crate::watched::found_run;
use lab_findings::Sought;
use lab_rulebook::Accepted;
use lab_sector::NoMemory;
use lab_target::Target;
use std::alloc::Global;

/// What a search asks for.
#[derive(Clone, Copy, Debug)]
pub(crate) struct Asked {
    /// The seeds, and whether their runs are prompt.
    pub(crate) seeds: Seeds,
    /// The findings that are sought.
    pub(crate) sought: Sought,
    /// Whether it is told by line how many seeds have each, in place of a row for each.
    pub(crate) by_line: bool,
}

/// Goes through the seeds from the first to the last, and hands the scenario back.
pub(crate) fn seek_all<T: Target, P: Progress>(
    searcher: &mut Searcher,
    alloc: Global,
    accepted: Accepted<T>,
    asked: Asked,
    progress: &P,
) -> Result<Accepted<T>, NoMemory>
    requires text { searcher.old.text.items ≡ begun_text asked.by_line }
    requires lines { searcher.old.counts.entries ≡ [] }
    requires totals { searcher.old.totals ≡ totals_of [] }
    ensures all { OnOk result (IsSearched T.meaning accepted.scenario asked.seeds.prompt
        asked.sought asked.by_line asked.seeds.first
        (asked.seeds.last + 1 - asked.seeds.first) searcher.new) }
    ensures back { IfOk result (λ back. back.scenario ≡ accepted.scenario) }
{
    let accepted = seek_before(searcher, alloc, accepted, asked, progress)?;
    if asked.seeds.first > asked.seeds.last {
        return Ok(accepted);
    }
    let back = seek_one(searcher, alloc, accepted, asked.seeds.last, asked)?;
    Ok(back)
}

/// Goes through the seeds from the first to before the last, and hands the scenario back.
fn seek_before<T: Target, P: Progress>(
    searcher: &mut Searcher,
    alloc: Global,
    accepted: Accepted<T>,
    asked: Asked,
    progress: &P,
) -> Result<Accepted<T>, NoMemory>
    requires text { searcher.old.text.items ≡ begun_text asked.by_line }
    requires lines { searcher.old.counts.entries ≡ [] }
    requires totals { searcher.old.totals ≡ totals_of [] }
    ensures all { OnOk result (IsSearched T.meaning accepted.scenario asked.seeds.prompt
        asked.sought asked.by_line asked.seeds.first
        (asked.seeds.last - asked.seeds.first) searcher.new) }
    ensures back { IfOk result (λ back. back.scenario ≡ accepted.scenario) }
{
    let mut accepted = accepted;
    let seeds = asked.seeds;
    for seed in seeds.first..seeds.last {
        progress.before(seed, seeds.first, seeds.last);
        accepted = seek_one(searcher, alloc, accepted, seed, asked)?;
    }
    Ok(accepted)
}

/// Goes through the run by one seed more, and hands the scenario back for another run.
fn seek_one<T: Target>(
    searcher: &mut Searcher,
    alloc: Global,
    accepted: Accepted<T>,
    seed: u64,
    asked: Asked,
) -> Result<Accepted<T>, NoMemory>
    ensures told { OnOk result ((noted : List Noted)
        × IsNotedOf T.meaning accepted.scenario asked.seeds.prompt seed asked.sought noted
        × AddsRun accepted.scenario asked.by_line seed noted searcher.old searcher.new) }
    ensures back { IfOk result (λ back. back.scenario ≡ accepted.scenario) }
{
    let (noted, lab) = found_run(alloc, accepted, seed, asked.seeds.prompt, asked.sought)?;
    match searcher.add_run(alloc, lab.scenario(), seed, &noted, asked.by_line) {
        Ok(()) => Ok(lab.into_accepted()),
        Err(NoMemory) => {
            lab.discard();
            Err(NoMemory)
        }
    }
}
