ghost use Rattle.std.specs.Prelude.{◌≡◌, [], ◌++◌, ◌∷◌, true, IfOk};
ghost use Rattle.lab_model.specs.Guard.{is_done};
ghost use Rattle.lab_core.specs.Running.{begun};
ghost use Rattle.lab_core.specs.Runs.{IsPaced};
ghost use Rattle.lab_sweep.specs.Found.{TellsRun};
ghost use Rattle.lab_sweep.specs.FoundRow.{row_names};
ghost use Rattle.lab_sweep.specs.FoundRows.{found_rows};
ghost use Rattle.lab_sweep.specs.Search.{IsSearch};
ghost use Rattle.lab_sweep.specs.Totals.{totals_of};

use crate::found_row::push_row_names;
use crate::found_rows::push_found_rows;
use crate::progress::Progress;
use crate::room::make_room;
use crate::searcher::{Searched, Searcher};
use crate::seeds::Seeds;
use crate::seeking::{Asked, seek_all};
use crate::totals::{Totals, no_totals, totals_with};
use crate::watched::found_run;
use lab_core::Lab;
use lab_findings::{Noted, Sought};
use lab_rulebook::Accepted;
use lab_sector::NoMemory;
use lab_table::Scenario;
use lab_target::Target;
use std::alloc::Global;

/// Runs an accepted scenario by each of the seeds: a row for each finding of its run that is sought, or by line how
/// many seeds have it. Before each seed but the last the progress is told.
pub fn search<T: Target, P: Progress>(
    alloc: Global,
    accepted: Accepted<T>,
    seeds: Seeds,
    sought: Sought,
    by_line: bool,
    progress: &P,
) -> Result<Searched, NoMemory>
    ensures { IfOk result (λ searched. IsSearch T.meaning accepted.scenario seeds.prompt
        seeds.first seeds.last sought by_line searched.text.items searched.totals) }
{
    make_room(alloc);
    let asked = Asked {
        seeds,
        sought,
        by_line,
    };
    let mut searcher = Searcher::new(alloc, by_line)?;
    let back = seek_all(&mut searcher, alloc, accepted, asked, progress);
    progress.ended();
    let accepted = back?;
    let searched = searcher.finish(alloc, accepted.scenario(), by_line)?;
    Ok(searched)
}

/// The complete run by a seed, promptly or not, with a row for each finding in it that is sought, and the totals.
pub fn found_in<T: Target>(
    alloc: Global,
    accepted: Accepted<T>,
    seed: u64,
    prompt: bool,
    sought: Sought,
) -> Result<(Lab<T>, Vec<u8>, Totals), NoMemory>
    ensures paced { IfOk result (λ run. IsPaced T.meaning prompt seed (begun accepted) run.0) }
    ensures done { IfOk result (λ run. is_done run.0.scenario run.0.state ≡ true) }
    ensures told { IfOk result (λ run. TellsRun T.meaning accepted.scenario seed sought
        run.0.history run.1.items run.2) }
{
    let (noted, lab) = found_run(alloc, accepted, seed, prompt, sought)?;
    match told_of(alloc, lab.scenario(), seed, &noted) {
        Ok((text, totals)) => Ok((lab, text, totals)),
        Err(NoMemory) => {
            lab.discard();
            Err(NoMemory)
        }
    }
}

/// The names of the columns and the rows of what was noted in the run by a seed, and its totals.
fn told_of<T: Target>(
    alloc: Global,
    scenario: &Scenario<T>,
    seed: u64,
    noted: &[Noted],
) -> Result<(Vec<u8>, Totals), NoMemory>
    ensures text { IfOk result (λ told. told.0.items
        ≡ row_names ++ found_rows scenario.now seed noted.now) }
    ensures totals { IfOk result (λ told. told.1 ≡ totals_of (noted.now ∷ [])) }
{
    let mut text = Vec::new(alloc);
    push_row_names(&mut text)?;
    push_found_rows(&mut text, alloc, scenario, seed, noted)?;
    Ok((text, totals_with(no_totals(), noted)?))
}
