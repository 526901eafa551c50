ghost use Rattle.std.specs.Prelude.{◌≡◌, IfOk};
ghost use Rattle.lab_findings.specs.Judged.{written_hits};
ghost use Rattle.lab_findings.specs.Wrongs.{wrong_from};

use crate::found::Wrong;
use crate::wrong::{all_wrong, joined};
use lab_sector::NoMemory;
use lab_watch::Row;

/// The sectors that have a writer, of those from the first on. There is no memory for more than a number counts.
pub(crate) fn written_in(row: &Row, first: u64) -> Result<Option<Wrong>, NoMemory>
    ensures { IfOk result (λ wrong. wrong ≡ wrong_from first (written_hits row.now)) }
{
    let mut wrong = None;
    let mut place = first;
    for run in row.runs() {
        let more = all_wrong(place, run.count, run.writer.is_some());
        wrong = joined(wrong, more)?;
        place = place.checked_add(run.count).ok_or(NoMemory)?;
    }
    Ok(wrong)
}
