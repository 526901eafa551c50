ghost use Rattle.std.specs.Prelude.{◌≡◌, IfOk};
ghost use Rattle.lab_findings.specs.Judged.{is_elsewhere, is_misplaced, misplaced_hits};
ghost use Rattle.lab_findings.specs.Wrongs.{wrong_from};

use crate::deed::{Deed, Deeds};
use crate::found::Wrong;
use crate::wrong::{all_wrong, joined};
use lab_next::Writer;
use lab_sector::NoMemory;
use lab_watch::Row;

/// The sectors of a device, from the first on, that were answered what was written under another of its sectors. There
/// is no memory for more than a number counts.
pub(crate) fn misplaced_in(
    deeds: &Deeds,
    device: u64,
    row: &Row,
    first: u64,
) -> Result<Option<Wrong>, NoMemory>
    ensures { IfOk result (λ wrong. wrong
        ≡ wrong_from first (misplaced_hits deeds.now device first row.now)) }
{
    let mut wrong = None;
    let mut place = first;
    for run in row.runs() {
        let hit = is_misplaced(deeds, device, place, run.writer);
        wrong = joined(wrong, all_wrong(place, run.count, hit))?;
        place = place.checked_add(run.count).ok_or(NoMemory)?;
    }
    Ok(wrong)
}

/// Whether what a sector of a device was answered was written under another of its sectors.
fn is_misplaced(deeds: &Deeds, device: u64, first: u64, got: Option<Writer>) -> bool
    ensures { result ≡ is_misplaced deeds.now device first got }
{
    match got {
        Some(writer) => is_elsewhere(device, first, writer.sector, deeds.get(writer.origin)),
        None => false,
    }
}

/// Whether a sector of an operation that is known so stands elsewhere on this device than at a sector.
fn is_elsewhere(device: u64, first: u64, sector: u128, deed: Option<Deed>) -> bool
    ensures { result ≡ is_elsewhere device first sector deed }
{
    match deed {
        Some(deed) => {
            let behind = u128::from(first).checked_sub(u128::from(deed.first));
            deed.device == device && behind != Some(sector)
        }
        None => false,
    }
}
