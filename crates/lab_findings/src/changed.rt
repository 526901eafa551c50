ghost use Rattle.std.specs.Prelude.{◌≡◌, IfOk, map};
ghost use Rattle.lab_findings.specs.Changes.{changed_hits, is_changed};
ghost use Rattle.lab_findings.specs.Wrongs.{wrong_from};

use crate::changes::{byte_of, is_changed};
use crate::deed::Deeds;
use crate::found::Wrong;
use crate::wrong::{all_wrong, joined};
use lab_disk::Sector;
use lab_sector::NoMemory;
use lab_watch::Row;

/// Of these sectors, each with who wrote it, those in which a byte is another than was written. The first of them has
/// this number. There is no memory for more than a number counts.
pub(crate) fn changed_in(
    deeds: &Deeds,
    row: &Row,
    sectors: &[Sector],
    first: u64,
) -> Result<Option<Wrong>, NoMemory>
    ensures { IfOk result (λ wrong. wrong
        ≡ wrong_from first (changed_hits deeds.now row.now sectors.now)) }
{
    let mut wrong = None;
    let mut place = first;
    let mut rest = sectors;
    for run in row.runs() {
        let count = rest.len().min(run.count as usize);
        let (here, behind) = rest.split_at(count);
        wrong = joined(wrong, changed_of(byte_of(deeds, run.writer), here, place)?)?;
        place = place.checked_add(count as u64).ok_or(NoMemory)?;
        rest = behind;
    }
    Ok(wrong)
}

/// Of these sectors, the first of which has this number, those in which a byte is another than this.
fn changed_of(byte: u8, sectors: &[Sector], first: u64) -> Result<Option<Wrong>, NoMemory>
    ensures { IfOk result (λ wrong. wrong
        ≡ wrong_from first (map (λ sector. is_changed byte sector) sectors.now)) }
{
    let mut wrong = None;
    let mut place = first;
    for sector in sectors {
        wrong = joined(wrong, all_wrong(place, 1, is_changed(byte, sector)))?;
        place = place.checked_add(1).ok_or(NoMemory)?;
    }
    Ok(wrong)
}
