ghost use Rattle.std.specs.Prelude.{◌≡◌, [], ◌∷◌, ◌++◌, reverse, IfOk, OnOk};
ghost use Rattle.lab_sector.specs.declared.device.DevNo.{DevNo};
ghost use Rattle.lab_sweep.specs.FoundRows.{found_rows, row_here, rows_found, sync_here, sync_told};
ghost use Rattle.lab_sweep.specs.NextSyncs.{next_sync};

use crate::found_row::{FoundRow, push_row};
use crate::next_syncs::NextSyncs;
use lab_findings::{Finding, Found, Noted};
use lab_next::Origin;
use lab_sector::NoMemory;
use lab_table::Scenario;
use lab_target::Target;
use std::alloc::Global;

/// Appends a row for each finding among what was noted in the run by this seed.
pub(crate) fn push_found_rows<T: Target>(
    text: &mut Vec<u8>,
    alloc: Global,
    scenario: &Scenario<T>,
    seed: u64,
    noted: &[Noted],
) -> Result<(), NoMemory>
    ensures { OnOk result (text.new.items
        ≡ text.old.items ++ found_rows scenario.now seed noted.now) }
{
    let rows = rows_found(alloc, noted)?;
    for row in &rows {
        push_row(text, scenario, seed, row)?;
    }
    Ok(())
}

/// What the rows tell, in order.
fn rows_found(alloc: Global, noted: &[Noted]) -> Result<Vec<FoundRow>, NoMemory>
    ensures { IfOk result (λ rows. rows.items ≡ rows_found noted.now) }
{
    let mut rows = rows_from_end(alloc, noted)?;
    rows.reverse();
    Ok(rows)
}

/// What the rows tell, the last one first.
fn rows_from_end(alloc: Global, noted: &[Noted]) -> Result<Vec<FoundRow>, NoMemory>
    ensures { IfOk result (λ rows. rows.items ≡ reverse (rows_found noted.now)) }
{
    let mut rows = Vec::new(alloc);
    let mut syncs = NextSyncs::new(alloc);
    for place in (0..noted.len()).rev() {
        push_before(&mut rows, &mut syncs, &noted[place])?;
    }
    Ok(rows)
}

/// Goes through something that was noted before what these syncs are of.
fn push_before(
    rows: &mut Vec<FoundRow>,
    syncs: &mut NextSyncs,
    noted: &Noted,
) -> Result<(), NoMemory>
    ensures rows { OnOk result (rows.new.items
        ≡ rows.old.items ++ row_here noted.now (next_sync syncs.old)) }
    ensures syncs { OnOk result ((device : DevNo) → next_sync syncs.new device
        ≡ sync_here noted.now (next_sync syncs.old) device) }
{
    match noted {
        Noted::Found(found) => rows.push(row_of(*found, syncs))?,
        Noted::Synced(synced) => syncs.put(*synced)?,
    }
    Ok(())
}

/// What the row of a finding tells, where these are the next syncs.
fn row_of(found: Found, syncs: &NextSyncs) -> FoundRow
    ensures { result ∷ [] ≡ row_here (Noted.Found found) (next_sync syncs.now) }
{
    FoundRow {
        found,
        sync: sync_told(found.finding, syncs.get(found.device)),
    }
}

/// The sync that a row tells: only that of a lost operation.
fn sync_told(finding: Finding, sync: Option<Origin>) -> Option<Origin>
    ensures { result ≡ sync_told finding sync }
{
    match finding {
        Finding::Lost => sync,
        _ => None,
    }
}
