//! Whether a line removes a fault beside the first one.
ghost use Rattle.std.specs.Prelude.{◌≡◌, All, IfOk, true};
ghost use Rattle.lab_refusal.specs.Faults.{fault_seen};
ghost use Rattle.dmlab_run.specs.Tried.{IsOther, RemovesBeside};

use crate::all::part_faults;
use crate::trial::{is_other, is_read};
use lab_advice::{Mend, Spot, mended_bytes};
use lab_sector::NoMemory;
use lab_verify::Fault;
use std::alloc::Global;

/// Whether the fault is gone from a bundle of these bytes with the mend in its place, and its line can be read there.
pub(crate) fn removes_beside(
    alloc: Global,
    bytes: &[u8],
    fault: &Fault<'_>,
    mend: &Mend,
) -> Result<bool, NoMemory>
    ensures { IfOk result (λ gone.
        gone ≡ true → RemovesBeside bytes.now (fault_seen fault.now) mend.now) }
{
    let mended = mended_bytes(alloc, bytes, mend)?;
    let Some(faults) = part_faults(alloc, mended.as_slice())? else {
        return Ok(false);
    };
    are_others(alloc, fault, mend.spot, &faults)
}

/// Whether all of these faults are others, and none of them is of reading the same line.
fn are_others(
    alloc: Global,
    fault: &Fault<'_>,
    spot: Spot,
    faults: &[Fault<'_>],
) -> Result<bool, NoMemory>
    ensures { IfOk result (λ are. are ≡ true
        → All (λ other. IsOther spot (fault_seen fault.now) (fault_seen other)) faults.now) }
{
    for other in faults {
        if !is_read(fault, other) || !is_other(alloc, fault, spot, other)? {
            return Ok(false);
        }
    }
    Ok(true)
}
