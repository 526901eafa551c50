ghost use Rattle.std.specs.Prelude.{◌≡◌, ◌≢◌, [], All, IfNone, IfOk, IfSome, Ok, true};
ghost use Rattle.lab_any.specs.Any.{any_meaning};
ghost use Rattle.lab_refusal.specs.Faults.{fault_seen, part_seen};
ghost use Rattle.lab_refusal.specs.FaultText.{fault_text};
ghost use Rattle.dmlab_run.specs.Answering.{HasFirstFault};
ghost use Rattle.dmlab_run.specs.Histories.{histories_of, history_read};
ghost use Rattle.dmlab_run.specs.Tried.{AreScenario, IsOther, Removes, RemovesOne, history_beside, moved};

use crate::beside::removes_beside;
use crate::judged::{judged, judged_run};
use lab_advice::{GUESSED, Mend, Spot, mended_bytes};
use lab_sector::NoMemory;
use lab_verify::{Fault, PartName, Refusal};
use std::alloc::Global;

/// How many lines are told at most, where they are as likely as one another.
const MOST: usize = 3;

/// How many bytes all bundles have at most that are tried for one refusal, but for the last of them.
const MOST_BYTES: usize = 1 << 24;

/// The same for a fault beside the first one, of which there may be many.
const MOST_BYTES_BESIDE: usize = 1 << 20;

/// How much dearer a mend is after which the bundle is refused elsewhere than one after which it is accepted.
const ELSEWHERE: u64 = 1 << 32;

/// Of these lines the likeliest ones that were tried and remove the fault, the first one or one beside it: with one of
/// them in its place, the bundle is no more refused by the same rule at the same line. Those with which it is accepted
/// are likelier than all others.
pub(crate) fn tried(
    alloc: Global,
    bytes: &[u8],
    fault: &Fault<'_>,
    beside: bool,
    mends: Vec<Mend>,
) -> Result<Vec<Mend>, NoMemory>
    ensures { IfOk result (λ told. All (RemovesOne beside bytes.now (fault_seen fault.now)) told.items) }
{
    let mut told: Vec<Mend> = Vec::new(alloc);
    let mut least = u64::MAX;
    let mut left = most_tried(bytes.len(), beside);
    for mend in mends {
        if least < mend.rank || left == 0 {
            continue;
        }
        left -= 1;
        let Some(cost) = cost_of(alloc, bytes, fault, beside, &mend)? else {
            continue;
        };
        if cost < least {
            told = Vec::new(alloc);
            least = cost;
        }
        if cost == least {
            told.push(mend)?;
        }
    }
    if MOST < told.len() {
        return Ok(Vec::new(alloc));
    }
    Ok(told)
}

/// How many bundles of so many bytes are tried for one refusal.
fn most_tried(len: usize, beside: bool) -> usize {
    let most = if beside {
        MOST_BYTES_BESIDE
    } else {
        MOST_BYTES
    };
    most / len.max(1) + 1
}

/// How unlikely a mend is, if the fault, the first one or one beside it, is gone with it in its place.
fn cost_of(
    alloc: Global,
    bytes: &[u8],
    fault: &Fault<'_>,
    beside: bool,
    mend: &Mend,
) -> Result<Option<u64>, NoMemory>
    ensures { IfOk result (λ cost. IfSome cost (λ _.
        RemovesOne beside bytes.now (fault_seen fault.now) mend.now)) }
{
    if beside {
        let gone = mend.rank < GUESSED && removes_beside(alloc, bytes, fault, mend)?;
        Ok(gone.then_some(mend.rank))
    } else {
        removes(alloc, bytes, fault, mend)
    }
}

/// How unlikely a mend is, if the fault is gone from a bundle of these bytes with it in its place, and its line can be
/// read there.
fn removes(
    alloc: Global,
    bytes: &[u8],
    fault: &Fault<'_>,
    mend: &Mend,
) -> Result<Option<u64>, NoMemory>
    ensures { IfOk result (λ cost. IfSome cost (λ _.
        Removes bytes.now (fault_seen fault.now) mend.now)) }
{
    let mended = mended_bytes(alloc, bytes, mend)?;
    let Some(other) = first_fault(alloc, fault.part, mended.as_slice())? else {
        return Ok(Some(mend.rank));
    };
    let is_told = mend.rank < GUESSED && is_read(fault, &other);
    if is_told && is_other(alloc, fault, mend.spot, &other)? {
        return Ok(Some(mend.rank.saturating_add(ELSEWHERE)));
    }
    Ok(None)
}

/// Whether the line of a fault of reading can be read once another fault is the first one.
pub(crate) fn is_read(fault: &Fault<'_>, other: &Fault<'_>) -> bool {
    let same = other.part == fault.part && other.line == fault.line;
    !same || fault.rule.is_of_scenario() || other.rule.is_of_scenario()
}

/// The first fault of some bytes, if they have one; the history is read if the fault looked for is one of it.
fn first_fault<'a>(
    alloc: Global,
    part: PartName<'_>,
    bytes: &'a [u8],
) -> Result<Option<Fault<'a>>, NoMemory>
    ensures fault { IfOk result (λ found. IfSome found (λ fault. HasFirstFault any_meaning bytes.now
        (history_beside (part_seen part.entry) bytes.now) (fault_seen fault))) }
    ensures none { IfOk result (λ found. IfNone found (AreScenario bytes.now)) }
{
    match part {
        PartName::History => fault_of_run(alloc, bytes),
        PartName::Bundle
        | PartName::Table(_)
        | PartName::Script
        | PartName::Log(_)
        | PartName::Limits
        | PartName::Budget => fault_of_parts(alloc, bytes),
    }
}

/// The first fault of some bytes, if they have one. No history is read.
fn fault_of_parts<'a>(alloc: Global, bytes: &'a [u8]) -> Result<Option<Fault<'a>>, NoMemory>
    ensures fault { IfOk result (λ found. IfSome found (λ fault.
        HasFirstFault any_meaning bytes.now (Ok []) (fault_seen fault))) }
    ensures none { IfOk result (λ found. IfNone found (AreScenario bytes.now)) }
{
    match judged(alloc, bytes) {
        Ok(_accepted) => Ok(None),
        Err(Refusal::Fault(fault)) => Ok(Some(fault)),
        Err(Refusal::NoMemory) => Err(NoMemory),
    }
}

/// The first fault of some bytes and their history, if they have one.
fn fault_of_run<'a>(alloc: Global, bytes: &'a [u8]) -> Result<Option<Fault<'a>>, NoMemory>
    ensures fault { IfOk result (λ found. IfSome found (λ fault. HasFirstFault any_meaning bytes.now
        (history_read (histories_of bytes.now)) (fault_seen fault))) }
    ensures none { IfOk result (λ found. IfNone found (AreScenario bytes.now)) }
{
    match judged_run(alloc, bytes) {
        Ok(_run) => Ok(None),
        Err(Refusal::Fault(fault)) => Ok(Some(fault)),
        Err(Refusal::NoMemory) => Err(NoMemory),
    }
}

/// Whether another fault is told, also as to where a line before it puts the refused one.
pub(crate) fn is_other(
    alloc: Global,
    fault: &Fault<'_>,
    spot: Spot,
    other: &Fault<'_>,
) -> Result<bool, NoMemory>
    ensures { IfOk result (λ is. is ≡ true
        → IsOther spot (fault_seen fault.now) (fault_seen other.now)) }
{
    if !differ(alloc, fault, other)? {
        return Ok(false);
    }
    match spot {
        Spot::On(_) | Spot::Blank(_) => Ok(true),
        Spot::Before(_) => match moved(fault) {
            Some(moved) => differ(alloc, &moved, other),
            None => Ok(false),
        },
    }
}

/// Whether two faults are told in two ways.
fn differ(alloc: Global, fault: &Fault<'_>, other: &Fault<'_>) -> Result<bool, NoMemory>
    ensures { IfOk result (λ are. are ≡ true
        → fault_text (fault_seen other.now) ≢ fault_text (fault_seen fault.now)) }
{
    let told = other.text(alloc)?;
    let refused = fault.text(alloc)?;
    Ok(told.as_slice() != refused.as_slice())
}

/// The fault one line further down, unless no line has that number.
fn moved<'a>(fault: &Fault<'a>) -> Option<Fault<'a>>
    ensures { IfSome result (λ down. fault_seen down ≡ moved (fault_seen fault.now)) }
{
    Some(Fault {
        part: fault.part,
        line: fault.line.checked_add(1)?,
        rule: fault.rule,
    })
}
