//! A check of all parts of a bundle: what a check tells, and the fault of each other part that can't be read.
ghost use Rattle.std.specs.Prelude.{◌≡◌, ◌++◌, [], IfOk, IfSome, OnOk, Some, drop, map};
ghost use Rattle.lab_model.specs.Rules.{FaultSeen};
ghost use Rattle.std.specs.List.{filter_map, flat_map};
ghost use Rattle.std.specs.Option.{option_map, option_to_list};
ghost use Rattle.lab_any.specs.Any.{any_meaning};
ghost use Rattle.lab_rulebook.specs.PartsOf.{texts_of};
ghost use Rattle.lab_refusal.specs.Faults.{bundle_told, fault_seen};
ghost use Rattle.dmlab_run.specs.AllParts.{AreGiven, AreOthers, IsAllOutput, history_fault};
ghost use Rattle.dmlab_run.specs.AllParts.{other_faults, part_faults};
ghost use Rattle.dmlab_run.specs.Answering.{told_of};
ghost use Rattle.dmlab_run.specs.Histories.{histories_in};
ghost use Rattle.dmlab_run.specs.Lines.{refused_for};

use crate::answer::{Answer, answer_to_check, refused_text};
use crate::judged::events_of;
use lab_advice::Trouble;
use lab_any::AnyTarget;
use lab_sector::NoMemory;
use lab_text::{Bundle, BundleFault, read_bundle};
use lab_verify::{Fault, Refusal, read_faults, refusal_of};
use std::alloc::Global;

/// The answer to a check of all parts of a bundle of these bytes.
pub(crate) fn answer_to_check_all<'a>(
    alloc: Global,
    bytes: &'a [u8],
) -> Result<Answer<'a>, NoMemory>
    ensures { IfOk result (λ answer. IsAllOutput any_meaning bytes.now (told_of answer)) }
{
    let answer = answer_to_check(alloc, bytes)?;
    let others = other_faults(alloc, bytes)?;
    let mut text = answer.text;
    push_faults(alloc, &mut text, &others)?;
    Ok(Answer {
        text,
        refused: answer.refused,
        found: answer.found,
        besides: answer.besides,
        trouble: answer.trouble,
        others,
    })
}

/// Appends the lines of these faults, in order.
fn push_faults(alloc: Global, text: &mut Vec<u8>, faults: &[Fault<'_>]) -> Result<(), NoMemory>
    ensures { OnOk result (text.new.items ≡ text.old.items
        ++ flat_map (λ fault. (refused_for (fault_seen fault)).text) faults.now) }
{
    for fault in faults {
        let line = refused_text(alloc, Trouble::Fault(*fault))?;
        text.extend_from_slice(&line)?;
    }
    Ok(())
}

/// The faults of the parts of a bundle of these bytes that can't be read, but for the one that a check tells; none where
/// the bytes are no bundle.
fn other_faults<'a>(alloc: Global, bytes: &'a [u8]) -> Result<Vec<Fault<'a>>, NoMemory>
    ensures { IfOk result (λ faults.
        AreOthers any_meaning bytes.now (map fault_seen faults.items)) }
{
    match read_bundle(alloc, bytes) {
        Ok(bundle) => others_of(alloc, &bundle),
        Err(fault) => no_others(alloc, fault),
    }
}

/// No faults, where bytes are no bundle for this one.
fn no_others<'a>(alloc: Global, fault: BundleFault) -> Result<Vec<Fault<'a>>, NoMemory>
    ensures { IfOk result (λ faults. (seen : FaultSeen) × (bundle_told fault ≡ Some seen)
        × (faults.items ≡ [])) }
{
    match refusal_of(fault) {
        Refusal::Fault(_told) => Ok(Vec::new(alloc)),
        Refusal::NoMemory => Err(NoMemory),
    }
}

/// The faults of all parts of a bundle of these bytes that can't be read, if the bytes are a bundle.
pub(crate) fn part_faults<'a>(
    alloc: Global,
    bytes: &'a [u8],
) -> Result<Option<Vec<Fault<'a>>>, NoMemory>
    ensures { IfOk result (λ read. IfSome read (λ faults.
        AreGiven (part_faults any_meaning) bytes.now (map fault_seen faults.items))) }
{
    match read_bundle(alloc, bytes) {
        Ok(bundle) => Ok(Some(all_of(alloc, &bundle)?)),
        Err(BundleFault::NoMemory) => Err(NoMemory),
        Err(_) => Ok(None),
    }
}

/// The faults of the parts of a bundle that can't be read, but for the first one of its texts.
fn others_of<'a>(alloc: Global, bundle: &Bundle<'a>) -> Result<Vec<Fault<'a>>, NoMemory>
    ensures { IfOk result (λ faults. map fault_seen faults.items
        ≡ other_faults any_meaning (texts_of bundle.now) (histories_in bundle.now.history)) }
{
    let mut faults = read_faults::<AnyTarget>(alloc, bundle)?;
    drop_first(&mut faults);
    push_history(alloc, bundle.history, &mut faults)?;
    Ok(faults)
}

/// The faults of all parts of a bundle that can't be read.
fn all_of<'a>(alloc: Global, bundle: &Bundle<'a>) -> Result<Vec<Fault<'a>>, NoMemory>
    ensures { IfOk result (λ faults. map fault_seen faults.items
        ≡ part_faults any_meaning (texts_of bundle.now) (histories_in bundle.now.history)) }
{
    let mut faults = read_faults::<AnyTarget>(alloc, bundle)?;
    push_history(alloc, bundle.history, &mut faults)?;
    Ok(faults)
}

/// Removes the first fault, if there is one.
fn drop_first(faults: &mut Vec<Fault<'_>>)
    ensures { faults.new.items ≡ drop 1 faults.old.items }
{
    if !faults.is_empty() {
        faults.remove(0);
    }
}

/// Adds the fault of the history, if there is a history, and if it can't be read.
fn push_history<'a>(
    alloc: Global,
    history: Option<&'a [u8]>,
    faults: &mut Vec<Fault<'a>>,
) -> Result<(), NoMemory>
    ensures { OnOk result (map fault_seen faults.new.items ≡ map fault_seen faults.old.items
        ++ filter_map history_fault (histories_in history.entry)) }
{
    if let Some(fault) = history_fault(alloc, history)? {
        faults.push(fault)?;
    }
    Ok(())
}

/// The fault of the history, if there is a history, and if it can't be read.
fn history_fault(alloc: Global, history: Option<&[u8]>) -> Result<Option<Fault<'static>>, NoMemory>
    ensures { IfOk result (λ found. option_to_list (option_map fault_seen found)
        ≡ filter_map history_fault (histories_in history.entry)) }
{
    let Some(text) = history else {
        return Ok(None);
    };
    match events_of(alloc, Some(text)) {
        Ok(_events) => Ok(None),
        Err(Refusal::Fault(fault)) => Ok(Some(fault)),
        Err(Refusal::NoMemory) => Err(NoMemory),
    }
}
