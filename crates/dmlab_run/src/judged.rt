// What the bytes of a bundle are: an accepted scenario, with the events of its history if they are
// read, or the first fault of both.

ghost use Rattle.std.specs.Prelude.{◌≡◌, [], Err, IfErr, IfOk, Ok, Some};
ghost use Rattle.lab_any.specs.Any.{any_meaning};
ghost use Rattle.lab_model.specs.Rules.{FaultSeen};
ghost use Rattle.lab_rulebook.specs.PartsOf.{Texts, texts_of};
ghost use Rattle.lab_refusal.specs.Faults.{told_by};
ghost use Rattle.lab_verify.specs.Verdict.{IsScenario, IsVerdict};
ghost use Rattle.dmlab_run.specs.Answering.{HasFirstFault, HasScenario, IsUnread, is_told_by_rules};
ghost use Rattle.dmlab_run.specs.Histories.{histories_in, histories_of, history_read};
ghost use Rattle.dmlab_run.specs.Output.{IsFirst};

use lab_any::AnyTarget;
use lab_core::{Event, read_history};
use lab_text::{Bundle, read_bundle};
use lab_verify::{Accepted, PartName, Refusal, Rule, refusal_of, verify};
use std::alloc::Global;

/// The accepted scenario of a bundle of these bytes, or its first fault. No history is read.
pub(crate) fn judged<'a>(alloc: Global, bytes: &'a [u8]) -> Result<Accepted<AnyTarget>, Refusal<'a>>
    ensures accepted { IfOk result (λ accepted. HasScenario any_meaning bytes.now accepted) }
    ensures refused { IfErr result (λ refusal. (seen : FaultSeen) → told_by refusal ≡ Some seen
        → HasFirstFault any_meaning bytes.now (Ok []) seen) }
{
    match read_bundle(alloc, bytes) {
        Ok(bundle) => verify(alloc, &bundle),
        Err(fault) => Err(refusal_of(fault)),
    }
}

/// The accepted scenario of a bundle of these bytes and its history's events, or the first fault.
pub(crate) fn judged_run<'a>(
    alloc: Global,
    bytes: &'a [u8],
) -> Result<(Accepted<AnyTarget>, Vec<Event>), Refusal<'a>>
    ensures accepted { IfOk result (λ run. HasScenario any_meaning bytes.now run.0) }
    ensures events { IfOk result (λ run. history_read (histories_of bytes.now) ≡ Ok run.1.items) }
    ensures refused { IfErr result (λ refusal. (seen : FaultSeen) → told_by refusal ≡ Some seen
        → HasFirstFault any_meaning bytes.now (history_read (histories_of bytes.now)) seen) }
{
    match read_bundle(alloc, bytes) {
        Ok(bundle) => verified_run(alloc, &bundle),
        Err(fault) => Err(refusal_of(fault)),
    }
}

/// The accepted scenario of a bundle with its history's events, or their first fault.
fn verified_run<'a>(
    alloc: Global,
    bundle: &Bundle<'a>,
) -> Result<(Accepted<AnyTarget>, Vec<Event>), Refusal<'a>>
    ensures accepted { IfOk result (λ run. IsScenario any_meaning (texts_of bundle.now) run.0) }
    ensures events { IfOk result (λ run.
        history_read (histories_in bundle.now.history) ≡ Ok run.1.items) }
    ensures refused { IfErr result (λ refusal. (seen : FaultSeen) → told_by refusal ≡ Some seen
        → IsFirst any_meaning (texts_of bundle.now)
        (history_read (histories_in bundle.now.history)) seen) }
{
    match verify(alloc, bundle) {
        Ok(accepted) => with_events(alloc, accepted, bundle.history),
        Err(refusal) => Err(first_refusal(alloc, bundle.history, refusal)),
    }
}

/// An accepted scenario with its history's events, or why there are none.
fn with_events(
    alloc: Global,
    accepted: Accepted<AnyTarget>,
    history: Option<&[u8]>,
) -> Result<(Accepted<AnyTarget>, Vec<Event>), Refusal<'static>>
    ensures accepted { IfOk result (λ run. run.0 ≡ accepted) }
    ensures events { IfOk result (λ run.
        history_read (histories_in history.entry) ≡ Ok run.1.items) }
    ensures fault { IfErr result (IsUnread (history_read (histories_in history.entry))) }
{
    match events_of(alloc, history) {
        Ok(events) => Ok((accepted, events)),
        Err(refusal) => Err(refusal),
    }
}

/// The first refusal of a refused bundle and its history. The history is read after the other parts
/// and before the scenario is looked at, so its faults come before those of the scenario.
fn first_refusal<'a>(alloc: Global, history: Option<&[u8]>, refusal: Refusal<'a>) -> Refusal<'a>
    ensures { (texts : Texts) → IsVerdict any_meaning texts (Err refusal.entry)
        → (seen : FaultSeen) → told_by result ≡ Some seen
        → IsFirst any_meaning texts (history_read (histories_in history.entry)) seen }
{
    if !is_of_scenario(&refusal) {
        return refusal;
    }
    if let Err(unread) = events_of(alloc, history) {
        return unread;
    }
    refusal
}

/// Whether all parts could be read, and the scenario that they say is refused.
fn is_of_scenario(refusal: &Refusal<'_>) -> bool
    ensures { result ≡ is_told_by_rules (told_by refusal.now) }
{
    match refusal {
        Refusal::Fault(fault) => fault.rule.is_of_scenario(),
        Refusal::NoMemory => false,
    }
}

/// The events of a bundle's history, or why there are none to run.
pub(crate) fn events_of(
    alloc: Global,
    history: Option<&[u8]>,
) -> Result<Vec<Event>, Refusal<'static>>
    ensures events { IfOk result (λ events.
        history_read (histories_in history.entry) ≡ Ok events.items) }
    ensures fault { IfErr result (IsUnread (history_read (histories_in history.entry))) }
{
    match history {
        Some(text) => Ok(read_history(alloc, text)?),
        None => Err(Refusal::at(PartName::History, 0, Rule::Missing)),
    }
}
