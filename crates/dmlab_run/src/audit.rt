ghost use Rattle.std.specs.Prelude.{◌≡◌, IfErr, IfOk, MatchResult};
ghost use Rattle.lab_any.specs.Any.{any_meaning};
ghost use Rattle.lab_core.specs.Audit.{IsFaultOf};
ghost use Rattle.dmlab_run.specs.Answering.{IsReportOf, TellsFault, told_of};
ghost use Rattle.dmlab_run.specs.Lines.{done_with};
ghost use Rattle.dmlab_run.specs.Output.{Audits, IsOutput};
ghost use Rattle.dmlab_words.specs.declared.job.Job.TheVariants.{Audit};

use crate::answer::{Answer, answer_to_refusal, done, refused};
use crate::judged::judged_run;
use lab_advice::Trouble;
use lab_any::AnyTarget;
use lab_core::{AuditFault, Event, Lab};
use lab_sector::NoMemory;
use lab_verify::Accepted;
use std::alloc::Global;

/// The answer to an audit of a bundle of these bytes.
pub(crate) fn answer_to_audit<'a>(alloc: Global, bytes: &'a [u8]) -> Result<Answer<'a>, NoMemory>
    ensures { IfOk result (λ answer.
        IsOutput any_meaning Audit bytes.now (told_of answer)) }
{
    match judged_run(alloc, bytes) {
        Ok((accepted, events)) => audited(alloc, accepted, &events),
        Err(refusal) => answer_to_refusal(alloc, refusal),
    }
}

/// The report of a run of these events, or where they are no complete run.
fn audited<'a>(
    alloc: Global,
    accepted: Accepted<AnyTarget>,
    events: &[Event],
) -> Result<Answer<'a>, NoMemory>
    ensures { IfOk result (λ answer. Audits any_meaning accepted.scenario events.now
        (told_of answer)) }
{
    answer_of_run(alloc, report_of_events(alloc, accepted, events))
}

/// The report of these events, if they are a complete run of the scenario.
fn report_of_events(
    alloc: Global,
    accepted: Accepted<AnyTarget>,
    events: &[Event],
) -> Result<Vec<u8>, AuditFault>
    ensures told { IfOk result (λ text.
        IsReportOf any_meaning accepted.scenario events.now text.items) }
    ensures fault { IfErr result (λ fault.
        IsFaultOf any_meaning accepted.scenario events.now fault) }
{
    let lab = Lab::audit(alloc, accepted, events)?;
    let text = lab.report(alloc);
    lab.discard();
    Ok(text?)
}

/// The answer that tells the text of a complete run, or where some events are none.
pub(crate) fn answer_of_run<'a>(
    alloc: Global,
    text: Result<Vec<u8>, AuditFault>,
) -> Result<Answer<'a>, NoMemory>
    ensures { IfOk result (λ answer. MatchResult text
        (λ made. told_of answer ≡ done_with made.items)
        (λ fault. TellsFault fault (told_of answer))) }
{
    match text {
        Ok(text) => done(alloc, text),
        Err(AuditFault::NotEnabled(place)) => refused(alloc, Trouble::NotARun(place)),
        Err(AuditFault::Unfinished(place)) => refused(alloc, Trouble::Unfinished(place)),
        Err(AuditFault::NoMemory) => Err(NoMemory),
    }
}
