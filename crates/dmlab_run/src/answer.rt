ghost use Rattle.std.specs.Prelude.{◌≡◌, ◌++◌, IfOk, OnOk, codes, decimal};
ghost use Rattle.lab_any.specs.Any.{any_meaning};
ghost use Rattle.lab_model.specs.Report.{budget_text, text_line};
ghost use Rattle.lab_refusal.specs.Faults.{fault_seen};
ghost use Rattle.lab_refusal.specs.FaultText.{fault_text};
ghost use Rattle.dmlab_run.specs.Answering.{TellsRefusal, told_of};
ghost use Rattle.dmlab_run.specs.Lines.{done_with, refused_with};
ghost use Rattle.dmlab_run.specs.Output.{IsOutput, history_part};
ghost use Rattle.dmlab_run.specs.Troubles.{trouble_line, trouble_text};
ghost use Rattle.dmlab_words.specs.declared.job.Job.TheVariants.{Check};

use crate::judged::judged;
pub(crate) use crate::outcome::Answer;
use lab_advice::Trouble;
use lab_core::{Event, push_history};
use lab_sector::NoMemory;
use lab_text::push_number;
use lab_verify::{Fault, Refusal};
use std::alloc::Global;

/// The answer to a check of a bundle of these bytes.
pub(crate) fn answer_to_check<'a>(alloc: Global, bytes: &'a [u8]) -> Result<Answer<'a>, NoMemory>
    ensures { IfOk result (λ answer.
        IsOutput any_meaning Check bytes.now (told_of answer)) }
{
    match judged(alloc, bytes) {
        Ok(accepted) => budget_told(alloc, accepted.budget()),
        Err(refusal) => answer_to_refusal(alloc, refusal),
    }
}

/// The answer of a scenario that isn't refused, in whose runs no finding is asked for.
pub(crate) fn done<'a>(alloc: Global, text: Vec<u8>) -> Result<Answer<'a>, NoMemory>
    ensures { IfOk result (λ answer. told_of answer ≡ done_with text.items) }
{
    Ok(Answer {
        text,
        refused: false,
        found: false,
        besides: String::new(alloc),
        trouble: None,
        others: Vec::new(alloc),
    })
}

/// The answer of a refusal: the line that tells what stopped the bundle.
pub(crate) fn refused<'a>(alloc: Global, trouble: Trouble<'a>) -> Result<Answer<'a>, NoMemory>
    ensures { IfOk result (λ answer.
        told_of answer ≡ refused_with (trouble_line trouble.entry)) }
{
    let text = refused_text(alloc, trouble)?;
    Ok(Answer {
        text,
        refused: true,
        found: false,
        besides: String::new(alloc),
        trouble: Some(trouble),
        others: Vec::new(alloc),
    })
}

/// Appends the part that tells the events, where they are asked for.
pub(crate) fn push_part(text: &mut Vec<u8>, asked: bool, events: &[Event]) -> Result<(), NoMemory>
    ensures { OnOk result (text.new.items ≡ text.old.items ++ history_part asked events.now) }
{
    if asked {
        text.extend_from_slice(b"== history\n")?;
        push_history(text, events)?;
    }
    Ok(())
}

/// The answer that tells the budget of an accepted scenario.
fn budget_told<'a>(alloc: Global, budget: u64) -> Result<Answer<'a>, NoMemory>
    ensures { IfOk result (λ answer.
        told_of answer ≡ done_with (text_line (budget_text budget))) }
{
    let mut text = b"accepted budget=".to_vec(alloc)?;
    push_number(&mut text, budget)?;
    text.push(b'\n')?;
    done(alloc, text)
}

/// The answer that tells a refusal.
pub(crate) fn answer_to_refusal<'a>(
    alloc: Global,
    refusal: Refusal<'a>,
) -> Result<Answer<'a>, NoMemory>
    ensures { IfOk result (λ answer.
        TellsRefusal refusal.entry (told_of answer)) }
{
    match refusal {
        Refusal::Fault(fault) => refused(alloc, Trouble::Fault(fault)),
        Refusal::NoMemory => Err(NoMemory),
    }
}

/// The line that tells what stopped a bundle, with its newline.
pub(crate) fn refused_text(alloc: Global, trouble: Trouble<'_>) -> Result<Vec<u8>, NoMemory>
    ensures { IfOk result (λ text. text.items ≡ trouble_text trouble.entry) }
{
    let mut text = Vec::new(alloc);
    push_trouble(alloc, &mut text, trouble)?;
    text.push(b'\n')?;
    Ok(text)
}

/// Appends the line that tells what stopped a bundle, without its newline.
fn push_trouble(alloc: Global, text: &mut Vec<u8>, trouble: Trouble<'_>) -> Result<(), NoMemory>
    ensures { OnOk result (text.new.items ≡ text.old.items ++ trouble_line trouble.entry) }
{
    match trouble {
        Trouble::Fault(fault) => push_fault(alloc, text, &fault),
        Trouble::NotARun(place) => push_not_a_run(text, place),
        Trouble::Unfinished(place) => push_unfinished(text, place),
    }
}

/// Appends the line that tells a fault, without its newline.
fn push_fault(alloc: Global, text: &mut Vec<u8>, fault: &Fault<'_>) -> Result<(), NoMemory>
    ensures { OnOk result (text.new.items
        ≡ text.old.items ++ codes "refused " ++ fault_text (fault_seen fault.now)) }
{
    text.extend_from_slice(b"refused ")?;
    text.extend_from_slice(&fault.text(alloc)?)?;
    Ok(())
}

/// Appends the line that tells the place of the first event that may not come there, without its newline.
fn push_not_a_run(text: &mut Vec<u8>, place: u64) -> Result<(), NoMemory>
    ensures { OnOk result (text.new.items
        ≡ text.old.items ++ codes "not a run at " ++ decimal place) }
{
    text.extend_from_slice(b"not a run at ")?;
    push_number(text, place)?;
    Ok(())
}

/// Appends the line that tells the place after events that are no whole run, without its newline.
fn push_unfinished(text: &mut Vec<u8>, place: u64) -> Result<(), NoMemory>
    ensures { OnOk result (text.new.items
        ≡ text.old.items ++ codes "unfinished at " ++ decimal place) }
{
    text.extend_from_slice(b"unfinished at ")?;
    push_number(text, place)?;
    Ok(())
}
