ghost use Rattle.std.specs.Prelude.{◌≡◌, ◌⊎◌, ◌<◌, ◌≤◌, ◌+◌, ◌↔◌, List, [], false, IfOk, IfSome, ℕ, string_bytes};
ghost use Rattle.lab_any.specs.Any.{any_meaning};
ghost use Rattle.dmlab_words.specs.declared.work.Work.{Work};
ghost use Rattle.dmlab_run.specs.Answering.{IsRefusalOf, told_of};
ghost use Rattle.dmlab_run.specs.Counting.{IsUncalled, WritesInOrder};
ghost use Rattle.dmlab_run.specs.Running.{Ends, TellsAnswer, TellsWork};
ghost use Rattle.dmlab_run.specs.Threads.{IsOutputOf};
ghost use Rattle.dmlab_run.specs.Tried.{Advises, AdvisesAll, AdvisesEach, AdvisesFew, AllRemove, advised_count};

use crate::answer::Answer;
use crate::output::write_output;
use crate::trial::tried;
use crate::{Counted, Status};
use lab_advice::{Mend, Remedy, Trouble, advice_on};
use lab_remedies::{remedy_of, with_left_out};
use lab_sector::NoMemory;
use lab_verify::Fault;
use std::alloc::Global;
use std::io::Write;

/// On how many faults beside the first one a tester is advised at most: a bundle has no more parts.
const MOST: usize = 128;

/// How many bytes the bundle has at most, taken once for each of these: so the advice takes no long time.
const MOST_BYTES: usize = 1 << 22;

/// Writes an answer to a bundle, if there is one: the output of whatever work it is the answer of.
/// The bytes are the bundle's; where it isn't refused they may be others.
pub(crate) fn tell_if_any<O: Write>(
    alloc: Global,
    bytes: &[u8],
    answer: Result<Answer<'_>, NoMemory>,
    output: &mut Counted<O>,
) -> Status
    requires { IsUncalled output.old }
    ensures { (work : Work) → (bundle : List ℕ)
        → IfOk answer.entry (λ a. IsOutputOf any_meaning work bundle (told_of a))
        → IfOk answer.entry (IsRefusalOf bytes.now bundle)
        → TellsWork O.contents work bundle result output.old output.new }
{
    match answer {
        Ok(answer) => tell(alloc, bytes, answer, output),
        Err(_) => Status::NoMemory,
    }
}

// Writes an answer to a bundle of these bytes.
fn tell<O: Write>(
    alloc: Global,
    bytes: &[u8],
    answer: Answer<'_>,
    output: &mut Counted<O>,
) -> Status
    requires { IsUncalled output.old }
    ensures fault { (result ≡ Status.WriteFault) ↔ (output.old.failures < output.new.failures) }
    ensures one_fault { output.new.failures ≤ output.old.failures + 1 }
    ensures order { WritesInOrder output.new }
    ensures writes { TellsAnswer bytes.now result (told_of answer.entry) output.new.bytes
        (O.contents output.old.inner) (O.contents output.new.inner) }
{
    match write_output(output, answer.text.as_slice()) {
        Ok(()) => ended(alloc, bytes, answer),
        Err(_) => Status::WriteFault,
    }
}

// How a run ended that has written the whole text of an answer to a bundle of these bytes.
fn ended(alloc: Global, bytes: &[u8], answer: Answer<'_>) -> Status
    ensures { Ends bytes.now result (told_of answer.entry) }
{
    if answer.refused {
        Status::Refused(advice(alloc, bytes, answer.trouble, &answer.others))
    } else if answer.found {
        Status::Found(answer.besides)
    } else {
        Status::Done(answer.besides)
    }
}

// What a tester is told of what stopped a bundle, and of these faults beside it; nothing of either where memory runs
// out.
fn advice(alloc: Global, bytes: &[u8], trouble: Option<Trouble<'_>>, others: &[Fault<'_>]) -> String
    ensures { IfSome trouble.entry (λ it. AdvisesAll bytes.now it others.now (string_bytes result)) }
{
    let Some(trouble) = trouble else {
        return String::new(alloc);
    };
    let mut text = advice_on_first(alloc, bytes, trouble);
    let more = advice_on_others(alloc, bytes, others);
    let _ = text.push_str(&more);
    text
}

// What a tester is told of what stopped a bundle; nothing where memory runs out.
fn advice_on_first(alloc: Global, bytes: &[u8], trouble: Trouble<'_>) -> String
    ensures { (string_bytes result ≡ []) ⊎ Advises false bytes.now trouble.entry (string_bytes result) }
{
    match advice_tried(alloc, bytes, trouble, false) {
        Ok(text) => text,
        Err(_) => String::new(alloc),
    }
}

// What a tester is told of these faults beside the first one; nothing where memory runs out.
fn advice_on_others(alloc: Global, bytes: &[u8], faults: &[Fault<'_>]) -> String
    ensures { (string_bytes result ≡ []) ⊎ AdvisesFew bytes.now faults.now (string_bytes result) }
{
    match advice_on_few(alloc, bytes, faults) {
        Ok(text) => text,
        Err(_) => String::new(alloc),
    }
}

// What a tester is told of the first of these faults beside the first one, and that there are others.
fn advice_on_few(alloc: Global, bytes: &[u8], faults: &[Fault<'_>]) -> Result<String, NoMemory>
    ensures { IfOk result (λ text. AdvisesFew bytes.now faults.now (string_bytes text)) }
{
    let count = advised_count(bytes.len()).min(faults.len());
    let mut text = advice_each(alloc, bytes, &faults[..count])?;
    if count < faults.len() {
        text.push_str("dmlab: the parts behind these can't be read either. Mend these first.\n")?;
    }
    Ok(text)
}

// On how many faults beside the first one a tester is advised, where a bundle has so many bytes.
fn advised_count(len: usize) -> usize
    ensures { result ≡ advised_count len }
{
    (MOST_BYTES / len.max(1)).min(MOST)
}

// What a tester is told of each of these faults beside the first one, in order.
fn advice_each(alloc: Global, bytes: &[u8], faults: &[Fault<'_>]) -> Result<String, NoMemory>
    ensures { IfOk result (λ text. AdvisesEach bytes.now faults.now (string_bytes text)) }
{
    let mut text = String::new(alloc);
    for fault in faults {
        let own = advice_tried(alloc, bytes, Trouble::Fault(*fault), true)?;
        text.push_str(&own)?;
    }
    Ok(text)
}

/// What a tester is told of what stopped a bundle, the first fault or one beside it: of the lines that may mend it only
/// those that were tried, and do.
fn advice_tried(
    alloc: Global,
    bytes: &[u8],
    trouble: Trouble<'_>,
    beside: bool,
) -> Result<String, NoMemory>
    ensures { IfOk result (λ text. Advises beside bytes.now trouble.entry (string_bytes text)) }
{
    let remedy = remedy_of(alloc, bytes, trouble)?;
    let mends = mends_tried(alloc, bytes, trouble, beside, remedy.mends)?;
    let why = with_left_out(alloc, bytes, remedy.why, mends.as_slice())?;
    let remedy = Remedy { why, mends };
    advice_on(alloc, bytes, trouble, &remedy)
}

/// Of these lines those that were tried, and mend what stopped a bundle.
fn mends_tried(
    alloc: Global,
    bytes: &[u8],
    trouble: Trouble<'_>,
    beside: bool,
    mends: Vec<Mend>,
) -> Result<Vec<Mend>, NoMemory>
    ensures { IfOk result (λ told. AllRemove beside bytes.now trouble.entry told.items) }
{
    match trouble {
        Trouble::Fault(fault) => tried(alloc, bytes, &fault, beside, mends),
        Trouble::NotARun(_) | Trouble::Unfinished(_) => Ok(Vec::new(alloc)),
    }
}
