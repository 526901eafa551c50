ghost use Rattle.std.specs.Prelude.{◌≡◌, ◌++◌, IfOk, false, true};
ghost use Rattle.lab_any.specs.Any.{any_meaning};
ghost use Rattle.lab_model.specs.Guard.{is_done};
ghost use Rattle.lab_model.specs.Report.{report};
ghost use Rattle.dmlab_words.specs.Findings.{is_seeking};
ghost use Rattle.dmlab_run.specs.Answering.{told_of};
ghost use Rattle.dmlab_run.specs.Output.{Simulates, history_part};

use crate::answer::{Answer, done, push_part};
use crate::findings::{found, sought_by};
use dmlab_words::Asked;
use lab_any::AnyTarget;
use lab_core::{Lab, complete_run};
use lab_sector::NoMemory;
use lab_sweep::found_in;
use lab_verify::Accepted;
use std::alloc::Global;

/// The answer to a run of an accepted scenario by a seed.
pub(crate) fn answer_to_run<'a>(
    alloc: Global,
    accepted: Accepted<AnyTarget>,
    seed: u64,
    history: bool,
    prompt: bool,
    asked: Asked,
) -> Result<Answer<'a>, NoMemory>
    ensures { IfOk result (λ answer.
        Simulates any_meaning accepted.scenario prompt seed history asked (told_of answer)) }
{
    if asked.is_seeking() {
        searched_run(alloc, accepted, seed, history, prompt, asked)
    } else {
        plain_run(alloc, accepted, seed, history, prompt, asked)
    }
}

/// The report of a run in which no finding is asked for, and its events where asked.
fn plain_run<'a>(
    alloc: Global,
    accepted: Accepted<AnyTarget>,
    seed: u64,
    history: bool,
    prompt: bool,
    asked: Asked,
) -> Result<Answer<'a>, NoMemory>
    requires { is_seeking asked ≡ false }
    ensures { IfOk result (λ answer.
        Simulates any_meaning accepted.scenario prompt seed history asked (told_of answer)) }
{
    let lab = complete_run(alloc, accepted, seed, prompt)?;
    let text = report_of(alloc, &lab, history);
    lab.discard();
    done(alloc, text?)
}

/// The report of a run, the table of what was found in it, and its events where asked.
fn searched_run<'a>(
    alloc: Global,
    accepted: Accepted<AnyTarget>,
    seed: u64,
    history: bool,
    prompt: bool,
    asked: Asked,
) -> Result<Answer<'a>, NoMemory>
    requires { is_seeking asked ≡ true }
    ensures { IfOk result (λ answer.
        Simulates any_meaning accepted.scenario prompt seed history asked (told_of answer)) }
{
    let (lab, table, totals) = found_in(alloc, accepted, seed, prompt, sought_by(asked))?;
    let text = report_with(alloc, &lab, &table, history);
    lab.discard();
    found(alloc, asked, text?, totals)
}

/// The report of a laboratory that has run to where all is done, and its events where asked.
fn report_of(alloc: Global, lab: &Lab<AnyTarget>, history: bool) -> Result<Vec<u8>, NoMemory>
    requires { is_done lab.now.scenario lab.now.state ≡ true }
    ensures { IfOk result (λ text. text.items
        ≡ report any_meaning lab.now.scenario lab.now.history lab.now.state
        ++ history_part history lab.now.history) }
{
    let mut text = lab.report(alloc)?;
    push_part(&mut text, history, lab.history())?;
    Ok(text)
}

/// The same with this table between them.
fn report_with(
    alloc: Global,
    lab: &Lab<AnyTarget>,
    table: &[u8],
    history: bool,
) -> Result<Vec<u8>, NoMemory>
    requires { is_done lab.now.scenario lab.now.state ≡ true }
    ensures { IfOk result (λ text. text.items
        ≡ report any_meaning lab.now.scenario lab.now.history lab.now.state
        ++ table.now ++ history_part history lab.now.history) }
{
    let mut text = lab.report(alloc)?;
    text.extend_from_slice(table)?;
    push_part(&mut text, history, lab.history())?;
    Ok(text)
}
