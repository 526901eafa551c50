ghost use Rattle.std.specs.Prelude.{◌≡◌, ◌<◌, ◌^◌, IfOk};
ghost use Rattle.std.specs.String.{string_bytes};
ghost use Rattle.lab_sweep.specs.Totals.{totals_text};
ghost use Rattle.dmlab_run.specs.Answering.{told_of};
ghost use Rattle.dmlab_run.specs.Findings.{found_with, sought_by};

use crate::answer::Answer;
use dmlab_words::Asked;
use lab_findings::Sought;
use lab_sector::NoMemory;
use lab_sweep::{Totals, push_totals};
use std::alloc::Global;

/// The findings that the words ask for.
pub(crate) fn sought_by(asked: Asked) -> Sought
    ensures { result ≡ sought_by asked }
{
    Sought {
        eio: asked.eio,
        lost: asked.lost,
        corrupt: asked.corrupt,
        stale: asked.stale,
        misplaced: asked.misplaced,
        broken_sync: asked.broken_sync,
    }
}

/// The answer that tells what was found, in this text: standard error is told the totals, and where
/// a finding is to be a failure it is one if a run has some.
pub(crate) fn found<'a>(
    alloc: Global,
    asked: Asked,
    text: Vec<u8>,
    totals: Totals,
) -> Result<Answer<'a>, NoMemory>
    ensures { IfOk result (λ answer. told_of answer ≡ found_with asked text.items totals) }
{
    Ok(Answer {
        text,
        refused: false,
        found: asked.fail && totals.found > 0,
        besides: totals_line(alloc, sought_by(asked), totals)?,
        trouble: None,
        others: Vec::new(alloc),
    })
}

/// The line of the totals.
fn totals_line(alloc: Global, sought: Sought, totals: Totals) -> Result<String, NoMemory>
    ensures { IfOk result (λ line. string_bytes line ≡ totals_text sought totals) }
{
    fit(totals.runs, totals.found);
    fit(totals.eio, totals.lost);
    fit(totals.corrupt, totals.stale);
    fit(totals.misplaced, totals.broken_sync);
    let mut line = Vec::new(alloc);
    push_totals(&mut line, sought, totals)?;
    match String::from_utf8(line) {
        Ok(line) => Ok(line),
        Err(_) => unreachable!(),
    }
}

/// Two counts that are no greater than any count may be.
fn fit(one: u64, other: u64)
    ensures { (one < 2 ^ 64) × (other < 2 ^ 64) }
{}
