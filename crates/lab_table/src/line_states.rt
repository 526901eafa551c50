ghost use Rattle.std.specs.Prelude.{◌≡◌, ◌<◌, length, slice_get, IfOk, IfSome, OnOk, OnErr};
ghost use Rattle.lab_text.specs.Words.{words_left};
ghost use Rattle.lab_target.specs.Laws.{IsPiece};
ghost use Rattle.lab_model.specs.ControlEffect.{line_told};
ghost use Rattle.lab_model.specs.Lists.{change};
ghost use Rattle.lab_model.specs.Tables.{loaded, with_target, opened};
ghost use Rattle.lab_table.specs.IsTable.{AreLines, EndsInLine};

use lab_model::TableLine;
use lab_sector::{Kind, NoMemory, Span};
use lab_target::{Target, Verdict};
use lab_text::Words;
use std::alloc::Global;

/// The same lines with each target in its opening state.
pub(crate) fn fresh_lines<T: Target>(
    alloc: Global,
    lines: &[TableLine<T>],
) -> Result<Vec<TableLine<T>>, NoMemory>
    ensures { IfOk result (λ fresh. fresh.items ≡ opened T.meaning lines.now) }
{
    let mut fresh = Vec::with_capacity(alloc, lines.len())?;
    for line in lines {
        let target = line.target.fresh(alloc)?;
        fresh.push(TableLine {
            start: line.start,
            len: line.len,
            target,
        })?;
    }
    Ok(fresh)
}

/// Each target is loaded at this moment.
pub(crate) fn start_lines<T: Target>(lines: &mut Vec<TableLine<T>>, now: u64)
    ensures { lines.new.items ≡ loaded T.meaning now lines.old.items }
{
    for line in lines.iter_mut() {
        line.target.start(now);
    }
}

/// What a line does with a piece.
pub(crate) fn judge_line<T: Target>(
    lines: &mut Vec<TableLine<T>>,
    at: usize,
    kind: Kind,
    piece: Span,
    now: u64,
) -> Verdict
    requires at { at < length lines.old.items }
    requires piece { IsPiece kind piece }
    requires inside { EndsInLine piece (slice_get lines.old.items at) }
    requires are_lines { AreLines T.meaning lines.old.items }
    ensures verdict { IfSome (slice_get lines.old.items at)
        (λ l. result ≡ T.meaning.verdict l.target kind piece now) }
    ensures state { lines.new.items ≡ change lines.old.items at
        (with_target (λ t. T.meaning.judged t kind piece now)) }
{
    lines[at].target.judge(kind, piece, now)
}

/// A line takes a message, and answers the reply.
pub(crate) fn tell_line<T: Target>(
    lines: &mut Vec<TableLine<T>>,
    alloc: Global,
    at: usize,
    words: Words<'_>,
) -> Result<Vec<u8>, NoMemory>
    requires at { at < length lines.old.items }
    ensures reply { IfOk result (λ reply. IfSome (slice_get lines.old.items at)
        (λ l. reply.items ≡ T.meaning.reply l.target (words_left words.entry))) }
    ensures state { OnOk result (lines.new.items ≡
        line_told T.meaning (words_left words.entry) at lines.old.items) }
    ensures err { OnErr result (lines.new.items ≡ lines.old.items) }
{
    lines[at].target.message(alloc, words)
}
