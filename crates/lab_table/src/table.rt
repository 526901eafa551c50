ghost use Rattle.std.specs.Prelude.{◌≡◌, ◌<◌, length, slice_get, Some, IfOk, IfSome, OnOk, OnErr, nat_le, ◌+◌};
ghost use Rattle.lab_text.specs.Words.{words_left};
ghost use Rattle.lab_target.specs.Laws.{IsPiece};
ghost use Rattle.lab_model.specs.ControlEffect.{line_told};
ghost use Rattle.lab_model.specs.Lists.{change};
ghost use Rattle.lab_model.specs.MapEffect.{fits_table};
ghost use Rattle.lab_model.specs.Tables.{line_at, loaded, size_of, with_target, opened};
ghost use Rattle.lab_table.specs.IsTable.{EndsInLine, IsTable};
ghost use Rattle.lab_table.specs.Printed.{table_text};

use crate::line_states::{fresh_lines, judge_line, start_lines, tell_line};
use crate::printing::print_lines;
use lab_model::TableLine;
use lab_sector::{Kind, NoMemory, Span};
use lab_target::{Target, Verdict};
use lab_text::Words;
use std::alloc::Global;
use std::marker::Model;

/// A table: its lines, of which the first starts at sector 0 and each other where the one before ends.
#[derive(Debug, Drop)]
pub struct Table<T: Target> {
    lines: Vec<TableLine<T>>,
}

impl<T: Target> Model for Table<T> {
    ghost use Rattle.std.specs.Prelude.{List};
    ghost use Rattle.lab_model.specs.declared.table_line.TableLine.{TableLine};
    ghost use Rattle.lab_table.specs.IsTable.{IsTable};

    ghost Value = { List (TableLine T) };

    ghost view = { λ table. table.lines.items };

    ghost invariant = { λ table. IsTable T.meaning table.lines.items };
}

impl<T: Target> Table<T> {
    /// A table of these lines.
    pub(crate) fn of_lines(lines: Vec<TableLine<T>>) -> Table<T>
        requires { IsTable T.meaning lines.items }
        ensures { result ≡ lines.items }
    {
        Table { lines }
    }

    /// The lines, in order.
    pub fn lines(&self) -> &[TableLine<T>]
        ensures lines { result.now ≡ self.now }
        ensures table { IsTable T.meaning self.now }
    {
        self.lines.as_slice()
    }

    /// How many sectors the lines have together.
    #[tactic(auto, using(crate::proofs::Rulesets::size))]
    pub fn size(&self) -> u64
        ensures { result ≡ size_of self.now }
    {
        match self.lines.last() {
            Some(line) => line.start + line.len,
            None => 0,
        }
    }

    /// Whether a bio on these sectors is inside the table; a flush has none, so it always is.
    pub fn fits(&self, kind: Kind, span: Span) -> bool
        ensures { result ≡ fits_table self.now kind span }
    {
        match kind {
            Kind::Flush => true,
            Kind::Read | Kind::Write | Kind::Trim => ends_within(span, self.size()),
        }
    }

    /// The line that holds a sector, counted from 0.
    pub fn line_at(&self, sector: u64) -> usize
        requires { sector < size_of self.now }
        ensures { line_at self.now sector ≡ Some result }
    {
        let after = self.lines.partition_point(|line| line.start <= sector);
        after - 1
    }

    /// The same table with each target in its opening state.
    pub fn fresh(&self, alloc: Global) -> Result<Table<T>, NoMemory>
        ensures { IfOk result (λ table. table ≡ opened T.meaning self.now) }
    {
        let lines = fresh_lines(alloc, &self.lines)?;
        Ok(Table { lines })
    }

    /// The table is loaded at this moment, in microseconds.
    pub fn start(&mut self, now: u64)
        ensures { self.new ≡ loaded T.meaning now self.old }
    {
        start_lines(&mut self.lines, now);
    }

    /// What the line of this number does at this moment with a piece, whose sectors are counted in the line.
    pub fn judge(&mut self, line: usize, kind: Kind, piece: Span, now: u64) -> Verdict
        requires line { line < length self.old }
        requires piece { IsPiece kind piece }
        requires inside { EndsInLine piece (slice_get self.old line) }
        ensures verdict { IfSome (slice_get self.old line)
            (λ l. result ≡ T.meaning.verdict l.target kind piece now) }
        ensures state { self.new ≡ change self.old line
            (with_target (λ t. T.meaning.judged t kind piece now)) }
    {
        judge_line(&mut self.lines, line, kind, piece, now)
    }

    /// The line of this number takes a message, and answers the reply.
    pub fn message(
        &mut self,
        alloc: Global,
        line: usize,
        words: Words<'_>,
    ) -> Result<Vec<u8>, NoMemory>
        requires line { line < length self.old }
        ensures reply { IfOk result (λ reply. IfSome (slice_get self.old line)
            (λ l. reply.items ≡ T.meaning.reply l.target (words_left words.entry))) }
        ensures state { OnOk result
            (self.new ≡ line_told T.meaning (words_left words.entry) line self.old) }
        ensures err { OnErr result (self.new ≡ self.old) }
    {
        tell_line(&mut self.lines, alloc, line, words)
    }

    /// The lines as they are given to dmsetup, each ended by a newline, with devices by number.
    pub fn print(&self, alloc: Global) -> Result<Vec<u8>, NoMemory>
        ensures { IfOk result (λ text. text.items ≡ table_text T.meaning self.now) }
    {
        print_lines(alloc, &self.lines)
    }
}

/// Whether the sectors end within so many.
fn ends_within(span: Span, size: u64) -> bool
    ensures { result ≡ nat_le (span.first + span.len) size }
{
    span.first <= size && span.len <= size - span.first
}
