ghost use Rattle.std.specs.Prelude.{◌≡◌, ◌++◌, ◌<◌, [], ◌∷◌, true, None, IfOk, IfSome, OnOk};
ghost use Rattle.std.specs.Prelude.{length, option_map, slice_index_or};
ghost use Rattle.std.specs.List.{All};
ghost use Rattle.lab_watch.specs.Grids.{Joins, side_by_side, spelled_writers, writer_from};

use lab_next::Writer;
use lab_sector::NoMemory;
use std::alloc::Global;
use std::marker::Model;

/// So many sectors side by side: nobody wrote them, or an operation wrote them one after another.
#[derive(Clone, Copy, Debug, PartialEq, Eq)]
pub struct Run {
    /// How many sectors.
    pub count: u64,
    /// Who wrote the first of them.
    pub writer: Option<Writer>,
}

impl Run {
    /// Both runs as one, if the other goes on where this one ends.
    fn with(self, other: Run) -> Option<Run>
        ensures { IfSome result (Joins self other) }
    {
        let count = self.count.checked_add(other.count)?;
        let joined = Run { count, ..self };
        match (self.writer, other.writer) {
            (None, None) => Some(joined),
            (Some(first), Some(writer)) if is_behind(writer, first, self.count) => Some(joined),
            _ => None,
        }
    }

    /// Who wrote the sector that is so far behind the first. There is no memory for more than a number counts.
    fn behind(self, more: u128) -> Result<Option<Writer>, NoMemory>
        ensures { IfOk result (λ writer. writer ≡ option_map (λ first. writer_from first more) self.writer) }
    {
        let Some(first) = self.writer else {
            return Ok(None);
        };
        let sector = first.sector.checked_add(more).ok_or(NoMemory)?;
        Ok(Some(Writer { sector, ..first }))
    }
}

/// Who wrote each of some sectors, side by side. Sectors that an operation wrote one after another
/// are one run.
#[derive(Drop)]
pub struct Row {
    runs: Vec<Run>,
}

impl Model for Row {
    ghost use Rattle.std.specs.Prelude.{List, Option, ◌<◌};
    ghost use Rattle.std.specs.List.{All};
    ghost use Rattle.lab_next.specs.declared.writer.Writer.{Writer as Sector};
    ghost use Rattle.lab_watch.specs.Grids.{row_code, spelled_writers};

    ghost Value = { List (Option Sector) };

    ghost coded = { row_code };

    ghost view = { λ row. spelled_writers row.runs.items };

    ghost invariant = { λ row. All (λ run. 0 < run.count) row.runs.items };
}

impl Row {
    /// No sector.
    pub fn new(alloc: Global) -> Row
        ensures none { result ≡ [] }
    {
        Row {
            runs: Vec::new(alloc),
        }
    }

    /// Adds so many sectors at the end: nobody's, or an operation's from this one on.
    pub fn push(&mut self, count: u64, writer: Option<Writer>) -> Result<(), NoMemory>
        ensures pushed { OnOk result (self.new ≡ self.old ++ side_by_side count writer) }
    {
        if count == 0 {
            return Ok(());
        }
        push_run(&mut self.runs, Run { count, writer })
    }

    /// These sectors, and behind them those of another row.
    pub(crate) fn followed(&self, alloc: Global, other: &Row) -> Result<Row, NoMemory>
        ensures followed { IfOk result (λ row. row ≡ self.now ++ other.now) }
    {
        let mut row = self.copied(alloc)?;
        for run in other.runs() {
            row.push(run.count, run.writer)?;
        }
        Ok(row)
    }

    /// The same sectors once more.
    fn copied(&self, alloc: Global) -> Result<Row, NoMemory>
        ensures { IfOk result (λ row. row ≡ self.now) }
    {
        Ok(Row {
            runs: Vec::from_slice(alloc, &self.runs)?,
        })
    }

    /// How many sectors.
    pub(crate) fn count(&self) -> u128
        ensures count { result ≡ length self.now }
    {
        count_in(&self.runs)
    }

    /// Who wrote a sector, counted from the first; nobody wrote one behind the last.
    pub(crate) fn get(&self, sector: u128) -> Result<Option<Writer>, NoMemory>
        ensures writer { IfOk result (λ writer. writer ≡ slice_index_or self.now sector None) }
    {
        writer_in(&self.runs, sector)
    }

    /// The runs, in order.
    pub fn runs(&self) -> &[Run]
        ensures spelled { self.now ≡ spelled_writers result.now }
        ensures counts { All (λ run. 0 < run.count) result.now }
    {
        &self.runs
    }
}

/// How many sectors these runs have.
fn count_in(runs: &[Run]) -> u128
    ensures { result ≡ length (spelled_writers runs.now) }
{
    let mut count: u128 = 0;
    for run in runs {
        count += u128::from(run.count);
    }
    count
}

/// Who wrote a sector of these runs; nobody wrote one behind the last.
fn writer_in(runs: &[Run], sector: u128) -> Result<Option<Writer>, NoMemory>
    ensures { IfOk result (λ writer. writer ≡ slice_index_or (spelled_writers runs.now) sector None) }
{
    let mut left = sector;
    for run in runs {
        let count = u128::from(run.count);
        if left < count {
            return run.behind(left);
        }
        left -= count;
    }
    Ok(None)
}

/// Adds a run at the end. If it goes on where the last one ends, they become one.
fn push_run(runs: &mut Vec<Run>, run: Run) -> Result<(), NoMemory>
    ensures pushed { OnOk result (spelled_writers runs.new.items
        ≡ spelled_writers runs.old.items ++ side_by_side run.count run.writer) }
    ensures counts { All (λ run. 0 < run.count) runs.old.items → 0 < run.count
        → All (λ run. 0 < run.count) runs.new.items }
{
    if goes_on(runs, run) {
        return push_behind(runs, run);
    }
    Ok(runs.push(run)?)
}

/// Whether a run goes on where the last one ends.
fn goes_on(runs: &[Run], run: Run) -> bool {
    match runs.last() {
        Some(last) => last.with(run).is_some(),
        None => false,
    }
}

/// Adds a run at the end, as one with the last if it goes on where that ends.
fn push_behind(runs: &mut Vec<Run>, run: Run) -> Result<(), NoMemory>
    ensures pushed { OnOk result (spelled_writers runs.new.items
        ≡ spelled_writers runs.old.items ++ side_by_side run.count run.writer) }
    ensures counts { All (λ run. 0 < run.count) runs.old.items → 0 < run.count
        → All (λ run. 0 < run.count) runs.new.items }
{
    match runs.pop() {
        Some(last) => push_joined(runs, last, run),
        None => Ok(runs.push(run)?),
    }
}

/// Adds two runs at the end, as one if the second goes on where the first ends.
fn push_joined(runs: &mut Vec<Run>, last: Run, run: Run) -> Result<(), NoMemory>
    ensures pushed { OnOk result (spelled_writers runs.new.items
        ≡ spelled_writers (runs.old.items ++ last ∷ []) ++ side_by_side run.count run.writer) }
    ensures counts { All (λ run. 0 < run.count) runs.old.items → 0 < last.count → 0 < run.count
        → All (λ run. 0 < run.count) runs.new.items }
{
    if let Some(joined) = last.with(run) {
        runs.push(joined)?;
        return Ok(());
    }
    runs.push(last)?;
    runs.push(run)?;
    Ok(())
}

/// Whether it is the same operation's sector that comes so far behind the first.
fn is_behind(writer: Writer, first: Writer, count: u64) -> bool
    ensures { result ≡ true → writer ≡ writer_from first count }
{
    writer.origin == first.origin
        && writer.sector.checked_sub(first.sector) == Some(u128::from(count))
}
