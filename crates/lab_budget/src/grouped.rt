ghost use Rattle.std.specs.Prelude.{◌≡◌, ◌≢◌, ◌+◌, ◌<◌, ◌≤◌, IfOk, IfSome, length, option_copied, slice_get, true};
ghost use Rattle.lab_sector.specs.declared.request.Kind.TheVariants.{Flush};
ghost use Rattle.lab_model.specs.MapEffect.{fits_table};
ghost use Rattle.lab_budget.specs.Grouped.{NoneFits, fitting_from};

use crate::size_row::{SizeRow, size_rows};
use lab_sector::{Kind, NoMemory, Span};
use lab_table::Table;
use lab_target::Target;
use std::alloc::Global;
use std::marker::Model;

/// All tables that are ever loaded into a device, and for each of their sizes where the next longer ones are.
#[derive(Drop)]
pub(crate) struct Grouped<'a, T: Target> {
    tables: &'a [Table<T>],
    /// One for each size, rising.
    rows: Vec<SizeRow>,
}

impl<'a, T: Target> Model for Grouped<'a, T> {
    ghost use Rattle.std.specs.Prelude.{All, List};
    ghost use Rattle.lab_model.specs.Tables.{Table};
    ghost use Rattle.lab_budget.specs.Grouped.{IsRowOf};

    ghost Value = { List (Table T) };

    ghost view = { λ device. device.tables.now };

    ghost invariant = { λ device. All (IsRowOf device.tables.now) device.rows.items };
}

impl<'a, T: Target> Grouped<'a, T> {
    /// These tables.
    pub(crate) fn new(alloc: Global, tables: &'a [Table<T>]) -> Result<Grouped<'a, T>, NoMemory>
        ensures { IfOk result (λ device. device ≡ tables.now) }
    {
        let rows = size_rows(alloc, tables)?;
        Ok(Grouped { tables, rows })
    }

    /// How many tables there are.
    pub(crate) fn count(&self) -> usize
        ensures { result ≡ length self.now }
    {
        self.tables.len()
    }

    /// The table at a place.
    pub(crate) fn get(&self, place: usize) -> Option<&Table<T>>
        ensures { option_copied result ≡ slice_get self.now place }
    {
        self.tables.get(place)
    }

    /// The first place from one on whose table has the sectors, or one behind all tables.
    pub(crate) fn next_fit(&self, from: usize, kind: Kind, span: Span) -> usize
        requires no_flush { kind ≢ Flush }
        ensures from { from ≤ result }
        ensures fits { IfSome (slice_get self.now result)
            (λ table. fits_table table kind span ≡ true) }
        ensures passed { fitting_from kind span self.now from
            ≡ fitting_from kind span self.now result }
    {
        let mut place = from;
        while let Some(table) = self.get(place) {
            if table.fits(kind, span) {
                return place;
            }
            place = self.behind(place, kind, span);
        }
        place
    }

    /// The place behind one whose table doesn't have the sectors; behind others that don't have them too.
    fn behind(&self, place: usize, kind: Kind, span: Span) -> usize
        requires no_flush { kind ≢ Flush }
        requires inside { place < length self.now }
        ensures later { place < result }
        ensures none { NoneFits kind span self.now (place + 1) result }
    {
        // So the next place fits.
        prove!(place < self.tables.len());
        match self.longer_behind(place, kind, span) {
            Some(next) if place < next => next,
            _ => place + 1,
        }
    }

    /// The next place behind one whose table is longer than the longest size that ends before the sectors do, if a row
    /// tells it.
    fn longer_behind(&self, place: usize, kind: Kind, span: Span) -> Option<usize>
        requires no_flush { kind ≢ Flush }
        ensures { IfSome result (λ next. NoneFits kind span self.now (place + 1) next) }
    {
        let short = self.rows.partition_point(|row| is_past(span, row.size));
        let row = self.rows.get(short.checked_sub(1)?)?;
        if !is_past(span, row.size) {
            return None;
        }
        row.next.get(place).copied()
    }
}

/// Whether the sectors end behind so many.
fn is_past(span: Span, size: u64) -> bool
    ensures { result ≡ true → size < span.first + span.len }
{
    span.first.saturating_add(span.len) > size
}
