ghost use Rattle.std.specs.Prelude.{◌≡◌, OnOk};
ghost use Rattle.lab_image.specs.Stores.{bare, both_marked, erased, passed, stored};
ghost use Rattle.lab_image.specs.Stores.{with_changed_byte, with_write};

use crate::bytes::with_mark;
use crate::changes::Changes;
use lab_next::Writer;
use lab_sector::{NoMemory, SECTOR_BYTES, Span};
use lab_target::{Mark, Marks};
use lab_watch::Grid;
use std::alloc::Global;
use std::marker::Model;

/// Which sector of which write stands where, by the number of a disk or of a bio and by a sector of it, and which bytes
/// of it were changed on the way.
#[derive(Drop)]
pub struct Store {
    /// Which sector of which write stands there.
    pub(crate) writers: Grid,
    /// The bytes of it that were changed.
    pub(crate) changes: Changes,
}

impl Model for Store {
    ghost use Rattle.lab_image.specs.Stores.{Store as Stands, store_code};

    ghost Value = { Stands };

    ghost coded = { store_code };

    ghost view = { λ store. record { writers = store.writers; changes = store.changes } };
}

impl Store {
    /// No write stands anywhere.
    pub(crate) fn new(alloc: Global) -> Store
        ensures { result ≡ bare }
    {
        Store {
            writers: Grid::new(alloc),
            changes: Changes::new(alloc),
        }
    }

    /// A write's sectors, from this one on, stand in so many sectors of a number, from its first on.
    pub(crate) fn fill(
        &mut self,
        alloc: Global,
        number: u64,
        count: u64,
        writer: Writer,
    ) -> Result<(), NoMemory>
        ensures { OnOk result (self.new ≡ with_write self.old number count writer) }
    {
        self.writers.spread(number, 0, count, writer)?;
        self.changes.unmark(alloc, number, 0, count)
    }

    /// No write stands in so many sectors of a number, from one on.
    pub(crate) fn erase(&mut self, number: u64, first: u64, count: u64) -> Result<(), NoMemory>
        ensures { OnOk result (self.new ≡ erased self.old number first count) }
    {
        self.writers.clear(number, first, count)
    }

    /// What stands in so many sectors of a number, from one on, stands in those of another, from its first on.
    pub(crate) fn pass(
        &mut self,
        alloc: Global,
        above: u64,
        place: u64,
        number: u64,
        count: u64,
    ) -> Result<(), NoMemory>
        ensures { OnOk result (self.new ≡ passed self.old above place number count) }
    {
        let row = self.writers.part(alloc, above, place, count)?;
        self.writers.put(number, 0, &row)?;
        self.changes.hand(alloc, above, place, number, count)
    }

    /// What stands in the first sectors of a number elsewhere stands in these of another.
    pub(crate) fn take(
        &mut self,
        alloc: Global,
        from: &Store,
        above: u64,
        number: u64,
        span: Span,
    ) -> Result<(), NoMemory>
        ensures { OnOk result (self.new
            ≡ stored from.now above self.old number span.first span.len) }
    {
        let row = from.writers.part(alloc, above, 0, span.len)?;
        self.writers.put(number, span.first, &row)?;
        self.changes
            .take(alloc, &from.changes, above, number, span.first, span.len)
    }

    /// Both bytes of a number are changed, the fixed one first.
    pub(crate) fn mark_both(
        &mut self,
        alloc: Global,
        number: u64,
        marks: Marks,
    ) -> Result<(), NoMemory>
        ensures { OnOk result (self.new ≡ both_marked number marks self.old) }
    {
        self.mark(alloc, number, marks.fixed)?;
        self.mark(alloc, number, marks.random)
    }

    /// A byte of a number is changed, if one is; it is counted from the first byte of its first sector.
    fn mark(&mut self, alloc: Global, number: u64, mark: Option<Mark>) -> Result<(), NoMemory>
        ensures { OnOk result (self.new ≡ with_changed_byte number mark self.old) }
    {
        let Some(mark) = mark else {
            return Ok(());
        };
        let sector = mark.place / SECTOR_BYTES;
        let byte = Mark {
            place: mark.place % SECTOR_BYTES,
            value: mark.value,
        };
        let marks = with_mark(alloc, self.changes.of(number, sector), byte)?;
        self.changes.set(number, sector, marks)
    }
}
