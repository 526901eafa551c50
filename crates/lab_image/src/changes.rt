ghost use Rattle.std.specs.Prelude.{◌≡◌, [], IfOk, OnOk, length, true};
ghost use Rattle.lab_image.specs.Changes.{has_place, marks_at, some_or, with_marks};
ghost use Rattle.lab_image.specs.Places.{ShowsKept};

use indexmap::IndexMap;
use lab_next::{Origin, Writer};
use lab_sector::NoMemory;
use lab_target::Mark;
use lab_watch::{Grid, Row};
use std::alloc::Global;
use std::marker::Model;

/// Bytes that were changed on the way to a disk.
#[derive(Drop)]
pub struct Changes {
    /// By the number of a disk or of a bio, and by a sector of it: its changed bytes, counted from the sector's first,
    /// with the values that they have now.
    entries: IndexMap<(u64, u64), Vec<Mark>>,
    /// By the same: somebody at each sector whose changed bytes are kept, so that nobody looks for those of another.
    places: Grid,
}

impl Model for Changes {
    ghost use Rattle.std.specs.Prelude.{map};
    ghost use Rattle.lab_image.specs.Changes.{Changes as Known};
    ghost use Rattle.lab_image.specs.Places.{IsNoted};

    ghost Value = { Known };

    ghost view = { λ changes. map (λ entry. (entry.0, entry.1.items)) changes.entries.entries };

    ghost invariant = { λ changes. IsNoted
        (map (λ entry. (entry.0, entry.1.items)) changes.entries.entries) changes.places };
}

/// Who stands where changed bytes are kept: it is asked only whether anybody does.
const SOMEBODY: Writer = Writer {
    origin: Origin { log: 0, line: 0 },
    sector: 0,
};

impl Changes {
    /// No byte was changed.
    pub(crate) fn new(alloc: Global) -> Changes
        ensures { result ≡ [] }
    {
        Changes {
            entries: IndexMap::new(alloc),
            places: Grid::new(alloc),
        }
    }

    /// Where changed bytes of so many sectors of a number, from this one on, may be kept: where somebody stands.
    pub(crate) fn kept(
        &self,
        alloc: Global,
        number: u64,
        first: u64,
        count: u64,
    ) -> Result<Row, NoMemory>
        ensures count { IfOk result (λ row. length row ≡ count) }
        ensures shown { IfOk result (λ row. ShowsKept self.now number first row) }
    {
        self.places.part(alloc, number, first, count)
    }

    /// The changed bytes of a sector.
    pub(crate) fn of(&self, number: u64, sector: u64) -> &[Mark]
        ensures { result.now ≡ marks_at self.now (number, sector) }
    {
        match self.entries.get(&(number, sector)) {
            Some(marks) => marks.as_slice(),
            None => &[],
        }
    }

    /// A sector has these changed bytes.
    pub(crate) fn set(&mut self, number: u64, sector: u64, marks: Vec<Mark>) -> Result<(), NoMemory>
        ensures { OnOk result (self.new ≡ with_marks self.old (number, sector) marks.items) }
    {
        if self.is_kept(marks.as_slice(), number, sector) {
            return self.put(number, sector, marks);
        }
        Ok(())
    }

    /// Whether there are some of these changed bytes of a sector, or some were kept.
    fn is_kept(&self, marks: &[Mark], number: u64, sector: u64) -> bool
        ensures { result ≡ some_or (length marks.now) (has_place self.now (number, sector)) }
    {
        !marks.is_empty() || self.has(number, sector)
    }

    /// Whether changed bytes of a sector were kept.
    fn has(&self, number: u64, sector: u64) -> bool
        ensures { result ≡ has_place self.now (number, sector) }
    {
        match self.entries.get(&(number, sector)) {
            Some(_) => true,
            None => false,
        }
    }

    /// Keeps these changed bytes of a sector, of which some are there or were kept. Where it can't be noted that they
    /// are kept, none are any more.
    fn put(&mut self, number: u64, sector: u64, marks: Vec<Mark>) -> Result<(), NoMemory>
        requires { some_or (length marks.items) (has_place self.old (number, sector)) ≡ true }
        ensures { OnOk result (self.new ≡ with_marks self.old (number, sector) marks.items) }
    {
        match self.places.spread(number, sector, 1, SOMEBODY) {
            Ok(()) => {
                self.entries.insert((number, sector), marks)?;
                Ok(())
            }
            Err(refused) => {
                self.entries.clear();
                Err(refused)
            }
        }
    }
}
