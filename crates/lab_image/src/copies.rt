ghost use Rattle.std.specs.Prelude.{◌≡◌, ◌+◌, ◌==◌, IfOk, OnOk, false, if◌then◌else◌, is_some};
ghost use Rattle.lab_image.specs.Changes.{handed, taken_over, unmarked};

use crate::changes::Changes;
use crate::sums::sum;
use crate::way::Way;
use lab_sector::NoMemory;
use lab_watch::Run;
use std::alloc::Global;

impl Changes {
    /// So many sectors of a number, from this one on, have no changed byte.
    pub(crate) fn unmark(
        &mut self,
        alloc: Global,
        number: u64,
        first: u64,
        count: u64,
    ) -> Result<(), NoMemory>
        ensures { OnOk result (self.new ≡ unmarked self.old number first count) }
    {
        let row = self.kept(alloc, number, first, count)?;
        let mut sector = first;
        for run in row.runs() {
            self.unmark_run(alloc, number, sector, *run)?;
            sector = sum(sector, run.count)?;
        }
        Ok(())
    }

    /// The sectors of a run, from this one of a number on, have no changed byte; where nobody stands, they had none.
    fn unmark_run(
        &mut self,
        alloc: Global,
        number: u64,
        sector: u64,
        run: Run,
    ) -> Result<(), NoMemory>
        ensures { OnOk result (self.new ≡ (if is_some run.writer
            then unmarked self.old number sector run.count else self.old)) }
    {
        match run.writer {
            Some(_) => self.unmark_each(alloc, number, sector, run.count),
            None => Ok(()),
        }
    }

    /// So many sectors of a number, from its first on, have the changed bytes of those of another, from this one on.
    pub(crate) fn hand(
        &mut self,
        alloc: Global,
        above: u64,
        place: u64,
        number: u64,
        count: u64,
    ) -> Result<(), NoMemory>
        ensures { OnOk result (self.new ≡ handed self.old above place number 0 count) }
    {
        let way = Way {
            above,
            place,
            number,
            sector: 0,
        };
        if above == number {
            return self.hand_each(alloc, way, count);
        }
        self.hand_to(alloc, way, count)
    }

    /// So many sectors have the changed bytes of those of another number.
    fn hand_to(&mut self, alloc: Global, way: Way, count: u64) -> Result<(), NoMemory>
        requires { (way.above == way.number) ≡ false }
        ensures { OnOk result (self.new
            ≡ handed self.old way.above way.place way.number way.sector count) }
    {
        let row = self.kept(alloc, way.above, way.place, count)?;
        let mut at = way;
        for run in row.runs() {
            self.hand_run(alloc, at, *run)?;
            at = behind(at, run.count)?;
        }
        Ok(())
    }

    /// So many sectors as a run has, have the changed bytes of others; where nobody stands, those have none.
    fn hand_run(&mut self, alloc: Global, way: Way, run: Run) -> Result<(), NoMemory>
        ensures { OnOk result (self.new ≡ (if is_some run.writer
            then handed self.old way.above way.place way.number way.sector run.count
            else unmarked self.old way.number way.sector run.count)) }
    {
        match run.writer {
            Some(_) => self.hand_each(alloc, way, run.count),
            None => self.unmark(alloc, way.number, way.sector, run.count),
        }
    }

    /// So many sectors of a number, from this one on, have the changed bytes of those of another, from its first on,
    /// which are kept elsewhere.
    pub(crate) fn take(
        &mut self,
        alloc: Global,
        from: &Changes,
        above: u64,
        number: u64,
        first: u64,
        count: u64,
    ) -> Result<(), NoMemory>
        ensures { OnOk result (self.new ≡ taken_over from.now above 0 self.old number first count) }
    {
        let row = from.kept(alloc, above, 0, count)?;
        let mut at = Way {
            above,
            place: 0,
            number,
            sector: first,
        };
        for run in row.runs() {
            self.take_run(alloc, from, at, *run)?;
            at = behind(at, run.count)?;
        }
        Ok(())
    }

    /// So many sectors as a run has, have the changed bytes of others that are kept elsewhere; where nobody stands,
    /// those have none.
    fn take_run(
        &mut self,
        alloc: Global,
        from: &Changes,
        way: Way,
        run: Run,
    ) -> Result<(), NoMemory>
        ensures { OnOk result (self.new ≡ (if is_some run.writer
            then taken_over from.now way.above way.place self.old way.number way.sector run.count
            else unmarked self.old way.number way.sector run.count)) }
    {
        match run.writer {
            Some(_) => self.take_each(alloc, from, way, run.count),
            None => self.unmark(alloc, way.number, way.sector, run.count),
        }
    }
}

/// The way behind so many sectors.
fn behind(way: Way, count: u64) -> Result<Way, NoMemory>
    ensures { IfOk result (λ next. next ≡ record way {
      place = way.place + count;
      sector = way.sector + count;
    }) }
{
    let place = sum(way.place, count)?;
    let sector = sum(way.sector, count)?;
    Ok(Way {
        place,
        sector,
        ..way
    })
}
