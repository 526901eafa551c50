ghost use Rattle.std.specs.Prelude.{◌≡◌, OnOk};
ghost use Rattle.lab_image.specs.Changes.{handed, taken_over, unmarked};

use crate::bytes::copied;
use crate::changes::Changes;
use crate::sums::sum;
use crate::way::Way;
use lab_sector::NoMemory;
use std::alloc::Global;

impl Changes {
    /// So many sectors of a number, from this one on, have no changed byte: one after another.
    pub(crate) fn unmark_each(
        &mut self,
        alloc: Global,
        number: u64,
        first: u64,
        count: u64,
    ) -> Result<(), NoMemory>
        ensures { OnOk result (self.new ≡ unmarked self.old number first count) }
    {
        for place in 0..count {
            let sector = sum(first, place)?;
            let none = Vec::new(alloc);
            self.set(number, sector, none)?;
        }
        Ok(())
    }

    /// So many sectors have the changed bytes of others, one after another.
    pub(crate) fn hand_each(&mut self, alloc: Global, way: Way, count: u64) -> Result<(), NoMemory>
        ensures { OnOk result (self.new
            ≡ handed self.old way.above way.place way.number way.sector count) }
    {
        for behind in 0..count {
            let place = sum(way.place, behind)?;
            let sector = sum(way.sector, behind)?;
            let marks = copied(alloc, self.of(way.above, place))?;
            self.set(way.number, sector, marks)?;
        }
        Ok(())
    }

    /// So many sectors have the changed bytes of others that are kept elsewhere, one after another.
    pub(crate) fn take_each(
        &mut self,
        alloc: Global,
        from: &Changes,
        way: Way,
        count: u64,
    ) -> Result<(), NoMemory>
        ensures { OnOk result (self.new
            ≡ taken_over from.now way.above way.place self.old way.number way.sector count) }
    {
        for behind in 0..count {
            let place = sum(way.place, behind)?;
            let sector = sum(way.sector, behind)?;
            let marks = copied(alloc, from.of(way.above, place))?;
            self.set(way.number, sector, marks)?;
        }
        Ok(())
    }
}
