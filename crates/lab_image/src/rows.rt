ghost use Rattle.std.specs.Prelude.{◌≡◌, IfOk, OnOk, Some, option_copied, option_map};
ghost use Rattle.lab_watch.specs.Grids.{side_by_side, writer_from, writers_in};
ghost use Rattle.lab_image.specs.Given.{GiveAll};
ghost use Rattle.lab_image.specs.Rows.{added, behind_disks, image_rows, sector_row, sectors_on};
ghost use Rattle.lab_image.specs.Rows.{with_disk_rows, with_sector_rows};

use crate::bytes::copied;
use crate::row::{DiskRow, add};
use crate::store::Store;
use crate::sums::sum;
use lab_next::Writer;
use lab_sector::NoMemory;
use lab_state::RamDisk;
use lab_watch::Run;
use std::alloc::Global;

impl Store {
    /// What stands on these disks, by their numbers: a row for each run of sectors that one write wrote, one sector of
    /// it after another, and for each sector of which a byte was changed.
    pub fn rows(&self, alloc: Global, disks: &[RamDisk]) -> Result<Vec<DiskRow>, NoMemory>
        ensures rows { IfOk result (λ rows. rows.items ≡ image_rows self.now disks.now) }
        ensures given { IfOk result (λ rows. GiveAll self.now disks.now rows.items) }
    {
        let mut rows = Vec::new(alloc);
        for number in 0..behind_disks(disks) {
            self.add_disk(alloc, &mut rows, number, disk_in(disks, number))?;
        }
        Ok(rows)
    }

    /// Adds the rows of a disk of this number, if it is there.
    fn add_disk(
        &self,
        alloc: Global,
        rows: &mut Vec<DiskRow>,
        number: u64,
        disk: Option<&RamDisk>,
    ) -> Result<(), NoMemory>
        ensures { OnOk result (rows.new.items ≡ with_disk_rows self.now rows.old.items number
            (option_map (λ disk. disk.sectors) (option_copied disk.entry))) }
    {
        match disk {
            Some(ram) => self.add_sectors(alloc, rows, number, ram.disk.size()),
            None => Ok(()),
        }
    }

    /// Adds the rows of a disk of so many sectors.
    fn add_sectors(
        &self,
        alloc: Global,
        rows: &mut Vec<DiskRow>,
        disk: u64,
        size: u64,
    ) -> Result<(), NoMemory>
        ensures { OnOk result (rows.new.items
            ≡ with_sector_rows self.now.changes disk rows.old.items 0
            (writers_in self.now.writers disk 0 size)) }
    {
        let row = self.writers.part(alloc, disk, 0, size)?;
        let mut sector: u64 = 0;
        for run in row.runs() {
            self.add_run(alloc, rows, disk, sector, *run)?;
            sector = sum(sector, run.count)?;
        }
        Ok(())
    }

    /// Adds the sectors of a run, from this one of the disk on.
    fn add_run(
        &self,
        alloc: Global,
        rows: &mut Vec<DiskRow>,
        disk: u64,
        sector: u64,
        run: Run,
    ) -> Result<(), NoMemory>
        ensures { OnOk result (rows.new.items
            ≡ with_sector_rows self.now.changes disk rows.old.items
            sector (side_by_side run.count run.writer)) }
    {
        match run.writer {
            Some(writer) => self.add_written(alloc, rows, disk, sector, run.count, writer),
            None => Ok(()),
        }
    }

    /// Adds so many sectors from this one of the disk on, which have those of a write from this one on.
    fn add_written(
        &self,
        alloc: Global,
        rows: &mut Vec<DiskRow>,
        disk: u64,
        sector: u64,
        count: u64,
        writer: Writer,
    ) -> Result<(), NoMemory>
        ensures { OnOk result (rows.new.items
            ≡ with_sector_rows self.now.changes disk rows.old.items
            sector (side_by_side count (Some writer))) }
    {
        for place in 0..count {
            let at = sum(sector, place)?;
            self.add_sector(alloc, rows, disk, at, behind(writer, place)?)?;
        }
        Ok(())
    }

    /// Adds a sector that has this one of a write.
    fn add_sector(
        &self,
        alloc: Global,
        rows: &mut Vec<DiskRow>,
        disk: u64,
        sector: u64,
        writer: Writer,
    ) -> Result<(), NoMemory>
        ensures { OnOk result (rows.new.items
            ≡ added rows.old.items (sector_row self.now.changes disk sector writer)) }
    {
        let row = DiskRow {
            disk,
            first: sector,
            count: 1,
            writer,
            changed: copied(alloc, self.changes.of(disk, sector))?,
        };
        add(rows, row)
    }
}

/// The sector of an operation that comes so far behind another.
fn behind(writer: Writer, place: u64) -> Result<Writer, NoMemory>
    ensures { IfOk result (λ other. other ≡ writer_from writer place) }
{
    let sector = writer
        .sector
        .checked_add(u128::from(place))
        .ok_or(NoMemory)?;
    Ok(Writer { sector, ..writer })
}

/// The disk of this number, if it is there.
fn disk_in(disks: &[RamDisk], number: u64) -> Option<&RamDisk>
    ensures { option_map (λ disk. disk.sectors) (option_copied result)
        ≡ sectors_on disks.now number }
{
    disks.iter().find(|ram| u64::from(ram.number) == number)
}

/// A number behind those of all disks.
fn behind_disks(disks: &[RamDisk]) -> u64
    ensures { result ≡ behind_disks disks.now }
{
    let mut last = 0;
    for ram in disks {
        last = last.max(u64::from(ram.number) + 1);
    }
    last
}
