ghost use Rattle.std.specs.Prelude.{◌≡◌, List, Option, ◌++◌, ◌+◌, ◌≤◌, ◌^◌, IfOk, OnOk, true};
ghost use Rattle.lab_next.specs.declared.writer.Writer.{Writer};
ghost use Rattle.lab_watch.specs.Grids.{cleared, empty, side_by_side, spread, with_writers_from};
ghost use Rattle.lab_watch.specs.Grids.{writer_at, writers_in};

use crate::rooms::{NUMBERS, WIDTH, places};
use crate::row::{Row, Run};
use crate::seeing::{seen, seen_between};
use crate::stretch::Stretch;
use crate::stretches::{clear_between, lay};
use lab_next::Writer;
use lab_sector::NoMemory;
use std::alloc::Global;
use std::collections::BTreeMap;
use std::marker::Model;

/// Who wrote, by two numbers: that of a disk or of a bio, and that of a sector.
#[derive(Drop)]
pub struct Grid {
    /// By the place behind the last of them: sectors that an operation wrote one after another.
    stretches: BTreeMap<u128, Stretch>,
}

impl Model for Grid {
    ghost use Rattle.lab_watch.specs.Grids.{Grid as Places, grid_code};
    ghost use Rattle.lab_watch.specs.Stretches.{laid};

    ghost Value = { Places };

    ghost coded = { grid_code };

    ghost view = { λ grid. laid grid.stretches.entries };
}

impl Grid {
    /// Nobody wrote anything.
    pub fn new(alloc: Global) -> Grid
        ensures nobody { result ≡ empty }
    {
        Grid {
            stretches: BTreeMap::new(alloc),
        }
    }

    /// Whether it is seen at once that nobody wrote anything.
    pub fn is_empty(&self) -> bool
        ensures nobody { result ≡ true → self.now ≡ empty }
    {
        self.stretches.is_empty()
    }

    /// Who wrote what stands at this sector.
    pub fn get(&self, number: u64, sector: u128) -> Option<Writer>
        ensures writer { result ≡ writer_at self.now number sector }
    {
        let stretches = &self.stretches;
        if number >= NUMBERS || sector >= WIDTH {
            return None;
        }
        seen(stretches, u128::from(number) * WIDTH + sector)
    }

    /// Puts an operation's sectors, from this one on, at so many sectors from the first on.
    pub fn spread(
        &mut self,
        number: u64,
        first: u64,
        count: u64,
        writer: Writer,
    ) -> Result<(), NoMemory>
        ensures spread { OnOk result (self.new ≡ spread self.old number first count writer) }
    {
        self.spread_from(number, u128::from(first), count, writer)
    }

    /// Takes the writers of so many sectors away, from the first on.
    pub fn clear(&mut self, number: u64, first: u64, count: u64) -> Result<(), NoMemory>
        ensures cleared { OnOk result (self.new ≡ cleared self.old number first count) }
    {
        self.clear_from(number, u128::from(first), count)
    }

    /// Puts these writers at the sectors from the first on.
    pub fn put(&mut self, number: u64, first: u64, row: &Row) -> Result<(), NoMemory>
        ensures put { OnOk result (self.new ≡ with_writers_from self.old number first row.now) }
    {
        let mut sector = u128::from(first);
        for run in row.runs() {
            self.put_run(number, sector, *run)?;
            sector += u128::from(run.count);
        }
        Ok(())
    }

    /// The writers of so many sectors from the first on.
    pub fn part(&self, alloc: Global, number: u64, first: u64, count: u64) -> Result<Row, NoMemory>
        ensures part { IfOk result (λ row. row ≡ writers_in self.now number first count) }
    {
        let (place, end) = places(number, u128::from(first), count)?;
        seen_between(alloc, &self.stretches, place, end)
    }

    /// Puts an operation's sectors, from this one on, at so many sectors from the first on.
    pub(crate) fn spread_from(
        &mut self,
        number: u64,
        first: u128,
        count: u64,
        writer: Writer,
    ) -> Result<(), NoMemory>
        ensures spread { OnOk result (self.new ≡ spread self.old number first count writer) }
        ensures within { OnOk result (first + count ≤ 2 ^ 65) }
    {
        let (place, end) = places(number, first, count)?;
        if place < end {
            lay(&mut self.stretches, place, end, writer)?;
        }
        Ok(())
    }

    /// Takes the writers of so many sectors away, from the first on.
    fn clear_from(&mut self, number: u64, first: u128, count: u64) -> Result<(), NoMemory>
        ensures cleared { OnOk result (self.new ≡ cleared self.old number first count) }
        ensures within { OnOk result (first + count ≤ 2 ^ 65) }
    {
        let (place, end) = places(number, first, count)?;
        if place < end {
            clear_between(&mut self.stretches, place, end)?;
        }
        Ok(())
    }

    /// Puts the sectors of a run from the first on.
    fn put_run(&mut self, number: u64, first: u128, run: Run) -> Result<(), NoMemory>
        ensures put { OnOk result ((rest : List (Option Writer))
            → with_writers_from self.old number first (side_by_side run.count run.writer ++ rest)
            ≡ with_writers_from self.new number (first + run.count) rest) }
        ensures within { OnOk result (first + run.count ≤ 2 ^ 65) }
    {
        match run.writer {
            Some(writer) => self.spread_from(number, first, run.count, writer),
            None => self.clear_from(number, first, run.count),
        }
    }
}
