ghost use Rattle.std.specs.Prelude.{◌≡◌, find, option_copied, true, IfOk, IfSome, OnOk};
ghost use Rattle.lab_watch.specs.Grids.{cleared, empty, with_writers_from, writer_at, writers_in};
ghost use Rattle.lab_watch.specs.Sheets.{all_within, is_sheet_of, is_sheet_within, kept_down};
ghost use Rattle.lab_watch.specs.Sheets.{laid_over, of_number, of_others, sheet_has};

use crate::grid::Grid;
use crate::row::Row;
use lab_next::Writer;
use lab_sector::NoMemory;
use std::alloc::Global;
use std::marker::Model;

/// Who wrote each of the first sectors of a number.
#[derive(Drop)]
pub(crate) struct Sheet {
    /// The number.
    number: u64,
    /// The writers.
    row: Row,
}

impl Sheet {
    /// Whether it has the first sectors of this number.
    fn is_of(&self, number: u64) -> bool
        ensures { result ≡ is_sheet_of number self.now }
    {
        self.number == number
    }

    /// Whether it has this sector of this number.
    fn has_sector(&self, number: u64, sector: u128) -> bool
        ensures { result ≡ sheet_has number sector self.now }
    {
        self.number == number && sector < self.row.count()
    }

    /// Whether it has no more than so many sectors, if it has this number's.
    fn is_within(&self, number: u64, count: u64) -> bool
        ensures { result ≡ is_sheet_within number count self.now }
    {
        self.number != number || self.row.count() <= u128::from(count)
    }
}

/// A grid of numbers that come and go, each with all of its sectors: what is put for one is kept as it comes.
#[derive(Drop)]
pub struct Sheets {
    /// What was put for each number, the latest first. There are as many as numbers that haven't gone.
    sheets: Vec<Sheet>,
    /// What lies below: the numbers of which only a part was put or taken away.
    below: Grid,
}

impl Model for Sheets {
    ghost use Rattle.lab_watch.specs.Grids.{Grid as Places, grid_code};
    ghost use Rattle.lab_watch.specs.Sheets.{laid_over};

    ghost Value = { Places };

    ghost coded = { grid_code };

    ghost view = { λ sheets. laid_over sheets.sheets.items sheets.below };
}

impl Sheets {
    /// Nobody wrote anything.
    pub fn new(alloc: Global) -> Sheets
        ensures nobody { result ≡ empty }
    {
        Sheets {
            sheets: Vec::new(alloc),
            below: Grid::new(alloc),
        }
    }

    /// Whether it is seen at once that nobody wrote anything.
    pub fn is_empty(&self) -> bool
        ensures nobody { result ≡ true → self.now ≡ empty }
    {
        self.sheets.is_empty() && self.below.is_empty()
    }

    /// Who wrote what stands at this sector.
    pub fn get(&self, number: u64, sector: u128) -> Result<Option<Writer>, NoMemory>
        ensures writer { IfOk result (λ writer. writer ≡ writer_at self.now number sector) }
    {
        match sheet_with(&self.sheets, number, sector) {
            Some(sheet) => sheet.row.get(sector),
            None => Ok(self.below.get(number, sector)),
        }
    }

    /// Puts these writers at the first sectors of a number.
    pub fn put(&mut self, number: u64, row: Row) -> Result<(), NoMemory>
        ensures put { OnOk result (self.new ≡ with_writers_from self.old number 0 row) }
    {
        self.sheets.insert(0, Sheet { number, row })?;
        Ok(())
    }

    /// Puts these writers at the sectors of a number from the first on.
    pub fn put_from(&mut self, number: u64, first: u64, row: Row) -> Result<(), NoMemory>
        ensures put { OnOk result (self.new ≡ with_writers_from self.old number first row) }
    {
        if first == 0 {
            return self.put(number, row);
        }
        if all_within(&self.sheets, number, first) {
            return self.below.put(number, first, &row);
        }
        lay_down(&mut self.below, &self.sheets, number)?;
        take_away(&mut self.sheets, number);
        self.below.put(number, first, &row)
    }

    /// Takes the writers of so many sectors of a number away, from the first on.
    pub fn clear(&mut self, number: u64, first: u64, count: u64) -> Result<(), NoMemory>
        ensures cleared { OnOk result (self.new ≡ cleared self.old number first count) }
    {
        keep_down(&mut self.below, &self.sheets, number, first, count)?;
        take_away(&mut self.sheets, number);
        self.below.clear(number, first, count)
    }

    /// The writers of the first so many sectors of a number, where they were put as they are.
    pub fn whole(&self, number: u64, count: u64) -> Option<&Row>
        ensures whole { IfSome result (λ row. row.now ≡ writers_in self.now number 0 count) }
    {
        let sheet = sheet_of(&self.sheets, number)?;
        if sheet.row.count() == u128::from(count) {
            Some(&sheet.row)
        } else {
            None
        }
    }

    /// The writers of the first so many sectors of a number.
    pub fn part(&self, alloc: Global, number: u64, count: u64) -> Result<Row, NoMemory>
        ensures part { IfOk result (λ row. row ≡ writers_in self.now number 0 count) }
    {
        if let Some(row) = self.continued(alloc, number, count)? {
            return Ok(row);
        }
        let below = self.below.part(alloc, number, 0, count)?;
        if sheet_of(&self.sheets, number).is_none() {
            return Ok(below);
        }
        let mut grid = Grid::new(alloc);
        grid.put(number, 0, &below)?;
        lay_down(&mut grid, &self.sheets, number)?;
        grid.part(alloc, number, 0, count)
    }

    /// The same, where the latest row of the number has no fewer sectors than its others: that row, and behind it what
    /// lies below.
    fn continued(&self, alloc: Global, number: u64, count: u64) -> Result<Option<Row>, NoMemory>
        ensures { IfOk result (λ found. IfSome found (λ row.
            row ≡ writers_in self.now number 0 count)) }
    {
        let Some(sheet) = sheet_of(&self.sheets, number) else {
            return Ok(None);
        };
        match u64::try_from(sheet.row.count()) {
            Ok(first) if first <= count && all_within(&self.sheets, number, first) => {
                let behind = self.below.part(alloc, number, first, count - first)?;
                Ok(Some(sheet.row.followed(alloc, &behind)?))
            }
            _ => Ok(None),
        }
    }
}

/// The latest of a number.
fn sheet_of(sheets: &[Sheet], number: u64) -> Option<&Sheet>
    ensures { option_copied result ≡ find (is_sheet_of number) sheets.now }
{
    sheets.iter().find(|sheet| sheet.is_of(number))
}

/// The latest with a sector of a number.
fn sheet_with(sheets: &[Sheet], number: u64, sector: u128) -> Option<&Sheet>
    ensures { option_copied result ≡ find (sheet_has number sector) sheets.now }
{
    sheets.iter().find(|sheet| sheet.has_sector(number, sector))
}

/// Whether those of a number have no more than so many sectors.
fn all_within(sheets: &[Sheet], number: u64, count: u64) -> bool
    ensures { result ≡ all_within number count sheets.now }
{
    sheets.iter().all(|sheet| sheet.is_within(number, count))
}

/// Puts those of a number into a grid, where they have others than so many sectors from the first on.
fn keep_down(
    grid: &mut Grid,
    sheets: &[Sheet],
    number: u64,
    first: u64,
    count: u64,
) -> Result<(), NoMemory>
    ensures { OnOk result (grid.new ≡ kept_down number first count sheets.now grid.old) }
{
    if first > 0 || !all_within(sheets, number, count) {
        lay_down(grid, sheets, number)?;
    }
    Ok(())
}

/// Takes those of a number away.
fn take_away(sheets: &mut Vec<Sheet>, number: u64)
    ensures { sheets.new.items ≡ of_others number sheets.old.items }
{
    sheets.retain(|sheet| !sheet.is_of(number));
}

/// Puts those of a number into a grid, the latest last.
fn lay_down(grid: &mut Grid, sheets: &[Sheet], number: u64) -> Result<(), NoMemory>
    ensures { OnOk result (grid.new ≡ laid_over (of_number number sheets.now) grid.old) }
{
    let Some((latest, others)) = sheets.split_first() else {
        return Ok(());
    };
    lay_down(grid, others, number)?;
    if latest.is_of(number) {
        grid.put(number, 0, &latest.row)?;
    }
    Ok(())
}
