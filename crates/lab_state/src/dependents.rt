ghost use Rattle.std.specs.Prelude.{◌≡◌, ◌<◌, List, [], IfOk, OnOk, Option, Some, get_or, length, map, nat_lt, replicate, true};
ghost use Rattle.lab_bios.specs.Views.{stage_of};
ghost use Rattle.lab_model.specs.Bios.{Bio};
ghost use Rattle.lab_state.specs.Dependents.{IsListed, IsListedAt, KeepsAll, KeepsListed, no_rows};
ghost use Rattle.lab_state.specs.Dependents.{depends_on as decider, device_of as its_device, has_number, is_device};
ghost use Rattle.lab_state.specs.Entered.{AreKnown, IsKnownAt, known_of};

use crate::entered::{forget, tell};
use lab_bios::{Bios, Stage};
use lab_sector::{DevNo, NoMemory};
use std::alloc::Global;
use std::marker::Model;

/// So many bios are to be made before devices have rows: to go through fewer takes no longer.
const MANY: u64 = 4_096;

/// So many numbers a row has before it is tidied for want of room: they take half a mebibyte.
const LONG: usize = 65_536;

/// Rows are made for at least so many devices, as many as a script may create: one that is created later has its row.
pub(crate) const DEVICES: usize = 32;

/// By device, the numbers of the bios that depend on its mode: that enter it or are held by it.
///
/// A row may have other numbers too, and one number twice; it lacks none. A device may have no row: none has one before
/// the first change of a mode among many bios, nor once memory has run out.
#[derive(Drop)]
pub(crate) struct Dependents {
    /// Where the rows are made.
    alloc: Global,
    rows: Vec<Vec<u64>>,
    /// By number the mapped device that its bio is known to enter, counted from 1; 0 where nothing is known.
    ///
    /// A bio that enters is told by its byte, so that its record needn't be read. There are bytes only where there are
    /// rows. That of number 0, which no bio has, is never asked for.
    entered: Vec<u8>,
}

impl Model for Dependents {
    ghost use Rattle.std.specs.Prelude.{map};
    ghost use Rattle.lab_state.specs.Dependents.{DependentRows};

    ghost Value = { DependentRows };

    ghost view = { λ dependents. record {
      rows = map (λ row. row.items) dependents.rows.items;
      entered = dependents.entered.items;
    } };
}

/// The device whose mode decides whether a bio goes on: the mapped one that it enters, or its holder.
#[inline(always)]
pub(crate) fn depends_on(device: DevNo, stage: &Stage) -> Option<u32>
    ensures { result ≡ decider device (stage_of stage.now) }
{
    match (device, stage) {
        (DevNo::Dm(number), Stage::Entering) => Some(number),
        (_, Stage::Held(_, holder)) => Some(*holder),
        _ => None,
    }
}

/// The device on whose mode the bio of this number depends, if it lives and depends on any.
#[inline(always)]
fn device_of(bios: &Bios, number: u64) -> Option<u32>
    ensures { result ≡ its_device bios.now.items number }
{
    let bio = bios.get(number)?;
    depends_on(bio.device, &bio.stage)
}

/// Whether the bio of this number lives and depends on this device.
#[inline(always)]
fn is_dependent(bios: &Bios, number: u64, device: u32) -> bool
    ensures { result ≡ is_device (its_device bios.now.items number) device }
{
    match bios.get(number) {
        Some(bio) => depends_on(bio.device, &bio.stage) == Some(device),
        None => false,
    }
}

/// So many empty rows.
fn empty_rows(alloc: Global, count: usize) -> Result<Vec<Vec<u64>>, NoMemory>
    ensures { IfOk result (λ rows. map (λ row. row.items) rows.items ≡ replicate count []) }
{
    let mut rows = Vec::with_capacity(alloc, count)?;
    for _ in 0..count {
        rows.push(Vec::new(alloc))?;
    }
    Ok(rows)
}

/// What doesn't depend on this device is not in the row any more.
fn tidy(bios: &Bios, device: u32, row: &mut Vec<u64>)
    ensures { KeepsAll bios.now.items device row.old.items row.new.items }
{
    row.retain(|number| is_dependent(bios, *number, device));
}

/// Tidies a row that has become long, so that it has no more memory than what depends on its device asks for.
fn tidy_long(bios: &Bios, device: u32, row: &mut Vec<u64>)
    ensures { KeepsAll bios.now.items device row.old.items row.new.items }
{
    if row.len() >= LONG {
        tidy(bios, device, row);
    }
}

/// Tidies a row of which so many numbers depend on its device, where these are less than half: so a row is tidied seldom,
/// and to go through it never takes twice as long as what depends on its device asks for.
fn tidy_sparse(bios: &Bios, device: u32, row: &mut Vec<u64>, count: usize)
    ensures { KeepsAll bios.now.items device row.old.items row.new.items }
{
    if count < row.len() / 2 {
        tidy(bios, device, row);
    }
}

/// There is room for one number more in a device's row. Where there was none there is room for as many again, so that a
/// long row is seldom tidied.
fn make_room(bios: &Bios, device: u32, row: &mut Vec<u64>) -> Result<(), NoMemory>
    ensures { KeepsAll bios.now.items device row.old.items row.new.items }
{
    if row.len() < row.capacity() {
        return Ok(());
    }
    tidy_long(bios, device, row);
    row.reserve(row.len().max(64))?;
    Ok(())
}

/// Puts a number into a device's row.
fn put(bios: &Bios, device: u32, row: &mut Vec<u64>, number: u64) -> Result<(), NoMemory>
    ensures here { OnOk result (has_number row.new.items number ≡ true) }
    ensures keeps { OnOk result (KeepsAll bios.now.items device row.old.items row.new.items) }
{
    make_room(bios, device, row)?;
    row.push(number)?;
    Ok(())
}

impl Dependents {
    /// No device has a row.
    pub(crate) fn new(alloc: Global) -> Dependents
        ensures { result ≡ no_rows }
    {
        Dependents {
            alloc,
            rows: Vec::new(alloc),
            entered: Vec::new(alloc),
        }
    }

    /// Whether this device has a row.
    #[inline(always)]
    pub(crate) fn has_row(&self, device: u32) -> bool
        ensures { result ≡ nat_lt device (length self.now.rows) }
    {
        (device as usize) < self.rows.len()
    }

    /// The row of this device.
    pub(crate) fn row(&self, device: u32) -> &[u64]
        requires { device < length self.now.rows }
        ensures { result.now ≡ get_or self.now.rows device [] }
    {
        &self.rows[device as usize]
    }

    /// By number the mapped device that its bio is known to enter, counted from 1; 0 where nothing is known.
    pub(crate) fn entered(&self) -> &[u8]
        ensures { result.now ≡ self.now.entered }
    {
        &self.entered
    }

    /// What the bio of this number enters isn't known any more.
    #[inline(always)]
    pub(crate) fn forget(&mut self, number: u64)
        ensures here { known_of self.new.entered number ≡ 0 }
        ensures keeps { (bios : List (Option Bio)) → KeepsListed bios self.old self.new }
    {
        forget(&mut self.entered, number);
    }

    /// The bio of this number, which depends on this device, if on any, is in its row if it has one.
    ///
    /// Where memory runs out no device has a row any more, and nothing is known of any bio.
    #[inline(always)]
    pub(crate) fn add(&mut self, bios: &Bios, number: u64, device: Option<u32>)
        requires device { device ≡ its_device bios.now.items number }
        requires known { IsKnownAt bios.now.items self.old.entered number }
        ensures here { IsListedAt bios.now.items self.new number }
        ensures keeps { KeepsListed bios.now.items self.old self.new }
    {
        let Some(device) = device else {
            return;
        };
        if self.has_row(device) {
            self.add_to_row(bios, number, device);
        }
    }

    /// The bio of this number, which depends on this device, is in its row, as `add` says.
    #[inline(never)]
    fn add_to_row(&mut self, bios: &Bios, number: u64, device: u32)
        requires has_row { device < length self.old.rows }
        requires device { its_device bios.now.items number ≡ Some device }
        ensures here { IsListedAt bios.now.items self.new number }
        ensures keeps { KeepsListed bios.now.items self.old self.new }
        ensures known { AreKnown bios.now.items self.old.entered
            → AreKnown bios.now.items self.new.entered }
    {
        if self.try_add(bios, number, device).is_err() {
            self.rows.clear();
            self.entered.clear();
        }
    }

    /// The same, unless memory runs out, and what the bio enters is known from now on.
    fn try_add(&mut self, bios: &Bios, number: u64, device: u32) -> Result<(), NoMemory>
        requires has_row { device < length self.old.rows }
        requires device { its_device bios.now.items number ≡ Some device }
        ensures here { OnOk result (IsListedAt bios.now.items self.new number) }
        ensures keeps { OnOk result (KeepsListed bios.now.items self.old self.new) }
        ensures known { OnOk result (AreKnown bios.now.items self.old.entered
            → AreKnown bios.now.items self.new.entered) }
    {
        put(bios, device, &mut self.rows[device as usize], number)?;
        tell(bios, &mut self.entered, number)?;
        Ok(())
    }

    /// Tidies the row of this device, of which so many numbers depend on it, where these are few.
    pub(crate) fn tidy(&mut self, bios: &Bios, device: u32, count: usize)
        requires has_row { device < length self.old.rows }
        requires listed { IsListed bios.now.items self.old }
        ensures { IsListed bios.now.items self.new }
    {
        tidy_sparse(bios, device, &mut self.rows[device as usize], count);
    }

    /// Each of so many devices, and of those that may be created later, has a row if this one has none, unless few bios
    /// were made or memory runs out.
    pub(crate) fn open(&mut self, bios: &Bios, device: u32, count: usize)
        requires { IsListed bios.now.items self.old }
        ensures { IsListed bios.now.items self.new }
    {
        if self.has_row(device) || bios.count() < MANY {
            return;
        }
        let Ok(rows) = empty_rows(self.alloc, count.max(DEVICES)) else {
            return;
        };
        self.rows = rows;
        self.gather(bios);
    }

    /// All bios are in the rows of the devices that they depend on.
    fn gather(&mut self, bios: &Bios)
        requires { AreKnown bios.now.items self.old.entered }
        ensures { IsListed bios.now.items self.new }
    {
        let mut from = 1;
        while let Some(number) = bios.next_living(from) {
            if let Some(device) = device_of(bios, number)
                && self.has_row(device)
            {
                self.add_to_row(bios, number, device);
            }
            from = number + 1;
        }
    }
}
