ghost use Rattle.std.specs.Prelude.{◌≡◌, ◌+◌, ◌<◌, ◌≤◌, [], IfNone, IfOk, IfSome, length, slice_get, vec_capacity};
ghost use Rattle.lab_model.specs.Sectors.{filled, marked, marked_by, put};
ghost use Rattle.lab_bios.specs.Answered.{after, answered_of, with_change};

use crate::sectors::{Sectors, copied, fill_room, filled, put};
use lab_disk::Sector;
use lab_sector::{NoMemory, SECTOR_BYTES};
use lab_target::{Mark, Marks};
use std::alloc::Global;
use std::marker::Model;

/// What a read in flight has been answered so far: as many sectors as it asks for, zero bytes until others are recorded.
/// While all are zero bytes none is kept, and there is room for just as many as there are. What isn't a read has none.
#[derive(Debug, Drop)]
pub struct Answered {
    /// It gives the sectors of what has none.
    alloc: Global,
    /// In a box, so that a bio that has none is small.
    kept: Option<Box<Sectors>>,
}

impl Model for Answered {
    ghost use Rattle.std.specs.Prelude.{ℕ, List};
    ghost use Rattle.lab_bios.specs.Answered.{kept_in};

    ghost Value = { List (List ℕ) };

    ghost view = { λ answered. kept_in answered.kept };
}

impl Answered {
    /// So many sectors of zero bytes, none of which is written yet.
    pub fn zeroes(alloc: Global, count: u64) -> Result<Answered, NoMemory>
        ensures { IfOk result (λ answered. answered ≡ filled count 0) }
    {
        let kept = Vec::with_capacity(alloc, count as usize)?;
        Ok(Answered {
            alloc,
            kept: Some(Box::new(alloc, kept)?),
        })
    }

    /// No sectors, for what isn't a read.
    pub fn none(alloc: Global) -> Answered
        ensures { result ≡ [] }
    {
        Answered { alloc, kept: None }
    }

    /// How many sectors there are.
    #[inline]
    pub fn count(&self) -> usize
        ensures { result ≡ length self.now }
    {
        match &self.kept {
            Some(kept) => count_of(kept),
            None => 0,
        }
    }

    /// The sectors, unless all are zero bytes that aren't written yet.
    #[inline]
    pub fn kept(&self) -> Option<&[Sector]>
        ensures some { IfSome result (λ sectors. sectors.now ≡ self.now) }
        ensures none { IfNone result (self.now ≡ filled (length self.now) 0) }
    {
        let Some(kept) = &self.kept else {
            return None;
        };
        if kept.len() < count_of(kept) {
            None
        } else {
            Some(kept.as_slice())
        }
    }

    /// The sectors.
    fn into_sectors(self) -> Sectors
        ensures { result.items ≡ self }
    {
        let Answered { alloc, kept } = self;
        let Some(kept) = kept else {
            return Vec::new(alloc);
        };
        let mut sectors = Box::into_inner(kept);
        fill(&mut sectors);
        sectors
    }

    /// The sectors, in memory of their own.
    pub fn sectors(&self, alloc: Global) -> Result<Sectors, NoMemory>
        ensures { IfOk result (λ out. out.items ≡ self.now) }
    {
        match self.kept() {
            Some(kept) => copied(alloc, kept),
            None => filled(alloc, self.count() as u64, 0),
        }
    }

    /// What these marks make of the sectors that they change. Nothing but these takes memory.
    pub fn changed(&self, alloc: Global, marks: Marks) -> Result<Changed, NoMemory>
        ensures { IfOk result (λ changed. after changed self.now ≡ marked marks self.now) }
    {
        let fixed = self.changed_by(alloc, &None, marks.fixed)?;
        let random = self.changed_by(alloc, &fixed, marks.random)?;
        Ok((fixed, random))
    }

    /// What a mark makes of the sector that it changes, after another change.
    fn changed_by(
        &self,
        alloc: Global,
        before: &Change,
        mark: Option<Mark>,
    ) -> Result<Change, NoMemory>
        ensures { IfOk result (λ change. with_change change (with_change before.now self.now)
            ≡ marked_by mark (with_change before.now self.now)) }
    {
        let Some(mark) = mark else {
            return Ok(None);
        };
        let place = (mark.place / SECTOR_BYTES) as usize;
        let mut sector = self.sector_after(before, place)?;
        sector.set(alloc, (mark.place % SECTOR_BYTES) as usize, mark.value)?;
        Ok(Some((place, sector)))
    }

    /// The sector at a place after a change, if there is one.
    fn sector_after(&self, before: &Change, place: usize) -> Result<Sector, NoMemory>
        ensures { IfOk result (λ sector. IfSome (slice_get (with_change before.now self.now) place)
            (λ there. sector ≡ there)) }
    {
        if let Some((changed, sector)) = before
            && *changed == place
        {
            return sector.copy();
        }
        match self.kept() {
            Some(kept) if place < kept.len() => kept[place].copy(),
            _ => Ok(Sector::of(0)),
        }
    }

    /// The sectors, where those that are changed are put in their places.
    pub fn into_changed(self, changed: Changed) -> Sectors
        ensures { result.items ≡ after changed self }
    {
        let (first, second) = changed;
        let mut sectors = self.into_sectors();
        put_change(&mut sectors, first);
        put_change(&mut sectors, second);
        sectors
    }

    /// Puts the sectors that a piece gave, if it gave any, in their place.
    #[inline]
    pub(crate) fn record(&mut self, first: u64, sectors: Sectors)
        requires { 0 < length sectors.items → first + length sectors.items ≤ length self.old }
        ensures { self.new ≡ put self.old first sectors.items }
    {
        if let Some(kept) = &mut self.kept {
            record_among(kept, first, sectors);
        }
    }
}

/// A sector that takes the place of another one, if there is one, and that place.
type Change = Option<(usize, Sector)>;

/// Two such, of which the second comes after the first.
pub type Changed = (Change, Change);

/// Puts a sector, if there is one, in the place of another one.
fn put_change(sectors: &mut Sectors, change: Change)
    ensures { sectors.new.items ≡ with_change change sectors.old.items }
{
    if let Some((place, sector)) = change
        && place < sectors.len()
    {
        sectors[place] = sector;
    }
}

/// How many sectors there are where these are kept: without one, as many as there is room for.
#[inline]
fn count_of(kept: &Sectors) -> usize
    ensures { result ≡ length (answered_of kept.now.items (vec_capacity kept.now)) }
{
    if kept.is_empty() {
        kept.capacity()
    } else {
        kept.len()
    }
}

/// Puts sectors, if there are any, in their place among those that are kept.
#[inline]
#[tactic(auto, using(crate::proofs::Rulesets::answered_record))]
fn record_among(kept: &mut Sectors, first: u64, sectors: Sectors)
    requires { 0 < length sectors.items → first + length sectors.items
        ≤ length (answered_of kept.old.items (vec_capacity kept.old)) }
    ensures { answered_of kept.new.items (vec_capacity kept.new)
        ≡ put (answered_of kept.old.items (vec_capacity kept.old)) first sectors.items }
{
    if sectors.is_empty() {
        return;
    }
    if sectors.len() == count_of(kept) {
        *kept = sectors;
    } else {
        fill(kept);
        put(kept, first, sectors);
    }
}

/// Writes the zero bytes of as many sectors as there is room for, where none is there yet.
fn fill(kept: &mut Sectors)
    ensures { kept.new.items ≡ answered_of kept.old.items (vec_capacity kept.old) }
{
    if kept.is_empty() {
        let room = kept.capacity();
        fill_room(kept, room, 0);
    }
}
