ghost use Rattle.std.specs.Prelude.{◌≡◌, ◌+◌, IfOk, OnOk, option_copied};
ghost use Rattle.lab_findings.specs.Heard.{changer_of, has_right, spoiled_at, spoiled_by, spoiled_if};

use crate::changes::{fill_of, is_changed};
use crate::culprit::Culprit;
use crate::hearing::{blame, line_with, sector_at};
use crate::watch::Watch;
use lab_bios::{Bio, Parent};
use lab_disk::Sector;
use lab_next::{Root, Writer, parent_of, place_in};
use lab_sector::{NoMemory, Span};
use lab_state::State;
use lab_target::Target;
use std::alloc::Global;

impl Watch {
    /// A disk serves a write by a bio with this root. Where all that it writes is the byte that was asked for, nothing
    /// is spoiled.
    pub(crate) fn spoil_if<T: Target>(
        &mut self,
        alloc: Global,
        state: &State<T>,
        number: u64,
        bio: &Bio,
        root: Option<Root>,
    ) -> Result<(), NoMemory>
        ensures { OnOk result (self.new
            ≡ spoiled_if T.meaning state.now self.old number bio.now.sectors root) }
    {
        let Some(root) = root else {
            return Ok(());
        };
        let byte = fill_of(root.writer.origin);
        if bio.fill() == Some(byte) {
            return Ok(());
        }
        let sectors = bio.sectors(alloc)?;
        self.spoil_by(alloc, state, number, root, byte, &sectors)
    }

    /// The changed ones of these sectors of the bio of this number are spoiled.
    fn spoil_by<T: Target>(
        &mut self,
        alloc: Global,
        state: &State<T>,
        number: u64,
        root: Root,
        byte: u8,
        sectors: &[Sector],
    ) -> Result<(), NoMemory>
        ensures { OnOk result (self.new
            ≡ spoiled_by T.meaning state.now self.old number root byte 0 sectors.now) }
    {
        let mut place = 0;
        for sector in sectors {
            if is_changed(byte, sector) {
                self.spoil_at(alloc, state, number, root, byte, place)?;
            }
            place += 1;
        }
        Ok(())
    }

    /// The sector at a place of the bio of this number reaches a disk with another byte.
    fn spoil_at<T: Target>(
        &mut self,
        alloc: Global,
        state: &State<T>,
        number: u64,
        root: Root,
        byte: u8,
        place: u64,
    ) -> Result<(), NoMemory>
        ensures { OnOk result (self.new
            ≡ spoiled_at T.meaning state.now self.old number root byte place) }
    {
        let culprit = changer_of(alloc, state, number, byte, place)?;
        blame(&mut self.culprits, root, place, culprit)?;
        let sector = sector_at(root, place)?;
        let writer = Writer {
            sector: u128::from(sector),
            ..root.writer
        };
        self.spoiled.spread(root.number, sector, 1, writer)
    }
}

/// Which line changed the sector at a place of the bio of a number on its way down: that of the lowest bio above in
/// which the sector still has the byte that was written.
fn changer_of<T: Target>(
    alloc: Global,
    state: &State<T>,
    number: u64,
    byte: u8,
    place: u64,
) -> Result<Option<Culprit>, NoMemory>
    ensures { IfOk result (λ culprit. culprit ≡ changer_of T.meaning state.now number byte place) }
{
    let mut parent = parent_of(state, number);
    let mut left = number;
    let mut place = place;
    while let Some(Parent::FromBio(above, piece)) = parent {
        if left == 0 {
            return Ok(None);
        }
        let bio = state.traffic.get(above);
        place = place.checked_add(place_in(piece, bio)).ok_or(NoMemory)?;
        if has_right(alloc, byte, place, bio)? {
            return line_with(alloc, state, piece, bio);
        }
        left -= 1;
        parent = parent_of(state, above);
    }
    Ok(None)
}

/// Whether a bio's sector at a place is there, and has this byte alone.
fn has_right(alloc: Global, byte: u8, place: u64, bio: Option<&Bio>) -> Result<bool, NoMemory>
    ensures { IfOk result (λ right. right ≡ has_right byte place (option_copied bio.entry)) }
{
    let Some(bio) = bio else {
        return Ok(false);
    };
    let part = bio.part(
        alloc,
        Span {
            first: place,
            len: 1,
        },
    )?;
    let sectors = part.sectors(alloc)?;
    match sectors.first() {
        Some(sector) => Ok(!is_changed(byte, sector)),
        None => Ok(false),
    }
}
