ghost use Rattle.std.specs.Prelude.{◌≡◌, ◌+◌, IfOk, OnOk, option_copied};
ghost use Rattle.lab_model.specs.State.{bio_of};
ghost use Rattle.lab_next.specs.Bios.{answer_marks};
ghost use Rattle.lab_findings.specs.Heard.{blamed, blamed_mark, blamed_marks, changes_heard, line_with};
ghost use Rattle.lab_findings.specs.Heard.{marked, marked_by, spoiled, spoiled_on};

use crate::culprit::Culprit;
use crate::culprits::Culprits;
use crate::lines::culprit_on;
use crate::watch::Watch;
use lab_bios::{Bio, Parent};
use lab_model::{Event, Piece};
use lab_next::{Root, answer_marks, root_of};
use lab_sector::{DevNo, Kind, NoMemory};
use lab_state::State;
use lab_target::{Mark, Marks, Target};
use std::alloc::Global;

impl Watch {
    /// Which lines changed bytes, where an event comes in this state.
    pub(crate) fn hear_changes<T: Target>(
        &mut self,
        alloc: Global,
        state: &State<T>,
        event: Event,
    ) -> Result<(), NoMemory>
        ensures { OnOk result (self.new ≡ changes_heard T.meaning state.now event self.old) }
    {
        match event {
            Event::Serve(number) => {
                self.spoil(alloc, state, number)?;
                self.mark(alloc, state, number)
            }
            Event::Finish(number) => self.mark(alloc, state, number),
            _ => Ok(()),
        }
    }

    /// The bio of this number is served, if it lives: a write on a disk may have other bytes.
    fn spoil<T: Target>(
        &mut self,
        alloc: Global,
        state: &State<T>,
        number: u64,
    ) -> Result<(), NoMemory>
        ensures { OnOk result (self.new
            ≡ spoiled T.meaning state.now self.old number (bio_of state.now number)) }
    {
        match state.traffic.get(number) {
            Some(bio) => self.spoil_on(alloc, state, number, bio),
            None => Ok(()),
        }
    }

    /// A bio is served at its device.
    fn spoil_on<T: Target>(
        &mut self,
        alloc: Global,
        state: &State<T>,
        number: u64,
        bio: &Bio,
    ) -> Result<(), NoMemory>
        ensures { OnOk result (self.new ≡ spoiled_on T.meaning state.now self.old number bio.now
            bio.now.device bio.now.kind) }
    {
        match (bio.device, bio.kind) {
            (DevNo::Ram(_), Kind::Write) => {
                self.spoil_if(alloc, state, number, bio, root_of(state, number))
            }
            _ => Ok(()),
        }
    }

    /// The bio of this number is answered, if it lives: what its marks change is laid to the line that made it.
    fn mark<T: Target>(
        &mut self,
        alloc: Global,
        state: &State<T>,
        number: u64,
    ) -> Result<(), NoMemory>
        ensures { OnOk result (self.new
            ≡ marked T.meaning state.now self.old number (bio_of state.now number)) }
    {
        match state.traffic.get(number) {
            Some(bio) => self.mark_by(alloc, state, number, bio),
            None => Ok(()),
        }
    }

    /// A bio is answered: what its marks change is laid to the line that made it.
    fn mark_by<T: Target>(
        &mut self,
        alloc: Global,
        state: &State<T>,
        number: u64,
        bio: &Bio,
    ) -> Result<(), NoMemory>
        ensures { OnOk result (self.new
            ≡ marked_by T.meaning state.now self.old number (answer_marks bio.now) bio.now.parent) }
    {
        let marks = answer_marks(bio);
        let Parent::FromBio(above, piece) = bio.parent else {
            return Ok(());
        };
        if marks.fixed.is_none() && marks.random.is_none() {
            return Ok(());
        }
        let culprit = line_with(alloc, state, piece, state.traffic.get(above))?;
        self.blame(root_of(state, number), culprit, marks)
    }

    /// A line changes the bytes of an answer at these marks.
    fn blame(
        &mut self,
        root: Option<Root>,
        culprit: Option<Culprit>,
        marks: Marks,
    ) -> Result<(), NoMemory>
        ensures { OnOk result (self.new ≡ blamed_marks self.old root culprit marks) }
    {
        let Some(root) = root else {
            return Ok(());
        };
        blame_mark(&mut self.culprits, root, culprit, marks.fixed)?;
        blame_mark(&mut self.culprits, root, culprit, marks.random)
    }
}

/// The line of a bio's device that has a piece of it.
pub(crate) fn line_with<T: Target>(
    alloc: Global,
    state: &State<T>,
    piece: Piece,
    bio: Option<&Bio>,
) -> Result<Option<Culprit>, NoMemory>
    ensures { IfOk result (λ culprit. culprit
        ≡ line_with T.meaning state.now piece (option_copied bio.entry)) }
{
    match bio {
        Some(bio) => culprit_on(alloc, state, bio.device, piece.line),
        None => Ok(None),
    }
}

/// A line changes the byte of an answer at its mark, if there is one.
fn blame_mark(
    culprits: &mut Culprits,
    root: Root,
    culprit: Option<Culprit>,
    mark: Option<Mark>,
) -> Result<(), NoMemory>
    ensures { OnOk result (culprits.new ≡ blamed_mark culprits.old root culprit mark) }
{
    match mark {
        Some(mark) => blame(culprits, root, mark.place / 512, culprit),
        None => Ok(()),
    }
}

/// A line did something to the sector at this place behind the first of a root's bio, if one did. There is no memory
/// for more sectors than a number counts.
pub(crate) fn blame(
    culprits: &mut Culprits,
    root: Root,
    place: u64,
    culprit: Option<Culprit>,
) -> Result<(), NoMemory>
    ensures { OnOk result (culprits.new
        ≡ blamed culprits.old root.number (root.writer.sector + place) culprit) }
{
    let place = u128::from(place);
    let sector = root.writer.sector.checked_add(place).ok_or(NoMemory)?;
    match culprit {
        Some(culprit) => culprits.set(root.number, sector, culprit),
        None => Ok(()),
    }
}

/// The sector of an operation that is so many behind the first of a root's bio.
pub(crate) fn sector_at(root: Root, place: u64) -> Result<u64, NoMemory>
    ensures { IfOk result (λ sector. sector ≡ root.writer.sector + place) }
{
    let first = u64::try_from(root.writer.sector).map_err(|_| NoMemory)?;
    first.checked_add(place).ok_or(NoMemory)
}
