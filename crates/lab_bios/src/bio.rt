ghost use Rattle.std.specs.Prelude.{◌≡◌, IfOk, IfSome, length};
ghost use Rattle.lab_bios.specs.BioMarks.{marks_of};
ghost use Rattle.lab_bios.specs.Written.{write_marks};
ghost use Rattle.lab_model.specs.Sectors.{filled, marked, part};

use crate::answered::Answered;
use crate::bio_marks::{MarkPlaces, MarkValues};
use crate::sectors::{Sectors, mark};
use crate::written::{Written, mark_within};
use lab_model::Parent;
use lab_sector::{DevNo, Kind, NoMemory, Span};
use lab_target::Marks;
use std::alloc::Global;
use std::marker::Model;

/// How far a bio has come.
#[derive(Debug, Drop)]
pub enum Stage {
    /// Its device is to take it.
    Entering,
    /// It waits for this moment, held by the mapped device of this number.
    Held(u64, u32),
    /// Its pieces are under way: whether one has failed, and of a read the sectors answered so far.
    InFlight(bool, Answered),
}

/// A request: what it asks of which sectors of which device, for whom, and how far it has come.
#[derive(Debug, Drop)]
pub struct Bio {
    // Fields lie in this order: what the end of a bio without pieces looks at first stands side by side, and the values
    // of the marks take the four bytes that are free behind the device.
    pub kind: Kind,
    pub device: DevNo,
    /// The values of the bytes that are changed: of a read in its answer, of a write in what it writes. No others are.
    pub values: MarkValues,
    pub parent: Parent,
    /// The sectors that it writes, before its marks; a write's.
    pub written: Written,
    pub stage: Stage,
    pub span: Span,
    /// The places of those bytes, counted from its first.
    pub places: MarkPlaces,
}

/// A living bio, and how many living ones were made for a piece of it.
#[derive(Debug, Drop)]
pub(crate) struct Living {
    pub(crate) children: u64,
    pub(crate) bio: Bio,
}

impl Model for Bio {
    ghost use Rattle.lab_model.specs.Bios.{Bio as Request};
    ghost use Rattle.lab_model.specs.Sectors.{marked};
    ghost use Rattle.lab_bios.specs.BioMarks.{marks_of};
    ghost use Rattle.lab_bios.specs.Views.{stage_of};
    ghost use Rattle.lab_bios.specs.Written.{write_marks};

    ghost Value = { Request };

    ghost view = { λ bio. record {
      kind = bio.kind;
      device = bio.device;
      span = bio.span;
      parent = bio.parent;
      marks = marks_of bio.values bio.places;
      sectors = marked (write_marks bio.kind (marks_of bio.values bio.places)) bio.written;
      stage = stage_of bio.stage;
    } };
}

impl Bio {
    /// The bytes that were changed for it, counted from its first: of a read they change its answer.
    #[inline(always)]
    pub fn marks(&self) -> Marks
        ensures { result ≡ self.now.marks }
    {
        self.values.at(&self.places)
    }

    /// The byte that all it writes has, where no mark has changed any.
    #[inline]
    pub fn fill(&self) -> Option<u8>
        ensures { IfSome result (λ byte. self.now.sectors
            ≡ filled (length self.now.sectors) byte) }
    {
        let marks = write_marks(self.kind, &self.values, &self.places);
        match (marks.fixed, marks.random) {
            (None, None) => self.written.fill(),
            _ => None,
        }
    }

    /// The sectors that it writes.
    pub fn sectors(&self, alloc: Global) -> Result<Sectors, NoMemory>
        ensures { IfOk result (λ out. out.items ≡ self.now.sectors) }
    {
        let mut sectors = self.written.sectors(alloc)?;
        let marks = write_marks(self.kind, &self.values, &self.places);
        mark(alloc, &mut sectors, marks)?;
        Ok(sectors)
    }

    /// The marks by which what it writes is made of these sectors, where it is seen at once that these are what the bio
    /// above asks for.
    #[inline]
    pub fn marks_on(&self, asked: &Written) -> Option<Marks>
        ensures { IfSome result (λ marks. self.now.sectors ≡ marked marks asked.now) }
    {
        if !self.written.is_alike(asked) {
            return None;
        }
        Some(write_marks(self.kind, &self.values, &self.places))
    }

    /// The sectors that it writes on a span that is counted from its first; those that are there, where it ends past
    /// them.
    pub fn part(&self, alloc: Global, span: Span) -> Result<Written, NoMemory>
        ensures { IfOk result (λ out. out ≡ part self.now.sectors span) }
    {
        let mut out = self.written.part(alloc, span)?;
        let marks = write_marks(self.kind, &self.values, &self.places);
        out.change(alloc, mark_within(span, marks.fixed))?;
        out.change(alloc, mark_within(span, marks.random))?;
        Ok(out)
    }
}

/// The marks that change what is written: a write's. No other bio's are looked at.
#[inline(always)]
fn write_marks(kind: Kind, values: &MarkValues, places: &MarkPlaces) -> Marks
    ensures { result ≡ write_marks kind (marks_of values.now places.now) }
{
    match kind {
        Kind::Write => values.at(places),
        Kind::Read | Kind::Trim | Kind::Flush => Marks::NONE,
    }
}
