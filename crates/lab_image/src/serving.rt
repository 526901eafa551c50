ghost use Rattle.std.specs.Prelude.{◌≡◌, OnOk};
ghost use Rattle.lab_model.specs.State.{bio_of};
ghost use Rattle.lab_image.specs.Images.{finished, image_served, image_served_at, image_served_by};
ghost use Rattle.lab_image.specs.Images.{let_go};

use crate::image::Image;
use lab_bios::Bio;
use lab_next::bio_of;
use lab_sector::{DevNo, Kind, NoMemory, Span};
use lab_state::State;
use lab_target::Target;
use std::alloc::Global;

impl Image {
    /// The bio of this number is served, and answered.
    pub(crate) fn serve<T: Target>(
        &mut self,
        alloc: Global,
        state: &State<T>,
        number: u64,
    ) -> Result<(), NoMemory>
        ensures { OnOk result (self.new ≡ image_served self.old number (bio_of state.now number)) }
    {
        let Some(bio) = bio_of(state, number) else {
            return Ok(());
        };
        self.serve_at(alloc, number, bio)?;
        self.let_go(number, bio.kind, bio.span.len)
    }

    /// The bio of this number is answered.
    pub(crate) fn finish<T: Target>(
        &mut self,
        state: &State<T>,
        number: u64,
    ) -> Result<(), NoMemory>
        ensures { OnOk result (self.new ≡ finished self.old number (bio_of state.now number)) }
    {
        match bio_of(state, number) {
            Some(bio) => self.let_go(number, bio.kind, bio.span.len),
            None => Ok(()),
        }
    }

    /// This bio is served at its device, where that is a disk.
    fn serve_at(&mut self, alloc: Global, number: u64, bio: &Bio) -> Result<(), NoMemory>
        ensures { OnOk result (self.new ≡ image_served_at self.old number bio.now bio.now.device) }
    {
        match bio.device {
            DevNo::Ram(disk) => {
                self.serve_by(alloc, u64::from(disk), bio.span, number, bio.kind)
            }
            DevNo::Dm(_) => Ok(()),
        }
    }

    /// A disk serves these sectors by the bio of this number, of this kind.
    fn serve_by(
        &mut self,
        alloc: Global,
        disk: u64,
        span: Span,
        number: u64,
        kind: Kind,
    ) -> Result<(), NoMemory>
        ensures { OnOk result (self.new ≡ image_served_by self.old disk span number kind) }
    {
        match kind {
            Kind::Write => self.disks.take(alloc, &self.bios, number, disk, span),
            Kind::Trim => self.disks.erase(disk, span.first, span.len),
            Kind::Read | Kind::Flush => Ok(()),
        }
    }

    /// The bio of this number, of this kind and of so many sectors, is answered: what a write carried is forgotten.
    fn let_go(&mut self, number: u64, kind: Kind, count: u64) -> Result<(), NoMemory>
        ensures { OnOk result (self.new ≡ let_go self.old number kind count) }
    {
        match kind {
            Kind::Write => self.bios.erase(number, 0, count),
            Kind::Read | Kind::Trim | Kind::Flush => Ok(()),
        }
    }
}
