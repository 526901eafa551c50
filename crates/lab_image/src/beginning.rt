ghost use Rattle.std.specs.Prelude.{◌≡◌, OnOk};
ghost use Rattle.lab_model.specs.State.{bio_of};
ghost use Rattle.lab_image.specs.Images.{begun_by, if_begun, one_begun};

use crate::image::Image;
use lab_bios::{Bio, Parent};
use lab_next::{Origin, Writer, bio_of, place_in};
use lab_sector::{Kind, NoMemory};
use lab_state::State;
use lab_target::Target;
use std::alloc::Global;

impl Image {
    /// The bio of this number is made.
    pub(crate) fn begin<T: Target>(
        &mut self,
        alloc: Global,
        state: &State<T>,
        number: u64,
    ) -> Result<(), NoMemory>
        ensures { OnOk result (self.new
            ≡ if_begun state.now number (bio_of state.now number) self.old) }
    {
        match bio_of(state, number) {
            Some(bio) => self.begin_bio(alloc, state, number, bio),
            None => Ok(()),
        }
    }

    /// This bio is made: if it is a write, its changed bytes are changed in what it carries.
    fn begin_bio<T: Target>(
        &mut self,
        alloc: Global,
        state: &State<T>,
        number: u64,
        bio: &Bio,
    ) -> Result<(), NoMemory>
        ensures { OnOk result (self.new ≡ one_begun state.now number bio.now self.old) }
    {
        match bio.kind {
            Kind::Write => {
                self.begin_write(alloc, state, number, bio.span.len, &bio.parent)?;
                self.bios.mark_both(alloc, number, bio.marks())
            }
            Kind::Read | Kind::Trim | Kind::Flush => Ok(()),
        }
    }

    /// A write of so many sectors is made: a log's carries its line's data, and one for a piece of another what that
    /// one carries there.
    fn begin_write<T: Target>(
        &mut self,
        alloc: Global,
        state: &State<T>,
        number: u64,
        count: u64,
        parent: &Parent,
    ) -> Result<(), NoMemory>
        ensures disks { OnOk result (self.new.disks ≡ self.old.disks) }
        ensures bios { OnOk result (self.new.bios
            ≡ begun_by state.now self.old.bios number count parent.now) }
    {
        match parent {
            Parent::FromLog(log, line, _) => {
                let origin = Origin {
                    log: *log,
                    line: *line,
                };
                let writer = Writer { origin, sector: 0 };
                self.bios.fill(alloc, number, count, writer)
            }
            Parent::FromBio(above, piece) => {
                let place = place_in(*piece, bio_of(state, *above));
                self.bios.pass(alloc, *above, place, number, count)
            }
        }
    }
}
