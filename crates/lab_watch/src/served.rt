ghost use Rattle.std.specs.Prelude.{◌≡◌, IfOk, OnOk};
ghost use Rattle.lab_model.specs.State.{bio_of};
ghost use Rattle.lab_watch.specs.Heard.{known_served, known_served_by, with_disk_if, with_read};
ghost use Rattle.lab_watch.specs.Heard.{with_read_if, with_written};

use crate::writers::Writers;
use lab_next::{Root, root_of};
use lab_sector::{DevNo, Kind, NoMemory, Span};
use lab_state::State;
use lab_target::Target;
use std::alloc::Global;

impl Writers {
    /// The bio of this number is served, where its device is a disk.
    pub(crate) fn serve<T: Target>(
        &mut self,
        alloc: Global,
        state: &State<T>,
        number: u64,
    ) -> Result<(), NoMemory>
        ensures { OnOk result (self.new
            ≡ known_served state.now self.old number (bio_of state.now number)) }
    {
        let Some(bio) = state.traffic.get(number) else {
            return Ok(());
        };
        match bio.device {
            DevNo::Ram(disk) => {
                self.serve_by(
                    alloc,
                    u64::from(disk),
                    bio.span,
                    root_of(state, number),
                    bio.kind,
                )
            }
            DevNo::Dm(_) => Ok(()),
        }
    }

    /// A disk serves a bio with this root, by its kind.
    fn serve_by(
        &mut self,
        alloc: Global,
        disk: u64,
        span: Span,
        root: Option<Root>,
        kind: Kind,
    ) -> Result<(), NoMemory>
        ensures { OnOk result (self.new ≡ known_served_by self.old disk span root kind) }
    {
        match kind {
            Kind::Read => self.read_if(alloc, disk, span, root),
            Kind::Write | Kind::Trim => self.write_disk_if(disk, span, root),
            Kind::Flush => Ok(()),
        }
    }

    /// A read, by a bio with this root, is answered what stands on these sectors of a disk, where reads are kept.
    fn read_if(
        &mut self,
        alloc: Global,
        disk: u64,
        span: Span,
        root: Option<Root>,
    ) -> Result<(), NoMemory>
        ensures { OnOk result (self.new ≡ with_read_if self.old disk span root) }
    {
        if self.kept.reads {
            self.read(alloc, disk, span, root)?;
        }
        Ok(())
    }

    /// A read, by a bio with this root, is answered what stands on these sectors of a disk.
    fn read(
        &mut self,
        alloc: Global,
        disk: u64,
        span: Span,
        root: Option<Root>,
    ) -> Result<(), NoMemory>
        ensures { OnOk result (self.new ≡ with_read self.old disk span root) }
    {
        let Some(root) = root else {
            return Ok(());
        };
        let row = self.disks.part(alloc, disk, span.first, span.len)?;
        self.reads.put_from(root.number, place_of(root)?, row)
    }

    /// A bio with this root writes or trims these sectors of a disk, where reads are kept.
    fn write_disk_if(&mut self, disk: u64, span: Span, root: Option<Root>) -> Result<(), NoMemory>
        ensures { OnOk result (self.new ≡ with_disk_if self.old disk span root) }
    {
        if self.kept.reads {
            self.write_disk(disk, span, root)?;
        }
        Ok(())
    }

    /// A bio with this root writes or trims these sectors of a disk.
    fn write_disk(&mut self, disk: u64, span: Span, root: Option<Root>) -> Result<(), NoMemory>
        ensures { OnOk result (self.new ≡ with_written self.old disk span root) }
    {
        match root {
            Some(root) => self.disks.spread(disk, span.first, span.len, root.writer),
            None => self.disks.clear(disk, span.first, span.len),
        }
    }
}

/// How many sectors behind the first one of its operation a bio begins. There is no memory for more than a number
/// counts.
fn place_of(root: Root) -> Result<u64, NoMemory>
    ensures { IfOk result (λ place. place ≡ root.writer.sector) }
{
    match u64::try_from(root.writer.sector) {
        Ok(place) => Ok(place),
        Err(_) => Err(NoMemory),
    }
}
