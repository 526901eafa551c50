ghost use Rattle.std.specs.Prelude.{◌≡◌, length, IfOk};
ghost use Rattle.lab_model.specs.Sectors.{part};
ghost use Rattle.lab_disk.specs.Disk.{IsInside};

use lab_disk::Disk;
use lab_sector::{NoMemory, Span};
use lab_state::Sectors;
use std::alloc::Global;

/// The sectors of a span of a disk, in order.
pub(crate) fn read_sectors(alloc: Global, disk: &Disk, span: Span) -> Result<Sectors, NoMemory>
    requires { IsInside span (length disk.now) }
    ensures { IfOk result (λ out. out.items ≡ part disk.now span) }
{
    disk.sectors(alloc, span)
}
