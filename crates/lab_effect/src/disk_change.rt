ghost use Rattle.std.specs.Prelude.{◌≡◌, OnErr, OnOk, length, true, nat_le, ◌+◌};
ghost use Rattle.lab_model.specs.Sectors.{filled, put};

use lab_disk::Disk;
use lab_sector::{NoMemory, Span};
use lab_state::Sectors;

/// Puts these sectors in place of those of a span.
pub(crate) fn write_sectors(disk: &mut Disk, span: Span, sectors: Sectors) -> Result<(), NoMemory>
    requires inside { nat_le (span.first + span.len) (length disk.old) ≡ true }
    requires fills { length sectors.items ≡ span.len }
    ensures ok { OnOk result (disk.new ≡ put disk.old span.first sectors.items) }
    ensures err { OnErr result (disk.new ≡ disk.old) }
{
    disk.set(span, sectors)
}

/// Writes one byte all over the sectors of a span.
#[tactic(auto, using(crate::proofs::PutLemmas::put_filled))]
pub(crate) fn fill_sectors(disk: &mut Disk, span: Span, byte: u8) -> Result<(), NoMemory>
    requires { nat_le (span.first + span.len) (length disk.old) ≡ true }
    ensures ok { OnOk result (disk.new ≡ put disk.old span.first (filled span.len byte)) }
    ensures err { OnErr result (disk.new ≡ disk.old) }
{
    disk.fill(span, byte)
}

/// Makes the sectors of a span zero.
#[tactic(auto, using(crate::proofs::PutLemmas::put_filled))]
pub(crate) fn trim_sectors(disk: &mut Disk, span: Span)
    requires { nat_le (span.first + span.len) (length disk.old) ≡ true }
    ensures { disk.new ≡ put disk.old span.first (filled span.len 0) }
{
    disk.trim(span);
}
