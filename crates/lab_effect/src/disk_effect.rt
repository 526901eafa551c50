ghost use Rattle.std.specs.Prelude.{◌≡◌, ◌==◌, IfOk, OnErr, OnOk, length, position, true, [], nat_le, ◌+◌};
ghost use Rattle.lab_model.specs.Answers.{Gave};
ghost use Rattle.lab_model.specs.Sectors.{put};
ghost use Rattle.lab_model.specs.Tables.{end_of};
ghost use Rattle.lab_sector.specs.declared.request.Kind.TheVariants.{Write};
ghost use Rattle.lab_model.specs.Given.{Fills, NumbersDiffer};
ghost use Rattle.lab_effect.specs.Served.{HasDisk, changed_by, disk_sectors, disks_after, given_to};
ghost use Rattle.lab_effect.specs.Telling.{handed_to, told_logs};

use crate::answers::{answer, tell_log, untell_log};
use crate::disk_change::{fill_sectors, trim_sectors, write_sectors};
use crate::sectors::read_sectors;
use lab_disk::Disk;
use lab_sector::{Kind, NoMemory};
use lab_state::{Bio, Logs, RamDisk, Sectors};
use std::alloc::Global;

/// The disk of this number serves a bio, and the log of the bio's operation, if it is one, gets the answer. What is to
/// be handed to another bio is returned: of a read its sectors.
pub(crate) fn serve_at(
    alloc: Global,
    disks: &mut Vec<RamDisk>,
    number: u32,
    logs: &mut Logs,
    bio: &Bio,
) -> Result<Sectors, NoMemory>
    requires disk { HasDisk disks.old.items number bio.now }
    requires fills { Fills bio.now }
    requires differ { NumbersDiffer disks.old.items }
    ensures handed { IfOk result (λ handed. handed.items ≡ handed_to bio.now
        (given_to (disk_sectors disks.old.items number) bio.now bio.now.kind) bio.now.parent) }
    ensures disks { OnOk result
        (disks.new.items ≡ disks_after disks.old.items number bio.now bio.now.kind) }
    ensures logs { OnOk result (logs.new ≡ told_logs logs.old bio.now
        (Gave (given_to (disk_sectors disks.old.items number) bio.now bio.now.kind))
        bio.now.parent) }
    ensures err_disks { OnErr result (disks.new.items ≡ disks.old.items) }
    ensures err_logs { OnErr result (logs.new ≡ logs.old) }
{
    let Some(place) = disk_place(disks, number) else {
        unreachable!();
    };
    let ram = &mut disks[place];
    serve_bio(alloc, &mut ram.disk, logs, bio)
}

/// A disk serves a bio, and the log of the bio's operation, if it is one, gets the answer. What is to be handed to
/// another bio is returned: of a read its sectors.
fn serve_bio(
    alloc: Global,
    disk: &mut Disk,
    logs: &mut Logs,
    bio: &Bio,
) -> Result<Sectors, NoMemory>
    requires inside { nat_le (end_of bio.now.kind bio.now.span) (length disk.old) ≡ true }
    requires fills { Fills bio.now }
    ensures handed { IfOk result (λ handed. handed.items
        ≡ handed_to bio.now (given_to disk.old bio.now bio.now.kind) bio.now.parent) }
    ensures disk { OnOk result (disk.new ≡ changed_by disk.old bio.now bio.now.kind) }
    ensures logs { OnOk result (logs.new ≡ told_logs logs.old bio.now
        (Gave (given_to disk.old bio.now bio.now.kind)) bio.now.parent) }
    ensures err_disk { OnErr result (disk.new ≡ disk.old) }
    ensures err_logs { OnErr result (logs.new ≡ logs.old) }
{
    if bio.kind == Kind::Write {
        write_bio(alloc, disk, logs, bio)?;
        return Ok(Vec::new(alloc));
    }
    let given = if bio.kind == Kind::Read {
        read_sectors(alloc, disk, bio.span)?
    } else {
        Vec::new(alloc)
    };
    let handed = answer(alloc, logs, bio, given)?;
    if bio.kind == Kind::Trim {
        trim_sectors(disk, bio.span);
    }
    Ok(handed)
}

/// A write sets its sectors, and the log of its operation, if it is one, gets the answer, which is taken back where
/// memory runs out after it.
#[tactic(auto, using(crate::proofs::Untold::untold_same))]
fn write_bio(alloc: Global, disk: &mut Disk, logs: &mut Logs, bio: &Bio) -> Result<(), NoMemory>
    requires inside { nat_le (bio.now.span.first + bio.now.span.len) (length disk.old) ≡ true }
    requires fills { length bio.now.sectors ≡ bio.now.span.len }
    requires write { bio.now.kind ≡ Write }
    ensures disk { OnOk result (disk.new ≡ put disk.old bio.now.span.first bio.now.sectors) }
    ensures logs { OnOk result
        (logs.new ≡ told_logs logs.old bio.now (Gave []) bio.now.parent) }
    ensures err_disk { OnErr result (disk.new ≡ disk.old) }
    ensures err_logs { OnErr result (logs.new ≡ logs.old) }
{
    tell_log(alloc, logs, bio, &[])?;
    let written = write_to(alloc, disk, bio);
    if written.is_err() {
        untell_log(logs, bio);
    }
    written
}

/// A write sets its sectors. Where no mark has changed any, they are not made for it.
fn write_to(alloc: Global, disk: &mut Disk, bio: &Bio) -> Result<(), NoMemory>
    requires inside { nat_le (bio.now.span.first + bio.now.span.len) (length disk.old) ≡ true }
    requires fills { length bio.now.sectors ≡ bio.now.span.len }
    ensures ok { OnOk result (disk.new ≡ put disk.old bio.now.span.first bio.now.sectors) }
    ensures err { OnErr result (disk.new ≡ disk.old) }
{
    match bio.fill() {
        Some(byte) => fill_sectors(disk, bio.span, byte),
        None => {
            let sectors = bio.sectors(alloc)?;
            write_sectors(disk, bio.span, sectors)
        }
    }
}

/// The place of the disk of this number.
fn disk_place(disks: &[RamDisk], number: u32) -> Option<usize>
    ensures { result ≡ position (λ ram. ram.number == number) disks.now }
{
    disks.iter().position(|ram| is_numbered(ram, number))
}

/// Whether the disk has this number.
fn is_numbered(ram: &RamDisk, number: u32) -> bool
    ensures { result ≡ (ram.now.number == number) }
{
    ram.number == number
}
