ghost use Rattle.std.specs.Prelude.{◌≡◌, ◌==◌, IfOk, find, option_copied, option_map};
ghost use Rattle.lab_bios.specs.Views.{stage_of};
ghost use Rattle.lab_model.specs.State.{disk_of};
ghost use Rattle.lab_findings.specs.Content.{content_answered, disk_content, finished_content};
ghost use Rattle.lab_findings.specs.Content.{served_content, stage_content};

use lab_bios::{Bio, Sectors, Stage};
use lab_model::Event;
use lab_next::bio_of;
use lab_sector::{DevNo, NoMemory, Span};
use lab_state::{RamDisk, State};
use lab_target::Target;
use std::alloc::Global;

/// The sectors that the event answers a read.
pub(crate) fn content_answered<T: Target>(
    alloc: Global,
    state: &State<T>,
    event: Event,
) -> Result<Sectors, NoMemory>
    ensures { IfOk result (λ out. out.items ≡ content_answered state.now event) }
{
    match event {
        Event::Serve(number) => served_content(alloc, state, bio_of(state, number)),
        Event::Finish(number) => finished_content(alloc, bio_of(state, number)),
        _ => Ok(Vec::new(alloc)),
    }
}

/// What a disk gives a bio.
fn served_content<T: Target>(
    alloc: Global,
    state: &State<T>,
    bio: Option<&Bio>,
) -> Result<Sectors, NoMemory>
    ensures { IfOk result (λ out. out.items ≡ served_content state.now (option_copied bio.entry)) }
{
    let Some(bio) = bio else {
        return Ok(Vec::new(alloc));
    };
    match bio.device {
        DevNo::Ram(number) => disk_content(alloc, ram_of(state, number), bio.span),
        DevNo::Dm(_) => Ok(Vec::new(alloc)),
    }
}

/// What stands on these sectors of a disk, if it is there and has them.
fn disk_content(alloc: Global, ram: Option<&RamDisk>, span: Span) -> Result<Sectors, NoMemory>
    ensures { IfOk result (λ out. out.items
        ≡ disk_content span (option_map (λ disk. disk.sectors) (option_copied ram.entry))) }
{
    let Some(ram) = ram else {
        return Ok(Vec::new(alloc));
    };
    let size = ram.disk.size();
    if span.first <= size && span.len <= size - span.first {
        ram.disk.sectors(alloc, span)
    } else {
        Ok(Vec::new(alloc))
    }
}

/// The disk of this number.
fn ram_of<T: Target>(state: &State<T>, number: u32) -> Option<&RamDisk>
    ensures { option_map (λ disk. disk.sectors) (option_copied result) ≡ disk_of state.now number }
{
    ram_in(&state.disks, number)
}

/// The disk of this number among some.
fn ram_in(disks: &[RamDisk], number: u32) -> Option<&RamDisk>
    ensures { option_copied result ≡ find (λ disk. disk.number == number) disks.now }
{
    disks.iter().find(|ram| ram.number == number)
}

/// What a bio in flight has been given.
fn finished_content(alloc: Global, bio: Option<&Bio>) -> Result<Sectors, NoMemory>
    ensures { IfOk result (λ out. out.items ≡ finished_content (option_copied bio.entry)) }
{
    match bio {
        Some(bio) => stage_content(alloc, &bio.stage),
        None => Ok(Vec::new(alloc)),
    }
}

/// What the pieces of a bio have given it.
fn stage_content(alloc: Global, stage: &Stage) -> Result<Sectors, NoMemory>
    ensures { IfOk result (λ out. out.items ≡ stage_content (stage_of stage.now)) }
{
    match stage {
        Stage::InFlight(_, answered) => answered.sectors(alloc),
        Stage::Entering | Stage::Held(_, _) => Ok(Vec::new(alloc)),
    }
}
