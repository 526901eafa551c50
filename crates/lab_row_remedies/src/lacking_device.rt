use crate::last_guesses::with_word_at;
use lab_advice::{GUESSED, Remedy, Spot};
use lab_guess::is_type;
use lab_outline::{Outline, Spotted, plain};
use lab_sector::NoMemory;
use std::alloc::Global;

/// How many disks, and how many mapped devices, a line is offered with at most.
const MOST: usize = 3;

/// The remedy with the device that a table's line lacks behind its type: each of the bundle's disks and mapped devices.
pub fn or_device(
    alloc: Global,
    mut remedy: Remedy,
    outline: &Outline<'_>,
    spotted: Spotted<'_>,
) -> Result<Remedy, NoMemory> {
    let kind = spotted.word(2);
    let is_bare = matches!(kind, "zero" | "error");
    if !is_type(kind) || is_bare || plain(spotted.word(3)).is_none() {
        return Ok(remedy);
    }
    let (mut disks, mut devices) = (0usize, 0usize);
    for command in &outline.commands {
        let name = command.word(1);
        if command.word(0) == "ram" && disks < MOST {
            disks = disks.saturating_add(1);
            offer(
                alloc,
                &mut remedy,
                spotted,
                format!(in alloc; "/dev/ram{name}")?,
            )?;
        } else if command.word(0) == "create" && devices < MOST {
            devices = devices.saturating_add(1);
            offer(
                alloc,
                &mut remedy,
                spotted,
                format!(in alloc; "/dev/mapper/{name}")?,
            )?;
        }
    }
    Ok(remedy)
}

/// Offers the line with a device behind its type.
fn offer(
    alloc: Global,
    remedy: &mut Remedy,
    spotted: Spotted<'_>,
    device: String,
) -> Result<(), NoMemory> {
    let line = with_word_at(alloc, spotted.line, 3, device.as_str())?;
    remedy.offer(GUESSED, Spot::On(spotted.number), line)
}
