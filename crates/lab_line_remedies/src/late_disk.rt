use lab_outline::{Outline, Spotted, plain};
use lab_script::{MAX_DISK, MAX_DISK_SECTORS};
use lab_sector::NoMemory;
use std::alloc::Global;

/// What is told of a disk that is made behind other commands, if a line makes one and nothing else is wrong with it.
pub fn late_disk(
    alloc: Global,
    outline: &Outline<'_>,
    spotted: Spotted<'_>,
) -> Result<Option<String>, NoMemory> {
    let number = plain(spotted.word(1)).unwrap_or(u64::MAX);
    let sectors = plain(spotted.word(2)).unwrap_or(0);
    let is_one = spotted.word(0) == "ram" && spotted.word(3).is_empty();
    if !is_one || MAX_DISK < number || !(1..=MAX_DISK_SECTORS).contains(&sectors) {
        return Ok(None);
    }
    for command in &outline.commands {
        if command.word(0) != "ram" && command.number < spotted.number {
            let first = command.number;
            return Ok(Some(format!(in alloc;
                "move this line above line {first}: a disk is made before all other commands, and is there from the start"
            )?));
        }
    }
    Ok(None)
}
