use crate::asked::is_used;
use lab_advice::{Remedy, Spot};
use lab_outline::{Outline, Spotted};
use lab_sector::NoMemory;
use std::alloc::Global;

/// Whether a command seems to lack the create of its device: it isn't created, and the command isn't one of a device that
/// goes.
pub(crate) fn create_wanted(outline: &Outline<'_>, spotted: Spotted<'_>) -> bool {
    is_uncreated(outline, spotted.word(1), spotted.number)
        && !matches!(spotted.word(0), "remove" | "clear")
}

/// Whether no line creates a device of this name, nor one before this line of its name in letters of another case.
fn is_uncreated(outline: &Outline<'_>, name: &str, before: u64) -> bool {
    outline.created_from(name, 0).is_none() && outline.created_cased(name, before).is_none()
}

/// The remedy with the create of the command's device: in the place of a load, of its table; before another command.
pub(crate) fn or_created(
    alloc: Global,
    remedy: Remedy,
    outline: &Outline<'_>,
    spotted: Spotted<'_>,
) -> Result<Remedy, NoMemory> {
    let (name, table) = (spotted.word(1), spotted.word(2));
    if !spotted.is_load() {
        return or_made(alloc, remedy, outline, name, spotted.number);
    }
    if outline.table(table).is_none() {
        return Ok(remedy);
    }
    remedy.or(
        Spot::On(spotted.number),
        format!(in alloc; "create {name} {table}")?,
    )
}

/// The remedy with the create of the device that a word of a table or of a log stands for, if no line creates it.
pub(crate) fn or_lacking(
    alloc: Global,
    remedy: Remedy,
    outline: &Outline<'_>,
    word: &str,
    before: u64,
) -> Result<Remedy, NoMemory> {
    match outline.name_meant(word) {
        Some(name) if is_uncreated(outline, name, before) => {
            or_made(alloc, remedy, outline, name, before)
        }
        _ => Ok(remedy),
    }
}

/// The remedy with the create of a device before this line: of the table of its name where no command names that, and else
/// of each table that none names.
fn or_made(
    alloc: Global,
    mut remedy: Remedy,
    outline: &Outline<'_>,
    name: &str,
    before: u64,
) -> Result<Remedy, NoMemory> {
    let rank = remedy.mends.len() as u64;
    let has_own = outline.table(name).is_some() && !is_used(outline, name);
    for heading in &outline.tables {
        let table = heading.line;
        if !is_used(outline, table) && (!has_own || table == name) {
            remedy.offer(
                rank,
                Spot::Before(before),
                format!(in alloc; "create {name} {table}")?,
            )?;
        }
    }
    Ok(remedy)
}
