use lab_outline::{Outline, Reference, Spotted};
use lab_sector::NoMemory;
use std::alloc::Global;

/// How many bytes a line has at most that is shown.
const LONGEST: usize = 200;

/// What is told of a load that closes a cycle of two devices, if it does: the two lines that lay each on the other.
pub fn cycle_told(
    alloc: Global,
    outline: &Outline<'_>,
    spotted: Spotted<'_>,
) -> Result<Option<String>, NoMemory> {
    let name = spotted.word(1);
    for create in &outline.commands {
        let other = create.device();
        if create.word(0) == "create" && other != name {
            let upper = outline.reference_to(spotted.word(2), other);
            let lower = back_to(outline, other, name);
            if let (Some(upper), Some(lower)) = (upper.filter(is_short), lower.filter(is_short)) {
                return Ok(Some(told(alloc, spotted, other, upper, lower)?));
            }
        }
    }
    Ok(None)
}

/// Whether a reference's line may be shown.
fn is_short(reference: &Reference<'_>) -> bool {
    reference.row.spotted.line.len() <= LONGEST
}

/// The first reference to a device of this name from a table that another one was ever given.
fn back_to<'a>(outline: &Outline<'a>, other: &str, name: &str) -> Option<Reference<'a>> {
    for command in &outline.commands {
        let is_own = command.device() == other;
        if is_own && (command.word(0) == "create" || command.is_load()) {
            if let Some(found) = outline.reference_to(command.word(2), name) {
                return Some(found);
            }
        }
    }
    None
}

/// The words for two devices that are laid on one another.
fn told(
    alloc: Global,
    spotted: Spotted<'_>,
    other: &str,
    upper: Reference<'_>,
    lower: Reference<'_>,
) -> Result<String, NoMemory> {
    let name = spotted.word(1);
    let (first, second) = (upper.row.spotted, lower.row.spotted);
    let (line, text) = (first.number, first.line);
    let (below, base) = (second.number, second.line);
    Ok(format!(in alloc;
        "over all tables ever loaded no device may stand on itself: line {line}, `{text}`, lays {name} on {other}, and line \
         {below}, `{base}`, lays {other} on {name}: let one of them name what is to lie below both, as a disk"
    )?)
}
