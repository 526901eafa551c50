use crate::table_reason::by_type;
use lab_advice::{Remedy, Spot};
use lab_outline::Spotted;
use lab_sector::NoMemory;
use std::alloc::Global;

/// The remedy of a table's line as `dmsetup status` prints it, if it is one: the form of its type, and dust's line by its
/// device.
pub(crate) fn status_remedy(
    alloc: Global,
    spotted: Spotted<'_>,
) -> Result<Option<Remedy>, NoMemory> {
    if !is_of_status(spotted) {
        return Ok(None);
    }
    let form = by_type(spotted.word(2));
    let why = format!(in alloc;
        "the line is as `dmsetup status` prints it, and a table wants the line of `dmsetup table`: {form}"
    )?;
    let remedy = Remedy::of(alloc, why);
    if spotted.word(2) != "dust" {
        return Ok(Some(remedy));
    }
    let (start, length, device) = (spotted.word(0), spotted.word(1), spotted.word(3));
    let line = format!(in alloc; "{start} {length} dust {device} 0 512")?;
    Ok(Some(remedy.or(Spot::On(spotted.number), line)?))
}

/// Whether a table's line has the words of a status behind its type: none for linear, and a state for flakey and dust.
fn is_of_status(spotted: Spotted<'_>) -> bool {
    let (first, state) = (spotted.word(3), spotted.word(4));
    match spotted.word(2) {
        "linear" => first.is_empty(),
        "flakey" => matches!(first, "up" | "down") && state.is_empty(),
        "dust" => matches!(state, "bypass" | "fail_read_on_bad_block"),
        _ => false,
    }
}
