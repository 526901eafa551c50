use lab_advice::{Remedy, Spot};
use lab_guess::{Draft, from_start};
use lab_outline::{Outline, Spotted, plain};
use lab_row_remedies::inclusive::table_at;
use lab_rule_remedies::row_below;
use lab_sector::NoMemory;
use lab_text::Lines;
use std::alloc::Global;
use std::str::from_utf8;

/// Offers a table's line from this sector on, where the one above ends: without the sectors before that where its end is
/// wanted as it is, and with as many as it has else, or where the end that it gets so is wanted.
pub(crate) fn offer_from(
    alloc: Global,
    bytes: &[u8],
    remedy: &mut Remedy,
    outline: &Outline<'_>,
    spotted: Spotted<'_>,
    start: u64,
) -> Result<(), NoMemory> {
    let length = plain(spotted.word(1)).unwrap_or(0);
    let own = plain(spotted.word(0)).unwrap_or(0);
    let end = own.saturating_add(length);
    let spot = Spot::On(spotted.number);
    let is_cut = own < start && start < end && is_end(bytes, outline, spotted, end);
    if is_cut {
        remedy.offer(0, spot, cut(alloc, spotted, start)?)?;
    }
    if !is_cut || is_end(bytes, outline, spotted, start.saturating_add(length)) {
        remedy.offer(0, spot, from_start(alloc, spotted.line, start)?)?;
    }
    Ok(())
}

/// A table's line from this sector on, without those before it: its offsets are as much greater as its start.
fn cut(alloc: Global, spotted: Spotted<'_>, start: u64) -> Result<String, NoMemory> {
    let lost = start.saturating_sub(plain(spotted.word(0)).unwrap_or(0));
    let mut draft = Draft::new(alloc);
    for (place, word) in spotted.line.split_whitespace().enumerate() {
        match plain(word) {
            Some(_) if place == 0 => draft.push_number(start)?,
            Some(length) if place == 1 => draft.push_number(length.saturating_sub(lost))?,
            Some(offset) if is_offset(spotted.word(2), place) => {
                draft.push_number(offset.saturating_add(lost))?;
            }
            _ => draft.push(word)?,
        }
    }
    Ok(draft.line())
}

/// Whether a line of this type has an offset at this place, counted from 0.
fn is_offset(kind: &str, place: usize) -> bool {
    match kind {
        "linear" | "flakey" | "dust" => place == 4,
        "delay" => matches!(place, 4 | 7 | 10),
        _ => false,
    }
}

/// Whether the line below a table's line starts at this sector; below the last one, whether a disk, another table, or an
/// operation of a log ends there.
fn is_end(bytes: &[u8], outline: &Outline<'_>, spotted: Spotted<'_>, end: u64) -> bool {
    if let Some(below) = row_below(outline, spotted.number) {
        return plain(below.spotted.word(0)) == Some(end);
    }
    let own = table_at(outline, spotted.number).unwrap_or("");
    let is_disk = outline
        .commands
        .iter()
        .any(|it| it.word(0) == "ram" && plain(it.word(2)) == Some(end));
    let is_table = outline
        .tables
        .iter()
        .any(|it| it.line != own && outline.table_size(it.line) == end);
    is_disk || is_table || Lines::new(bytes).any(|line| is_operation_to(line, end))
}

/// Whether a line is an operation of a log that ends at this sector.
fn is_operation_to(line: &[u8], end: u64) -> bool {
    let line = from_utf8(line).unwrap_or("");
    let own = Spotted { number: 0, line };
    match (plain(own.word(2)), plain(own.word(3))) {
        (Some(offset), Some(length)) => length != 0
            && offset.checked_add(length) == end.checked_mul(512),
        _ => false,
    }
}
