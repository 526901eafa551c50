use crate::asked::last_row;
use lab_advice::{Remedy, Spot};
use lab_guess::with_word;
use lab_outline::{Outline, Row, Spotted, plain};
use lab_sector::NoMemory;
use std::alloc::Global;

/// The remedy of a load that is shorter than the live table: both sizes are told, and the table is made as long, by a line
/// more, as the live table has it or of errors, or by its only line.
pub fn shorter_remedy(
    alloc: Global,
    outline: &Outline<'_>,
    spotted: Spotted<'_>,
) -> Result<Remedy, NoMemory> {
    let (name, table) = (spotted.word(1), spotted.word(2));
    let (size, live) = (
        outline.table_size(table),
        outline.mapped_size(name, spotted.number),
    );
    let why = format!(in alloc;
        "table {table} has {size} sectors, the live table of {name} has {live}: a table that is \
         loaded is at least as long as the live one, so a line of {} sectors more is lacking, or its line is to be longer",
        live.saturating_sub(size)
    )?;
    let mut remedy = Remedy::of(alloc, why);
    let Some(last) = last_row(outline, table) else {
        return Ok(remedy);
    };
    let spot = Spot::Before(last.spotted.number.saturating_add(1));
    if let Some(line) = as_live(alloc, outline, spotted, size)? {
        remedy.offer(0, spot, line)?;
    }
    let rest = live.saturating_sub(size);
    remedy.offer(0, spot, format!(in alloc; "{size} {rest} error")?)?;
    remedy.offer(0, Spot::On(last.spotted.number), longer(alloc, last, live)?)?;
    Ok(remedy)
}

/// The rest of a shorter table as the live one has it, where one linear line of this has all of it.
fn as_live(
    alloc: Global,
    outline: &Outline<'_>,
    spotted: Spotted<'_>,
    size: u64,
) -> Result<Option<String>, NoMemory> {
    let Some(live) = outline.live_table(spotted.word(1), spotted.number) else {
        return Ok(None);
    };
    let Some(row) = outline.row_at(live, size) else {
        return Ok(None);
    };
    let line = row.spotted;
    let (start, length) = (
        plain(line.word(0)).unwrap_or(0),
        plain(line.word(1)).unwrap_or(0),
    );
    let (kind, device) = (line.word(2), line.word(3));
    let passed = size.saturating_sub(start);
    let (rest, offset) = (
        length.saturating_sub(passed),
        plain(line.word(4)).unwrap_or(0),
    );
    let is_last = last_row(outline, live).is_some_and(|it| it.spotted.number == line.number);
    if kind != "linear" || !is_last {
        return Ok(None);
    }
    let offset = offset.saturating_add(passed);
    Ok(Some(format!(in alloc; "{size} {rest} linear {device} {offset}")?))
}

/// A table's last line, so long that the table has so many sectors.
fn longer(alloc: Global, last: Row<'_>, size: u64) -> Result<String, NoMemory> {
    let start = plain(last.spotted.word(0)).unwrap_or(0);
    let length = format!(in alloc; "{}", size.saturating_sub(start))?;
    with_word(alloc, last.spotted.line, 1, length.as_str())
}
