use crate::inclusive::table_at;
use lab_advice::Remedy;
use lab_outline::{Outline, Row, Spotted, plain};
use lab_sector::NoMemory;
use lab_table::MAX_LINES;
use std::alloc::Global;

/// The remedy of a line that stands above in its table already, word for word, if it does: one of the two is left out.
pub fn doubled_remedy(
    alloc: Global,
    outline: &Outline<'_>,
    spotted: Spotted<'_>,
) -> Result<Option<Remedy>, NoMemory> {
    let table = table_at(outline, spotted.number).unwrap_or("");
    for row in &outline.rows {
        let above = row.spotted;
        let is_above = row.table == table && above.number < spotted.number;
        if is_above && has_words_of(above.line, spotted.line) {
            let line = above.number;
            let why = format!(in alloc;
                "the line stands twice in its table, here and on line {line}: leave one of the two out"
            )?;
            return Ok(Some(Remedy::of(alloc, why).or_blank(alloc, spotted.number)?));
        }
    }
    Ok(None)
}

/// Whether two lines have the same words.
fn has_words_of(line: &str, other: &str) -> bool {
    line.split_whitespace().eq(other.split_whitespace())
}

/// What is told of a line that has to start at this sector, where a line below it does and the table's lines are whole in
/// another order: which one belongs before it.
pub fn why_misordered(
    alloc: Global,
    outline: &Outline<'_>,
    spotted: Spotted<'_>,
    start: u64,
) -> Result<Option<String>, NoMemory> {
    let table = table_at(outline, spotted.number).unwrap_or("");
    let Some(next) = row_from(outline, table, start).filter(|it| spotted.number < it.spotted.number)
    else {
        return Ok(None);
    };
    if !is_whole(outline, table) {
        return Ok(None);
    }
    let within = next.within;
    let below = next.spotted.number.saturating_sub(spotted.number);
    let own = within.saturating_sub(below);
    Ok(Some(format!(in alloc;
        "a table's lines stand in the order of their starts: line {within} of the part belongs before line {own}"
    )?))
}

/// Whether each of a table's lines starts where another one ends, but for the one that starts at 0.
fn is_whole(outline: &Outline<'_>, table: &str) -> bool {
    let mut end = 0u64;
    let mut count = 0u64;
    for _line in 0..MAX_LINES {
        if let Some(row) = row_from(outline, table, end) {
            end = end.saturating_add(plain(row.spotted.word(1)).unwrap_or(0));
            count = count.saturating_add(1);
        }
    }
    count == count_of(outline, table)
}

/// The first of a table's lines that starts at this sector.
fn row_from<'a>(outline: &Outline<'a>, table: &str, start: u64) -> Option<Row<'a>> {
    for row in &outline.rows {
        if row.table == table && plain(row.spotted.word(0)) == Some(start) {
            return Some(*row);
        }
    }
    None
}

/// How many lines a table has.
fn count_of(outline: &Outline<'_>, table: &str) -> u64 {
    let mut count = 0u64;
    for row in &outline.rows {
        if row.table == table {
            count = count.saturating_add(1);
        }
    }
    count
}
