use lab_advice::{GUESSED, Remedy, Spot};
use lab_guess::{from_start, through_end};
use lab_outline::{Outline, Spotted, plain};
use lab_sector::NoMemory;
use std::alloc::Global;

/// How many lines a table has at most that are told.
const MOST: u64 = 8;

/// The remedy of a line of a table whose lines stand as START END, the END being their last sector, if it is of such a
/// table: the line above by its length, and in words the others.
pub fn inclusive_remedy(
    alloc: Global,
    outline: &Outline<'_>,
    spotted: Spotted<'_>,
) -> Result<Option<Remedy>, NoMemory> {
    let Some(table) = table_at(outline, spotted.number).filter(|it| is_inclusive(outline, it))
    else {
        return Ok(None);
    };
    let mut why = String::from_str(
        alloc,
        "the second word of a table's line is a LENGTH and not an end, and the lines of this table read as START END: a \
         LENGTH is END - START + 1",
    )?;
    for row in &outline.rows {
        if row.table == table && spotted.number <= row.spotted.number {
            if let Some(line) = through_end(alloc, row.spotted.line)? {
                let number = row.spotted.number;
                let front = if number == spotted.number {
                    "so"
                } else {
                    "and"
                };
                why.push_str(format!(in alloc;
                    ", {front} line {number} becomes `{line}`"
                )?.as_str())?;
            }
        }
    }
    let mut remedy = Remedy::of(alloc, why);
    offer_moved(alloc, &mut remedy, outline, spotted)?;
    for row in &outline.rows {
        if row.table == table && row.spotted.number < spotted.number {
            if let Some(line) = through_end(alloc, row.spotted.line)? {
                remedy.offer(0, Spot::On(row.spotted.number), line)?;
            }
        }
    }
    Ok(Some(remedy))
}

/// Offers the line from where the one above ends, by its LENGTH.
fn offer_moved(
    alloc: Global,
    remedy: &mut Remedy,
    outline: &Outline<'_>,
    spotted: Spotted<'_>,
) -> Result<(), NoMemory> {
    for row in &outline.rows {
        let above = row.spotted;
        if above.number.checked_add(1) == Some(spotted.number) {
            let start = plain(above.word(0)).unwrap_or(0);
            let end = start.saturating_add(plain(above.word(1)).unwrap_or(0));
            remedy.offer(
                GUESSED,
                Spot::On(spotted.number),
                from_start(alloc, spotted.line, end)?,
            )?;
        }
    }
    Ok(())
}

/// The name of the table that has the line of this number.
pub fn table_at<'a>(outline: &Outline<'a>, number: u64) -> Option<&'a str> {
    for row in &outline.rows {
        if row.spotted.number == number {
            return Some(row.table);
        }
    }
    None
}

/// Whether a table has two lines or more, and each one starts behind the second word of the one above, and has an end
/// behind its start.
fn is_inclusive(outline: &Outline<'_>, table: &str) -> bool {
    let mut next = Some(0u64);
    let mut count = 0u64;
    for row in &outline.rows {
        if row.table == table {
            let (start, end) = (plain(row.spotted.word(0)), plain(row.spotted.word(1)));
            if start != next || end <= start {
                return false;
            }
            next = end.and_then(|it| it.checked_add(1));
            count = count.saturating_add(1);
        }
    }
    (2..=MOST).contains(&count)
}
