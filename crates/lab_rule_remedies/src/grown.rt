use crate::asked::last_row;
use crate::files::replay_of;
use lab_advice::{Remedy, Spot};
use lab_guess::with_word;
use lab_outline::{Outline, Row, plain};
use lab_sector::NoMemory;
use std::alloc::Global;

/// How many words a table's line of one device has at most whose length is changed: a delay line of more has several.
const MOST: usize = 64;

/// A table's line, and the length with which a range fits its table.
#[derive(Clone, Copy)]
struct Grown<'a> {
    row: Row<'a>,
    length: u64,
}

/// The remedy of a range that ends at this byte, past the end of its file: the last line of the file's table so long that
/// the range fits, where what it is laid on has room.
pub(crate) fn or_grown(
    alloc: Global,
    mut why: String,
    outline: &Outline<'_>,
    file: &str,
    end: u64,
) -> Result<Remedy, NoMemory> {
    let Some(Grown { row, length }) = row_to_grow(outline, file, end) else {
        return Ok(Remedy::of(alloc, why));
    };
    let (number, device) = (row.spotted.number, row.spotted.word(3));
    why.push_str(format!(in alloc;
        "; or make the table longer: {device} has more sectors than line {number} takes"
    )?.as_str())?;
    let length = format!(in alloc; "{length}")?;
    let line = with_word(alloc, row.spotted.line, 1, length.as_str())?;
    Remedy::of(alloc, why).or(Spot::On(number), line)
}

/// The last line of a file's table with the length that a range up to this byte wants: all that the line's device has, where
/// no other line is laid on that, or just so much.
fn row_to_grow<'a>(outline: &Outline<'a>, file: &'a str, end: u64) -> Option<Grown<'a>> {
    let replay = replay_of(outline);
    let table = outline.live_table(outline.name_meant(file)?, replay)?;
    let row = last_row(outline, table).filter(|it| is_of_one(*it))?;
    let device = row.spotted.word(3);
    let offset = plain(row.spotted.word(4))?;
    let room = outline.size_of(device, replay).checked_sub(offset)?;
    let start = plain(row.spotted.word(0))?;
    let wanted = end.div_ceil(512).checked_sub(start)?;
    let length = if outline.count_of(device) == 1 {
        room
    } else {
        wanted
    };
    Some(Grown { row, length }).filter(|_| wanted <= room)
}

/// Whether a line is laid on one device, once.
fn is_of_one(row: Row<'_>) -> bool {
    let count = row.spotted.line.split_whitespace().count();
    match row.spotted.word(2) {
        "linear" | "dust" | "flakey" => count <= MOST,
        "delay" => count == 6,
        _ => false,
    }
}
