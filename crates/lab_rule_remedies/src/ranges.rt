use crate::files::replay_of;
use crate::grown::or_grown;
use crate::nearer::or_within;
use lab_advice::{Remedy, Spot};
use lab_guess::{exchanged, through_end, with_word};
use lab_outline::{Outline, Row, Spotted, plain};
use lab_sector::NoMemory;
use lab_text::Lines;
use std::alloc::Global;
use std::str::from_utf8;

/// How many bytes an operation has at most.
const MOST: u64 = 1 << 20;

/// The remedy of a range of no sector: its two numbers exchanged, where the device has as many bytes.
pub fn empty_remedy(
    alloc: Global,
    bundle: &[u8],
    outline: &Outline<'_>,
    spotted: Spotted<'_>,
) -> Result<Remedy, NoMemory> {
    let why = "an operation has at least 512 bytes: OFFSET stands before LENGTH";
    let mut remedy = Remedy::told(alloc, why)?;
    if let Some(length) = usual_length(bundle, spotted) {
        let line = with_word(alloc, spotted.line, 3, length)?;
        remedy.offer(0, Spot::On(spotted.number), line)?;
    }
    let bytes = outline
        .size_of(spotted.word(0), replay_of(outline))
        .saturating_mul(512);
    if bytes < plain(spotted.word(2)).unwrap_or(0) {
        return Ok(remedy);
    }
    if let Some(line) = exchanged(alloc, spotted.line, 2)? {
        remedy.offer(0, Spot::On(spotted.number), line)?;
    }
    Ok(remedy)
}

/// The LENGTH that the last operation of a file above this line has.
fn usual_length<'a>(bytes: &'a [u8], spotted: Spotted<'_>) -> Option<&'a str> {
    let mut number = 0u64;
    let mut found: Option<Spotted<'a>> = None;
    for bare in Lines::new(bytes) {
        number = number.saturating_add(1);
        let line = from_utf8(bare).unwrap_or("");
        let other = Spotted { number, line };
        let length = plain(other.word(3)).unwrap_or(0);
        let is_own = number < spotted.number && other.word(0) == spotted.word(0);
        if is_own && 0 < length && matches!(other.word(1), "read" | "write" | "trim") {
            found = Some(other);
        }
    }
    Some(found?.word(3))
}

/// The line of a range in bytes, where a number that is no multiple of 512 counts sectors, and the device has as many.
pub fn in_sectors(
    alloc: Global,
    outline: &Outline<'_>,
    spotted: Spotted<'_>,
) -> Result<Option<String>, NoMemory> {
    let size = outline
        .size_of(spotted.word(0), replay_of(outline))
        .saturating_mul(512);
    let offset = bytes_meant(spotted.word(2));
    let length = bytes_meant(spotted.word(3));
    if size < offset.saturating_add(length) || length == 0 {
        return Ok(None);
    }
    let (file, action) = (spotted.word(0), spotted.word(1));
    Ok(Some(format!(in alloc; "{file} {action} {offset} {length}")?))
}

/// Whether an operation may have this OFFSET and LENGTH on a file, as far as that has room.
pub fn fits(outline: &Outline<'_>, file: &str, offset: u64, length: u64) -> bool {
    let size = outline
        .size_of(file, replay_of(outline))
        .saturating_mul(512);
    let is_aligned = offset % 512 == 0 && length % 512 == 0;
    is_aligned && (1..=MOST).contains(&length) && offset.saturating_add(length) <= size
}

/// The bytes of a number that is a multiple of 512, or counts sectors.
fn bytes_meant(word: &str) -> u64 {
    match plain(word) {
        Some(number) if number % 512 == 0 => number,
        Some(number) => number.saturating_mul(512),
        None => u64::MAX,
    }
}

/// The remedy of a range past the end of its device: both sizes are told.
pub fn range_remedy(
    alloc: Global,
    outline: &Outline<'_>,
    spotted: Spotted<'_>,
) -> Result<Remedy, NoMemory> {
    let file = spotted.word(0);
    let bytes = outline
        .size_of(file, replay_of(outline))
        .saturating_mul(512);
    let length = plain(spotted.word(3)).unwrap_or(0);
    let end = plain(spotted.word(2)).unwrap_or(0).saturating_add(length);
    let mut why = format!(in alloc;
        "the range ends at byte {end}, past the {bytes} bytes that {file} has at `replay`: take a \
         smaller offset or length"
    )?;
    if let Some(last) = bytes.checked_sub(length) {
        why.push_str(format!(in alloc;
            "; the last offset for {length} bytes is {last}"
        )?.as_str())?;
    }
    match row_short(outline, file, end) {
        Some(row) => or_longer(alloc, why, row),
        None => {
            let remedy = or_grown(alloc, why, outline, file, end)?;
            or_within(alloc, remedy, spotted, bytes)
        }
    }
}

/// The only line of the file's table, where that is one sector shorter than this end, and what it is laid on isn't: its
/// second word may be its last sector.
fn row_short<'a>(outline: &Outline<'a>, file: &'a str, end: u64) -> Option<Row<'a>> {
    let replay = replay_of(outline);
    let table = outline.live_table(outline.name_meant(file)?, replay)?;
    let row = outline.row_at(table, 0)?;
    let sectors = plain(row.spotted.word(1))?.checked_add(1)?;
    let offset = plain(row.spotted.word(4))?;
    let below = outline.size_of(row.spotted.word(3), replay);
    let is_only = outline.table_size(table).checked_add(1) == Some(sectors);
    let is_short = sectors.checked_mul(512) == Some(end) && offset.checked_add(sectors)? <= below;
    Some(row).filter(|_| is_only && is_short)
}

/// The remedy with the table's line one sector longer.
fn or_longer(alloc: Global, mut why: String, row: Row<'_>) -> Result<Remedy, NoMemory> {
    let (number, last) = (row.spotted.number, row.spotted.word(1));
    why.push_str(format!(in alloc;
        "; the second word of line {number} is a LENGTH and not an end, and {last} as the last sector is a LENGTH of \
             one more"
    )?
    .as_str())?;
    let line = through_end(alloc, row.spotted.line)?;
    Remedy::of(alloc, why).or_if(Spot::On(number), line)
}
