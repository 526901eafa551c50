use crate::inclusive::table_at;
use crate::table_reason::by_type;
use lab_advice::{Remedy, Spot};
use lab_guess::{is_device, lacks_offset, mended_table_line, with_offset};
use lab_outline::{Outline, Row, Spotted, plain};
use lab_sector::NoMemory;
use std::alloc::Global;

/// How many bytes a line has at most whose offset is sought.
const LONGEST: usize = 2000;

/// The offset of a table's line that lacks one: 0 in the first line, and where those before it are laid on its device one
/// behind the other, the next one there, if the device has room for it; nothing where they don't show it.
pub fn offset_wanted(outline: &Outline<'_>, spotted: Spotted<'_>) -> Option<u64> {
    let table = table_at(outline, spotted.number)?;
    let device = device_in(spotted.line);
    let mut is_first = true;
    let mut next = None;
    for row in &outline.rows {
        if row.table == table && row.spotted.number < spotted.number {
            let offset = offset_on(*row, device);
            if offset.is_some() && next.is_some() && offset != next {
                return None;
            }
            next = end_behind(*row, offset);
            is_first = false;
        }
    }
    if is_first {
        return Some(0);
    }
    let length = plain(spotted.word(1)).unwrap_or(0);
    let size = outline.size_of(device, u64::MAX);
    next.filter(|it| size == 0 || it.saturating_add(length) <= size)
}

/// The first word of a line that names a device or a disk; nothing where none does.
fn device_in<'a>(line: &'a str) -> &'a str {
    for word in line.split_whitespace() {
        if is_device(word) {
            return word;
        }
    }
    ""
}

/// The offset of a line on this device, where it is laid there.
fn offset_on(row: Row<'_>, device: &str) -> Option<u64> {
    if row.spotted.word(3) != device {
        return None;
    }
    plain(row.spotted.word(4))
}

/// The sector behind those that a line is laid on from this offset.
fn end_behind(row: Row<'_>, offset: Option<u64>) -> Option<u64> {
    offset?.checked_add(plain(row.spotted.word(1))?)
}

/// The remedy of a line that seems to lack its offset, where the lines before it don't show that: it may be as far in as
/// the line is on its own device, or 0.
pub fn offset_unknown(
    alloc: Global,
    offset: Option<u64>,
    spotted: Spotted<'_>,
) -> Result<Option<Remedy>, NoMemory> {
    let is_one = offset.is_none() && spotted.line.len() <= LONGEST;
    if !is_one || !lacks_offset(alloc, spotted.line)? {
        return Ok(None);
    }
    let form = by_type(spotted.word(2));
    let mut remedy = Remedy::of(
        alloc,
        format!(in alloc;
            "{form}; the OFFSET seems to be left out, the sector of DEVICE at which the line begins there, and the lines before this \
         one don't show which one follows"
        )?,
    );
    for wanted in [plain(spotted.word(0)).unwrap_or(0), 0] {
        let line = match with_offset(alloc, spotted.line, wanted)? {
            Some(line) => Some(line),
            None => mended_table_line(alloc, spotted.line, Some(wanted))?,
        };
        if let Some(line) = line {
            remedy.offer(0, Spot::On(spotted.number), line)?;
        }
    }
    Ok(Some(remedy))
}
