use crate::asked::row_below;
use crate::disks::self_told;
use crate::names::shown;
use lab_advice::{Remedy, Spot};
use lab_guess::{length_to_end, with_word};
use lab_outline::{Outline, Reference, Spotted, plain};
use lab_script::MAX_DISK_SECTORS;
use lab_sector::NoMemory;
use std::alloc::Global;

/// The remedy of a table that reaches past the end of what it is laid on: the line, the device and both sizes.
pub fn size_remedy(
    alloc: Global,
    outline: &Outline<'_>,
    spotted: Spotted<'_>,
) -> Result<Remedy, NoMemory> {
    if let Some(why) = self_told(alloc, outline, spotted)? {
        return Ok(Remedy::of(alloc, why));
    }
    let table = spotted.word(2);
    let Some(reference) = outline.passing(table, spotted.number) else {
        return Remedy::told(
            alloc,
            "a line of the table goes past the end of its device: take a smaller length or offset, or a larger disk",
        );
    };
    let row = reference.row;
    let (number, within, line) = (row.spotted.number, row.within, shown(row.spotted.line));
    let (device, end) = (reference.device, reference.end);
    let size = outline.size_of(device, spotted.number);
    if let Some(length) = in_sectors(reference, size) {
        return in_bytes(alloc, reference, length);
    }
    if let Some(length) = length_meant(reference, size) {
        let remedy = by_end(alloc, reference, length)?;
        return or_next_offset(alloc, remedy, outline, reference, size);
    }
    if MAX_DISK_SECTORS < end && outline.disk_of(device).is_some() {
        return past_all(alloc, reference, size);
    }
    let why = format!(in alloc;
        "line {number} of the bundle, table {table} line {within}, `{line}`, reaches up to sector \
         {end} of {device}, which has {size} sectors: take a smaller length or offset, or a \
         larger device"
    )?;
    let mut remedy = Remedy::of(alloc, why);
    let in_sectors = with_offset_in_sectors(alloc, reference, size)?;
    let is_counted = in_sectors.is_some();
    if let Some(line) = in_sectors {
        remedy.offer(0, Spot::On(number), line)?;
    }
    if let Some(line) = without_start(alloc, reference, size)? {
        remedy.offer(0, Spot::On(number), line)?;
    }
    if let Some(line) = with_rest(alloc, reference, size)? {
        remedy.offer(0, Spot::On(number), line)?;
    }
    if !is_counted {
        remedy = or_next_offset(alloc, remedy, outline, reference, size)?;
    }
    larger(alloc, remedy, outline, reference)
}

/// The remedy with the line whose offset follows on the line above it, or is 0 in a table's first line, if it fits so.
fn or_next_offset(
    alloc: Global,
    mut remedy: Remedy,
    outline: &Outline<'_>,
    reference: Reference<'_>,
    size: u64,
) -> Result<Remedy, NoMemory> {
    let line = reference.row.spotted;
    let (place, length) = (
        reference.place.saturating_add(1),
        plain(line.word(1)).unwrap_or(0),
    );
    let offset = next_offset(outline, reference);
    if offset.saturating_add(length) <= size && plain(line.word(place)) != Some(offset) {
        let offset = format!(in alloc; "{offset}")?;
        let mended = with_word(alloc, line.line, place, offset.as_str())?;
        remedy.offer(0, Spot::On(line.number), mended)?;
    }
    Ok(remedy)
}

/// The offset that follows on the line above, where that is laid on the same device, or else 0.
fn next_offset(outline: &Outline<'_>, reference: Reference<'_>) -> u64 {
    let number = reference.row.spotted.number;
    for row in &outline.rows {
        let above = row.spotted;
        let is_above = row.table == reference.row.table && above.number < number;
        if is_above && above.word(3) == reference.device {
            let is_last = match row_below(outline, above.number) {
                Some(below) => below.spotted.number == number,
                None => false,
            };
            if is_last {
                let length = plain(above.word(1)).unwrap_or(0);
                return plain(above.word(4)).unwrap_or(0).saturating_add(length);
            }
        }
    }
    0
}

/// A line from the first sector of its device on, where its offset is its start once more, and the device has as many sectors.
fn without_start(
    alloc: Global,
    reference: Reference<'_>,
    size: u64,
) -> Result<Option<String>, NoMemory> {
    let line = reference.row.spotted;
    let place = reference.place.saturating_add(1);
    let length = plain(line.word(1)).unwrap_or(0);
    let is_start = line.word(place) == line.word(0) && plain(line.word(0)) != Some(0);
    if !is_start || size < length {
        return Ok(None);
    }
    Ok(Some(with_word(alloc, line.line, place, "0")?))
}

/// A line as long as its device has sectors behind the offset, where it is longer.
fn with_rest(
    alloc: Global,
    reference: Reference<'_>,
    size: u64,
) -> Result<Option<String>, NoMemory> {
    let line = reference.row.spotted;
    let offset = reference
        .end
        .saturating_sub(plain(line.word(1)).unwrap_or(0));
    if size <= offset {
        return Ok(None);
    }
    let length = format!(in alloc; "{}", size.saturating_sub(offset))?;
    Ok(Some(with_word(alloc, line.line, 1, length.as_str())?))
}

/// A line with its offset in sectors, where that counts bytes and the line fits its device so.
fn with_offset_in_sectors(
    alloc: Global,
    reference: Reference<'_>,
    size: u64,
) -> Result<Option<String>, NoMemory> {
    let line = reference.row.spotted;
    let place = reference.place.saturating_add(1);
    let bytes = plain(line.word(place)).unwrap_or(0);
    let length = reference.end.saturating_sub(bytes);
    let offset = bytes / 512;
    if offset == 0
        || offset.checked_mul(512) != Some(bytes)
        || size < offset.saturating_add(length)
    {
        return Ok(None);
    }
    let offset = format!(in alloc; "{offset}")?;
    Ok(Some(with_word(alloc, line.line, place, offset.as_str())?))
}

/// The sectors that a line's length is meant for, where it counts their bytes: just as many as its device has behind the
/// offset.
fn in_sectors(reference: Reference<'_>, size: u64) -> Option<u64> {
    let bytes = plain(reference.row.spotted.word(1))?;
    let offset = reference.end.checked_sub(bytes)?;
    let length = size.checked_sub(offset)?;
    if length != 0 && length.checked_mul(512) == Some(bytes) {
        Some(length)
    } else {
        None
    }
}

/// The remedy of a line whose length counts bytes.
fn in_bytes(alloc: Global, reference: Reference<'_>, length: u64) -> Result<Remedy, NoMemory> {
    let spotted = reference.row.spotted;
    let (number, line, bytes) = (spotted.number, shown(spotted.line), spotted.word(1));
    let why = format!(in alloc;
        "line {number} of the bundle, `{line}`, has a length of {bytes} sectors: a length counts \
         sectors of 512 bytes, and {bytes} bytes are {length} of them"
    )?;
    let sectors = format!(in alloc; "{length}")?;
    let line = with_word(alloc, spotted.line, 1, sectors.as_str())?;
    Remedy::of(alloc, why).or(Spot::On(number), line)
}

/// How many sectors a line has that fits its device just so where its second word is its end, or its last sector.
fn length_meant(reference: Reference<'_>, size: u64) -> Option<u64> {
    let line = reference.row.spotted;
    let offset = reference.end.checked_sub(plain(line.word(1))?)?;
    let length = length_to_end(line.line)?;
    let room = size.checked_sub(offset)?;
    Some(room).filter(|it| *it == length || it.checked_sub(1) == Some(length))
}

/// The remedy of a line whose second word is its end.
fn by_end(alloc: Global, reference: Reference<'_>, sectors: u64) -> Result<Remedy, NoMemory> {
    let spotted = reference.row.spotted;
    let (number, line, end) = (spotted.number, shown(spotted.line), reference.end);
    let (length, device) = (spotted.word(1), reference.device);
    let why = format!(in alloc;
        "line {number} of the bundle, `{line}`, reaches up to sector {end} of {device}: the second word is a LENGTH, \
         {length} sectors here, and not an end"
    )?;
    let sectors = format!(in alloc; "{sectors}")?;
    let line = with_word(alloc, spotted.line, 1, sectors.as_str())?;
    Remedy::of(alloc, why).or(Spot::On(number), line)
}

/// The remedy of a line that reaches past what any disk has: the line as long as its disk.
fn past_all(alloc: Global, reference: Reference<'_>, size: u64) -> Result<Remedy, NoMemory> {
    let spotted = reference.row.spotted;
    let (number, line, end) = (spotted.number, shown(spotted.line), reference.end);
    let device = reference.device;
    let why = format!(in alloc;
        "line {number} of the bundle, `{line}`, reaches up to sector {end} of {device}, which has {size} sectors: take a \
         smaller length or offset, for all disks of a bundle have at most {MAX_DISK_SECTORS} sectors together"
    )?;
    let offset = end.saturating_sub(plain(spotted.word(1)).unwrap_or(0));
    let remedy = Remedy::of(alloc, why);
    match size.checked_sub(offset) {
        Some(length) if length != 0 => {
            let length = format!(in alloc; "{length}")?;
            let line = with_word(alloc, spotted.line, 1, length.as_str())?;
            remedy.or(Spot::On(number), line)
        }
        _ => Ok(remedy),
    }
}

/// The remedy with a larger disk, if the device is a disk and one may be so large.
fn larger(
    alloc: Global,
    remedy: Remedy,
    outline: &Outline<'_>,
    reference: Reference<'_>,
) -> Result<Remedy, NoMemory> {
    let end = reference.end;
    match outline.disk_of(reference.device) {
        Some(disk) if end <= MAX_DISK_SECTORS => {
            let number = disk.word(1);
            let line = format!(in alloc; "ram {number} {end}")?;
            offered(remedy, Spot::On(disk.number), line)
        }
        _ => Ok(remedy),
    }
}

/// The remedy with a line more that is as likely as the first.
pub(crate) fn offered(mut remedy: Remedy, spot: Spot, line: String) -> Result<Remedy, NoMemory> {
    remedy.offer(0, spot, line)?;
    Ok(remedy)
}
