use lab_advice::{Remedy, Spot};
use lab_guess::with_word;
use lab_outline::{Outline, Spotted, plain};
use lab_rule_remedies::{fits, in_sectors};
use lab_sector::NoMemory;
use std::alloc::Global;

/// The remedy of a log's line with a number that is no multiple of 512: the numbers may count sectors or blocks, or the
/// LENGTH is less than whole sectors.
pub(crate) fn or_aligned(
    alloc: Global,
    mut remedy: Remedy,
    outline: &Outline<'_>,
    spotted: Spotted<'_>,
) -> Result<Remedy, NoMemory> {
    let sectors = in_sectors(alloc, outline, spotted)?;
    offer_to_last(alloc, &mut remedy, spotted)?;
    if !remedy.mends.is_empty() {
        return remedy.or_if(Spot::On(spotted.number), sectors);
    }
    offer_block(alloc, &mut remedy, outline, spotted)?;
    offer_whole(alloc, &mut remedy, outline, spotted, sectors.is_some())?;
    if let Some(line) = sectors {
        remedy.offer(0, Spot::On(spotted.number), line)?;
    }
    Ok(remedy)
}

/// Offers a line whose LENGTH is the number of its last byte by its length, from its OFFSET on or from 0.
fn offer_to_last(alloc: Global, remedy: &mut Remedy, spotted: Spotted<'_>) -> Result<(), NoMemory> {
    let length = plain(spotted.word(3)).unwrap_or(0).saturating_add(1);
    let offset = plain(spotted.word(2)).unwrap_or(0);
    if length % 512 == 0 && offset % 512 == 0 && 0 < offset && offset < length {
        let rest = length.saturating_sub(offset);
        remedy
            .why
            .push_str("; the last number is a LENGTH, and not the last byte")?;
        let (file, action) = (spotted.word(0), spotted.word(1));
        let line = format!(in alloc; "{file} {action} {offset} {rest}")?;
        remedy.offer(0, Spot::On(spotted.number), line)?;
    }
    if length % 512 == 0 {
        if offset == 0 {
            remedy.why.push_str("; the bytes from 0 up to N are N + 1")?;
        }
        let length = format!(in alloc; "{length}")?;
        let line = with_word(alloc, spotted.line, 3, length.as_str())?;
        remedy.offer(0, Spot::On(spotted.number), line)?;
    }
    Ok(())
}

/// Offers a line whose OFFSET is the number of a block of LENGTH bytes by the byte that this begins at.
fn offer_block(
    alloc: Global,
    remedy: &mut Remedy,
    outline: &Outline<'_>,
    spotted: Spotted<'_>,
) -> Result<(), NoMemory> {
    let (file, action) = (spotted.word(0), spotted.word(1));
    let block = plain(spotted.word(2)).unwrap_or(0);
    let length = plain(spotted.word(3)).unwrap_or(0);
    let offset = block.saturating_mul(length);
    if block % 512 != 0 && 512 < length && fits(outline, file, offset, length) {
        let sector = block.saturating_mul(512);
        remedy.why.push_str(format!(in alloc;
            "; block {block} of {length} bytes begins at byte {offset}, sector {block} at byte {sector}"
        )?.as_str())?;
        let line = format!(in alloc; "{file} {action} {offset} {length}")?;
        remedy.offer(0, Spot::On(spotted.number), line)?;
    }
    Ok(())
}

/// Offers a line whose LENGTH is less than whole sectors by that of these; not where it seems to count sectors.
fn offer_whole(
    alloc: Global,
    remedy: &mut Remedy,
    outline: &Outline<'_>,
    spotted: Spotted<'_>,
    is_sectors: bool,
) -> Result<(), NoMemory> {
    let (file, action) = (spotted.word(0), spotted.word(1));
    let offset = plain(spotted.word(2)).unwrap_or(1);
    let length = plain(spotted.word(3)).unwrap_or(0);
    let whole = length.div_ceil(512).saturating_mul(512);
    let is_counted = is_sectors && length.is_power_of_two();
    if whole != length && !is_counted && fits(outline, file, offset, whole) {
        remedy.why.push_str(format!(in alloc;
            " bytes, so {length} bytes take a LENGTH of {whole}"
        )?.as_str())?;
        let line = format!(in alloc; "{file} {action} {offset} {whole}")?;
        remedy.offer(0, Spot::On(spotted.number), line)?;
    }
    Ok(())
}
