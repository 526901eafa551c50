use crate::loaded::loaded_remedy;
use crate::message_reason::{blocks_of, is_between, of_several, why_refused};
use lab_advice::{Remedy, Spot};
use lab_guess::{
    Unit, has_block, meant, message_meant, ordered_message, with_blanks, with_block, with_word,
    without_marks,
};
use lab_outline::{Outline, Row, Spotted, nearest_of, plain};
use lab_sector::NoMemory;
use std::alloc::Global;

/// The messages that a dust line takes.
const MESSAGES: &str =
    "addbadblock removebadblock queryblock countbadblocks listbadblocks clearbadblocks enable disable quiet";

/// The remedy of a message that the line at its sector doesn't take: why it doesn't.
pub fn message_remedy(
    alloc: Global,
    outline: &Outline<'_>,
    spotted: Spotted<'_>,
) -> Result<Remedy, NoMemory> {
    if is_for_loaded(outline, spotted) {
        if let Some(remedy) = loaded_remedy(alloc, outline, spotted)? {
            return Ok(remedy);
        }
    }
    if has_block(spotted.word(3)) && spotted.word(4).contains(is_between) {
        return Ok(Remedy::of(alloc, of_several(alloc, spotted)?));
    }
    let why = why_refused(alloc, outline, spotted)?;
    let mut remedy = Remedy::of(alloc, why);
    if let Some(row) = row_of(outline, spotted) {
        offer_blocks(alloc, &mut remedy, row.spotted, spotted)?;
    }
    offer_dust(alloc, &mut remedy, outline, spotted)?;
    offer_devices(alloc, &mut remedy, outline, spotted)?;
    offer_added(alloc, &mut remedy, outline, spotted)?;
    let spot = Spot::On(spotted.number);
    if let Some(line) = ordered_message(alloc, spotted.line)? {
        remedy.offer(0, spot, line)?;
    }
    if let Some(line) = with_block(alloc, spotted.line)? {
        remedy.offer(0, spot, line)?;
    }
    let remedy = remedy.or_if(spot, by_number(alloc, spotted)?)?;
    let remedy = remedy.or_if(spot, by_word(alloc, spotted.line)?)?;
    match without_signs(alloc, spotted.line)? {
        Some(line) => {
            let other = by_word(alloc, line.as_str())?;
            remedy.or(spot, other.unwrap_or(line))
        }
        None => Ok(remedy),
    }
}

/// The message by the word of dust that its own is nearest to, or stands for.
fn by_word(alloc: Global, line: &str) -> Result<Option<String>, NoMemory> {
    let own = line.split_whitespace().nth(3).unwrap_or("");
    match message_meant(own).or(nearest_of(alloc, own, MESSAGES)?) {
        Some(word) => Ok(Some(with_word(alloc, line, 3, word)?)),
        None => Ok(None),
    }
}

/// The message with the block that its last word means, where it is no number.
fn by_number(alloc: Global, spotted: Spotted<'_>) -> Result<Option<String>, NoMemory> {
    match meant(spotted.word(4), Unit::Bytes) {
        Some(block) if has_block(spotted.word(3)) => {
            let block = format!(in alloc; "{block}")?;
            Ok(Some(with_word(alloc, spotted.line, 4, block.as_str())?))
        }
        _ => Ok(None),
    }
}

/// The message without quotes, and with blanks for other signs.
fn without_signs(alloc: Global, line: &str) -> Result<Option<String>, NoMemory> {
    match without_marks(alloc, line)? {
        Some(line) => Ok(Some(line)),
        None => with_blanks(alloc, line),
    }
}

/// Offers the message to each dust line of the device's live table, where none stands at its sector.
fn offer_dust(
    alloc: Global,
    remedy: &mut Remedy,
    outline: &Outline<'_>,
    spotted: Spotted<'_>,
) -> Result<(), NoMemory> {
    let table = outline
        .live_table(spotted.word(1), spotted.number)
        .unwrap_or("");
    let is_there = is_dust(row_of(outline, spotted));
    for row in &outline.rows {
        if row.table == table && row.spotted.word(2) == "dust" && !is_there {
            let line = with_word(alloc, spotted.line, 2, row.spotted.word(0))?;
            remedy.offer(0, Spot::On(spotted.number), line)?;
        }
    }
    Ok(())
}

/// Offers the message to each other device that has a dust line at its sector, where its own has none there.
fn offer_devices(
    alloc: Global,
    remedy: &mut Remedy,
    outline: &Outline<'_>,
    spotted: Spotted<'_>,
) -> Result<(), NoMemory> {
    let is_there = is_dust(row_of(outline, spotted));
    for command in &outline.commands {
        let line = with_word(alloc, spotted.line, 1, command.device())?;
        let other = Spotted {
            number: spotted.number,
            line: line.as_str(),
        };
        if command.word(0) == "create" && !is_there && is_dust(row_of(outline, other)) {
            remedy.offer(1, Spot::On(spotted.number), line)?;
        }
    }
    Ok(())
}

/// Offers a message that lacks its block by each block that was added above.
fn offer_added(
    alloc: Global,
    remedy: &mut Remedy,
    outline: &Outline<'_>,
    spotted: Spotted<'_>,
) -> Result<(), NoMemory> {
    let line = spotted.line.trim_end();
    if !matches!(spotted.word(3), "removebadblock" | "queryblock") || !spotted.word(4).is_empty() {
        return Ok(());
    }
    for above in &outline.commands {
        let is_same = above.word(1) == spotted.word(1) && above.word(2) == spotted.word(2);
        if is_same && above.number < spotted.number && above.word(3) == "addbadblock" {
            let block = above.word(4);
            remedy.offer(
                0,
                Spot::On(spotted.number),
                format!(in alloc; "{line} {block}")?,
            )?;
        }
    }
    Ok(())
}

/// Whether a message is for the table that is loaded and not for the live one: the dust line at its sector is there.
fn is_for_loaded(outline: &Outline<'_>, spotted: Spotted<'_>) -> bool {
    let loaded = outline
        .loaded_table(spotted.word(1), spotted.number)
        .unwrap_or("");
    let sector = plain(spotted.word(2)).unwrap_or(0);
    match outline.row_at(loaded, sector) {
        Some(row) => row.spotted.word(2) == "dust" && !is_dust(row_of(outline, spotted)),
        None => false,
    }
}

/// Whether the table's line is there, and of dust.
fn is_dust(row: Option<Row<'_>>) -> bool {
    row.is_some_and(|it| it.spotted.word(2) == "dust")
}

/// The table's line at a message's sector.
fn row_of<'a>(outline: &Outline<'a>, spotted: Spotted<'_>) -> Option<Row<'a>> {
    let table = outline
        .live_table(spotted.word(1), spotted.number)
        .unwrap_or("");
    outline.row_at(table, plain(spotted.word(2)).unwrap_or(0))
}

/// Offers the message by the number of a block, where its number counts blocks from 1, or is the block's first byte or first
/// sector.
fn offer_blocks(
    alloc: Global,
    remedy: &mut Remedy,
    row: Spotted<'_>,
    spotted: Spotted<'_>,
) -> Result<(), NoMemory> {
    let number = plain(spotted.word(4)).unwrap_or(0);
    let bytes = plain(row.word(5)).unwrap_or(0);
    if row.word(2) == "dust" && blocks_of(row) == number {
        let block = format!(in alloc; "{}", number.saturating_sub(1))?;
        let line = with_word(alloc, spotted.line, 4, block.as_str())?;
        remedy.offer(0, Spot::On(spotted.number), line)?;
    }
    for unit in [bytes, bytes / 512] {
        let block = number.checked_div(unit).unwrap_or(0);
        if row.word(2) == "dust" && block.checked_mul(unit) == Some(number) && block < number {
            let block = format!(in alloc; "{block}")?;
            let line = with_word(alloc, spotted.line, 4, block.as_str())?;
            remedy.offer(0, Spot::On(spotted.number), line)?;
        }
    }
    Ok(())
}
