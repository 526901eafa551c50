use crate::names::shown;
use lab_guess::{has_block, is_feature};
use lab_outline::{Outline, Spotted, plain};
use lab_sector::NoMemory;
use std::alloc::Global;

/// Why a message isn't taken.
pub(crate) fn why_refused(
    alloc: Global,
    outline: &Outline<'_>,
    spotted: Spotted<'_>,
) -> Result<String, NoMemory> {
    let name = spotted.word(1);
    let table = outline.live_table(name, spotted.number).unwrap_or("");
    let sector = plain(spotted.word(2)).unwrap_or(0);
    if let Some(why) = block_lacking(alloc, spotted)? {
        return Ok(why);
    }
    let Some(row) = outline.row_at(table, sector) else {
        let size = outline.table_size(table);
        return Ok(format!(in alloc;
            "the device {name} has {size} sectors, and no sector {sector}"
        )?);
    };
    let kind = row.spotted.word(2);
    if kind == "flakey" && is_feature(spotted.word(3)) {
        return by_feature(alloc, name, spotted.word(3));
    }
    if kind != "dust" {
        if let Some(why) = replaced(alloc, outline, spotted, table)? {
            return Ok(why);
        }
        return Ok(format!(in alloc;
            "the line at sector {sector} of {name} is of the type {kind}, which takes no message; \
             dust takes some"
        )?);
    }
    by_dust(alloc, row.spotted, spotted)
}

/// Why a message isn't taken whose device had a table with a dust line at its sector before this live one, if it had one.
fn replaced(
    alloc: Global,
    outline: &Outline<'_>,
    spotted: Spotted<'_>,
    live: &str,
) -> Result<Option<String>, NoMemory> {
    let (name, sector) = (spotted.word(1), plain(spotted.word(2)).unwrap_or(0));
    let Some(load) = outline.last_load(name, spotted.number) else {
        return Ok(None);
    };
    let Some(dust) = dust_before(outline, name, sector, load.number) else {
        return Ok(None);
    };
    let line = load.number;
    Ok(Some(format!(in alloc;
        "the table {dust} with its dust line isn't live here: line {line} loads {live} for {name} in its place, which \
         takes no message at sector {sector}"
    )?))
}

/// The last table with a dust line at this sector that a device is given before a line.
fn dust_before<'a>(outline: &Outline<'a>, name: &str, sector: u64, before: u64) -> Option<&'a str> {
    let mut found = None;
    for command in &outline.commands {
        let is_own = command.number < before && command.device() == name;
        if is_own && has_dust(outline, command.word(2), sector) {
            found = Some(command.word(2));
        }
    }
    found
}

/// Whether a table has a dust line at this sector.
fn has_dust(outline: &Outline<'_>, table: &str, sector: u64) -> bool {
    match outline.row_at(table, sector) {
        Some(row) => row.spotted.word(2) == "dust",
        None => false,
    }
}

/// Why a message has no block, where its word has one behind it.
fn block_lacking(alloc: Global, spotted: Spotted<'_>) -> Result<Option<String>, NoMemory> {
    let (number, word) = (spotted.word(2), spotted.word(3));
    if !has_block(word) || !spotted.word(4).is_empty() {
        return Ok(None);
    }
    if plain(number) == Some(0) {
        return Ok(Some(format!(in alloc; "it is `message NAME SECTOR {word} N`, with a block N")?));
    }
    Ok(Some(format!(in alloc;
        "it is `message NAME SECTOR {word} N`, with a block N: {number} stands in the place of the SECTOR"
    )?))
}

/// Whether the letter stands between the numbers of several blocks.
pub(crate) fn is_between(letter: char) -> bool {
    matches!(letter, ',' | '-' | '.' | ':')
}

/// Why a message has several blocks, and what it may have.
pub(crate) fn of_several(alloc: Global, spotted: Spotted<'_>) -> Result<String, NoMemory> {
    let (name, number, word) = (spotted.word(1), spotted.word(2), spotted.word(3));
    let blocks = shown(spotted.word(4));
    Ok(format!(in alloc;
        "`{blocks}` is no block: a message has the number of one block, as `message {name} {number} {word} 1`, and each \
         other block takes a line of its own"
    )?)
}

/// Why a flakey line takes no message of its features, and what changes them.
fn by_feature(alloc: Global, name: &str, feature: &str) -> Result<String, NoMemory> {
    Ok(format!(in alloc;
        "flakey takes no message, its features stand in its table: to change them in a run, write a \
         table that has {feature}, and in the place of this line `load {name} TABLE` and below it `resume {name}`"
    )?)
}

/// Why a dust line doesn't take a message: the number of its block is above the highest one, or it is none of dust's.
fn by_dust(alloc: Global, row: Spotted<'_>, spotted: Spotted<'_>) -> Result<String, NoMemory> {
    let highest = blocks_of(row).saturating_sub(1);
    let numbered = spotted.word(3).ends_with("block");
    if numbered && plain(spotted.word(4)).is_some_and(|block| highest < block) {
        let bytes = row.word(5);
        return Ok(format!(in alloc;
            "the highest block of the line is {highest}: blocks are counted from 0, by their numbers and not by \
             bytes or sectors, and have {bytes} bytes here"
        )?);
    }
    if spotted.line.contains('$') {
        let why = "a script has no variables of a shell: write the number of the block itself";
        return Ok(String::from_str(alloc, why)?);
    }
    let why =
        "dust takes addbadblock N, removebadblock N, queryblock N, countbadblocks, listbadblocks, \
               clearbadblocks, enable, disable and quiet";
    Ok(String::from_str(alloc, why)?)
}

/// How many blocks a dust line has.
pub(crate) fn blocks_of(row: Spotted<'_>) -> u64 {
    let length = plain(row.word(1)).unwrap_or(0);
    let sectors = plain(row.word(5)).unwrap_or(512) / 512;
    length.div_ceil(sectors.max(1))
}
