use lab_guess::{takes_table, verb_near, without_dmsetup};
use lab_outline::{Outline, Spotted, plain};
use lab_rule_remedies::{only_unused, stem_of};
use lab_sector::NoMemory;
use lab_text::is_name;
use std::alloc::Global;

/// How many bytes a line has at most that is taken apart.
const LONGEST: usize = 200;

/// The create or load that a line means which has other words beside the device and a table of the bundle; nothing of
/// another line.
pub(crate) fn create_meant(
    alloc: Global,
    outline: &Outline<'_>,
    bare: &str,
) -> Result<Option<String>, NoMemory> {
    let verb = verb_near(alloc, bare.split_whitespace().next().unwrap_or(""))?;
    let count = bare.split_whitespace().count();
    let is_one = !bare.trim_end_matches(';').contains(';');
    if !takes_table(verb) || count < 3 || LONGEST < bare.len() || !is_one {
        return Ok(None);
    }
    let Some(place) = place_of_name(bare) else {
        return Ok(None);
    };
    match table_behind(outline, bare, place) {
        Some(table) => {
            let name = bare_word(bare.split_whitespace().nth(place).unwrap_or(""));
            Ok(Some(format!(in alloc; "{verb} {name} {table}")?))
        }
        None => of_file(alloc, outline, bare, place),
    }
}

/// The create that reads its table from a file, by the only table that no command names.
fn of_file(
    alloc: Global,
    outline: &Outline<'_>,
    bare: &str,
    place: usize,
) -> Result<Option<String>, NoMemory> {
    let is_create = bare.starts_with("create ");
    match only_unused(outline) {
        Some(table) if is_create && (bare.contains('<') || bare.contains("--table-file")) => {
            let name = bare_word(bare.split_whitespace().nth(place).unwrap_or(""));
            Ok(Some(format!(in alloc; "create {name} {table}")?))
        }
        _ => Ok(None),
    }
}

/// The place of the word that names a command's device, counted from 0.
fn place_of_name(bare: &str) -> Option<usize> {
    let count = bare.split_whitespace().count();
    for (place, word) in bare.split_whitespace().enumerate() {
        let word = bare_word(word);
        let is_label = 3 < count && matches!(word, "device" | "dev" | "name" | "named");
        if place != 0 && !is_label && is_name(word.as_bytes()) {
            return Some(place);
        }
    }
    None
}

/// The first word behind this place that names a table, or a file of its name.
fn table_behind<'a>(outline: &Outline<'_>, bare: &'a str, place: usize) -> Option<&'a str> {
    for word in bare.split_whitespace().skip(place).skip(1) {
        let word = bare_word(word);
        let stem = stem_of(word);
        if outline.table(word).is_some() {
            return Some(word);
        }
        if outline.table(stem).is_some() {
            return Some(stem);
        }
    }
    None
}

/// A word without the marks round it, and without its folder where it is a mapped device.
fn bare_word(word: &str) -> &str {
    let word = word.trim_matches(is_mark);
    word.strip_prefix("/dev/mapper/").unwrap_or(word)
}

/// Whether the letter is a mark round a word.
fn is_mark(letter: char) -> bool {
    matches!(letter, ',' | ';' | '"' | '\'' | '`' | '<' | '(' | ')')
}

/// What is told of a command that has a table behind it and takes none, if it is one: the two that change a table.
pub(crate) fn with_table(
    alloc: Global,
    outline: &Outline<'_>,
    spotted: Spotted<'_>,
) -> Result<Option<String>, NoMemory> {
    let at = if spotted.word(2) == "<" { 3 } else { 2 };
    let (verb, name, table) = (spotted.word(0), spotted.word(1), spotted.word(at));
    let is_change = matches!(
        verb,
        "resume" | "table" | "swap" | "switch" | "replace" | "change"
    );
    if !is_change
        || !spotted.word(at.saturating_add(1)).is_empty()
        || outline.table(table).is_none()
    {
        return Ok(None);
    }
    Ok(Some(format!(in alloc;
        "to change the table of a device, write `load {name} {table}` and below it `resume {name}`"
    )?))
}

/// What is told of a `table` with a table's line behind its device, if one has it: dmsetup gives a device its table so.
pub(crate) fn with_row(alloc: Global, spotted: Spotted<'_>) -> Result<Option<String>, NoMemory> {
    let own = Spotted {
        number: spotted.number,
        line: without_dmsetup(spotted.line),
    };
    let name = own.word(1);
    let has_row = plain(own.word(2)).is_some() && !own.word(3).is_empty();
    if own.word(0) != "table" || !has_row || LONGEST < own.line.len() {
        return Ok(None);
    }
    Ok(Some(format!(in alloc;
        "`table {name}` shows the lines of the live table, and takes none: a table's lines stand in a part of their own, \
         under `== table TABLE`, and `create {name} TABLE` or `load {name} TABLE` gives them to the device"
    )?))
}

/// What is told of dmsetup's `wipe_table`, if a line is one: the table of errors that it stands for.
pub(crate) fn wiped(
    alloc: Global,
    outline: &Outline<'_>,
    spotted: Spotted<'_>,
) -> Result<Option<String>, NoMemory> {
    let own = Spotted {
        number: spotted.number,
        line: without_dmsetup(spotted.line),
    };
    let (verb, name) = (own.word(0), own.word(1));
    if verb != "wipe_table" || !is_name(name.as_bytes()) {
        return Ok(None);
    }
    let size = outline.mapped_size(name, spotted.number);
    if size == 0 {
        return Ok(None);
    }
    Ok(Some(format!(in alloc;
        "dmsetup's wipe_table is no command here, and loads a table that fails all requests: write `0 {size} error` under a heading \
         `== table TABLE`, here `load {name} TABLE`, and below it `resume {name}`"
    )?))
}
