use lab_advice::{Remedy, Spot};
use lab_guess::{Draft, is_command, verb_near};
use lab_outline::{Outline, Spotted, nearest_of, plain};
use lab_sector::NoMemory;
use lab_text::{Lines, is_name};
use std::alloc::Global;
use std::str::from_utf8;

/// How many bytes a line has at most that is told with a word more.
const LONGEST: usize = 200;

/// How many devices a line is offered with at most.
const MOST: usize = 4;

/// How many lines are looked through at most for names.
const MOST_LINES: usize = 10_000;

/// The remedy with the command that has its verb or its device, where the line lacks one of them.
pub fn or_lost(
    alloc: Global,
    bytes: &[u8],
    outline: &Outline<'_>,
    mut remedy: Remedy,
    spotted: Spotted<'_>,
) -> Result<Remedy, NoMemory> {
    if LONGEST < spotted.line.len() {
        return Ok(remedy);
    }
    offer_verbs(alloc, &mut remedy, outline, spotted)?;
    offer_disk(alloc, &mut remedy, spotted)?;
    offer_receivers(alloc, &mut remedy, outline, spotted)?;
    offer_names(alloc, &mut remedy, bytes, outline, spotted)?;
    Ok(remedy)
}

/// Offers the line behind each verb that it may lack.
fn offer_verbs(
    alloc: Global,
    remedy: &mut Remedy,
    outline: &Outline<'_>,
    spotted: Spotted<'_>,
) -> Result<(), NoMemory> {
    let first = spotted.word(0);
    let verbs = if verb_near(alloc, first)? == first {
        verbs_lost(outline, spotted)
    } else {
        ""
    };
    for verb in verbs.split_whitespace() {
        let line = spotted.line.trim();
        remedy.offer(
            0,
            Spot::On(spotted.number),
            format!(in alloc; "{verb} {line}")?,
        )?;
    }
    Ok(())
}

/// The verbs one of which a line lacks that begins with a device.
fn verbs_lost(outline: &Outline<'_>, spotted: Spotted<'_>) -> &'static str {
    let (name, second, third) = (spotted.word(0), spotted.word(1), spotted.word(2));
    let stands = outline.created(name, spotted.number).is_some();
    let is_table = outline.table(second).is_some() && third.is_empty();
    if is_command(spotted.line) {
        return "";
    }
    if stands && second.is_empty() {
        return "resume suspend status";
    }
    if stands && plain(second).is_some() && !third.is_empty() {
        return "message";
    }
    match is_table && is_name(name.as_bytes()) {
        true if stands => "load",
        true => "create",
        false => "",
    }
}

/// Offers the disk that a line with two numbers means by a verb near to `ram`.
fn offer_disk(alloc: Global, remedy: &mut Remedy, spotted: Spotted<'_>) -> Result<(), NoMemory> {
    let (number, sectors) = (spotted.word(1), spotted.word(2));
    let are_numbers = plain(number).and(plain(sectors)).is_some() && spotted.word(3).is_empty();
    if are_numbers && nearest_of(alloc, spotted.word(0), "ram")?.is_some() {
        let line = format!(in alloc; "ram {number} {sectors}")?;
        remedy.offer(0, Spot::On(spotted.number), line)?;
    }
    Ok(())
}

/// Offers a message without its device to each of them.
fn offer_receivers(
    alloc: Global,
    remedy: &mut Remedy,
    outline: &Outline<'_>,
    spotted: Spotted<'_>,
) -> Result<(), NoMemory> {
    let is_one = spotted.word(0) == "message"
        && plain(spotted.word(1)).is_some()
        && !spotted.word(2).is_empty()
        && outline.created(spotted.word(1), spotted.number).is_none();
    let creates = outline.commands.iter().filter(|it| it.word(0) == "create");
    for command in creates.take(if is_one { MOST } else { 0 }) {
        let line = with_second(alloc, spotted.line, command.device())?;
        remedy.offer(0, Spot::On(spotted.number), line)?;
    }
    Ok(())
}

/// The line with a word more behind its first one.
fn with_second(alloc: Global, line: &str, more: &str) -> Result<String, NoMemory> {
    let mut draft = Draft::new(alloc);
    for (place, word) in line.split_whitespace().enumerate() {
        if place == 1 {
            draft.push(more)?;
        }
        draft.push(word)?;
    }
    Ok(draft.line())
}

/// Offers a create of a table alone by each device that some line names and none creates.
fn offer_names(
    alloc: Global,
    remedy: &mut Remedy,
    bytes: &[u8],
    outline: &Outline<'_>,
    spotted: Spotted<'_>,
) -> Result<(), NoMemory> {
    let table = spotted.word(1);
    let is_one = spotted.word(0) == "create" && spotted.word(2).is_empty();
    if !is_one || outline.table(table).is_none() {
        return Ok(());
    }
    offer_creates(alloc, remedy, bytes, outline, spotted.number, table)
}

/// Offers, in the place of a line, the create of a device of this table by each name that some line has and none creates.
pub fn offer_creates(
    alloc: Global,
    remedy: &mut Remedy,
    bytes: &[u8],
    outline: &Outline<'_>,
    number: u64,
    table: &str,
) -> Result<(), NoMemory> {
    let mut found = 0usize;
    for line in Lines::new(bytes).take(MOST_LINES) {
        let name = name_in(from_utf8(line).unwrap_or(""));
        if found < MOST && !name.is_empty() && outline.created_from(name, 0).is_none() {
            found = found.saturating_add(1);
            let line = format!(in alloc; "create {name} {table}")?;
            remedy.offer(0, Spot::On(number), line)?;
        }
    }
    Ok(())
}

/// The first device that a line names by its path.
fn name_in(line: &str) -> &str {
    for word in line.split_whitespace().take(4) {
        if let Some(name) = word.strip_prefix("/dev/mapper/") {
            return if is_name(name.as_bytes()) { name } else { "" };
        }
    }
    ""
}
