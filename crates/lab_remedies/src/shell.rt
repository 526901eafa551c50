use lab_advice::{Remedy, Spot};
use lab_guess::{is_row, verb_near};
use lab_outline::{Outline, Spotted};
use lab_rule_remedies::only_unused;
use lab_sector::NoMemory;
use lab_text::is_name;
use std::alloc::Global;

/// How many bytes a line has at most that is told in parts.
const LONGEST: usize = 160;

/// A create or a load, and the device that it names.
#[derive(Clone, Copy)]
struct Named<'a> {
    verb: &'static str,
    name: &'a str,
}

/// The remedy of a command that has its table's lines with it, as dmsetup takes them: behind `--table`, in quotes, or from
/// an `echo`; none for another line.
pub(crate) fn shell_remedy(
    alloc: Global,
    outline: &Outline<'_>,
    spotted: Spotted<'_>,
) -> Result<Option<Remedy>, NoMemory> {
    let Some(command) = command_in(alloc, spotted)? else {
        return Ok(None);
    };
    if LONGEST < spotted.line.len() {
        return Ok(None);
    }
    if let Some(row) = row_in(spotted.line) {
        return Ok(Some(parted(alloc, outline, command, row)?));
    }
    let Some(table) = behind(spotted, "--table").filter(|it| outline.table(it).is_some()) else {
        return Ok(None);
    };
    let why = "a table is named right behind the device, without `--table`";
    let (verb, name) = (command.verb, command.name);
    let line = format!(in alloc; "{verb} {name} {table}")?;
    Ok(Some(Remedy::told(alloc, why)?.or(Spot::On(spotted.number), line)?))
}

/// What is told of a command with a table's line in it: where the two belong.
fn parted(
    alloc: Global,
    outline: &Outline<'_>,
    command: Named<'_>,
    row: &str,
) -> Result<Remedy, NoMemory> {
    let (verb, name) = (command.verb, command.name);
    let table = if outline.table(name).is_none() {
        name
    } else {
        "TABLE"
    };
    let mut why = format!(in alloc;
        "a command names its table, whose lines stand in a part of their own: write `{verb} {name} {table}` on this line, \
         and in a part `== table {table}` the line `{row}`"
    )?;
    if let Some(unused) = only_unused(outline) {
        let other = format!(in alloc;
            "; or `{verb} {name} {unused}`, by the table that no command names"
        )?;
        why.push_str(other.as_str())?;
    }
    Ok(Remedy::of(alloc, why))
}

/// The create or load that a line has, and the name behind it.
fn command_in<'a>(alloc: Global, spotted: Spotted<'a>) -> Result<Option<Named<'a>>, NoMemory> {
    for (place, word) in spotted.line.split_whitespace().enumerate() {
        let verb = match verb_near(alloc, word)? {
            "create" => "create",
            "load" | "reload" => "load",
            _ => continue,
        };
        if let Some(name) = name_behind(spotted, place) {
            return Ok(Some(Named { verb, name }));
        }
    }
    Ok(None)
}

/// The name right behind the word at this place, but for options.
fn name_behind<'a>(spotted: Spotted<'a>, place: usize) -> Option<&'a str> {
    for word in spotted.line.split_whitespace().skip(place).skip(1) {
        if is_name(word.as_bytes()) {
            return Some(word);
        }
        if !word.starts_with('-') {
            return None;
        }
    }
    None
}

/// The table's line in a command: in quotes, or behind its first words.
fn row_in(line: &str) -> Option<&str> {
    let mark = if line.contains('"') { '"' } else { '\'' };
    let rest = match line.split_once(mark) {
        Some((_front, rest)) => rest,
        None => line.trim_start_matches(|c: char| !c.is_ascii_digit()),
    };
    let (row, _behind) = rest.split_once(mark).unwrap_or((rest, ""));
    let (bare, _command) = row.split_once(" |").unwrap_or((row, ""));
    Some(bare.trim()).filter(|it| is_row(it))
}

/// The word behind this one.
fn behind<'a>(spotted: Spotted<'a>, option: &str) -> Option<&'a str> {
    let mut words = spotted.line.split_whitespace();
    let _option = words.find(|it| *it == option)?;
    words.next()
}
