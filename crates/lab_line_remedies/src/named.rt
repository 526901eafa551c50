use crate::quoted::quoted_remedy;
use lab_advice::{Remedy, Spot};
use lab_guess::{name_near, takes_name, takes_table, with_word};
use lab_outline::{Outline, Spotted};
use lab_sector::NoMemory;
use lab_text::is_name;
use std::alloc::Global;

/// How many bytes a word has at most for which a name is sought.
const LONGEST: usize = 200;

/// The remedy of a command with a name that is none, at the place of its device or of its table.
pub fn name_remedy(
    alloc: Global,
    outline: &Outline<'_>,
    spotted: Spotted<'_>,
) -> Result<Option<Remedy>, NoMemory> {
    if let Some(remedy) = quoted_remedy(alloc, outline, spotted)? {
        return Ok(Some(remedy));
    }
    let Some(place) = place_of_name(spotted) else {
        return Ok(None);
    };
    if let Some(name) = outline.name_meant(spotted.word(place)) {
        let why = "a command has the NAME of its device, without its path and its number";
        let line = with_word(alloc, spotted.line, place, name)?;
        return Ok(Some(Remedy::told(alloc, why)?.or(Spot::On(spotted.number), line)?));
    }
    let Some(name) = name_near(alloc, spotted.word(place))? else {
        return Ok(None);
    };
    let mut remedy = Remedy::of(alloc, why_none(alloc, spotted.word(place))?);
    let (_folder, last) = spotted.word(place).rsplit_once('/').unwrap_or(("", ""));
    let is_whole = is_known(outline, name.as_str());
    let is_last = is_name(last.as_bytes()) && is_known(outline, last);
    if is_whole || !is_last {
        offer(alloc, &mut remedy, spotted, place, name.as_str())?;
    }
    if is_name(last.as_bytes()) && (is_last || !is_whole) {
        offer(alloc, &mut remedy, spotted, place, last)?;
    }
    Ok(Some(remedy))
}

/// Offers the command with this name.
fn offer(
    alloc: Global,
    remedy: &mut Remedy,
    spotted: Spotted<'_>,
    place: usize,
    name: &str,
) -> Result<(), NoMemory> {
    let line = with_word(alloc, spotted.line, place, name)?;
    remedy.offer(0, Spot::On(spotted.number), line)
}

/// The place of a word that stands for a name and is none, in a command that has one there.
fn place_of_name(spotted: Spotted<'_>) -> Option<usize> {
    let verb = spotted.word(0);
    if (takes_name(verb) || takes_table(verb) || verb == "message") && is_none(spotted.word(1)) {
        return Some(1);
    }
    if takes_table(verb) && is_none(spotted.word(2)) {
        return Some(2);
    }
    None
}

/// Whether a word is there, and can't be the name that it stands for.
fn is_none(word: &str) -> bool {
    if word.is_empty() || LONGEST < word.len() {
        return false;
    }
    let is_plain = word.starts_with("/dev/mapper/")
        || word.starts_with('-')
        || word.contains(is_quote);
    !is_plain && !is_name(word.as_bytes())
}

/// Whether the letter is one that stands round words, or behind them.
fn is_quote(letter: char) -> bool {
    matches!(letter, ',' | ';' | '"' | '\'' | '`' | '#' | '\\')
}

/// Whether a command names a device of this name, or a table has it.
fn is_known(outline: &Outline<'_>, name: &str) -> bool {
    outline.table(name).is_some() || outline.commands.iter().any(|it| it.device() == name)
}

/// What is wrong with a name.
fn why_none(alloc: Global, word: &str) -> Result<String, NoMemory> {
    let length = word.len();
    if 32 < length && is_made_of_its_signs(word) {
        return Ok(format!(in alloc; "the name has {length} letters, and a name has 1 to 32")?);
    }
    if let Some((_folder, _last)) = word.split_once('/') {
        return Ok(String::from_str(
            alloc,
            "a name has no `/`: it has 1 to 32 letters, digits, `_`, `.` and `-`, and its device stands in tables and \
             logs as /dev/mapper/NAME",
        )?);
    }
    Ok(String::from_str(
        alloc,
        "a name has 1 to 32 letters, digits, `_`, `.` and `-`, and begins with a letter, a digit or `_`",
    )?)
}

/// Whether a word has only the signs of a name.
fn is_made_of_its_signs(word: &str) -> bool {
    !word.contains(|c: char| !c.is_ascii_alphanumeric() && !matches!(c, '_' | '.' | '-'))
}
