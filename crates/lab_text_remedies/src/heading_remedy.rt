use crate::conflict::{OF_CONFLICT, is_middle};
use crate::heading_marks::heading_words;
use crate::headings::{instead_of, names_devices, with_line};
use lab_advice::{Place, Remedy, Spot};
use lab_guess::{Draft, name_near};
use lab_outline::{Outline, nearest_of};
use lab_sector::NoMemory;
use lab_text::is_name;
use std::alloc::Global;
use std::str::from_utf8;

/// What is told of a heading of none of the four forms.
const FORMS: &str =
    "a heading is `== table NAME`, `== script`, `== log NAME` or `== history`, with a NAME of 1 to 32 letters, \
     digits, `_`, `.` and `-` that begins with a letter, a digit or `_`";

/// What is told of a log's heading with devices behind its name.
const OF_DEVICES: &str =
    "a log's heading has a name alone, and no device: each line of a log names its device itself, as its first word";

/// The remedy of a heading of none of the four forms.
pub(crate) fn heading_remedy(
    alloc: Global,
    outline: &Outline<'_>,
    place: Place<'_>,
) -> Result<Remedy, NoMemory> {
    let line = from_utf8(place.line).unwrap_or("");
    if is_middle(line) {
        return Remedy::told(alloc, OF_CONFLICT);
    }
    if is_end(line) {
        return end_remedy(alloc, outline, place.number);
    }
    if let Some(why) = with_line(alloc, line)? {
        return Ok(Remedy::of(alloc, why));
    }
    if let Some(why) = instead_of(line) {
        return other_part(alloc, outline, place, why);
    }
    let remedy = Remedy::told(
        alloc,
        if names_devices(line) {
            OF_DEVICES
        } else {
            FORMS
        },
    )?;
    let spot = Spot::On(place.number);
    let mut remedy = remedy.or_if(spot, heading_meant(alloc, outline, place.line)?)?;
    let words = heading_words(alloc, line)?;
    if is_name(words.as_str().as_bytes()) {
        for kind in "log table".split_whitespace() {
            remedy.offer(1, spot, format!(in alloc; "== {kind} {words}")?)?;
        }
    }
    Ok(remedy)
}

/// Whether a heading has no word, or is to end a part.
fn is_end(line: &str) -> bool {
    let word = line
        .trim_start_matches('=')
        .split_whitespace()
        .next()
        .unwrap_or("");
    matches!(word, "" | "end" | "END" | "eof" | "EOF" | "done" | "fin")
}

/// The remedy of a heading without a word, or of one that is to end a part: it's left out, or is the script's where the
/// bundle has none.
fn end_remedy(alloc: Global, outline: &Outline<'_>, number: u64) -> Result<Remedy, NoMemory> {
    let why = "a part has no end of its own: it ends where the next heading stands";
    let mut remedy = Remedy::told(alloc, why)?;
    if outline.commands.is_empty() {
        remedy.offer(0, Spot::On(number), String::from_str(alloc, "== script")?)?;
    }
    remedy.or_blank(alloc, number)
}

/// The remedy of a part that a bundle hasn't: the script's heading, where the bundle has none.
fn other_part(
    alloc: Global,
    outline: &Outline<'_>,
    place: Place<'_>,
    why: &str,
) -> Result<Remedy, NoMemory> {
    let remedy = Remedy::told(alloc, why)?;
    if why.contains("`== script`") && outline.commands.is_empty() {
        return remedy.or(
            Spot::On(place.number),
            String::from_str(alloc, "== script")?,
        );
    }
    if why.contains("`== history`") {
        return remedy.or(
            Spot::On(place.number),
            String::from_str(alloc, "== history")?,
        );
    }
    let line = from_utf8(place.line).unwrap_or("");
    let name = line.split_whitespace().nth(2).unwrap_or("");
    if why.contains("`== log NAME`") && !name.is_empty() {
        let heading = heading_of(alloc, outline, "log", name, line)?;
        return remedy.or_if(Spot::On(place.number), heading);
    }
    Ok(remedy)
}

/// The heading that a line seems to mean.
pub(crate) fn heading_meant(
    alloc: Global,
    outline: &Outline<'_>,
    line: &[u8],
) -> Result<Option<String>, NoMemory> {
    let Ok(line) = from_utf8(line) else {
        return Ok(None);
    };
    let bare = heading_words(alloc, line)?;
    let mut words = bare.as_str().split_whitespace();
    let mut kind = kind_meant(alloc, words.next().unwrap_or(""))?;
    if kind.is_none() {
        kind = kind_meant(alloc, words.next().unwrap_or(""))?;
    }
    let word = line.trim_start_matches('=').trim();
    if kind.is_none() && outline.wanted_table() == Some(word) {
        return Ok(Some(format!(in alloc; "== table {word}")?));
    }
    match kind {
        Some(kind) => {
            let (name, more) = (words.next().unwrap_or(""), words.next().unwrap_or(""));
            if kind == "log" && are_one_name(name, more) && words.next().is_none() {
                return Ok(Some(format!(in alloc; "== log {name}_{more}")?));
            }
            heading_of(alloc, outline, kind, name, line)
        }
        None => Ok(None),
    }
}

/// Whether two words seem to be one name with a blank in it.
fn are_one_name(first: &str, second: &str) -> bool {
    is_name(first.as_bytes())
        && second.chars().all(|letter| letter.is_ascii_alphanumeric())
        && !second.is_empty()
}

/// The heading of a part of this kind whose name this word means, unless it is the line.
fn heading_of(
    alloc: Global,
    outline: &Outline<'_>,
    kind: &str,
    word: &str,
    line: &str,
) -> Result<Option<String>, NoMemory> {
    let mut draft = Draft::new(alloc);
    draft.push("==")?;
    draft.push(kind)?;
    if is_named(kind) {
        match (name_meant(outline, kind, word), name_near(alloc, word)?) {
            (Some(name), _) => draft.push(name)?,
            (None, Some(name)) => draft.push(name.as_str())?,
            (None, None) => return Ok(None),
        }
    }
    Ok(draft.changed(line))
}

/// The name of a part that a heading's word seems to mean: what stands behind its last slash, or for a table without a name
/// the one that a command asks for.
fn name_meant<'a>(outline: &Outline<'a>, kind: &str, word: &'a str) -> Option<&'a str> {
    let (_folder, last) = word.rsplit_once('/').unwrap_or(("", word));
    let name = last.trim_end_matches(|c: char| c == ';' || c == ':' || c == ',');
    if is_name(name.as_bytes()) {
        return Some(name);
    }
    match kind {
        "table" if word.is_empty() => outline.wanted_table(),
        "log" if word.is_empty() => outline.free_log(),
        _ => None,
    }
}

/// The kind of part that a heading's word seems to mean.
fn kind_meant(alloc: Global, word: &str) -> Result<Option<&'static str>, NoMemory> {
    match word {
        "iolog" => Ok(Some("log")),
        _ => nearest_of(alloc, word, "table log script history"),
    }
}

/// Whether a heading of this kind has a name.
fn is_named(kind: &str) -> bool {
    matches!(kind, "table" | "log")
}
