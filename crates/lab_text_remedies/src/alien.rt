use lab_advice::Remedy;
use lab_guess::{action_meant, is_feature, is_type, type_near};
use lab_outline::{Outline, Spotted, nearest_of, plain};
use lab_refusal::PartName;
use lab_sector::NoMemory;
use std::alloc::Global;

/// How many bytes a line has at most whose words are looked at.
const LONGEST: usize = 200;

/// The remedy of a line that ends a text elsewhere, or that a run wrote, if it is one.
pub(crate) fn alien_remedy(
    alloc: Global,
    outline: &Outline<'_>,
    part: PartName<'_>,
    spotted: Spotted<'_>,
) -> Result<Option<Remedy>, NoMemory> {
    let why = if is_end(spotted.line.trim()) {
        "this ends a text of a shell or of a document, and is no line of a bundle: a part ends where the next heading stands"
    } else if is_of_report(spotted) || part != PartName::History && repeats_log(outline, spotted) {
        "this is a line of what a run wrote, and is no line of a bundle"
    } else {
        return Ok(None);
    };
    Ok(Some(Remedy::told(alloc, why)?.or_blank(alloc, spotted.number)?))
}

/// Whether a line is `log` and the name of a log that the bundle has.
pub(crate) fn repeats_log(outline: &Outline<'_>, spotted: Spotted<'_>) -> bool {
    let is_lone = spotted.word(0) == "log" && spotted.word(2).is_empty();
    is_lone && outline.logs.iter().any(|it| it.line == spotted.word(1))
}

/// Whether a line ends a text or a program elsewhere.
fn is_end(bare: &str) -> bool {
    let words = "EOF END EOT _EOF_ __END__ eof end ``` $ % > quit exit ''' ) } ] HERE";
    words.split_whitespace().any(|it| it == bare)
}

/// Whether a line is one of a run's report.
fn is_of_report(spotted: Spotted<'_>) -> bool {
    let (first, second, third) = (spotted.word(0), spotted.word(1), spotted.word(2));
    let actions = "read write sync datasync trim";
    let is_result = matches!(third, "ok" | "EIO") || is_bytes(third);
    let is_answer = plain(first).is_some()
        && is_result
        && actions.split_whitespace().any(|it| it == second);
    let is_told = first == "script" && plain(second).is_some() && !third.is_empty();
    is_answer || is_told || first == "done" && second.starts_with("steps=")
}

/// Whether a word is so many bytes of one value, as a report has them.
fn is_bytes(word: &str) -> bool {
    let (count, value) = word.split_once('x').unwrap_or(("", ""));
    plain(count).is_some_and(|it| it != 0) && value.len() == 2
}

/// The remedy of a line of a table or of a log in which no word may stand in such a line, if it is one.
pub(crate) fn wordless_remedy(
    alloc: Global,
    outline: &Outline<'_>,
    part: PartName<'_>,
    spotted: Spotted<'_>,
) -> Result<Option<Remedy>, NoMemory> {
    let why = match part {
        PartName::Table(_) =>
            "no word of this line is a number, a type or a device, so it is no line of a table",
        PartName::Log(_) =>
            "no word of this line is a FILE, an action or a number, so it is no line of a log",
        _ => return Ok(None),
    };
    if LONGEST < spotted.line.len() {
        return Ok(None);
    }
    for word in spotted.line.split_whitespace() {
        let is_named = outline.created(word, u64::MAX).is_some();
        if is_named || word.contains(is_of_value) || is_near(alloc, part, word)? {
            return Ok(None);
        }
    }
    Ok(Some(Remedy::told(alloc, why)?.or_blank(alloc, spotted.number)?))
}

/// Whether the letter stands in numbers and paths.
fn is_of_value(letter: char) -> bool {
    letter.is_ascii_digit() || matches!(letter, '/' | '=')
}

/// Whether a word is near to an action, in a log, or else to a type or a feature.
fn is_near(alloc: Global, part: PartName<'_>, word: &str) -> Result<bool, NoMemory> {
    let bare = word.trim_matches(|c: char| !c.is_ascii_alphanumeric());
    if !matches!(part, PartName::Log(_)) {
        return Ok(is_feature(bare) || is_type(type_near(alloc, bare)?));
    }
    let actions = "add open close read write trim sync datasync wait";
    Ok(action_meant(bare) != bare || nearest_of(alloc, bare, actions)?.is_some())
}
