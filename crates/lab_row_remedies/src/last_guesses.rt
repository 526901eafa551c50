use lab_advice::{GUESSED, Remedy, Spot};
use lab_guess::{Draft, exchanged};
use lab_outline::{Spotted, plain};
use lab_refusal::PartName;
use lab_sector::NoMemory;
use std::alloc::Global;

/// How many words of a line are exchanged at most, each with the one behind it.
const EXCHANGED: usize = 12;

/// The rank of the lines with a word more: one is as likely as another.
const LACKING: u64 = GUESSED + 100;

/// The remedy with what is guessed last of a line that can't be read: two words are exchanged, one is too many or lacks,
/// or marks stand before some. Each of these lines is tried before it is told.
pub fn or_last(
    alloc: Global,
    remedy: Remedy,
    part: PartName<'_>,
    spotted: Spotted<'_>,
) -> Result<Remedy, NoMemory> {
    let (spot, line) = (Spot::On(spotted.number), spotted.line);
    let mut remedy = remedy
        .or_guess(spot, without_first(alloc, part, line)?)?
        .or_guess(spot, without_repeated(alloc, line)?)?
        .or_guess(spot, without_signs(alloc, line)?)?;
    for word in lacking_words(part, spotted).split_whitespace() {
        let place = if matches!(part, PartName::Table(_)) {
            2
        } else {
            0
        };
        let line = with_word_at(alloc, line, place, word)?;
        remedy.offer(LACKING, spot, line)?;
    }
    for place in 4..EXCHANGED {
        remedy = remedy.or_guess(spot, exchanged(alloc, line, place)?)?;
    }
    Ok(remedy)
}

/// The words one of which a line seems to lack: a table's line the type before its device, a command its verb.
fn lacking_words(part: PartName<'_>, spotted: Spotted<'_>) -> &'static str {
    match part {
        PartName::Table(_) if spotted.word(2).starts_with("/dev/") => "linear dust delay flakey",
        PartName::Script if plain(spotted.word(0)).is_some() => "ram",
        PartName::Script => "create",
        _ => "",
    }
}

/// The line with a word more at a place.
pub fn with_word_at(
    alloc: Global,
    line: &str,
    place: usize,
    more: &str,
) -> Result<String, NoMemory> {
    let mut draft = Draft::new(alloc);
    for (at, word) in line.split_whitespace().enumerate() {
        if at == place {
            draft.push(more)?;
        }
        draft.push(word)?;
    }
    Ok(draft.line())
}

/// The line without its first word, if it has more; nothing of a command behind a time, and of a line that
/// begins with a path.
fn without_first(
    alloc: Global,
    part: PartName<'_>,
    line: &str,
) -> Result<Option<String>, NoMemory> {
    let is_timed = part == PartName::Script
        && line.trim().starts_with(|c: char| c.is_ascii_digit());
    if is_timed || line.starts_with('/') {
        return Ok(None);
    }
    let mut draft = Draft::new(alloc);
    for word in line.split_whitespace().skip(1) {
        draft.push(word)?;
    }
    Ok(Some(draft.line()).filter(|it| !it.as_str().is_empty()))
}

/// The line in which the first number that stands twice side by side stands once; nothing where none does.
fn without_repeated(alloc: Global, line: &str) -> Result<Option<String>, NoMemory> {
    let mut draft = Draft::new(alloc);
    let (mut before, mut is_left) = ("", false);
    for word in line.split_whitespace() {
        if word != before || is_left {
            draft.push(word)?;
        } else {
            is_left = true;
        }
        before = word;
    }
    Ok(draft.changed(line))
}

/// The line whose words have no signs before them, and no `/dev/` before a number or an action; nothing where none has.
fn without_signs(alloc: Global, line: &str) -> Result<Option<String>, NoMemory> {
    let mut draft = Draft::new(alloc);
    for word in line.split_whitespace() {
        draft.push(bare_of(word))?;
    }
    Ok(draft.changed(line))
}

/// A word without the signs before it, unless a number stands behind them.
fn bare_of(word: &str) -> &str {
    if let Some(rest) = word.strip_prefix("/dev/") {
        return if plain(rest).is_some() || is_action(rest) {
            rest
        } else {
            word
        };
    }
    let bare = word.trim_start_matches(is_sign);
    if bare.starts_with(|c: char| c.is_ascii_digit()) {
        word
    } else {
        bare
    }
}

/// Whether a word is an action of a log without numbers.
fn is_action(word: &str) -> bool {
    matches!(word, "add" | "open" | "close")
}

/// Whether the letter is a sign that stands before no word of a bundle.
fn is_sign(letter: char) -> bool {
    matches!(letter, '-' | '+' | '$' | '>' | '*' | '!' | '@')
}
