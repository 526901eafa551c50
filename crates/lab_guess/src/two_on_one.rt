use crate::draft::Draft;
use crate::iolog::action_meant;
use lab_outline::plain;
use lab_sector::NoMemory;
use std::alloc::Global;

/// How many bytes a line has at most that is told in two.
const LONGEST: usize = 200;

/// How many words a line has at most before another one.
const MOST: usize = 14;

/// What is told of a line with another one behind it, if it has one: an operation behind another one, or a heading.
pub fn two_lines(alloc: Global, line: &str) -> Result<Option<String>, NoMemory> {
    if LONGEST < line.len() || line.starts_with('#') {
        return Ok(None);
    }
    for place in 1..MOST {
        let first = words_from(alloc, line, 0, place)?;
        let rest = words_from(alloc, line, place, usize::MAX)?;
        if is_heading(rest.as_str()) && may_end(first.as_str())
            || is_operation(rest.as_str()) && is_whole(first.as_str())
        {
            return Ok(Some(format!(in alloc;
                "two lines stand on this one: write `{first}` here, and `{rest}` on a line of its own below it"
            )?));
        }
    }
    Ok(None)
}

/// So many words of a line from this place on, without the signs that part lines.
pub fn words_from(
    alloc: Global,
    line: &str,
    place: usize,
    count: usize,
) -> Result<String, NoMemory> {
    let mut draft = Draft::new(alloc);
    for word in line.split_whitespace().skip(place).take(count) {
        let bare = word.trim_matches(is_sign);
        if !bare.is_empty() {
            draft.push(bare)?;
        }
    }
    Ok(draft.line())
}

/// Whether the letter stands between lines.
pub fn is_sign(letter: char) -> bool {
    matches!(letter, ';' | '&' | '|')
}

/// Whether words are a part's heading, with more behind it or not.
fn is_heading(words: &str) -> bool {
    let kind = words.split_whitespace().nth(1).unwrap_or("");
    words.starts_with("== ") && matches!(kind, "table" | "script" | "log" | "history")
}

/// Whether a line may end behind these words: there are some, and no number alone, no heading and no remark.
fn may_end(words: &str) -> bool {
    plain(words).is_none()
        && !words.is_empty()
        && !words.starts_with("==")
        && !words.starts_with('#')
}

/// Whether words begin with an operation of a log.
fn is_operation(words: &str) -> bool {
    let action = words.split_whitespace().nth(1).unwrap_or("");
    words.starts_with("/dev/") && words_of(action) != 0
}

/// Whether words are an operation of a log, or its first line.
fn is_whole(words: &str) -> bool {
    let count = words.split_whitespace().count();
    let action = words.split_whitespace().nth(1).unwrap_or("");
    words == "fio version 2 iolog" || is_operation(words) && count == words_of(action)
}

/// How many words an operation of this action has; 0 where it is none.
fn words_of(action: &str) -> usize {
    match action_meant(action) {
        "add" | "open" | "close" => 2,
        "read" | "write" | "trim" | "sync" | "datasync" | "wait" => 4,
        _ => 0,
    }
}
