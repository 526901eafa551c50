use crate::heading_remedy::heading_meant;
use lab_guess::Draft;
use lab_outline::Outline;
use lab_sector::NoMemory;
use std::alloc::Global;

/// The heading that a line means whose marks are others than `==`, as `-- log a` and `[script]`, or stand elsewhere, as
/// `table == t` and `7 == log a`; nothing for another line.
pub(crate) fn heading_marked(
    alloc: Global,
    outline: &Outline<'_>,
    line: &str,
) -> Result<Option<String>, NoMemory> {
    let bare = line.trim();
    if bare.starts_with("==") {
        return Ok(None);
    }
    let inner = bare.trim_matches(is_mark);
    if bare.starts_with(is_mark) && names_part(inner) {
        return heading_meant(alloc, outline, inner.as_bytes());
    }
    let words = heading_words(alloc, bare)?;
    let names = names_part(words.as_str()) || names_part(behind_first(words.as_str()));
    if !names || !bare.split_whitespace().any(|word| word == "==") {
        return Ok(None);
    }
    heading_meant(alloc, outline, bare.as_bytes())
}

/// The heading of a table or a log that a line means with another word in the place of its marks; nothing for another line.
pub(crate) fn heading_misspelt(
    alloc: Global,
    outline: &Outline<'_>,
    line: &str,
) -> Result<Option<String>, NoMemory> {
    let rest = behind_first(line);
    if !names_part(rest) || rest.split_whitespace().count() != 2 {
        return Ok(None);
    }
    heading_meant(alloc, outline, rest.as_bytes())
}

/// The words of a heading without its marks, and each word once where it stands twice side by side.
pub(crate) fn heading_words(alloc: Global, line: &str) -> Result<String, NoMemory> {
    let mut draft = Draft::new(alloc);
    let mut before = "";
    for word in line.split_whitespace() {
        let bare = word.trim_matches('=');
        if !bare.is_empty() && bare != before {
            draft.push(bare)?;
        }
        before = bare;
    }
    Ok(draft.line())
}

/// The words behind the first one.
fn behind_first(line: &str) -> &str {
    let (_first, rest) = line.split_once(' ').unwrap_or(("", ""));
    rest
}

/// The heading that a line means which has no marks, as `script`; nothing for another line.
pub(crate) fn heading_bare(
    alloc: Global,
    outline: &Outline<'_>,
    line: &str,
) -> Result<Option<String>, NoMemory> {
    let bare = line.trim();
    let count = bare.split_whitespace().count();
    let is_named = bare.starts_with("table ") || bare.starts_with("log ");
    if !names_part(bare) || is_named != (count == 2) {
        return Ok(None);
    }
    heading_meant(alloc, outline, bare.as_bytes())
}

/// The heading that a comment means, as `# script`; nothing for another line.
pub(crate) fn heading_commented(
    alloc: Global,
    outline: &Outline<'_>,
    line: &str,
) -> Result<Option<String>, NoMemory> {
    let inner = line.trim_start_matches('#').trim();
    if inner.len() == line.len() || !names_part(inner) {
        return Ok(None);
    }
    heading_meant(alloc, outline, inner.as_bytes())
}

/// Whether the letter is a mark that headings have elsewhere, or a blank.
fn is_mark(letter: char) -> bool {
    matches!(
        letter,
        '=' | '-' | '[' | ']' | '*' | ':' | '~' | '+' | '<' | '>' | ' ' | '\t'
    )
}

/// Whether the words are a kind of part, and a name at most.
fn names_part(words: &str) -> bool {
    let kind = words.split_whitespace().next().unwrap_or("");
    let is_kind = matches!(kind, "table" | "log" | "iolog" | "script" | "history");
    is_kind && words.split_whitespace().count() <= 2
}
