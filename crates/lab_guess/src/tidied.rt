use crate::draft::Draft;
use lab_outline::plain;
use lab_sector::NoMemory;
use std::alloc::Global;

/// The line without the words that repeat the one before them, but for numbers; nothing where none does.
pub fn without_doubles(alloc: Global, line: &str) -> Result<Option<String>, NoMemory> {
    let mut draft = Draft::new(alloc);
    let mut before = "";
    for word in line.split_whitespace() {
        if word != before || plain(word).is_some() {
            draft.push(word)?;
        }
        before = word;
    }
    Ok(draft.changed(line))
}

/// The line whose words have no quotes round them, and no comma, colon or semicolon behind them; nothing where none has.
pub fn without_marks(alloc: Global, line: &str) -> Result<Option<String>, NoMemory> {
    let mut draft = Draft::new(alloc);
    for word in line.split_whitespace() {
        draft.push(word.trim_matches(is_mark))?;
    }
    Ok(draft.changed(line))
}

/// Whether the letter is a mark that no word of a bundle ends with.
fn is_mark(letter: char) -> bool {
    matches!(letter, ',' | ';' | ':' | '"' | '\'' | '`')
}

/// The line with the words at this place, counted from 0, and behind it exchanged; nothing where they aren't there.
pub fn exchanged(alloc: Global, line: &str, at: usize) -> Result<Option<String>, NoMemory> {
    let mut words = line.split_whitespace().skip(at);
    let (Some(first), Some(second)) = (words.next(), words.next()) else {
        return Ok(None);
    };
    let mut draft = Draft::new(alloc);
    for (place, word) in line.split_whitespace().enumerate() {
        draft.push(if place == at {
            second
        } else if place == at.saturating_add(1) {
            first
        } else {
            word
        })?;
    }
    Ok(draft.changed(line))
}
