use crate::draft::Draft;
use lab_outline::plain;
use lab_sector::NoMemory;
use std::alloc::Global;

/// A message's words behind the device's name.
#[derive(Clone, Copy)]
struct Words<'a> {
    first: &'a str,
    second: &'a str,
    third: &'a str,
}

/// The message with its sector before its word and its block behind it, where the three stand in another order; nothing of
/// another line.
pub fn ordered_message(alloc: Global, line: &str) -> Result<Option<String>, NoMemory> {
    let words = words_of(line);
    if line.split_whitespace().count() != 5 {
        return Ok(None);
    }
    if is_word(words.first) && is_number(words.second) && is_number(words.third) {
        return message(alloc, line, words.third, words.first, words.second);
    }
    if is_number(words.first) && is_number(words.second) && is_word(words.third) {
        return message(alloc, line, words.first, words.third, words.second);
    }
    Ok(None)
}

/// The message with the block and the sector exchanged, where the sector isn't 0 and the block is.
pub fn exchanged_message(alloc: Global, line: &str) -> Result<Option<String>, NoMemory> {
    let words = words_of(line);
    let is_first = is_word(words.first) && plain(words.second) == Some(0);
    if line.split_whitespace().count() != 5 || !is_first || !is_number(words.third) {
        return Ok(None);
    }
    message(alloc, line, words.second, words.first, words.third)
}

/// The message at sector 0 with the number in the place of the sector as its block, where the block is lacking, or 0;
/// nothing of another line.
pub fn with_block(alloc: Global, line: &str) -> Result<Option<String>, NoMemory> {
    let words = words_of(line);
    let is_lacking = line.split_whitespace().count() == 4 || plain(words.third) == Some(0);
    let is_numbered = is_number(words.first) && plain(words.first) != Some(0);
    if line.split_whitespace().count() <= 5
        && is_lacking
        && is_numbered
        && has_block(words.second)
    {
        return message(alloc, line, "0", words.second, words.first);
    }
    Ok(None)
}

/// The message that a line means which begins with its word, or names its device behind its sector, or has its sector
/// last; nothing of another line.
pub fn message_of_verb(alloc: Global, line: &str) -> Result<Option<String>, NoMemory> {
    let mut words = line.split_whitespace();
    let verb = words.next().unwrap_or("");
    let name = words.next().unwrap_or("");
    let third = words.next().unwrap_or("");
    let fourth = words.next().unwrap_or("");
    if has_no_block(verb) && is_word(name) && third.is_empty() {
        return Ok(Some(format!(in alloc; "message {name} 0 {verb}")?));
    }
    if has_block(verb) && is_word(name) && is_number(third) && fourth.is_empty() {
        return Ok(Some(format!(in alloc; "message {name} 0 {verb} {third}")?));
    }
    if verb == "message" && is_number(name) && is_word(third) && is_word(fourth) {
        let mut draft = Draft::new(alloc);
        for word in ["message", third, name, fourth] {
            draft.push(word)?;
        }
        for word in words {
            draft.push(word)?;
        }
        return Ok(Some(draft.line()));
    }
    if verb == "message" && has_no_block(third) && is_number(fourth) && words.next().is_none() {
        return Ok(Some(format!(in alloc; "message {name} {fourth} {third}")?));
    }
    Ok(None)
}

/// The message of dust that another word stands for; nothing of another word.
pub fn message_meant(word: &str) -> Option<&'static str> {
    match word {
        "add" | "bad" | "badblock" | "mark" | "markbad" => Some("addbadblock"),
        "remove" | "rm" | "del" | "delete" | "delbadblock" => Some("removebadblock"),
        "query" | "get" => Some("queryblock"),
        "count" => Some("countbadblocks"),
        "list" | "show" => Some("listbadblocks"),
        "clear" | "reset" | "removeall" | "removeallbadblocks" => Some("clearbadblocks"),
        "on" | "start" | "fail_read_on_bad_block" => Some("enable"),
        "off" | "stop" | "bypass" => Some("disable"),
        _ => None,
    }
}

/// Whether a message of this word has a block behind it.
pub fn has_block(word: &str) -> bool {
    matches!(word, "addbadblock" | "removebadblock" | "queryblock")
}

/// Whether a word is a message that has no block behind it.
pub fn has_no_block(word: &str) -> bool {
    matches!(
        word,
        "countbadblocks" | "listbadblocks" | "clearbadblocks" | "enable" | "disable" | "quiet"
    )
}

/// The words of a message.
fn words_of(line: &str) -> Words<'_> {
    let mut words = line.split_whitespace().skip(2);
    Words {
        first: words.next().unwrap_or(""),
        second: words.next().unwrap_or(""),
        third: words.next().unwrap_or(""),
    }
}

/// Whether a word is a number.
fn is_number(word: &str) -> bool {
    plain(word).is_some()
}

/// Whether a word is there, and no number.
fn is_word(word: &str) -> bool {
    !word.is_empty() && !is_number(word)
}

/// The message of a line with this sector, word and block.
fn message(
    alloc: Global,
    line: &str,
    sector: &str,
    word: &str,
    block: &str,
) -> Result<Option<String>, NoMemory> {
    let mut draft = Draft::new(alloc);
    for word in line.split_whitespace().take(2) {
        draft.push(word)?;
    }
    draft.push(sector)?;
    draft.push(word)?;
    draft.push(block)?;
    Ok(draft.changed(line))
}
