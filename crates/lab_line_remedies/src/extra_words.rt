use lab_guess::{action_meant, words_from};
use lab_outline::{Spotted, plain};
use lab_sector::NoMemory;
use std::alloc::Global;

/// How many bytes a line has at most whose words are told.
const LONGEST: usize = 200;

/// The flags of a request that are flushes behind it.
const BEHIND: &str = "FUA SYNC DSYNC";

/// The flags of a request that are flushes before it.
const BEFORE: &str = "PREFLUSH FLUSH";

/// Other flags of a request.
const OTHERS: &str = "META PRIO RAHEAD DIRECT IDLE NOMERGE BACKGROUND NOWAIT HIPRI";

/// Where a flush belongs that a flag asks for.
#[derive(Clone, Copy, PartialEq, Eq)]
enum Flush {
    Above,
    Below,
    Both,
    None,
}

/// What is told of a log's line with words behind those of its action, if it has some: which they are.
pub fn with_extra_words(
    alloc: Global,
    spotted: Spotted<'_>,
    why: String,
) -> Result<String, NoMemory> {
    let count = words_of(spotted);
    if count == 0 || LONGEST < spotted.line.len() || spotted.line.contains('#') {
        return Ok(why);
    }
    let extra = words_from(alloc, spotted.line, count, usize::MAX)?;
    if extra.as_str().is_empty() {
        return Ok(why);
    }
    if count == 4 {
        if let Some(flush) = flush_of(extra.as_str()) {
            return with_flush(alloc, spotted, extra.as_str(), flush);
        }
    }
    Ok(format!(in alloc; "`{extra}` is too much: {why}")?)
}

/// How many words a line of this action has, where it has its numbers; 0 where that isn't known.
fn words_of(spotted: Spotted<'_>) -> usize {
    let offset = plain(spotted.word(2));
    let length = plain(spotted.word(3)).filter(|it| it % 512 == 0);
    let are_numbers = offset.and(length).is_some() && spotted.word(2) != spotted.word(3);
    match action_meant(spotted.word(1)) {
        "add" | "open" | "close" => 2,
        "read" | "write" | "trim" if are_numbers => 4,
        "sync" | "datasync" | "wait" if offset.and(length).is_some() => 4,
        _ => 0,
    }
}

/// Where the flush belongs that the flags of a request ask for; nothing where the words are no such flags.
fn flush_of(words: &str) -> Option<Flush> {
    let mut found = None;
    for word in words.split(|c: char| matches!(c, ' ' | '|' | ',' | '+')) {
        let bare = word
            .strip_prefix("REQ_")
            .or(word.strip_prefix("RWF_"))
            .or(word.strip_prefix("O_"))
            .unwrap_or(word);
        let flush = if is_one_of(bare, BEHIND) {
            Flush::Below
        } else if is_one_of(bare, BEFORE) {
            Flush::Above
        } else if is_one_of(bare, OTHERS) {
            Flush::None
        } else {
            return None;
        };
        found = match found {
            None | Some(Flush::None) => Some(flush),
            Some(before) if before == flush || flush == Flush::None => Some(before),
            Some(_other) => Some(Flush::Both),
        };
    }
    found
}

/// Whether a word is one of these, in letters of either case.
fn is_one_of(word: &str, words: &'static str) -> bool {
    words
        .split_whitespace()
        .any(|it| it.eq_ignore_ascii_case(word))
}

/// What is told of a line with the flags of a request, which a log hasn't: the line, and the flush beside it.
fn with_flush(
    alloc: Global,
    spotted: Spotted<'_>,
    extra: &str,
    flush: Flush,
) -> Result<String, NoMemory> {
    let (file, action) = (spotted.word(0), action_meant(spotted.word(1)));
    let line = words_from(alloc, spotted.line, 2, 2)?;
    let place = match flush {
        Flush::Above if action == "write" => "above",
        Flush::Below if action == "write" => "below",
        Flush::Both if action == "write" => "above and below",
        _ => "",
    };
    if place.is_empty() {
        return Ok(format!(in alloc;
            "a log has no flags of a request, so `{extra}` is left out: `{file} {action} {line}`"
        )?);
    }
    Ok(format!(in alloc;
        "a log has no flags of a request, as FUA, PREFLUSH, SYNC and META: in the place of `{extra}` a flush stands on a \
         line of its own, so write `{file} {action} {line}`, and {place} it `{file} sync 0 0`"
    )?)
}
