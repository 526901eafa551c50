use crate::sector_pair::Pair;
use lab_advice::{Remedy, Spot};
use lab_outline::{Outline, Spotted};
use lab_sector::NoMemory;
use std::alloc::Global;

/// How many letters blktrace has for a request at most.
const MOST: usize = 6;

/// The remedy of a log's line with blktrace's letters for its action, if it is one: blktrace counts sectors, and
/// numbers behind one letter may be bytes, too.
pub(crate) fn letters_remedy(
    alloc: Global,
    outline: &Outline<'_>,
    spotted: Spotted<'_>,
) -> Result<Option<Remedy>, NoMemory> {
    let place = letters_at(spotted);
    let letters = spotted.word(place);
    let pair = Pair::at(spotted, place.saturating_add(1));
    let is_empty = pair.is_some_and(|it| it.count == 0);
    let Some(action) = action_meant(letters, is_empty) else {
        return Ok(None);
    };
    let mut remedy = Remedy::of(alloc, why_letters(alloc, letters, action)?);
    let file = spotted.word(0);
    if action == "sync" {
        let line = format!(in alloc; "{file} sync 0 0")?;
        return Ok(Some(remedy.or(Spot::On(spotted.number), line)?));
    }
    tell_flushes(alloc, &mut remedy, file, letters)?;
    if let Some(pair) = pair {
        let is_lone = letters.len() == 1 && place == 1;
        offer_pair(alloc, &mut remedy, outline, spotted, action, pair, is_lone)?;
    }
    Ok(Some(remedy))
}

/// What is told of blktrace's letters for this action.
fn why_letters(alloc: Global, letters: &str, action: &str) -> Result<String, NoMemory> {
    let verb = if letters.len() == 1 {
        "is a letter"
    } else {
        "are letters"
    };
    Ok(format!(in alloc;
        "`{letters}` {verb} of blktrace, and a log has the action as a word: `{action}`"
    )?)
}

/// The action that blktrace's letters stand for: a flush where they ask for one, and have no sectors.
fn action_meant(letters: &str, is_empty: bool) -> Option<&'static str> {
    let action = action_of_letters(letters)?;
    if is_empty && letters.contains('F') {
        Some("sync")
    } else {
        Some(action)
    }
}

/// Where blktrace's letters stand in a line: behind the file, or behind the letter of an event.
fn letters_at(spotted: Spotted<'_>) -> usize {
    let is_event = spotted.word(1).len() == 1
        && spotted.word(1).chars().all(|it| it.is_ascii_uppercase());
    if is_event && action_of_letters(spotted.word(2)).is_some() {
        2
    } else {
        1
    }
}

/// The action that blktrace's letters stand for; nothing for other words.
fn action_of_letters(word: &str) -> Option<&'static str> {
    let are_letters = word
        .chars()
        .all(|it| matches!(it, 'R' | 'W' | 'D' | 'F' | 'S' | 'M' | 'A'));
    if !are_letters || MOST < word.len() {
        return None;
    }
    if word.contains('W') {
        Some("write")
    } else if word.contains('R') {
        Some("read")
    } else if word.contains('D') {
        Some("trim")
    } else if word.contains('F') {
        Some("sync")
    } else {
        None
    }
}

/// Tells of the flushes that the letters of a write ask for, which are lines of their own.
fn tell_flushes(
    alloc: Global,
    remedy: &mut Remedy,
    file: &str,
    letters: &str,
) -> Result<(), NoMemory> {
    let (before, behind) = letters.split_once('W').unwrap_or(("", ""));
    for (has, place) in [
        (before.contains('F'), "above"),
        (behind.contains('F'), "below"),
    ] {
        if has {
            remedy.why.push_str(format!(in alloc;
                "; its F is a flush on a line of its own {place} it, `{file} sync 0 0`"
            )?.as_str())?;
        }
    }
    Ok(())
}

/// Offers the line whose numbers are sectors, and where they may be bytes, the one with these.
fn offer_pair(
    alloc: Global,
    remedy: &mut Remedy,
    outline: &Outline<'_>,
    spotted: Spotted<'_>,
    action: &str,
    pair: Pair,
    is_lone: bool,
) -> Result<(), NoMemory> {
    let (file, spot) = (spotted.word(0), Spot::On(spotted.number));
    let bytes = pair.in_bytes();
    let has_room = bytes.fits(outline, file);
    let line = bytes.line(alloc, file, action)?;
    remedy.why.push_str("; blktrace counts sectors, and a log bytes, 512 times as many")?;
    let may_be_bytes = !pair.is_sum && pair.is_aligned() && (is_lone || !has_room);
    if may_be_bytes && !has_room {
        remedy.why.push_str(format!(in alloc;
            ": as sectors the two are `{line}`, past the end of the device"
        )?.as_str())?;
    }
    remedy.offer(0, spot, line)?;
    if may_be_bytes {
        let line = pair.line(alloc, file, action)?;
        remedy.offer(0, spot, line)?;
    }
    Ok(())
}
