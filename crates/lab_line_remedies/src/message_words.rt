use lab_guess::{has_block, has_no_block};
use lab_outline::{Spotted, plain};
use lab_sector::NoMemory;
use std::alloc::Global;

/// How many bytes a message has at most that is told as two.
const LONGEST: usize = 200;

/// How many blocks a message has at most that are told apart.
const MOST: usize = 8;

/// What is told of a message that has several blocks as words of their own, if it has some: a message for each.
fn of_blocks(alloc: Global, spotted: Spotted<'_>) -> Result<Option<String>, NoMemory> {
    let (name, sector, word) = (spotted.word(1), spotted.word(2), spotted.word(3));
    let count = spotted.line.split_whitespace().count().saturating_sub(4);
    let are_numbers = spotted
        .line
        .split_whitespace()
        .skip(4)
        .all(|it| plain(it).is_some());
    if !has_block(word) || !(2..=MOST).contains(&count) || !are_numbers {
        return Ok(None);
    }
    let mut why = String::from_str(
        alloc,
        "a message has one block, so each one takes a line of its own: ",
    )?;
    for (place, block) in spotted.line.split_whitespace().skip(4).enumerate() {
        let front = if place == 0 { "" } else { ", " };
        why.push_str(format!(in alloc;
            "{front}`message {name} {sector} {word} {block}`"
        )?.as_str())?;
    }
    Ok(Some(why))
}

/// What is told of a message that has another one behind it, or several blocks, if it has.
pub fn of_two(alloc: Global, spotted: Spotted<'_>) -> Result<Option<String>, NoMemory> {
    if spotted.word(0) != "message" || LONGEST < spotted.line.len() {
        return Ok(None);
    }
    let (name, sector) = (spotted.word(1), spotted.word(2));
    if plain(sector).is_none() {
        return Ok(None);
    }
    if let Some(why) = of_blocks(alloc, spotted)? {
        return Ok(Some(why));
    }
    let place = if has_block(spotted.word(3)) { 5 } else { 4 };
    let (first, block, second) = (spotted.word(3), spotted.word(4), spotted.word(place));
    if place == 5 && has_no_block(second) {
        return Ok(Some(format!(in alloc;
            "one message has one word: write `message {name} {sector} {first} {block}` and `message {name} {sector} {second}`, \
             each on a line of its own"
        )?));
    }
    if place == 4 && has_no_block(first) && (has_block(second) || has_no_block(second)) {
        let third = spotted.word(5);
        let space = if third.is_empty() { "" } else { " " };
        return Ok(Some(format!(in alloc;
            "one message has one word: write `message {name} {sector} {first}` and \
             `message {name} {sector} {second}{space}{third}`, each on a line of its own"
        )?));
    }
    Ok(None)
}
