use crate::inclusive::table_at;
use lab_advice::{Remedy, Spot};
use lab_guess::Draft;
use lab_outline::{Outline, Spotted, plain};
use lab_sector::NoMemory;
use std::alloc::Global;

/// Where the words behind dust's BLOCK begin, counted from 0.
const BEHIND: usize = 6;

/// Where dust's numbers begin, counted from 0.
const OFFSET_AT: usize = 4;

/// How many bytes a line has at most whose blocks are told.
const LONGEST: usize = 200;

/// The remedy of a dust line with numbers behind its BLOCK, if it is one: the message that adds the first of them as a bad
/// block, and the line without them.
pub(crate) fn dust_blocks(
    alloc: Global,
    outline: &Outline<'_>,
    spotted: Spotted<'_>,
) -> Result<Option<Remedy>, NoMemory> {
    let (start, block) = (spotted.word(0), spotted.word(BEHIND));
    let is_one = spotted.word(2) == "dust" && !block.is_empty() && spotted.line.len() <= LONGEST;
    let mut numbers = spotted.line.split_whitespace().skip(OFFSET_AT);
    if !is_one || !numbers.all(|word| plain(word).is_some()) {
        return Ok(None);
    }
    let device = device_of(outline, spotted.number).unwrap_or("NAME");
    let others = match spotted.word(BEHIND + 1) {
        "" => "",
        _ => ", and each other one has a message of its own",
    };
    let why = format!(in alloc;
        "numbers behind dust's BLOCK are no bad blocks: `message {device} {start} addbadblock {block}` in the script, behind the \
         create, adds block {block} as one{others}"
    )?;
    let mut draft = Draft::new(alloc);
    for word in spotted.line.split_whitespace().take(BEHIND) {
        draft.push(word)?;
    }
    Ok(Some(Remedy::of(alloc, why).or(Spot::On(spotted.number), draft.line())?))
}

/// The name of the first device that is created with the table that has the line of this number.
fn device_of<'a>(outline: &Outline<'a>, number: u64) -> Option<&'a str> {
    let table = table_at(outline, number)?;
    for command in &outline.commands {
        if command.word(0) == "create" && command.word(2) == table {
            return Some(command.word(1));
        }
    }
    None
}
