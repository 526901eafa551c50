use lab_advice::{Remedy, Spot};
use lab_outline::{Outline, Spotted, plain};
use lab_sector::NoMemory;
use std::alloc::Global;

/// The remedy of a log's line of a FILE and two numbers, if it is one: each action that it may lack.
pub fn lacking_action_remedy(
    alloc: Global,
    outline: &Outline<'_>,
    spotted: Spotted<'_>,
) -> Result<Option<Remedy>, NoMemory> {
    let (file, first, second) = (spotted.word(0), spotted.word(1), spotted.word(2));
    let (Some(offset), Some(length)) = (plain(first), plain(second)) else {
        return Ok(None);
    };
    if !outline.stands(file, u64::MAX) || !spotted.word(3).is_empty() {
        return Ok(None);
    }
    let why = "the action is missing: it stands behind the FILE, before the OFFSET and the LENGTH";
    let mut remedy = Remedy::told(alloc, why)?;
    let actions = match (offset, length) {
        (0, 0) => "sync datasync",
        (_, 0) => "wait",
        _ => "read write trim",
    };
    for action in actions.split_whitespace() {
        let line = format!(in alloc; "{file} {action} {first} {second}")?;
        remedy.offer(0, Spot::On(spotted.number), line)?;
    }
    Ok(Some(remedy))
}
