use lab_advice::{Remedy, Spot};
use lab_outline::{Outline, Spotted, plain};
use lab_rule_remedies::fits;
use lab_sector::NoMemory;
use std::alloc::Global;

/// The remedy of a log's line with a call for its action that has the count before the offset, if it is one: both
/// orders, where they are possible.
pub(crate) fn count_first_remedy(
    alloc: Global,
    outline: &Outline<'_>,
    spotted: Spotted<'_>,
) -> Result<Option<Remedy>, NoMemory> {
    let (file, call) = (spotted.word(0), spotted.word(1));
    let action = action_of(call);
    let (first, second) = (plain(spotted.word(2)), plain(spotted.word(3)));
    let (Some(first), Some(second)) = (first, second) else {
        return Ok(None);
    };
    if action.is_empty() || !spotted.word(4).is_empty() {
        return Ok(None);
    }
    let why = format!(in alloc;
        "the call {call} has its count before its offset, and a line of a log has FILE, {action}, OFFSET and LENGTH, the two in \
         bytes"
    )?;
    let mut remedy = Remedy::of(alloc, why);
    for (offset, length) in [(second, first), (first, second)] {
        if fits(outline, file, offset, length) {
            let line = format!(in alloc; "{file} {action} {offset} {length}")?;
            remedy.offer(0, Spot::On(spotted.number), line)?;
        }
    }
    Ok(Some(remedy))
}

/// The action of a call that has its count before its offset; no word for another one.
fn action_of(call: &str) -> &'static str {
    match call {
        "pwrite" | "pwrite64" => "write",
        "pread" | "pread64" => "read",
        _ => "",
    }
}
