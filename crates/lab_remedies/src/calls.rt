use lab_advice::{Remedy, Spot};
use lab_outline::{Spotted, plain};
use lab_rule_remedies::only_open;
use lab_sector::NoMemory;
use std::alloc::Global;

/// The remedy of a log's line that is a call as strace shows it, if it is one: the operation, on the only open file.
pub(crate) fn call_remedy(
    alloc: Global,
    bytes: &[u8],
    spotted: Spotted<'_>,
) -> Result<Option<Remedy>, NoMemory> {
    let (front, rest) = spotted.line.split_once('(').unwrap_or(("", ""));
    let action = action_of(front.split_whitespace().last().unwrap_or(""));
    if action.is_empty() {
        return Ok(None);
    }
    let why =
        "this is a call as strace shows it, and a log's line is FILE, the action, OFFSET and LENGTH, the two in bytes";
    let remedy = Remedy::told(alloc, why)?;
    let file = only_open(bytes, spotted.number).unwrap_or("");
    match range_of(action, rest) {
        Some((offset, length)) if !file.is_empty() => {
            let line = format!(in alloc; "{file} {action} {offset} {length}")?;
            Ok(Some(remedy.or(Spot::On(spotted.number), line)?))
        }
        _ => Ok(Some(remedy)),
    }
}

/// The action of a log that a call is; no word for another call.
fn action_of(call: &str) -> &'static str {
    match call {
        "pread64" | "pread" | "read" => "read",
        "pwrite64" | "pwrite" | "write" => "write",
        "fsync" => "sync",
        "fdatasync" => "datasync",
        _ => "",
    }
}

/// The offset and the length of an action by what stands behind a call's name, if it tells them.
fn range_of(action: &str, rest: &str) -> Option<(u64, u64)> {
    if action.ends_with("sync") {
        return Some((0, 0));
    }
    let (arguments, _result) = rest.rsplit_once(')')?;
    let (others, offset) = arguments.rsplit_once(',')?;
    let (_others, length) = others.rsplit_once(',')?;
    Some((plain(offset.trim())?, plain(length.trim())?))
}
