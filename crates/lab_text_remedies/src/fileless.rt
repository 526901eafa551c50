use lab_advice::{Remedy, Spot, end_number};
use lab_guess::{Draft, Unit, action_meant, meant, mended_log_line};
use lab_outline::{Spotted, plain};
use lab_sector::NoMemory;
use lab_text::Lines;
use std::alloc::Global;
use std::str::from_utf8;

/// How many bytes a line has at most that is told with a file.
const LONGEST: usize = 200;

/// Whether a log's line begins with its action, and has no file.
pub fn lacks_file(spotted: Spotted<'_>) -> bool {
    let actions = "add open close read write trim sync datasync wait";
    let action = action_meant(spotted.word(0));
    let is_action = actions.split_whitespace().any(|it| it == action);
    let second = spotted.word(1);
    let is_bare = second.is_empty() && action != "wait";
    let is_counted = plain(second)
        .or(meant(second, Unit::Microseconds))
        .is_some();
    is_action && (is_bare || is_counted)
}

/// The remedy of a log's line that has no file: it with each file that the log's other lines have.
pub fn fileless_remedy(
    alloc: Global,
    bytes: &[u8],
    spotted: Spotted<'_>,
) -> Result<Remedy, NoMemory> {
    let why =
        "each line of a log begins with its FILE, as /dev/mapper/NAME or /dev/ramN, a wait's line too";
    let mut remedy = Remedy::told(alloc, why)?;
    if LONGEST < spotted.line.len() {
        return Ok(remedy);
    }
    let (heading, end) = (
        heading_above(bytes, spotted.number),
        end_number(bytes, spotted.number),
    );
    let mut number = 0u64;
    for bare in Lines::new(bytes) {
        number = number.saturating_add(1);
        let line = from_utf8(bare).unwrap_or("");
        let other = Spotted { number, line };
        if heading < number && number < end && line.starts_with("/dev/") {
            let mended = with_file(alloc, other.word(0), spotted.line)?;
            remedy.offer(0, Spot::On(spotted.number), mended)?;
        }
    }
    Ok(remedy)
}

/// A log's line with this file before its action, as a log could have it.
fn with_file(alloc: Global, file: &str, line: &str) -> Result<String, NoMemory> {
    let mut draft = Draft::new(alloc);
    draft.push(file)?;
    for word in line.split_whitespace() {
        draft.push(word)?;
    }
    let line = draft.line();
    let mended = mended_log_line(alloc, line.as_str())?;
    Ok(mended.unwrap_or(line))
}

/// The number of the last heading before this line.
fn heading_above(bytes: &[u8], number: u64) -> u64 {
    let mut at = 0u64;
    let mut found = 0;
    for line in Lines::new(bytes) {
        at = at.saturating_add(1);
        if at < number && line.starts_with(b"==") {
            found = at;
        }
    }
    found
}
