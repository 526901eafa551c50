use crate::later::{first_between, heading_above};
use crate::names::shown;
use lab_advice::{Remedy, end_number};
use lab_outline::Spotted;
use lab_sector::NoMemory;
use lab_text::Lines;
use std::alloc::Global;
use std::str::from_utf8;

/// The remedy of an open of a file that isn't added, where the log adds one other file above that it never opens: the lines by
/// which the two name one file, told in words, since the names are two; none elsewhere.
pub(crate) fn unopened_remedy(
    alloc: Global,
    bytes: &[u8],
    spotted: Spotted<'_>,
) -> Result<Option<Remedy>, NoMemory> {
    let Some(add) = unopened_add(bytes, spotted) else {
        return Ok(None);
    };
    let (number, other) = (add.number, shown(add.word(0)));
    let (file, line) = (shown(spotted.word(0)), spotted.number);
    let why = format!(in alloc;
        "line {number} adds {other}, which the log never opens, and this line opens {file}, which it never adds: write \
         `{other} open` on line {line}, and {other} in the lines below it; or `{file} add` on line {number}"
    )?;
    Ok(Some(Remedy::of(alloc, why)))
}

/// The only line above this one, in its log, that adds a file which the log never opens.
fn unopened_add<'a>(bytes: &'a [u8], spotted: Spotted<'_>) -> Option<Spotted<'a>> {
    let heading = heading_above(bytes, spotted.number);
    let end = end_number(bytes, heading);
    let mut found: Option<Spotted<'a>> = None;
    let mut number = 0u64;
    for bare in Lines::new(bytes) {
        number = number.saturating_add(1);
        let line = from_utf8(bare).unwrap_or("");
        let other = Spotted { number, line };
        let is_above = heading < number && number < spotted.number && other.word(1) == "add";
        if is_above && first_between(bytes, heading, end, other.word(0), "open").is_none() {
            if found.is_some() {
                return None;
            }
            found = Some(other);
        }
    }
    found
}
