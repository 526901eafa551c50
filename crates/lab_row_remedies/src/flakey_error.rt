use lab_advice::{Remedy, Spot};
use lab_guess::Draft;
use lab_outline::{Spotted, plain};
use lab_sector::NoMemory;
use std::alloc::Global;

/// How many words a flakey line has before the count of its features.
const BEFORE: usize = 7;

/// What is told of a flakey line that is to fail all requests by a feature.
const WHY: &str =
    "flakey has no feature for all errors: without features all requests fail in its DOWN seconds, so leave these words off; \
     error_reads and error_writes fail one kind alone";

/// The remedy of a flakey line whose only feature is an error of all requests, if it is one: the line without it.
pub(crate) fn flakey_error(
    alloc: Global,
    spotted: Spotted<'_>,
) -> Result<Option<Remedy>, NoMemory> {
    if spotted.word(2) != "flakey" || plain(spotted.word(6)).is_none() {
        return Ok(None);
    }
    let (first, second, third) = (
        spotted.word(BEFORE),
        spotted.word(BEFORE + 1),
        spotted.word(BEFORE + 2),
    );
    let is_lone = is_error(first) && second.is_empty();
    let is_counted = first == "1" && is_error(second) && third.is_empty();
    if !is_lone && !is_counted {
        return Ok(None);
    }
    let mut draft = Draft::new(alloc);
    for word in spotted.line.split_whitespace().take(BEFORE) {
        draft.push(word)?;
    }
    Ok(Some(Remedy::told(alloc, WHY)?.or(Spot::On(spotted.number), draft.line())?))
}

/// Whether a word is to be a feature that fails all requests.
fn is_error(word: &str) -> bool {
    let words =
        "error errors error_all error_io error_ios all_errors fail fail_all eio EIO io_error error_reads_writes";
    words.split_whitespace().any(|it| it == word)
}
