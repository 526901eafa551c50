use lab_advice::{Remedy, Spot};
use lab_guess::{Draft, is_feature};
use lab_outline::{Spotted, plain};
use lab_sector::NoMemory;
use std::alloc::Global;

/// Where flakey's UP stands, counted from 0.
const UP_AT: usize = 5;

/// How many bytes a line has at most that is put in order.
const LONGEST: usize = 200;

/// The remedy of a flakey line whose features stand before its UP and DOWN, with their COUNT or without it, if it is one.
pub(crate) fn early_features(
    alloc: Global,
    spotted: Spotted<'_>,
) -> Result<Option<Remedy>, NoMemory> {
    let from = match plain(spotted.word(UP_AT)) {
        Some(_count) => UP_AT.saturating_add(1),
        None => UP_AT,
    };
    let is_one = spotted.word(2) == "flakey" && is_feature(spotted.word(from));
    let times = spotted.line.split_whitespace().count().saturating_sub(2);
    let mut numbers = spotted.line.split_whitespace().skip(times);
    let is_timed = from < times && numbers.all(|word| plain(word).is_some());
    if !is_one || !is_timed || LONGEST < spotted.line.len() {
        return Ok(None);
    }
    let why =
        "flakey's features come last, with the number of their words before them: DEVICE OFFSET UP DOWN COUNT FEATURES";
    let line = in_order(alloc, spotted, from, times)?;
    Ok(Some(Remedy::told(alloc, why)?.or(Spot::On(spotted.number), line)?))
}

/// The line with its last two words, from `times` on, before the features, from `from` on, and these with their count.
fn in_order(
    alloc: Global,
    spotted: Spotted<'_>,
    from: usize,
    times: usize,
) -> Result<String, NoMemory> {
    let mut draft = Draft::new(alloc);
    for word in spotted.line.split_whitespace().take(UP_AT) {
        draft.push(word)?;
    }
    for word in spotted.line.split_whitespace().skip(times) {
        draft.push(word)?;
    }
    let count = times.saturating_sub(from);
    draft.push_number(count as u64)?;
    for word in spotted.line.split_whitespace().skip(from).take(count) {
        draft.push(word)?;
    }
    Ok(draft.line())
}
