use lab_advice::{Remedy, Spot};
use lab_guess::{Draft, foreign_feature, with_word};
use lab_outline::{Spotted, plain};
use lab_sector::NoMemory;
use std::alloc::Global;

/// How many words a linear line has.
const LINEAR: usize = 5;

/// How many words a flakey line without features has.
const FLAKEY: usize = 7;

/// The remedy of a line of another type with a feature of flakey, if it is one: the line as one of flakey, or a linear one
/// without it.
pub fn foreign_remedy(alloc: Global, spotted: Spotted<'_>) -> Result<Option<Remedy>, NoMemory> {
    let Some(feature) = foreign_feature(spotted.line) else {
        return Ok(None);
    };
    let kind = spotted.word(2);
    let why = format!(in alloc;
        "{feature} is a feature of flakey, and a line of the type {kind} has no features: for both, \
         create a device with a flakey line over one with this line"
    )?;
    let mut remedy = Remedy::of(alloc, why);
    let spot = Spot::On(spotted.number);
    remedy.offer(0, spot, with_word(alloc, spotted.line, 2, "flakey")?)?;
    let are_times = plain(spotted.word(LINEAR)).and(plain(spotted.word(LINEAR + 1)));
    if kind == "linear" && are_times.is_some() {
        remedy.offer(0, spot, words_of(alloc, spotted, LINEAR)?)?;
    }
    Ok(Some(remedy))
}

/// Offers a linear line with two numbers more as one of flakey, whose UP and DOWN they are, and without them.
pub fn offer_as_flakey(
    alloc: Global,
    remedy: &mut Remedy,
    spotted: Spotted<'_>,
) -> Result<(), NoMemory> {
    let mut numbers = spotted.line.split_whitespace().skip(LINEAR - 1);
    let is_one = spotted.word(2) == "linear" && !spotted.word(FLAKEY - 1).is_empty();
    let is_flakey = is_one && spotted.word(FLAKEY).is_empty();
    if !is_flakey || !numbers.all(|word| plain(word).is_some()) {
        return Ok(());
    }
    let spot = Spot::On(spotted.number);
    remedy.offer(0, spot, with_word(alloc, spotted.line, 2, "flakey")?)?;
    remedy.offer(0, spot, words_of(alloc, spotted, LINEAR)?)
}

/// So many first words of a line.
fn words_of(alloc: Global, spotted: Spotted<'_>, count: usize) -> Result<String, NoMemory> {
    let mut draft = Draft::new(alloc);
    for word in spotted.line.split_whitespace().take(count) {
        draft.push(word)?;
    }
    Ok(draft.line())
}
