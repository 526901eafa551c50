//! The command that some words mean which ask one run's command for many runs, or the sweep for one.
use crate::shown::name_in;
use std::alloc::{AllocError, Global};
use std::convert::AsStr;

/// The whole command that these words mean, if an option says that many runs are meant, or one.
pub(crate) fn command_meant<S: AsStr>(
    alloc: Global,
    words: &[S],
) -> Result<Option<String>, AllocError> {
    let name = name_in(words);
    if !asks_otherwise(words, name) || 1 < files_in(words) {
        return Ok(None);
    }
    if name == "sweep" && has_seed(words) && knows_all(words, SIM) {
        return Ok(Some(sim_of(alloc, words)?));
    }
    match seeds_in(words) {
        Some((first, last)) if knows_all(words, SWEEP) => {
            Ok(Some(sweep_of(alloc, words, first, last)?))
        }
        _ => Ok(None),
    }
}

/// The whole command that words mean which begin with none of the commands, but with a word for a run.
pub(crate) fn run_meant<S: AsStr>(
    alloc: Global,
    words: &[S],
) -> Result<Option<String>, AllocError> {
    let verbs = "run simulate simulation exec execute start play go test";
    let verb = word_at(words, 1);
    if !verbs.split_whitespace().any(|it| it == verb) || 1 < files_in(words) {
        return Ok(None);
    }
    match seeds_in(words) {
        Some((first, last)) if knows_all(words, SWEEP) => {
            Ok(Some(sweep_of(alloc, words, first, last)?))
        }
        None if knows_all(words, SIM) => Ok(Some(sim_of(alloc, words)?)),
        _ => Ok(None),
    }
}

// The sweep of these seeds that the words mean.
fn sweep_of<S: AsStr>(
    alloc: Global,
    words: &[S],
    first: u64,
    last: u64,
) -> Result<String, AllocError> {
    let mut command = format!(in alloc; "dmlab sweep --first {first} --last {last}")?;
    if name_in(words) == "disks" {
        command.push_str(" --disks")?;
    }
    push_flags(&mut command, words, SWEEP)?;
    push_file(&mut command, words)?;
    Ok(command)
}

/// The options of a sweep that stand alone.
const SWEEP: &str =
    "--prompt --eio --lost --corrupt --stale --misplaced --broken-sync --fail --by-line --disks";

/// The options, and those that are meant for them, that have a value behind them.
const NUMBERED: &str =
    "--seed --seeds --range --first --from --start --last --to --end --count --runs --num --number --times -n";

/// The options of one run that stand alone.
const SIM: &str =
    "--prompt --history --eio --lost --corrupt --stale --misplaced --broken-sync --fail";

// Whether the words of this command have an option with a number that it doesn't take so.
fn asks_otherwise<S: AsStr>(words: &[S], name: &str) -> bool {
    if name != "sweep" {
        return matches!(name, "sim" | "trace" | "disks" | "check" | "threads");
    }
    for place in 2..words.len() {
        let option = option_at(words, place);
        if takes_next(option) && !matches!(option, "--first" | "--last") {
            return true;
        }
    }
    false
}

// Whether each option is one of these, or has a number behind it.
fn knows_all<S: AsStr>(words: &[S], options: &'static str) -> bool {
    for place in 2..words.len() {
        let option = option_at(words, place);
        let is_known = takes_next(option) || options.split_whitespace().any(|it| it == option);
        if !option.is_empty() && !is_known {
            return false;
        }
    }
    true
}

// How many words name a file.
fn files_in<S: AsStr>(words: &[S]) -> u64 {
    let mut count = 0u64;
    for place in 2..words.len() {
        if is_file(words, place) {
            count = count.saturating_add(1);
        }
    }
    count
}

// Whether the word at this place names a file.
fn is_file<S: AsStr>(words: &[S], place: usize) -> bool {
    let is_value = takes_next(word_at(words, place.saturating_sub(1)));
    !word_at(words, place).starts_with('-') && !is_value
}

// Whether the words ask for one seed, and it is one.
fn has_seed<S: AsStr>(words: &[S]) -> bool {
    for place in 2..words.len() {
        if option_at(words, place) == "--seed" && is_number(value_at(words, place)) {
            return true;
        }
    }
    false
}

// The run of one seed that words for a sweep mean.
fn sim_of<S: AsStr>(alloc: Global, words: &[S]) -> Result<String, AllocError> {
    let mut command = String::from_str(alloc, "dmlab sim")?;
    push_seed(&mut command, words)?;
    push_flags(&mut command, words, SIM)?;
    push_file(&mut command, words)?;
    Ok(command)
}

// Appends the seed that the words ask for.
fn push_seed<S: AsStr>(command: &mut String, words: &[S]) -> Result<(), AllocError> {
    for place in 2..words.len() {
        if option_at(words, place) == "--seed" {
            let seed = value_at(words, place);
            write!(command, " --seed {seed}")?;
        }
    }
    Ok(())
}

// The first seed and the last one that the words mean, if they mean more than one.
fn seeds_in<S: AsStr>(words: &[S]) -> Option<(u64, u64)> {
    let (mut first, mut last) = (0, None);
    for place in 2..words.len() {
        let value = value_at(words, place);
        match option_at(words, place) {
            "--first" | "--from" | "--start" => first = number_of(value)?,
            "--last" | "--to" | "--end" => last = Some(number_of(value)?),
            "--count" | "--runs" | "--num" | "--number" | "--times" | "-n" => {
                last = Some(number_of(value)?.checked_sub(1)?);
            }
            "--seed" | "--seeds" | "--range" => {
                if let Some((from, to)) = range_of(value) {
                    first = from;
                    last = Some(to);
                } else if option_at(words, place) == "--seeds" {
                    last = Some(number_of(value)?.checked_sub(1)?);
                }
            }
            _ => {}
        }
    }
    Some((first, last?)).filter(|(from, to)| from <= to)
}

// The two numbers of a range, as `0-99`, `0..99` and `0:99`.
fn range_of(value: &str) -> Option<(u64, u64)> {
    let from = value.trim_end_matches(|c: char| !is_between(c));
    let to = value.strip_prefix(from)?;
    let front = from.trim_end_matches(is_between);
    if front.len() == from.len() {
        return None;
    }
    Some((number_of(front)?, number_of(to)?))
}

// Whether the letter stands between the numbers of a range.
fn is_between(letter: char) -> bool {
    matches!(letter, '.' | '-' | ':' | ',' | '=')
}

// The number of a word of digits.
fn number_of(word: &str) -> Option<u64> {
    if is_number(word) {
        word.parse::<u64>().ok()
    } else {
        None
    }
}

// Whether a word is a number.
fn is_number(word: &str) -> bool {
    !word.is_empty()
        && word
            .trim_start_matches(|c: char| c.is_ascii_digit())
            .is_empty()
}

// The option at this place, without a value behind it; an empty word where there is none.
fn option_at<S: AsStr>(words: &[S], place: usize) -> &str {
    let word = word_at(words, place);
    let (option, _value) = word.split_once('=').unwrap_or((word, ""));
    if option.starts_with('-') { option } else { "" }
}

// The value of the option at this place: what stands behind `=`, or else the next word.
fn value_at<S: AsStr>(words: &[S], place: usize) -> &str {
    match word_at(words, place).split_once('=') {
        Some((_option, value)) => value,
        None => word_at(words, place.saturating_add(1)),
    }
}

// The word at this place; an empty one where there are fewer.
fn word_at<S: AsStr>(words: &[S], place: usize) -> &str {
    match words.get(place) {
        Some(word) => word.as_str(),
        None => "",
    }
}

// Whether an option has a value in the next word.
fn takes_next(option: &str) -> bool {
    NUMBERED.split_whitespace().any(|it| it == option)
}

// Appends the words that are some of these options.
fn push_flags<S: AsStr>(
    command: &mut String,
    words: &[S],
    options: &'static str,
) -> Result<(), AllocError> {
    for word in words {
        let word = word.as_str();
        if options.split_whitespace().any(|it| it == word) {
            write!(command, " {word}")?;
        }
    }
    Ok(())
}

// Appends the file that the words name, or the word FILE.
fn push_file<S: AsStr>(command: &mut String, words: &[S]) -> Result<(), AllocError> {
    for place in 2..words.len() {
        if is_file(words, place) {
            let word = word_at(words, place);
            return write!(command, " {word}");
        }
    }
    command.push_str(" FILE")
}
