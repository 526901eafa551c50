//! The tips for words that the parser doesn't take.
use crate::hints::{push_last_hint, push_number_hint, push_option_hint, push_value_hint};
use crate::many::run_meant;
use crate::offered::{Offer, Subcommand, Takes, subcommands};
use crate::shown::{name_in, offered};
use std::alloc::{AllocError, Global};
use std::convert::AsStr;

/// Appends what helps against the fault of these words that the parser told by this text.
pub(crate) fn push_tips<S: AsStr>(
    alloc: Global,
    message: &mut String,
    words: &[S],
    told: &str,
) -> Result<(), AllocError> {
    if let Some(word) = with_other_dash(words) {
        return push_dash(message, word);
    }
    let word = quoted(told);
    if told.starts_with("unrecognized subcommand") {
        return push_commands(alloc, message, words, word);
    }
    if told.starts_with("invalid value") {
        return message.push_str(NUMBER);
    }
    if told.starts_with("unexpected value") {
        return push_value_hint(message, told);
    }
    if told.starts_with("the following required") {
        return push_last_hint(message);
    }
    if told.starts_with("unexpected argument") {
        return push_unexpected(message, words, word);
    }
    Ok(())
}

/// Appends the command that is meant by words for the one of this name.
pub(crate) fn push_meant(
    message: &mut String,
    name: &str,
    command: &str,
) -> Result<(), AllocError> {
    let why = if name != "sweep" {
        "many seeds are run by sweep"
    } else if command.starts_with("dmlab sweep") {
        "a sweep has its first seed and its last one"
    } else {
        "one seed is run by sim"
    };
    write!(message, "\n\n  tip: {why}: '{command}'")
}

// What a number is.
const NUMBER: &str =
    "\n\n  tip: N is decimal digits alone, at most 18446744073709551615, with no sign, point or suffix; 'dmlab sweep' runs many seeds";

// The word that a text shows first, between quotes.
fn quoted(told: &str) -> &str {
    let (_front, rest) = told.split_once("'").unwrap_or(("", ""));
    let (word, _behind) = rest.split_once("'").unwrap_or(("", ""));
    word
}

// The first word that begins with a dash that is no hyphen.
fn with_other_dash<S: AsStr>(words: &[S]) -> Option<&str> {
    for word in words {
        let word = word.as_str();
        if word.trim_start_matches('-').starts_with(is_other_dash) {
            return Some(word);
        }
    }
    None
}

// Whether the letter is a dash of print: a word processor puts one in the place of one or two hyphens.
fn is_other_dash(letter: char) -> bool {
    matches!(letter, '\u{2010}'..='\u{2015}' | '\u{2212}')
}

// Appends the word with two hyphens.
fn push_dash(message: &mut String, word: &str) -> Result<(), AllocError> {
    let option = word.trim_start_matches(|c: char| c == '-' || is_other_dash(c));
    write!(
        message,
        "\n\n  tip: '{word}' begins with a dash of print: write '--{option}', with two hyphens"
    )
}

// Appends the commands, and how a word is meant that is none.
fn push_commands<S: AsStr>(
    alloc: Global,
    message: &mut String,
    words: &[S],
    word: &str,
) -> Result<(), AllocError> {
    if word == "help" {
        return message.push_str(
            "\n\n  tip: 'dmlab --help' shows the help, 'dmlab sim --help' that of a command",
        );
    }
    if word == "version" {
        message.push_str("\n\n  tip: 'dmlab --version' shows the version")?;
    }
    if let Some(command) = run_meant(alloc, words)? {
        write!(
            message,
            "\n\n  tip: a bundle is run by sim, and by sweep for many seeds: '{command}'"
        )?;
    }
    if word.contains('.') || word.contains('/') {
        write!(
            message,
            "\n\n  tip: a command comes before the file: 'dmlab sim {word}'"
        )?;
    }
    message.push_str("\n\n  tip: the commands are ")?;
    let mut before = "";
    for command in subcommands() {
        write!(message, "{before}{}", command.name)?;
        before = ", ";
    }
    message.push_str(
        "; 'dmlab check FILE' tells whether a bundle is accepted, 'dmlab sim FILE' runs it",
    )
}

// Appends what helps against a word that the subcommand doesn't take.
fn push_unexpected<S: AsStr>(
    message: &mut String,
    words: &[S],
    word: &str,
) -> Result<(), AllocError> {
    let name = name_in(words);
    if name.is_empty() {
        return write!(
            message,
            "\n\n  tip: the command comes first: 'dmlab COMMAND {word}'"
        );
    }
    if !word.starts_with('-') {
        return push_file(message, words, name);
    }
    push_option_hint(message, words, name, word)?;
    if let Some(option) = word.strip_prefix("--") {
        push_owners(message, option)?;
    }
    push_options(message, name)
}

// Appends which word is taken for the file, and why.
fn push_file<S: AsStr>(message: &mut String, words: &[S], name: &str) -> Result<(), AllocError> {
    push_number_hint(message, words, name)?;
    for (place, word) in words.iter().enumerate().skip(2) {
        let word = word.as_str();
        let before = word_at(words, place.saturating_sub(1));
        if !is_numbered(before) && !word.starts_with('-') {
            return push_taken(message, name, before, word);
        }
    }
    Ok(())
}

// The word at this place; an empty one where there are fewer.
fn word_at<S: AsStr>(words: &[S], place: usize) -> &str {
    match words.get(place) {
        Some(word) => word.as_str(),
        None => "",
    }
}

// Whether a word is an option with a number behind it.
fn is_numbered(word: &str) -> bool {
    matches!(word, "--seed" | "--first" | "--last")
}

// Appends that a word is taken for the file, with the option before it.
fn push_taken(
    message: &mut String,
    name: &str,
    option: &str,
    word: &str,
) -> Result<(), AllocError> {
    if option.starts_with("--") {
        write!(message, "\n\n  tip: '{option}' takes no value")?;
    }
    if matches!(name, "audit" | "trace-history" | "disks-history") {
        write!(
            message,
            "\n\n  tip: a history stands behind its bundle, in one file: 'cat BUNDLE HISTORY | dmlab {name}'"
        )?;
    }
    write!(
        message,
        "\n\n  tip: 'dmlab {name}' takes one FILE, and '{word}' is taken for it: run it once for each file; output goes to standard output"
    )
}

// Appends the subcommands that take this option.
fn push_owners(message: &mut String, option: &str) -> Result<(), AllocError> {
    let mut before = "\n\n  tip: it is an option of ";
    for command in subcommands() {
        if takes(command, option) {
            write!(message, "{before}'{}'", command.called)?;
            before = ", ";
        }
    }
    Ok(())
}

// Whether a command takes this option.
fn takes(command: &Subcommand, option: &str) -> bool {
    command.options.iter().any(|it| it.name == option)
}

// Appends the options of the subcommand of this name.
fn push_options(message: &mut String, name: &str) -> Result<(), AllocError> {
    write!(message, "\n\n  tip: 'dmlab {name}' takes ")?;
    if let Some(command) = offered(name) {
        push_each(message, command.options)?;
    }
    message.push_str("--help and one FILE; an option is written in full, with two hyphens")
}

// Appends these options.
fn push_each(message: &mut String, options: &[Offer]) -> Result<(), AllocError> {
    for option in options {
        push_option(message, option)?;
    }
    Ok(())
}

// Appends an option, with what it has behind it.
fn push_option(message: &mut String, option: &Offer) -> Result<(), AllocError> {
    let value = match option.takes {
        Takes::Nothing => "",
        Takes::Number | Takes::WantedNumber => " N",
    };
    write!(message, "--{}{value}, ", option.name)
}
