//! What helps against a word of another program: an option for its output, a value that no option takes, a number alone.
use std::alloc::AllocError;
use std::convert::AsStr;

// The findings that options ask for.
const FINDINGS: &str = "eio lost corrupt stale misplaced broken-sync";

/// Appends what helps against an option that the command of this name doesn't take.
pub(crate) fn push_option_hint<S: AsStr>(
    message: &mut String,
    words: &[S],
    name: &str,
    word: &str,
) -> Result<(), AllocError> {
    if is_output(word) {
        write!(
            message,
            "\n\n  tip: output goes to standard output: 'dmlab {name} FILE > OUTPUT'"
        )?;
    }
    for other in words {
        let finding = other.as_str();
        if FINDINGS.split_whitespace().any(|it| it == finding) {
            write!(
                message,
                "\n\n  tip: a finding is an option of its own: '--{finding}'"
            )?;
        }
    }
    Ok(())
}

// Whether an option names a file for the output elsewhere.
fn is_output(word: &str) -> bool {
    let (option, _value) = word.split_once('=').unwrap_or((word, ""));
    matches!(option, "-o" | "--out" | "--output" | "--report" | "--log")
}

/// Appends what helps against a value that an option has behind `=` and doesn't take.
pub(crate) fn push_value_hint(message: &mut String, told: &str) -> Result<(), AllocError> {
    let (_front, rest) = told.split_once("for '").unwrap_or(("", ""));
    let (option, _behind) = rest.split_once("'").unwrap_or(("", ""));
    write!(
        message,
        "\n\n  tip: '{option}' takes no value: write it alone"
    )
}

/// Appends what helps where a sweep has no last seed.
pub(crate) fn push_last_hint(message: &mut String) -> Result<(), AllocError> {
    message.push_str("\n\n  tip: 'dmlab sweep --last 99 FILE' runs the seeds 0 to 99")
}

/// Appends which option a number belongs to that stands alone in the words for the command of this name.
pub(crate) fn push_number_hint<S: AsStr>(
    message: &mut String,
    words: &[S],
    name: &str,
) -> Result<(), AllocError> {
    let option = match name {
        "sweep" => "--first N --last N",
        "sim" | "trace" | "disks" => "--seed N",
        _ => return Ok(()),
    };
    if words.iter().skip(2).any(|word| is_number(word.as_str())) {
        write!(
            message,
            "\n\n  tip: a number stands behind its option: '{option}'"
        )?;
    }
    Ok(())
}

// Whether a word is a number, or a range of two.
fn is_number(word: &str) -> bool {
    !word.is_empty()
        && word
            .trim_start_matches(|c: char| c.is_ascii_digit() || c == '-' || c == '.')
            .is_empty()
}
