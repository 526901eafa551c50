//! What is told of words that the parser doesn't take: its own text, and tips that are this program's.
ghost use Rattle.std.specs.Prelude.{◌≡◌, IfOk, IfSome};
ghost use Rattle.clap.specs.Values.{kind_of};

use crate::many::command_meant;
use crate::shown::{error_of, name_in};
use crate::tips::{push_meant, push_tips};
use clap::Error;
use std::alloc::{AllocError, Global};
use std::convert::AsStr;

/// The error of these words with what helps against it, or as it is where memory runs out.
pub(crate) fn with_tips<S: AsStr>(alloc: Global, words: &[S], error: Error) -> Error
    ensures { kind_of result ≡ kind_of error }
{
    match told_anew(alloc, words, &error) {
        Ok(Some(told)) => told,
        Ok(None) | Err(_) => error,
    }
}

// The same error with another text, if it is one that is told by a text.
fn told_anew<S: AsStr>(
    alloc: Global,
    words: &[S],
    error: &Error,
) -> Result<Option<Error>, AllocError>
    ensures { IfOk result (λ told. IfSome told (λ e. kind_of e ≡ kind_of error.now)) }
{
    let text = format!(in alloc; "{error}")?;
    let Some(told) = text.as_str().strip_prefix("error: ") else {
        return Ok(None);
    };
    let message = message_of(alloc, words, front_of(told))?;
    let told = error_of(alloc, name_in(words), error.kind(), message.as_str())?;
    Ok(Some(told))
}

// A text up to where the usage and the way to the help begin.
fn front_of(told: &str) -> &str {
    let (front, _usage) = told.split_once("\n\nUsage: ").unwrap_or((told, ""));
    let (message, _help) = front
        .split_once("\n\nFor more information")
        .unwrap_or((front, ""));
    message
}

// The lines of a text with tips of this program's.
fn message_of<S: AsStr>(alloc: Global, words: &[S], told: &str) -> Result<String, AllocError> {
    let mut message = begun(alloc, words, told)?;
    push_tips(alloc, &mut message, words, told)?;
    Ok(message)
}

// The lines of a text but for the tip to take an option for a file's name, or but for all tips and
// with the command that is meant.
fn begun<S: AsStr>(alloc: Global, words: &[S], told: &str) -> Result<String, AllocError> {
    let Some(command) = command_meant(alloc, words)? else {
        return before(alloc, told, "\n  tip: to pass '");
    };
    let mut message = before(alloc, told, "\n\n  tip: ")?;
    push_meant(&mut message, name_in(words), command.as_str())?;
    Ok(message)
}

// What stands in a text before this, with no blanks at the end.
fn before(alloc: Global, told: &str, mark: &str) -> Result<String, AllocError> {
    let (front, _rest) = told.split_once(mark).unwrap_or((told, ""));
    String::from_str(alloc, front.trim_end())
}
