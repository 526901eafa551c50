ghost use Rattle.std.specs.Prelude.{◌≡◌, IfOk};
ghost use Rattle.clap.specs.Values.{kind_of};

use crate::command_line::dmlab;
use crate::making::command_of;
use crate::offered::{Subcommand, subcommands};
use clap::error::ErrorKind;
use clap::{Command, Error};
use std::alloc::{AllocError, Global};
use std::convert::AsStr;

/// The error of words for the subcommand of this name, with this text.
pub(crate) fn error_of(
    alloc: Global,
    name: &str,
    kind: ErrorKind,
    text: &str,
) -> Result<Error, AllocError>
    ensures { IfOk result (λ error. kind_of error ≡ kind) }
{
    let mut command = shown(alloc, name)?;
    command.error(kind, text)
}

// The subcommand of this name, as an error shows it; for another word the program.
fn shown<'a>(alloc: Global, name: &str) -> Result<Command<'a>, AllocError> {
    match offered(name) {
        Some(subcommand) => command_of(alloc, subcommand)?.bin_name(subcommand.called),
        None => dmlab(alloc),
    }
}

/// The subcommand of this name, if the program has one.
pub(crate) fn offered(name: &str) -> Option<&'static Subcommand> {
    for subcommand in subcommands() {
        if subcommand.name == name {
            return Some(subcommand);
        }
    }
    None
}

/// The subcommand that the words name right behind the program, or an empty word.
pub(crate) fn name_in<S: AsStr>(words: &[S]) -> &str {
    match words {
        [_program, name, ..] if offered(name.as_str()).is_some() => name.as_str(),
        _ => "",
    }
}
