//! The program `dmlab`: its words and standard streams go to `dmlab_run`, and a status comes back.
#![tactic(auto)]

ghost use Rattle.std.specs.Prelude.{◌≡◌, ◌≢◌, ◌⊎◌};
ghost use Rattle.std.specs.Process.{exit_status};
ghost use Rattle.std.specs.IoError.{error_kind};
ghost use Rattle.dmlab.specs.Ending.{EndsWith};

use clap::Error;
use dmlab_run::{Counted, Status, file_named, run};
use std::env::Env;
use std::fs::OpenFile;
use std::io::ErrorKind;
use std::process::ExitCode;
use std::rt::Files;
use std::{env, fs, io};

fn main(rt: HostRuntime) -> ExitCode {
    let words = match words_of(&rt) {
        Ok(words) => words,
        Err(error) => return without_words(&rt, &error),
    };
    let mut output = Counted::new(rt.stdout());
    let name = match file_named(rt.alloc(), words.as_slice()) {
        Ok(name) => name,
        Err(status) => return ended(&rt, &status),
    };
    match bundle_of(&rt, name) {
        Ok(Some(file)) => {
            let mut input = Counted::new(file);
            ended(&rt, &run(&rt, words.as_slice(), &mut input, &mut output))
        }
        Ok(None) => {
            let mut input = Counted::new(rt.stdin());
            ended(&rt, &run(&rt, words.as_slice(), &mut input, &mut output))
        }
        Err(error) => without_file(&rt, name.unwrap_or("-"), &error),
    }
}

// The file of this name; none if there is no name, or if it is a dash.
fn bundle_of<R: Files>(rt: &R, name: Option<&str>) -> io::Result<Option<R::File>> {
    match name {
        None | Some("-") => Ok(None),
        Some(name) => {
            let file = fs::open(rt, name)?;
            if file.metadata()?.is_dir() {
                return Err(ErrorKind::IsADirectory.into());
            }
            Ok(Some(file))
        }
    }
}

// The one line of a run whose bundle's file can't be read, by the system's words, or for whose name memory ran out.
fn without_file<R: Eprint>(rt: &R, name: &str, error: &io::Error) -> ExitCode
    ensures { exit_status result ≡ 3 }
{
    if error.kind() == ErrorKind::OutOfMemory {
        return failed(rt, "no memory");
    }
    let tip = tip_of(name);
    let _ = eprintln!(rt; "dmlab: {name}: {error}{tip}");
    ExitCode::from(3)
}

// What helps where a file's name begins with a dash of print, which a word processor puts in the place of hyphens.
fn tip_of(name: &str) -> &'static str {
    if name.starts_with(|c: char| matches!(c, '\u{2010}'..='\u{2015}' | '\u{2212}')) {
        "; the word begins with a dash of print, and an option with two hyphens"
    } else {
        ""
    }
}

// The words of the command line, the program's own first.
fn words_of<R: Env + AllocGlobal>(rt: &R) -> io::Result<Vec<String>> {
    let mut words = Vec::new(rt.alloc());
    for word in env::args(rt)? {
        words.push(word)?;
    }
    Ok(words)
}

// What is told of a run, and its exit status. A fault of standard error is told nowhere.
fn ended<R: Print + Eprint>(rt: &R, status: &Status) -> ExitCode
    ensures { EndsWith status.now (exit_status result) }
{
    match status {
        Status::Done(besides) => {
            let _ = rt.eprint(besides);
            ExitCode::SUCCESS
        }
        Status::Found(besides) => {
            let _ = rt.eprint(besides);
            ExitCode::from(4)
        }
        Status::Refused(advice) => {
            let _ = rt.eprint(advice);
            ExitCode::from(1)
        }
        Status::Words(error) => {
            let _ = rt.eprint(error);
            ExitCode::from(2)
        }
        Status::Version(version) => with_version(rt, version),
        Status::NoMemory => failed(rt, "no memory"),
        Status::ReadFault => failed(rt, "read fault"),
        Status::WriteFault => failed(rt, "write fault"),
    }
}

// The version goes to standard output.
fn with_version<R: Print + Eprint>(rt: &R, version: &Error) -> ExitCode
    ensures { (exit_status result ≡ 0) ⊎ (exit_status result ≡ 3) }
{
    match rt.print(version) {
        Ok(()) => ExitCode::SUCCESS,
        Err(_) => failed(rt, "write fault"),
    }
}

// The one line of a run that failed.
fn failed<R: Eprint>(rt: &R, why: &str) -> ExitCode
    ensures { exit_status result ≡ 3 }
{
    let _ = eprintln!(rt; "dmlab: {why}");
    ExitCode::from(3)
}

// The words could not be had: memory ran out, or one of them is no text.
fn without_words<R: Eprint>(rt: &R, error: &io::Error) -> ExitCode
    ensures text { error_kind error.now ≡ ErrorKind.InvalidData → exit_status result ≡ 2 }
    ensures memory { error_kind error.now ≢ ErrorKind.InvalidData → exit_status result ≡ 3 }
{
    match error.kind() {
        ErrorKind::InvalidData => {
            let _ = eprintln!(rt; "error: a word is not UTF-8");
            ExitCode::from(2)
        }
        _ => failed(rt, "no memory"),
    }
}
