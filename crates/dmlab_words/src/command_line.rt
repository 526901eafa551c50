ghost use Rattle.std.specs.Prelude.{◌≡◌, IfOk, map, option_map};
ghost use Rattle.clap.specs.Words.{FailsBy, found_of, rows_of, subcommand_of, subcommand_rows_of};
ghost use Rattle.dmlab_words.specs.Making.{IsMadeCommand};
ghost use Rattle.dmlab_words.specs.CommandLine.{HasWork, IsWorkOf, NamesWork, file_in, file_of};
ghost use Rattle.dmlab_words.specs.CommandLine.{dmlab_app, faults_of, program_app};

use crate::finding_words::asked_in;
use crate::making::{command_of, titled};
use crate::offered::subcommands;
use crate::options::{asks, number_in};
use crate::sense::has_sense;
use crate::study_words::study_of;
use crate::told::with_tips;
use crate::{Job, Work, help};
use clap::{ArgMatches, Command, Error};
use std::alloc::{AllocError, Global};
use std::convert::AsStr;

/// What the words ask for. The first word is the program's own.
pub fn read_words<'a, S: AsStr>(alloc: Global, words: &'a [S]) -> Result<Work, Error>
    ensures work { IfOk result (NamesWork (map S.text words.now)) }
    ensures kinds { FailsBy (faults_of (map S.text words.now)) result }
{
    let matches = parsed(alloc, words)?;
    Ok(work_of(&matches))
}

/// The name that the words give the bundle's file, if they give one, or why they ask for no work.
pub fn file_named<'a, S: AsStr>(alloc: Global, words: &'a [S]) -> Result<Option<&'a str>, Error>
    ensures named { IfOk result (λ file.
        option_map (λ s. s.now) file ≡ file_of (map S.text words.now)) }
    ensures kinds { FailsBy (faults_of (map S.text words.now)) result }
{
    let matches = parsed(alloc, words)?;
    Ok(file_in(&matches))
}

// What a parse of the words found, or why they ask for no work, with what helps.
fn parsed<'a, S: AsStr>(alloc: Global, words: &'a [S]) -> Result<ArgMatches<'a>, Error>
    ensures met { IfOk result (λ matches.
        subcommand_rows_of matches ≡ subcommand_of dmlab_app (map S.text words.now)) }
    ensures work { IfOk result (λ matches. HasWork (subcommand_rows_of matches)) }
    ensures kinds { FailsBy (faults_of (map S.text words.now)) result }
{
    match matched(alloc, words) {
        Ok(matches) => Ok(matches),
        Err(error) => Err(with_tips(alloc, words, error)),
    }
}

// What a parse of the words found, or why they ask for no work, in the parser's own words.
fn matched<'a, S: AsStr>(alloc: Global, words: &'a [S]) -> Result<ArgMatches<'a>, Error>
    ensures met { IfOk result (λ matches.
        subcommand_rows_of matches ≡ subcommand_of dmlab_app (map S.text words.now)) }
    ensures work { IfOk result (λ matches. HasWork (subcommand_rows_of matches)) }
    ensures kinds { FailsBy (faults_of (map S.text words.now)) result }
{
    let matches = dmlab(alloc)?.try_get_matches_from(words)?;
    has_sense(alloc, &matches)?;
    Ok(matches)
}

// The name that a parse found.
fn file_in<'a>(matches: &ArgMatches<'a>) -> Option<&'a str>
    ensures { option_map (λ s. s.now) result ≡ file_in (subcommand_rows_of matches.now) }
{
    let (_, found) = matches.subcommand()?;
    found.get_str("FILE")
}

/// The program's words: those for one run, and those that study many events or runs.
pub(crate) fn dmlab<'a>(alloc: Global) -> Result<Command<'a>, AllocError>
    ensures { IsMadeCommand result dmlab_app }
{
    let mut program = program(alloc)?;
    for subcommand in subcommands() {
        program = program.subcommand(command_of(alloc, subcommand)?)?;
    }
    Ok(program)
}

// The program, with a version and without its subcommands.
fn program<'a>(alloc: Global) -> Result<Command<'a>, AllocError>
    ensures { IsMadeCommand result program_app }
{
    titled(alloc, "dmlab", help::ABOUT, help::PROGRAM)
        .version(help::VERSION)
        .args_override_self(true)
        .disable_help_subcommand(true)
        .subcommand_required(true)
        .bin_name("dmlab")
}

// What a parse found that is asked for.
fn work_of(matches: &ArgMatches<'_>) -> Work
    requires { HasWork (subcommand_rows_of matches.now) }
    ensures { IsWorkOf (subcommand_rows_of matches.now) result }
{
    match matches.subcommand() {
        Some((name, found)) => named_work(name, found),
        None => unreachable!(),
    }
}

// What the subcommand of this name asks for.
fn named_work(name: &str, found: &ArgMatches<'_>) -> Work
    requires { HasWork (Some (name.now, rows_of (found_of found.now))) }
    ensures { IsWorkOf (Some (name.now, rows_of (found_of found.now))) result }
{
    match name {
        "check" if asks(found, "all") => Work::CheckAll,
        "check" => Work::Alone(Job::Check),
        "sim" => Work::Alone(Job::Sim {
            seed: number_in(found, "seed"),
            history: asks(found, "history"),
            prompt: asks(found, "prompt"),
            asked: asked_in(found),
        }),
        "threads" => Work::Threads {
            history: asks(found, "history"),
        },
        "audit" => Work::Alone(Job::Audit),
        _ => Work::Study(study_of(name, found)),
    }
}
