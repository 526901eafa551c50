use super::asking::Question::{
    Cut, Judge, MayHold, Message, Pass, Print, Reference, Start, Status, Takes,
};
use super::asking::{ONE_WRITE, Question, ask, ask_fresh, faults, line_of};
use super::names::{AllRam0, NoNames};
use lab_any::AnyTarget;
use lab_sector::{DevNo, Kind, Span};
use lab_target::{Marks, Ref, TargetFault, Verdict};
use std::alloc::Global;
use std::process::Abort;

/// Asks the line of these words, of eight sectors, and sees that it prints them, a fresh one too.
fn ask_line(rt: &impl Abort, alloc: Global, words: &str, questions: &[Question<'_>]) {
    let mut line: AnyTarget = line_of(rt, alloc, &AllRam0, words, 8);
    ask(rt, alloc, &mut line, questions);
    ask(rt, alloc, &mut line, &[Print(words)]);
    ask_fresh(rt, alloc, &line, &[Print(words)]);
}

#[test]
fn a_linear_line(rt: HostRuntime) {
    const FIRST: Ref = Ref {
        dev: DevNo::Ram(0),
        first: 8,
    };
    const QUESTIONS: &[Question] = &[
        Start(5),
        Pass(Kind::Write, 2, 2, 7, 10),
        Status(0, ONE_WRITE, "linear"),
        Reference(Kind::Flush, Some(FIRST)),
        Takes("enable", false),
    ];
    ask_line(&rt, rt.alloc(), "linear 1:0 8", QUESTIONS);
}

#[test]
fn a_zero_line(rt: HostRuntime) {
    const QUESTIONS: &[Question] = &[
        Judge(Kind::Read, 2, 2, 7, Verdict::Zeroes),
        Status(0, ONE_WRITE, "zero"),
    ];
    ask_line(&rt, rt.alloc(), "zero", QUESTIONS);
}

#[test]
fn an_error_line(rt: HostRuntime) {
    const QUESTIONS: &[Question] = &[
        Judge(Kind::Read, 2, 2, 7, Verdict::Fail),
        Status(0, ONE_WRITE, "error"),
    ];
    ask_line(&rt, rt.alloc(), "error", QUESTIONS);
}

#[test]
fn a_flakey_line(rt: HostRuntime) {
    const QUESTIONS: &[Question] = &[
        Start(5),
        Judge(Kind::Read, 2, 2, 7, Verdict::Fail),
        Status(0, ONE_WRITE, "flakey down"),
    ];
    ask_line(&rt, rt.alloc(), "flakey 1:0 0 0 1", QUESTIONS);
}

#[test]
fn a_dust_line(rt: HostRuntime) {
    const QUESTIONS: &[Question] = &[
        Cut(1, 6, 1),
        Status(0, ONE_WRITE, "dust 1:0 bypass verbose"),
        Message("addbadblock 1", "added"),
        Pass(Kind::Read, 2, 2, 7, 2),
        Message("enable", "enabled"),
        Judge(Kind::Read, 2, 2, 7, Verdict::Fail),
    ];
    ask_line(&rt, rt.alloc(), "dust 1:0 0 1024", QUESTIONS);
}

#[test]
fn a_delay_line(rt: HostRuntime) {
    const SECTORS: Span = Span { first: 2, len: 2 };
    const HELD: Verdict = Verdict::Pass(DevNo::Ram(0), SECTORS, 1_000_000, Marks::NONE);
    const QUESTIONS: &[Question] = &[
        Judge(Kind::Write, 2, 2, 7, HELD),
        MayHold(Kind::Write, true),
        Status(0, ONE_WRITE, "delay 0 1 0"),
    ];
    ask_line(&rt, rt.alloc(), "delay 1:0 0 1000", QUESTIONS);
}

#[test]
fn words_of_no_type_and_faults_of_a_type(rt: HostRuntime) {
    const CASES: &[(&str, TargetFault)] = &[
        ("", TargetFault::Unknown),
        ("errors", TargetFault::Unknown),
        ("Zero", TargetFault::Unknown),
        ("linear 1:0", TargetFault::Args),
        ("delay 1:0 0 0", TargetFault::Device),
    ];
    faults::<AnyTarget, _>(&rt, rt.alloc(), &NoNames, CASES);
}
