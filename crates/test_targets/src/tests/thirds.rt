use super::asking::Question::{
    Cut, MayHold, Message, Pass, Print, Reference, Start, Status, Takes,
};
use super::asking::{NONE_HELD, Question, ask_steady, faults};
use super::names::AllRam0;
use lab_sector::{DevNo, Kind};
use lab_target::{Ref, TargetFault};
use std::alloc::Global;
use std::process::Abort;
use test_thirds::Thirds;

/// Asks a line of 16 places behind sector 8. It is as a fresh one then.
fn ask(rt: &impl Abort, alloc: Global, questions: &[Question<'_>]) {
    ask_steady::<Thirds, _>(rt, alloc, &AllRam0, "thirds 1:0 8", 16, questions);
}

#[test]
fn places_1_to_6_are_cut_to_1_and_2_then_3_to_5_then_6(rt: HostRuntime) {
    const FIRST: Ref = Ref {
        dev: DevNo::Ram(0),
        first: 8,
    };
    const QUESTIONS: &[Question] = &[
        Cut(1, 6, 2),
        Cut(3, 4, 3),
        Cut(6, 1, 1),
        Start(5),
        Pass(Kind::Read, 3, 3, 7, 11),
        MayHold(Kind::Write, false),
        Reference(Kind::Trim, Some(FIRST)),
    ];
    ask(&rt, rt.alloc(), QUESTIONS);
}

#[test]
fn a_ping_is_replied_to_with_a_pong(rt: HostRuntime) {
    const QUESTIONS: &[Question] = &[
        Message("ping", "pong"),
        Takes("pong", false),
        Takes("ping 1", false),
        Takes("", false),
    ];
    ask(&rt, rt.alloc(), QUESTIONS);
}

#[test]
fn a_line_of_thirds_prints_its_words(rt: HostRuntime) {
    const QUESTIONS: &[Question] = &[Print("thirds 1:0 8"), Status(9, NONE_HELD, "thirds")];
    ask(&rt, rt.alloc(), QUESTIONS);
}

#[test]
fn words_that_make_no_line_of_thirds(rt: HostRuntime) {
    const CASES: &[(&str, TargetFault)] = &[
        ("linear 1:0 8", TargetFault::Unknown),
        ("thirds 1:0", TargetFault::Args),
        ("thirds 1:0 x", TargetFault::Number),
    ];
    faults::<Thirds, _>(&rt, rt.alloc(), &AllRam0, CASES);
}
