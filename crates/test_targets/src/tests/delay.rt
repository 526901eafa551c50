use super::asking::Question::{
    Cut, Hold, Judge, MayHold, NoMessage, Print, Reference, Start, Status,
};
use super::asking::{ONE_WRITE, Question, ask_line, ask_steady, faults, line_of};
use super::names::Disks;
use lab_delay::Delay;
use lab_sector::{DevNo, Kind, Span};
use lab_target::{Marks, Ref, TargetFault, Verdict};
use std::alloc::Global;
use std::process::Abort;

/// The line of these words, of eight sectors.
fn delay(rt: &impl Abort, alloc: Global, words: &str) -> Delay {
    line_of(rt, alloc, &Disks, words, 8)
}

/// Asks the line of these words.
fn ask(rt: &impl Abort, alloc: Global, words: &str, questions: &[Question<'_>]) {
    ask_line::<Delay, _>(rt, alloc, &Disks, words, 8, questions);
}

#[test]
fn a_write_is_held_for_a_second(rt: HostRuntime) {
    const SECTOR: Span = Span { first: 0, len: 1 };
    const HELD: Verdict = Verdict::Pass(DevNo::Ram(0), SECTOR, 1_000_000, Marks::NONE);
    const QUESTIONS: &[Question] = &[
        Start(5),
        Judge(Kind::Write, 0, 1, 7, HELD),
        Judge(Kind::Read, 0, 1, 7, HELD),
        MayHold(Kind::Flush, true),
        Cut(3, 5, 5),
        NoMessage("enable"),
        Status(9, ONE_WRITE, "delay 0 1 0"),
    ];
    ask_steady::<Delay, _>(
        &rt,
        rt.alloc(),
        &Disks,
        "delay /dev/ram0 0 1000",
        8,
        QUESTIONS,
    );
}

#[test]
fn three_groups_part_reads_writes_and_flushes(rt: HostRuntime) {
    const WRITES: Ref = Ref {
        dev: DevNo::Ram(1),
        first: 8,
    };
    const QUESTIONS: &[Question] = &[
        Hold(Kind::Read, 3, 1, 0, 3, 0),
        Hold(Kind::Write, 3, 1, 1, 11, 0),
        Hold(Kind::Trim, 3, 1, 1, 11, 0),
        Hold(Kind::Flush, 0, 0, 2, 0, 5_000),
        MayHold(Kind::Trim, false),
        MayHold(Kind::Flush, true),
        Reference(Kind::Trim, Some(WRITES)),
    ];
    let words = "delay /dev/ram0 0 0 /dev/ram1 8 0 /dev/ram2 0 5";
    ask(&rt, rt.alloc(), words, QUESTIONS);
}

#[test]
fn with_two_groups_all_but_reads_go_one_way(rt: HostRuntime) {
    const QUESTIONS: &[Question] = &[
        Hold(Kind::Read, 0, 1, 0, 0, 1_000),
        Hold(Kind::Trim, 0, 1, 1, 0, 2_000),
    ];
    let words = "delay /dev/ram0 0 1 /dev/ram1 0 2";
    ask(&rt, rt.alloc(), words, QUESTIONS);
}

#[test]
fn groups_are_printed_as_they_were_given(rt: HostRuntime) {
    const CASES: &[(&str, &str)] = &[
        (" delay /dev/ram0 00 010 ", "delay 1:0 0 10"),
        (
            "delay /dev/ram0 0 10 /dev/ram0 0 10",
            "delay 1:0 0 10 1:0 0 10",
        ),
        (
            "delay /dev/ram0 0 0 /dev/ram1 8 0 /dev/ram2 0 5",
            "delay 1:0 0 0 1:1 8 0 1:2 0 5",
        ),
    ];
    for (words, printed) in CASES {
        ask(&rt, rt.alloc(), words, &[Print(printed)]);
    }
}

#[test]
fn a_wrong_number_of_words_comes_first(rt: HostRuntime) {
    const CASES: &[(&str, TargetFault)] = &[
        ("", TargetFault::Unknown),
        ("linear a 0", TargetFault::Unknown),
        ("delay", TargetFault::Args),
        ("delay q x", TargetFault::Args),
        ("delay q x y q", TargetFault::Args),
        ("delay q x y q x y q x", TargetFault::Args),
        ("delay q x y q x y q x y q", TargetFault::Args),
    ];
    faults::<Delay, _>(&rt, rt.alloc(), &Disks, CASES);
}

#[test]
fn then_numbers_then_long_delays_then_unknown_devices(rt: HostRuntime) {
    const CASES: &[(&str, TargetFault)] = &[
        ("delay q 0 3600001 q x 0", TargetFault::Number),
        ("delay q 1099511627777 0", TargetFault::Number),
        ("delay q 0 4294967296", TargetFault::Number),
        ("delay q 0 0 q 0 3600001", TargetFault::TooLong),
        ("delay /dev/ram0 0 0 q 0 3600000", TargetFault::Device),
    ];
    faults::<Delay, _>(&rt, rt.alloc(), &Disks, CASES);
    let _longest = delay(&rt, rt.alloc(), "delay /dev/ram0 1099511627776 3600000");
}
