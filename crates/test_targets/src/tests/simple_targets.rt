use super::asking::Question::{
    Cut, Judge, MayHold, NoMessage, Pass, Print, Reference, Start, Status,
};
use super::asking::{NONE_HELD, Question, ask_steady, faults, line_of};
use super::names::{AllRam0, NoNames};
use lab_sector::{DevNo, Kind};
use lab_simple::{ErrorTarget, Linear, Zero};
use lab_target::{Ref, TargetFault, Verdict};

#[test]
fn a_linear_line_passes_each_bio_behind_its_offset(rt: HostRuntime) {
    const FIRST: Ref = Ref {
        dev: DevNo::Ram(0),
        first: 8,
    };
    const QUESTIONS: &[Question] = &[
        Start(5),
        Pass(Kind::Write, 3, 2, 7, 11),
        Cut(3, 13, 13),
        MayHold(Kind::Read, false),
        Reference(Kind::Flush, Some(FIRST)),
        NoMessage("enable"),
        Print("linear 1:0 8"),
        Status(9, NONE_HELD, "linear"),
    ];
    ask_steady::<Linear, _>(&rt, rt.alloc(), &AllRam0, "linear 1:0 008", 16, QUESTIONS);
}

#[test]
fn linear_words_that_make_no_line(rt: HostRuntime) {
    const CASES: &[(&str, TargetFault)] = &[
        ("", TargetFault::Unknown),
        ("zero", TargetFault::Unknown),
        ("linear 1:0", TargetFault::Args),
        ("linear 1:0 x 0", TargetFault::Args),
        ("linear 1:0 x", TargetFault::Number),
        ("linear 1:0 1099511627777", TargetFault::Number),
    ];
    const OF_NO_DEVICE: &[(&str, TargetFault)] = &[
        ("linear /dev/dm-0 x", TargetFault::Number),
        ("linear /dev/dm-0 1", TargetFault::Device),
    ];
    faults::<Linear, _>(&rt, rt.alloc(), &AllRam0, CASES);
    faults::<Linear, _>(&rt, rt.alloc(), &NoNames, OF_NO_DEVICE);
    let _farthest: Linear = line_of(&rt, rt.alloc(), &AllRam0, "linear 1:0 1099511627776", 8);
}

#[test]
fn a_zero_line_reads_as_zeroes_and_is_done_with_the_rest(rt: HostRuntime) {
    const QUESTIONS: &[Question] = &[
        Judge(Kind::Read, 0, 8, 0, Verdict::Zeroes),
        Judge(Kind::Write, 0, 8, 0, Verdict::Done),
        Judge(Kind::Trim, 0, 8, 0, Verdict::Done),
        Judge(Kind::Flush, 0, 0, 0, Verdict::Done),
        Reference(Kind::Read, None),
        NoMessage("enable"),
        Print("zero"),
        Status(0, NONE_HELD, "zero"),
    ];
    ask_steady::<Zero, _>(&rt, rt.alloc(), &NoNames, " zero ", 8, QUESTIONS);
    faults::<Zero, _>(
        &rt,
        rt.alloc(),
        &AllRam0,
        &[("zero 1:0", TargetFault::Args)],
    );
}

#[test]
fn an_error_line_fails_each_piece(rt: HostRuntime) {
    const QUESTIONS: &[Question] = &[
        Judge(Kind::Read, 0, 8, 0, Verdict::Fail),
        Judge(Kind::Flush, 0, 0, 0, Verdict::Fail),
        NoMessage("enable"),
        Print("error"),
        Status(0, NONE_HELD, "error"),
    ];
    const CASES: &[(&str, TargetFault)] = &[
        ("error 0", TargetFault::Args),
        ("errors", TargetFault::Unknown),
    ];
    ask_steady::<ErrorTarget, _>(&rt, rt.alloc(), &NoNames, "error", 8, QUESTIONS);
    faults::<ErrorTarget, _>(&rt, rt.alloc(), &AllRam0, CASES);
}
