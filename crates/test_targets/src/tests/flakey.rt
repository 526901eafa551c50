use super::asking::Question::{
    Cut, Judge, MayHold, NoMessage, Pass, Print, Reference, Start, Status,
};
use super::asking::{NONE_HELD, Question, ask, ask_fresh, ask_line, faults, is_as_fresh, line_of};
use super::names::{AllRam0, NoNames};
use lab_flakey::Flakey;
use lab_sector::{DevNo, Kind, Span};
use lab_target::{Mark, Marks, Ref, TargetFault, Verdict};
use rand_core::SeedableRng;
use rand_core::utils::NextWord;
use rand_pcg::Pcg32;
use std::alloc::Global;
use std::process::Abort;

/// The line of these words, of eight sectors.
fn flakey(rt: &impl Abort, alloc: Global, words: &str) -> Flakey {
    line_of(rt, alloc, &AllRam0, words, 8)
}

/// Asks the line of these words.
fn ask_flakey(rt: &impl Abort, alloc: Global, words: &str, questions: &[Question<'_>]) {
    ask_line::<Flakey, _>(rt, alloc, &AllRam0, words, 8, questions);
}

/// Checks whether a line is down at these moments.
fn is_down(rt: &impl Abort, line: &Flakey, moments: &[(u64, bool)]) {
    for (now, down) in moments {
        assert!(rt; line.down(*now) == *down, "at {now}");
    }
}

#[test]
fn up_for_a_second_and_down_for_a_second(rt: HostRuntime) {
    const LOADED_AT_0: &[(u64, bool)] = &[
        (0, false),
        (999_999, false),
        (1_000_000, true),
        (2_000_000, false),
    ];
    const QUESTIONS: &[Question] = &[
        Pass(Kind::Read, 0, 1, 999_999, 0),
        Judge(Kind::Read, 0, 1, 1_000_000, Verdict::Fail),
        Judge(Kind::Flush, 0, 0, 1_000_000, Verdict::Fail),
        Start(0),
        Pass(Kind::Read, 0, 1, 999_999, 0),
        Judge(Kind::Read, 0, 1, 1_000_000, Verdict::Fail),
        Start(500_000),
    ];
    const LOADED_LATER: &[(u64, bool)] = &[(1_499_999, false), (1_500_000, true), (499_999, false)];
    let mut line = flakey(&rt, rt.alloc(), "flakey 1:0 0 1 1");
    is_down(&rt, &line, LOADED_AT_0);
    ask(&rt, rt.alloc(), &mut line, QUESTIONS);
    is_down(&rt, &line, LOADED_LATER);
}

#[test]
fn a_byte_is_counted_in_the_piece(rt: HostRuntime) {
    const FIRST_TWO: Verdict = Verdict::Pass(
        DevNo::Ram(0),
        Span { first: 0, len: 2 },
        0,
        Marks {
            fixed: Some(Mark {
                place: 512,
                value: 1,
            }),
            random: None,
        },
    );
    const LATER_TWO: Verdict = Verdict::Pass(
        DevNo::Ram(0),
        Span { first: 3, len: 2 },
        0,
        Marks {
            fixed: Some(Mark {
                place: 2_048,
                value: 1,
            }),
            random: None,
        },
    );
    const QUESTIONS: &[Question] = &[
        Judge(Kind::Read, 0, 2, 0, FIRST_TWO),
        Pass(Kind::Read, 0, 1, 0, 0),
        Pass(Kind::Write, 0, 2, 0, 0),
        Judge(Kind::Read, 3, 2, 0, LATER_TWO),
    ];
    let words = "flakey 1:0 0 0 1 5 corrupt_bio_byte 513 r 1 0";
    ask_flakey(&rt, rt.alloc(), words, QUESTIONS);
}

/// The place and the value of the first byte that seed 0's generator draws, behind the word of its chance.
fn first_byte() -> (u32, u32) {
    let mut words = Pcg32::seed_from_u64(0);
    let _chance = words.next_word();
    (words.next_word() % 512, words.next_word() % 256)
}

// The first word of seed 42 on stream 54 is that of PCG's own demonstration.
#[test]
fn the_words_of_a_generator(rt: HostRuntime) {
    assert!(rt; Pcg32::new(42, 54).next_word() == 0xa15c_02b7);
    assert!(rt; first_byte() == (471, 0xd3));
}

#[test]
fn a_drawn_byte_is_the_generators_own(rt: HostRuntime) {
    const DRAWN: Verdict = Verdict::Pass(
        DevNo::Ram(0),
        Span { first: 0, len: 1 },
        0,
        Marks {
            fixed: None,
            random: Some(Mark {
                place: 471,
                value: 0xd3,
            }),
        },
    );
    const QUESTIONS: &[Question] = &[
        Pass(Kind::Write, 0, 1, 0, 0),
        Pass(Kind::Trim, 0, 1, 0, 0),
        Judge(Kind::Read, 0, 1, 0, DRAWN),
        Start(0),
        Judge(Kind::Read, 0, 1, 0, DRAWN),
    ];
    let words = "flakey 1:0 0 0 1 2 random_read_corrupt 1000000000";
    ask_flakey(&rt, rt.alloc(), words, QUESTIONS);
}

#[test]
fn no_chance_draws_no_byte(rt: HostRuntime) {
    const WORDS: &str = "flakey 1:0 0 0 1 2 random_read_corrupt 0";
    const QUESTIONS: &[Question] = &[Pass(Kind::Read, 0, 1, 0, 0), Print(WORDS)];
    ask_flakey(&rt, rt.alloc(), WORDS, QUESTIONS);
}

#[test]
fn features_print_in_one_order(rt: HostRuntime) {
    const CASES: &[(&str, &str)] = &[
        (
            "flakey /dev/ram0 00 0 1 2 drop_writes error_reads",
            "flakey 1:0 0 0 1 2 error_reads drop_writes",
        ),
        ("flakey /dev/ram0 8 0 1 0", "flakey 1:0 8 0 1"),
        (
            "flakey 1:0 8 3 5 11 random_write_corrupt 7 random_read_corrupt 6 \
                corrupt_bio_byte 4 r 255 0 error_writes error_reads",
            "flakey 1:0 8 3 5 11 error_reads error_writes corrupt_bio_byte 4 r 255 0 \
                random_read_corrupt 6 random_write_corrupt 7",
        ),
    ];
    for (words, printed) in CASES {
        ask_flakey(&rt, rt.alloc(), words, &[Print(printed)]);
    }
}

#[test]
fn writes_are_dropped_and_reads_fail(rt: HostRuntime) {
    const QUESTIONS: &[Question] = &[
        Judge(Kind::Write, 0, 1, 0, Verdict::Done),
        Judge(Kind::Trim, 0, 1, 0, Verdict::Done),
        Judge(Kind::Flush, 0, 0, 0, Verdict::Done),
        Judge(Kind::Read, 0, 1, 0, Verdict::Fail),
    ];
    let words = "flakey 1:0 0 0 1 2 drop_writes error_reads";
    ask_flakey(&rt, rt.alloc(), words, QUESTIONS);
}

#[test]
fn words_that_make_no_flakey_line(rt: HostRuntime) {
    const CASES: &[(&str, TargetFault)] = &[
        ("linear 1:0 0 0 1", TargetFault::Unknown),
        ("flakey 1:0 0 0", TargetFault::Args),
        ("flakey 1:0 x 0 0", TargetFault::Number),
        ("flakey 1:0 0 0 1 x", TargetFault::Number),
        ("flakey 1:0 0 0 0 1", TargetFault::Interval),
        ("flakey 1:0 0 4294967295 1", TargetFault::Interval),
    ];
    const UNKNOWN: &[(&str, TargetFault)] = &[("flakey x 0 0 1", TargetFault::Device)];
    faults::<Flakey, _>(&rt, rt.alloc(), &AllRam0, CASES);
    faults::<Flakey, _>(&rt, rt.alloc(), &NoNames, UNKNOWN);
}

#[test]
fn features_that_make_no_flakey_line(rt: HostRuntime) {
    const CASES: &[(&str, TargetFault)] = &[
        ("flakey 1:0 0 0 1 1", TargetFault::Args),
        ("flakey 1:0 0 0 1 0 fail", TargetFault::Args),
        ("flakey 1:0 0 0 1 1 fail", TargetFault::Feature),
        (
            "flakey 1:0 0 0 1 2 drop_writes error_writes",
            TargetFault::Conflict,
        ),
        (
            "flakey 1:0 0 0 1 6 corrupt_bio_byte 1 w 1 9 drop_writes",
            TargetFault::Conflict,
        ),
        (
            "flakey 1:0 0 0 1 5 corrupt_bio_byte 0 r 1 0",
            TargetFault::Value,
        ),
        (
            "flakey 1:0 0 0 1 4 corrupt_bio_byte 0 r 1",
            TargetFault::Args,
        ),
        (
            "flakey 1:0 0 0 1 2 random_read_corrupt 1000000001",
            TargetFault::Value,
        ),
        ("flakey 1:0 0 0 1 1 random_read_corrupt", TargetFault::Args),
        (
            "flakey 1:0 0 0 1 4 random_read_corrupt 0 random_read_corrupt 0",
            TargetFault::Conflict,
        ),
    ];
    faults::<Flakey, _>(&rt, rt.alloc(), &AllRam0, CASES);
}

#[test]
fn a_line_tells_what_it_is(rt: HostRuntime) {
    const FIRST: Ref = Ref {
        dev: DevNo::Ram(0),
        first: 8,
    };
    const QUESTIONS: &[Question] = &[
        Reference(Kind::Flush, Some(FIRST)),
        MayHold(Kind::Write, false),
        Cut(3, 5, 5),
        NoMessage("enable"),
        Status(0, NONE_HELD, "flakey up"),
        Status(1_000_000, NONE_HELD, "flakey down"),
    ];
    let mut line = flakey(&rt, rt.alloc(), "flakey 1:0 8 1 1");
    ask(&rt, rt.alloc(), &mut line, QUESTIONS);
    assert!(rt; is_as_fresh(rt.alloc(), &line));
    ask(&rt, rt.alloc(), &mut line, &[Start(9)]);
    assert!(rt; !is_as_fresh(rt.alloc(), &line));
}

#[test]
fn a_fresh_line_is_as_if_loaded_at_0(rt: HostRuntime) {
    const WORDS: &str = "flakey 1:0 0 1 1";
    const QUESTIONS: &[Question] = &[Print(WORDS), Status(1_000_000, NONE_HELD, "flakey down")];
    let mut line = flakey(&rt, rt.alloc(), WORDS);
    ask(&rt, rt.alloc(), &mut line, &[Start(500_000)]);
    ask_fresh(&rt, rt.alloc(), &line, QUESTIONS);
}
