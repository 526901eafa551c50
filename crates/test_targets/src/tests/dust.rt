use super::asking::Question::{
    Cut, Judge, MayHold, Message, Pass, Print, Reference, Start, Status, Takes,
};
use super::asking::{NONE_HELD, Question, ask, ask_fresh, ask_line, faults, line_of};
use super::names::{AllRam0, NoNames};
use lab_dust::Dust;
use lab_sector::{DevNo, Kind};
use lab_target::{Ref, TargetFault, Verdict};
use std::alloc::Global;
use std::process::Abort;

/// The line of these words and of so many sectors.
fn dust(rt: &impl Abort, alloc: Global, words: &str, len: u32) -> Dust {
    line_of(rt, alloc, &AllRam0, words, len)
}

/// Asks the line of these words and of so many sectors.
fn ask_dust(rt: &impl Abort, alloc: Global, words: &str, len: u32, questions: &[Question<'_>]) {
    ask_line::<Dust, _>(rt, alloc, &AllRam0, words, len, questions);
}

/// A line of four blocks of two sectors.
const FOUR_BLOCKS: &str = "dust /dev/ram0 0 1024";

#[test]
fn a_block_is_bad_until_a_write(rt: HostRuntime) {
    const QUESTIONS: &[Question] = &[
        Message("addbadblock 0", "added"),
        Message("addbadblock 0", "already"),
        Pass(Kind::Read, 1, 1, 0, 1),
        Message("enable", "enabled"),
        Cut(1, 2, 1),
        Judge(Kind::Read, 1, 1, 0, Verdict::Fail),
        Pass(Kind::Read, 2, 1, 0, 2),
        Pass(Kind::Write, 0, 1, 0, 0),
        Pass(Kind::Read, 0, 2, 0, 0),
        Message("countbadblocks", "0"),
        Status(9, NONE_HELD, "dust 1:0 fail_read_on_bad_block verbose"),
    ];
    ask_dust(&rt, rt.alloc(), FOUR_BLOCKS, 8, QUESTIONS);
}

#[test]
fn the_list_stays_in_bypass_and_over_flushes(rt: HostRuntime) {
    const QUESTIONS: &[Question] = &[
        Start(5),
        Status(9, NONE_HELD, "dust 1:0 bypass verbose"),
        Message("addbadblock 0", "added"),
        Pass(Kind::Write, 0, 2, 0, 0),
        Pass(Kind::Trim, 0, 2, 0, 0),
        Message("enable", "enabled"),
        Pass(Kind::Flush, 0, 0, 0, 0),
        Message("countbadblocks", "1"),
        Pass(Kind::Trim, 1, 1, 0, 1),
        Message("countbadblocks", "0"),
        Message("addbadblock 1", "added"),
        Message("disable", "disabled"),
        Pass(Kind::Read, 2, 2, 0, 2),
    ];
    ask_dust(&rt, rt.alloc(), FOUR_BLOCKS, 8, QUESTIONS);
}

#[test]
fn messages_about_one_block(rt: HostRuntime) {
    const QUESTIONS: &[Question] = &[
        Message("removebadblock 2", "not listed"),
        Message("queryblock 2", "not listed"),
        Message("AddBadBlock 02", "added"),
        Message("QUERYBLOCK 2", "listed"),
        Message("removeBadblock 2", "removed"),
        Message("queryblock 2", "not listed"),
    ];
    ask_dust(&rt, rt.alloc(), FOUR_BLOCKS, 8, QUESTIONS);
}

#[test]
fn messages_about_the_list_and_its_flags(rt: HostRuntime) {
    const QUESTIONS: &[Question] = &[
        Message("listbadblocks", "none"),
        Message("addbadblock 3", "added"),
        Message("LISTBADBLOCKS", "3"),
        Message("addbadblock 1", "added"),
        Message("listbadblocks", "1 3"),
        Message("CountBadBlocks", "2"),
        Message("ClearBadBlocks", "cleared 2"),
        Message("clearbadblocks", "cleared 0"),
        Message("quiet", "quiet"),
        Status(9, NONE_HELD, "dust 1:0 bypass quiet"),
        Message("Quiet", "verbose"),
        Message("Enable", "enabled"),
        Message("ENABLE", "enabled"),
        Message("Disable", "disabled"),
        Status(9, NONE_HELD, "dust 1:0 bypass verbose"),
    ];
    ask_dust(&rt, rt.alloc(), FOUR_BLOCKS, 8, QUESTIONS);
}

#[test]
fn words_that_are_no_message(rt: HostRuntime) {
    const QUESTIONS: &[Question] = &[
        Takes("addbadblock 3", true),
        Takes("addbadblock 4", false),
        Takes("addbad 1", false),
        Takes("queryblock x", false),
        Takes("queryblock 18446744073709551616", false),
        Takes("removebadblock", false),
        Takes("enable 1", false),
        Takes("addbadblock 1 1", false),
        Takes("", false),
    ];
    ask_dust(&rt, rt.alloc(), FOUR_BLOCKS, 8, QUESTIONS);
}

#[test]
fn the_last_block_may_be_short(rt: HostRuntime) {
    const OF_TWO_SECTORS: &[Question] = &[
        Takes("addbadblock 3", true),
        Takes("addbadblock 4", false),
        Cut(0, 7, 2),
        Cut(6, 1, 1),
    ];
    const LONGER_THAN_THE_LINE: &[Question] = &[
        Takes("addbadblock 0", true),
        Takes("addbadblock 1", false),
        Cut(0, 7, 7),
    ];
    ask_dust(&rt, rt.alloc(), "dust 1:0 1 1024", 7, OF_TWO_SECTORS);
    ask_dust(
        &rt,
        rt.alloc(),
        "dust 1:0 1 1073741824",
        7,
        LONGER_THAN_THE_LINE,
    );
}

#[test]
fn blocks_are_counted_from_the_first_sector_of_the_line(rt: HostRuntime) {
    const FIRST: Ref = Ref {
        dev: DevNo::Ram(0),
        first: 3,
    };
    const QUESTIONS: &[Question] = &[
        Print("dust 1:0 3 1024"),
        Message("addbadblock 0", "added"),
        Message("enable", "enabled"),
        Pass(Kind::Read, 2, 2, 0, 5),
        Judge(Kind::Read, 0, 2, 0, Verdict::Fail),
        MayHold(Kind::Write, false),
        Reference(Kind::Flush, Some(FIRST)),
    ];
    const OF_A_FRESH_LINE: &[Question] = &[
        Status(9, NONE_HELD, "dust 1:0 bypass verbose"),
        Print("dust 1:0 3 1024"),
        Message("countbadblocks", "0"),
    ];
    let mut line = dust(&rt, rt.alloc(), "dust 1:0 003 1024", 8);
    ask(&rt, rt.alloc(), &mut line, QUESTIONS);
    ask_fresh(&rt, rt.alloc(), &line, OF_A_FRESH_LINE);
}

#[test]
fn words_that_make_no_line(rt: HostRuntime) {
    const CASES: &[(&str, TargetFault)] = &[
        ("", TargetFault::Unknown),
        ("dus 1:0 0 512", TargetFault::Unknown),
        ("dust 1:0 x", TargetFault::Args),
        ("dust 1:0 0 512 0", TargetFault::Args),
        ("dust 1:0 0 4294967296", TargetFault::Number),
        ("dust 1:0 1099511627777 0", TargetFault::Number),
        ("dust 1:0 0 0", TargetFault::BlockSize),
        ("dust 1:0 0 256", TargetFault::BlockSize),
        ("dust 1:0 0 1536", TargetFault::BlockSize),
        ("dust 1:0 0 2147483648", TargetFault::BlockSize),
    ];
    const OF_NO_DEVICE: &[(&str, TargetFault)] = &[
        ("dust /dev/dm-0 0 1000", TargetFault::BlockSize),
        ("dust /dev/dm-0 0 512", TargetFault::Device),
    ];
    faults::<Dust, _>(&rt, rt.alloc(), &AllRam0, CASES);
    faults::<Dust, _>(&rt, rt.alloc(), &NoNames, OF_NO_DEVICE);
    let _farthest = dust(&rt, rt.alloc(), "dust 1:0 1099511627776 512", 8);
}
