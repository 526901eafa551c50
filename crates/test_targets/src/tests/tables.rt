use super::asking::is_text;
use super::names::{AllRam0, Disks, NoNames};
use lab_dust::Dust;
use lab_sector::{DevNo, Kind, NoMemory, Span};
use lab_simple::Linear;
use lab_table::{
    Table, TableFault, UnboundTable, Why, read_table, read_unbound_table, table_reads_back,
};
use lab_target::{Marks, Names, Target, TargetFault, Verdict};
use lab_text::Words;
use std::alloc::Global;
use std::panic::Expect;
use std::process::Abort;
use test_thirds::Thirds;

/// The table of this text, which has to be one.
fn table_of<T: Target>(rt: &impl Abort, alloc: Global, text: &str) -> Table<T> {
    read_table(alloc, text.as_bytes(), &Disks).expect(rt, text)
}

/// Reads tables of linear lines, and checks the line of each fault and why it is one.
fn faults(rt: &impl Abort, alloc: Global, cases: &[(&str, u64, Why)]) {
    for (text, line, why) in cases {
        let fault = TableFault {
            line: *line,
            why: *why,
        };
        assert!(rt; fault_of(alloc, text) == Some(fault), "{text}");
    }
}

/// The fault of a table of linear lines, or `None` where it has none.
fn fault_of(alloc: Global, text: &str) -> Option<TableFault> {
    read_table::<Linear, Disks>(alloc, text.as_bytes(), &Disks).err()
}

/// How many sectors a line of a table has; `None` where there is no such line.
fn len_of<T: Target>(table: &Table<T>, at: usize) -> Option<u64> {
    let line = table.lines().get(at)?;
    Some(line.len)
}

/// What a line of a table does at 7 microseconds with a read of sectors of its own; `None` where it hasn't these.
fn read_verdict<T: Target>(table: &mut Table<T>, at: usize, piece: Span) -> Option<Verdict> {
    let line = table.lines().get(at)?;
    if piece.len > 0
        && piece.first < 1000
        && piece.len < 1000
        && piece.first + piece.len <= line.len
    {
        return Some(table.judge(at, Kind::Read, piece, 7));
    }
    None
}

/// Whether a line of a table replies so to a message.
fn replies<T: Target>(
    alloc: Global,
    table: &mut Table<T>,
    at: usize,
    words: &str,
    reply: &str,
) -> bool {
    at < table.lines().len()
        && is_text(
            table.message(alloc, at, Words::new(words.as_bytes())),
            reply,
        )
}

/// The line that holds a sector; `None` past the table's end.
fn line_at<T: Target>(table: &Table<T>, sector: u64) -> Option<usize> {
    if sector < table.size() {
        Some(table.line_at(sector))
    } else {
        None
    }
}

/// The first sector of a line.
const FIRST: Span = Span { first: 0, len: 1 };

/// The table of two lines on two disks.
const TWO_DISKS: &str = "0 4 linear /dev/ram0 0\n4 4 linear /dev/ram1 0";

/// Whether a table prints this text.
fn prints<T: Target>(alloc: Global, table: &Table<T>, text: &str) -> bool {
    is_text(table.print(alloc), text)
}

/// Whether a table has two lines and eight sectors, and prints its lines once it is loaded.
fn has_two_lines(alloc: Global, table: &mut Table<Linear>) -> bool {
    let has_two = table.lines().len() == 2 && table.size() == 8;
    table.start(5);
    has_two && prints(alloc, table, "0 4 linear 1:0 0\n4 4 linear 1:1 0\n")
}

#[test]
fn two_lines_on_two_disks(rt: HostRuntime) {
    let mut table: Table<Linear> = table_of(&rt, rt.alloc(), TWO_DISKS);
    assert!(rt; has_two_lines(rt.alloc(), &mut table));
    table_reads_back::<Linear>();
}

/// Whether a table that was read once prints so under some names.
fn binds<N: Names>(
    alloc: Global,
    unbound: &UnboundTable<'_, Linear>,
    names: &N,
    text: &str,
) -> bool {
    match unbound.bind(alloc, names) {
        Ok(table) => prints(alloc, &table, text),
        Err(_) => false,
    }
}

/// Whether a table that was read once has an unknown device in its first line, under names of no device.
fn is_unknown(alloc: Global, unbound: &UnboundTable<'_, Linear>) -> bool {
    const UNKNOWN: TableFault = TableFault {
        line: 1,
        why: Why::Target(TargetFault::Device),
    };
    matches!(unbound.bind(alloc, &NoNames), Err(fault) if fault == UNKNOWN)
}

#[test]
fn a_table_read_once_is_bound_again_and_again(rt: HostRuntime) {
    const TEXT: &str = "0 4 linear /dev/ram1 2\n";
    let unbound: UnboundTable<'_, Linear> = read_unbound_table(rt.alloc(), TEXT.as_bytes()).expect(
        &rt, TEXT,
    );
    assert!(rt; binds(rt.alloc(), &unbound, &Disks, "0 4 linear 1:1 2\n"));
    assert!(rt; binds(rt.alloc(), &unbound, &AllRam0, "0 4 linear 1:0 2\n"));
    assert!(rt; is_unknown(rt.alloc(), &unbound));
}

/// Whether just these lines of a table hold these sectors.
fn hold(table: &Table<Linear>, cases: &[(u64, usize)]) -> bool {
    for (sector, line) in cases {
        if line_at(table, *sector) != Some(*line) {
            return false;
        }
    }
    true
}

#[test]
fn each_sector_is_of_one_line(rt: HostRuntime) {
    let table: Table<Linear> = table_of(&rt, rt.alloc(), TWO_DISKS);
    assert!(rt; hold(&table, &[(0, 0), (3, 0), (4, 1), (7, 1)]));
}

/// Whether bios of a kind, from a sector on and of so many, fit on a table or don't.
fn fit(table: &Table<Linear>, cases: &[(Kind, u64, u64, bool)]) -> bool {
    for (kind, first, len, fits) in cases {
        let span = Span {
            first: *first,
            len: *len,
        };
        if table.fits(*kind, span) != *fits {
            return false;
        }
    }
    true
}

#[test]
fn a_bio_fits_up_to_the_end(rt: HostRuntime) {
    const CASES: &[(Kind, u64, u64, bool)] = &[
        (Kind::Read, 3, 5, true),
        (Kind::Read, 3, 6, false),
        (Kind::Flush, 9, 9, true),
    ];
    let table: Table<Linear> = table_of(&rt, rt.alloc(), TWO_DISKS);
    assert!(rt; fit(&table, CASES));
}

/// A table of dust as it prints.
const DUST: &str = "0 8 dust 1:0 0 512\n";

/// Whether a read of a table's first sector ends so, and the table prints as one of dust does.
fn ends_so(alloc: Global, table: &mut Table<Dust>, verdict: Verdict) -> bool {
    read_verdict(table, 0, FIRST) == Some(verdict) && prints(alloc, table, DUST)
}

/// What becomes of a read of the first sector of a disk.
const PASS: Verdict = Verdict::Pass(DevNo::Ram(0), FIRST, 0, Marks::NONE);

/// Whether a block of a table of dust goes bad by messages.
fn goes_bad(alloc: Global, table: &mut Table<Dust>) -> bool {
    ends_so(alloc, table, PASS)
        && replies(alloc, table, 0, "addbadblock 0", "added")
        && replies(alloc, table, 0, "enable", "enabled")
        && ends_so(alloc, table, Verdict::Fail)
}

/// Whether a table has no bad block once each target is in its opening state.
fn is_good_afresh(alloc: Global, table: &Table<Dust>) -> Result<bool, NoMemory> {
    let mut fresh = table.fresh(alloc)?;
    Ok(ends_so(alloc, &mut fresh, PASS) && fresh.size() == 8)
}

#[test]
fn a_fresh_table_has_no_bad_block(rt: HostRuntime) {
    let mut table: Table<Dust> = table_of(&rt, rt.alloc(), "0 8 dust /dev/ram0 0 512\n");
    assert!(rt; goes_bad(rt.alloc(), &mut table));
    assert!(rt; matches!(is_good_afresh(rt.alloc(), &table), Ok(true)));
}

/// Whether a table's second line has four sectors, judges a piece of them, and replies to a message.
fn judges_by_line(alloc: Global, table: &mut Table<Thirds>) -> bool {
    const PIECE: Span = Span { first: 1, len: 2 };
    const PASSED: Verdict = Verdict::Pass(DevNo::Ram(1), Span { first: 9, len: 2 }, 0, Marks::NONE);
    len_of(table, 1) == Some(4)
        && read_verdict(table, 1, PIECE) == Some(PASSED)
        && replies(alloc, table, 1, "ping", "pong")
}

#[test]
fn a_piece_is_judged_by_its_line(rt: HostRuntime) {
    let text = "0 4 thirds /dev/ram0 0\n4 4 thirds /dev/ram1 8\n";
    let mut table: Table<Thirds> = table_of(&rt, rt.alloc(), text);
    assert!(rt; judges_by_line(rt.alloc(), &mut table));
}

#[test]
fn lines_that_are_skipped_are_counted(rt: HostRuntime) {
    const GAP: &str = "# two lines\n\n0 4 linear /dev/ram0 0\n \t\n#\n5 4 linear /dev/ram1 0\n";
    const CASES: &[(&str, u64, Why)] = &[
        (GAP, 6, Why::Gap),
        ("\n# none\n", 0, Why::Empty),
        ("", 0, Why::Empty),
        (" # no comment\n", 1, Why::Number),
    ];
    faults(&rt, rt.alloc(), CASES);
}

#[test]
fn the_first_fault_of_a_line_is_told(rt: HostRuntime) {
    const UNKNOWN: &str = "0 4 linear /dev/ram0 0\n4 4 linear x 0\n9 4";
    const CASES: &[(&str, u64, Why)] = &[
        ("0 4", 1, Why::Args),
        ("0 x linear", 1, Why::Number),
        ("1 0 linear", 1, Why::ZeroLength),
        ("1 4 linear", 1, Why::Gap),
        ("1099511627777 1 linear", 1, Why::Number),
        ("0 1099511627777 linear", 1, Why::Number),
        ("0 4 lineal x", 1, Why::Target(TargetFault::Unknown)),
        ("0 4 linear x", 1, Why::Target(TargetFault::Args)),
        (UNKNOWN, 2, Why::Target(TargetFault::Device)),
    ];
    faults(&rt, rt.alloc(), CASES);
}

/// Adds the line of the sector of this number.
fn push_line(alloc: Global, text: &mut String, start: u8) -> Result<(), NoMemory> {
    let line = format!(in alloc; "{start} 1 linear /dev/ram0 0\n")?;
    Ok(text.push_str(&line)?)
}

/// A table of so many lines of one sector each, and a last line of these bytes.
fn long_text(alloc: Global, lines: u8, last: &str) -> Result<String, NoMemory> {
    let mut text = String::new(alloc);
    for start in 0..lines {
        push_line(alloc, &mut text, start)?;
    }
    text.push_str(last)?;
    Ok(text)
}

/// The fault of such a table.
fn fault_of_long(alloc: Global, lines: u8, last: &str) -> Result<Option<TableFault>, NoMemory> {
    let text = long_text(alloc, lines, last)?;
    Ok(fault_of(alloc, &text))
}

/// Whether a table of 64 lines has no fault, and one of 65 lines one at the last, whatever that is.
fn has_64_at_most(alloc: Global) -> Result<bool, NoMemory> {
    const TOO_MANY: Option<TableFault> = Some(TableFault {
        line: 65,
        why: Why::TooManyLines,
    });
    Ok(
        fault_of_long(alloc, 64, "")?.is_none()
            && fault_of_long(alloc, 65, "")? == TOO_MANY
            && fault_of_long(alloc, 64, "x\n")? == TOO_MANY,
    )
}

#[test]
fn a_table_has_64_lines_and_no_more(rt: HostRuntime) {
    assert!(rt; matches!(has_64_at_most(rt.alloc()), Ok(true)));
}
