use lab_sector::NoMemory;
use lab_text::{
    Bundle, Lines, NumberFault, Part, Words, is_blank, is_comment, is_name, number, push_number,
    push_runs, read_bundle, runs_of,
};
use std::alloc::Global;
use std::test::Fail;

/// Adds a piece of text, between brackets.
fn push_piece(told: &mut Vec<u8>, piece: &[u8]) -> Result<(), NoMemory> {
    told.push(b'[')?;
    told.extend_from_slice(piece)?;
    Ok(told.push(b']')?)
}

/// Whether a line has these words, each between brackets.
fn has_words(alloc: Global, line: &[u8], wanted: &[u8]) -> Result<bool, NoMemory> {
    let mut told = Vec::new(alloc);
    for word in Words::new(line) {
        push_piece(&mut told, word)?;
    }
    Ok(told.as_slice() == wanted)
}

/// Whether a text has these lines, each between brackets.
fn has_lines(alloc: Global, text: &[u8], wanted: &[u8]) -> Result<bool, NoMemory> {
    let mut told = Vec::new(alloc);
    for line in Lines::new(text) {
        push_piece(&mut told, line)?;
    }
    Ok(told.as_slice() == wanted)
}

#[test]
fn words_between_spaces_and_tabs(rt: HostRuntime) -> Result<(), Fail> {
    assert!(rt;
        has_words(
            rt.alloc(),
            b"  add\t/dev/ram0  0 \t",
            b"[add][/dev/ram0][0]"
        )?
    );
    Ok(())
}

/// Whether texts of three lines and of none have them.
fn have_lines(alloc: Global) -> Result<bool, NoMemory> {
    Ok(
        has_lines(alloc, b"a\n\nbc", b"[a][][bc]")?
            && has_lines(alloc, b"a\n\nbc\n", b"[a][][bc]")?
            && has_lines(alloc, b"", b"")?,
    )
}

#[test]
fn lines_with_and_without_a_last_newline(rt: HostRuntime) -> Result<(), Fail> {
    assert!(rt; have_lines(rt.alloc())?);
    Ok(())
}

#[test]
fn comments_and_blank_lines(rt: HostRuntime) {
    assert!(rt; is_comment(b"# x") && !is_comment(b" # x") && !is_comment(b""));
    assert!(rt; is_blank(b" \t") && is_blank(b"") && !is_blank(b" x"));
}

/// How many of these words are names.
fn count_names(words: &[u8]) -> u64 {
    let mut count: u64 = 0;
    for word in Words::new(words) {
        count = count.saturating_add(u64::from(is_name(word)));
    }
    count
}

#[test]
fn names_and_words_that_are_none(rt: HostRuntime) {
    let names = b"a _t.1-x 0123456789abcdef0123456789ABCDEF";
    let others = b".a -a t/x 0123456789abcdef0123456789ABCDEF0";
    assert!(rt; count_names(names) == 3 && count_names(others) == 0 && !is_name(b""));
}

/// Whether a word is read so as a number up to another.
fn is_read(word: &[u8], most: u64, wanted: Result<u64, NumberFault>) -> bool {
    number(word, most) == wanted
}

/// Whether words around the greatest number, and around the longest word of one, are read so.
fn bounds_are_read() -> bool {
    is_read(b"18446744073709551615", u64::MAX, Ok(u64::MAX))
        && is_read(
            b"18446744073709551616",
            u64::MAX,
            Err(NumberFault::TooLarge),
        )
        && is_read(b"00000000000000000001", 1, Ok(1))
        && is_read(b"000000000000000000001", 1, Err(NumberFault::NotANumber))
}

#[test]
fn numbers_at_their_bounds(rt: HostRuntime) {
    assert!(rt; bounds_are_read());
}

/// How many of these words are numbers up to 7.
fn count_numbers(words: &[u8]) -> u64 {
    let mut count: u64 = 0;
    for word in Words::new(words) {
        count = count.saturating_add(u64::from(number(word, 7).is_ok()));
    }
    count
}

#[test]
fn numbers_and_words_that_are_none(rt: HostRuntime) {
    let numbers = count_numbers(b"007 0 7");
    let others = count_numbers(b"8 +1 -1 1a 0x1");
    assert!(rt; numbers == 3 && others == 0 && number(b"", 7).is_err());
}

/// Adds the runs of some bytes.
fn push_runs_of(alloc: Global, out: &mut Vec<u8>, bytes: &[u8]) -> Result<(), NoMemory> {
    let runs = runs_of(alloc, bytes)?;
    push_runs(out, &runs)
}

/// Adds a number, and runs behind a colon.
fn push_printed(alloc: Global, out: &mut Vec<u8>) -> Result<(), NoMemory> {
    push_number(out, 1024)?;
    out.push(b':')?;
    push_runs_of(alloc, out, &[0, 0, 0xd3, 0x0a])
}

/// Whether a number and runs are printed as they have to be.
fn are_printed(alloc: Global) -> Result<bool, NoMemory> {
    let mut out = Vec::new(alloc);
    push_printed(alloc, &mut out)?;
    Ok(out.as_slice() == b"1024:2x00 1xd3 1x0a".as_slice())
}

#[test]
fn printed_numbers_and_runs(rt: HostRuntime) -> Result<(), Fail> {
    assert!(rt; are_printed(rt.alloc())?);
    Ok(())
}

/// Adds the names and texts of tables, or of logs.
fn push_named(told: &mut Vec<u8>, parts: &[Part<'_>]) -> Result<(), NoMemory> {
    for part in parts {
        push_piece(told, part.name)?;
        push_piece(told, part.text)?;
    }
    Ok(())
}

/// Adds the parts of a bundle: names and texts of tables, the script, names and texts of logs, and the history.
fn push_parts(told: &mut Vec<u8>, bundle: &Bundle<'_>) -> Result<(), NoMemory> {
    push_named(told, bundle.tables.as_slice())?;
    push_piece(told, bundle.script)?;
    push_named(told, bundle.logs.as_slice())?;
    push_piece(told, bundle.history.unwrap_or(b"none"))
}

/// The parts of a bundle, each between brackets.
fn parts_of(alloc: Global, bundle: &Bundle<'_>) -> Result<Vec<u8>, NoMemory> {
    let mut told = Vec::new(alloc);
    push_parts(&mut told, bundle)?;
    Ok(told)
}

/// Whether a bundle has these parts.
fn has_parts(alloc: Global, text: &[u8], wanted: &[u8]) -> Result<bool, Fail> {
    let bundle = read_bundle(alloc, text)?;
    let told = parts_of(alloc, &bundle)?;
    Ok(told.as_slice() == wanted)
}

/// A bundle of each kind of part.
const PARTS: &[u8] =
    b"# x\n\n== log l\nx\n==  table\t t \n0 1 zero\n==\tscript\n== table u\n\n== history";

#[test]
fn parts_in_any_order(rt: HostRuntime) -> Result<(), Fail> {
    assert!(rt; has_parts(rt.alloc(), PARTS, b"[t][0 1 zero\n][u][\n][][l][x\n][]")?);
    assert!(rt; has_parts(rt.alloc(), b"== script\nreplay", b"[replay][none]")?);
    Ok(())
}
