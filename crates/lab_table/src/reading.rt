ghost use Rattle.std.specs.Prelude.{◌≡◌, ◌+◌, ◌<◌, ◌≤◌, ℕ, List, [], ◌∷◌, Err, IfErr, IfOk, OnOk, IsOk, MatchBool};
ghost use Rattle.std.specs.Option.{ok_or, option_zip};
ghost use Rattle.lab_text.specs.Numbers.{number_to};
ghost use Rattle.lab_text.specs.Words.{words_left};
ghost use Rattle.lab_target.specs.Laws.{greatest_sector};
ghost use Rattle.lab_table.specs.TableText.{IsRead, each_known, next_line, sectors_line, table_of};
ghost use Rattle.lab_table.specs.Unbound.{AreLinesOf, IsLineFound};

use crate::fault::{TableFault, Why};
use crate::table::Table;
use crate::unbound::{UnboundLine, UnboundTable, bound_lines};
use lab_sector::{MAX_SECTOR, NoMemory};
use lab_target::{Names, Target};
use lab_text::{Lines, Words, is_blank, is_comment, number_to};
use std::alloc::Global;

/// The most lines that a table has.
pub const MAX_LINES: usize = 64;

/// The fault of a table without lines.
const EMPTY: TableFault = TableFault {
    line: 0,
    why: Why::Empty,
};

/// The lines of a table's text before its first fault, and that fault, if it has one.
#[derive(Drop)]
struct ReadLines<'a, T: Target> {
    pub lines: Vec<UnboundLine<'a, T>>,
    pub fault: Option<TableFault>,
}

/// Reads a table's text, with the devices that `names` gives its device words. Blank lines and lines that begin with
/// `#` are skipped and counted.
pub fn read_table<T: Target, N: Names>(
    alloc: Global,
    text: &[u8],
    names: &N,
) -> Result<Table<T>, TableFault>
    ensures { IsRead (table_of T.meaning (N.found names.now) text.now) result }
{
    let ReadLines { lines, fault } = read_lines(alloc, text);
    let bound = bound_lines(alloc, &lines, names)?;
    match fault {
        Some(fault) => Err(fault),
        None if bound.is_empty() => Err(EMPTY),
        None => Ok(Table::of_lines(bound)),
    }
}

/// Reads a table's text, whose device words may name any devices.
pub fn read_unbound_table<'a, T: Target>(
    alloc: Global,
    text: &'a [u8],
) -> Result<UnboundTable<'a, T>, TableFault>
    ensures text { IfOk result (λ table. table ≡ text.now) }
    ensures known { OnOk result (IsOk (table_of T.meaning each_known text.now)) }
    ensures fault { IfErr result (λ fault.
        IsRead (table_of T.meaning each_known text.now) (Err fault)) }
{
    let ReadLines { lines, fault } = read_lines(alloc, text);
    match fault {
        Some(fault) => Err(fault),
        None if lines.is_empty() => Err(EMPTY),
        None => Ok(UnboundTable::of_lines(text, lines)),
    }
}

/// Reads the lines of a table's text, up to its first fault.
fn read_lines<'a, T: Target>(alloc: Global, text: &'a [u8]) -> ReadLines<'a, T>
    ensures { AreLinesOf T.meaning T.bound text.now result.lines.items result.fault }
{
    let mut lines = Vec::new(alloc);
    let mut end = 0;
    let mut number = 0u64;
    for bytes in Lines::new(text) {
        number += 1;
        if is_comment(bytes) || is_blank(bytes) {
            continue;
        }
        let next: UnboundLine<'a, T> = match read_line(alloc, number, lines.len(), end, bytes) {
            Ok(next) => next,
            Err(why) => {
                let fault = Some(TableFault { line: number, why });
                return ReadLines { lines, fault };
            }
        };
        end = next.start + next.len;
        if lines.push(next).is_err() {
            let why = Why::from(NoMemory);
            let fault = Some(TableFault { line: number, why });
            return ReadLines { lines, fault };
        }
    }
    ReadLines { lines, fault: None }
}

/// Reads the line of this number, which comes after `count` others, of which the last ends at `end`.
fn read_line<'a, T: Target>(
    alloc: Global,
    number: u64,
    count: usize,
    end: u64,
    line: &'a [u8],
) -> Result<UnboundLine<'a, T>, Why>
    ensures found { IsLineFound T.bound
        (λ found. next_line T.meaning found count end line.now) result }
    ensures number { IfOk result (λ l. l.number ≡ number) }
    ensures near { IfOk result (λ l. l.start ≤ greatest_sector) }
    ensures short { IfOk result (λ l. l.len ≤ greatest_sector) }
{
    if count >= MAX_LINES {
        return Err(Why::TooManyLines);
    }
    let mut words = Words::new(line);
    let (Some(start), Some(len)) = (words.next(), words.next()) else {
        return Err(Why::Args);
    };
    if !has_word(words) {
        return Err(Why::Args);
    }
    let (start, len) = read_range(start, len)?;
    read_sectors(alloc, number, end, start, len, words)
}

/// Whether a word is left.
fn has_word(mut words: Words<'_>) -> bool
    ensures { MatchBool result ((word : List ℕ) × (rest : List (List ℕ)) × (words_left words.entry ≡ word ∷ rest))
        (words_left words.entry ≡ []) }
{
    words.next().is_some()
}

/// Reads a line's start and length.
fn read_range(start: &[u8], len: &[u8]) -> Result<(u64, u64), Why>
    ensures exact { result ≡ ok_or (option_zip (number_to greatest_sector start.now)
        (number_to greatest_sector len.now)) Why.Number }
    ensures start { IfOk result (λ range. range.0 ≤ greatest_sector) }
    ensures len { IfOk result (λ range. range.1 ≤ greatest_sector) }
{
    match (number_to(start, MAX_SECTOR), number_to(len, MAX_SECTOR)) {
        (Some(start), Some(len)) => Ok((start, len)),
        _ => Err(Why::Number),
    }
}

/// Reads a line of these sectors, where the lines before it end at `end`.
fn read_sectors<'a, T: Target>(
    alloc: Global,
    number: u64,
    end: u64,
    start: u64,
    len: u64,
    words: Words<'a>,
) -> Result<UnboundLine<'a, T>, Why>
    requires { len ≤ greatest_sector }
    ensures found { IsLineFound T.bound (λ found. sectors_line T.meaning found end
        (words_left words.entry) start len) result }
    ensures number { IfOk result (λ l. l.number ≡ number) }
    ensures start { IfOk result (λ l. l.start ≡ start) }
    ensures len { IfOk result (λ l. l.len ≡ len) }
{
    if len == 0 {
        return Err(Why::ZeroLength);
    }
    if start != end {
        return Err(Why::Gap);
    }
    let target = T::read_unbound(alloc, words, len)?;
    Ok(UnboundLine {
        number,
        start,
        len,
        target,
    })
}
