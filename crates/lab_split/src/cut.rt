ghost use Rattle.std.specs.Prelude.{◌≡◌, ◌∷◌, ◌+◌, ◌^◌, ◌<◌, ◌≤◌, true, map, Some, IfOk};
ghost use Rattle.std.specs.List.{range_with_len};
ghost use Rattle.lab_model.specs.MapEffect.{fits_table};
ghost use Rattle.lab_model.specs.Pieces.{empty_piece, pieces, sector_pieces};
ghost use Rattle.lab_model.specs.Tables.{line_at, size_of};
ghost use Rattle.lab_split.specs.Cuts.{IsCut, IsInOrPast, IsUncut};

use lab_model::Piece;
use lab_sector::{Kind, NoMemory, Span};
use lab_table::Table;
use lab_target::Target;
use std::alloc::Global;

/// Most bios have no more pieces than these, for which room is made at once.
const FEW_PIECES: u64 = 16;

/// Sectors of a table's device that aren't cut into pieces yet.
#[derive(Clone, Copy)]
pub struct Uncut {
    /// The number of the line that has the first of them, if there are any.
    pub line: usize,
    /// The sectors: the first one's number on the table's device, and how many they are.
    pub span: Span,
}

/// The pieces of a bio on these sectors of a table's device, in order: for a flush an empty one for each line,
/// else the runs of sectors that are in one line, and in one block of its target.
pub fn cut_bio<T: Target>(
    alloc: Global,
    table: &Table<T>,
    kind: Kind,
    span: Span,
) -> Result<Vec<Piece>, NoMemory>
    requires inside { fits_table table.now kind span ≡ true }
    ensures { IfOk result (λ cut. cut.items ≡ pieces T.meaning table.now kind span) }
{
    match kind {
        Kind::Flush => flush_pieces(alloc, table.lines().len()),
        Kind::Read | Kind::Write | Kind::Trim => span_pieces(alloc, table, span),
    }
}

/// An empty piece for each line.
fn flush_pieces(alloc: Global, lines: usize) -> Result<Vec<Piece>, NoMemory>
    ensures { IfOk result (λ cut. cut.items ≡ map empty_piece (range_with_len 0 lines)) }
{
    let mut pieces = Vec::with_capacity(alloc, lines)?;
    for line in 0..lines {
        let span = Span { first: 0, len: 0 };
        pieces.push(Piece { line, span })?;
    }
    Ok(pieces)
}

/// The pieces of a run of sectors, taken off one by one.
fn span_pieces<T: Target>(
    alloc: Global,
    table: &Table<T>,
    span: Span,
) -> Result<Vec<Piece>, NoMemory>
    requires inside { span.first + span.len ≤ size_of table.now }
    ensures { IfOk result (λ cut.
        cut.items ≡ sector_pieces T.meaning table.now span.first span.len) }
{
    let mut uncut = uncut_span(table, span);
    let mut pieces = Vec::with_capacity(alloc, span.len.min(FEW_PIECES) as usize)?;
    while uncut.span.len > 0 {
        let piece = take_piece(table, &mut uncut);
        pieces.push(piece)?;
    }
    Ok(pieces)
}

/// A run of sectors of a table's device, with the line that has the first, to be cut by `take_piece`.
pub fn uncut_span<T: Target>(table: &Table<T>, span: Span) -> Uncut
    requires { span.first + span.len ≤ size_of table.now }
    ensures uncut { IsUncut table.now result }
    ensures span { result.span ≡ span }
{
    let line = if span.len > 0 {
        table.line_at(span.first)
    } else {
        0
    };
    Uncut { line, span }
}

/// Takes the first piece off sectors that aren't cut yet: those, from the first on, that are in one line and in one
/// block of its target. There must be some; the others stay.
pub fn take_piece<T: Target>(table: &Table<T>, uncut: &mut Uncut) -> Piece
    requires uncut { IsUncut table.now uncut.old }
    requires some { 0 < uncut.old.span.len }
    ensures uncut { IsUncut table.now uncut.new }
    ensures shorter { uncut.new.span.len < uncut.old.span.len }
    ensures piece { sector_pieces T.meaning table.now uncut.old.span.first uncut.old.span.len
        ≡ result ∷ sector_pieces T.meaning table.now uncut.new.span.first uncut.new.span.len }
{
    let Uncut { line, span } = *uncut;
    let len = piece_len(table, line, span);
    let first = span.first + len;
    let next = line_from(table, line, first);
    let rest = Span {
        first,
        len: span.len - len,
    };
    *uncut = Uncut {
        line: next,
        span: rest,
    };
    let taken = Span {
        first: span.first,
        len,
    };
    Piece { line, span: taken }
}

/// How many of these sectors, from the first on, are in the line and in one block of its target.
fn piece_len<T: Target>(table: &Table<T>, line: usize, rest: Span) -> u64
    requires found { line_at table.now rest.first ≡ Some line }
    requires inside { rest.first + rest.len ≤ size_of table.now }
    requires some { 0 < rest.len }
    ensures cut { IsCut T.meaning table.now line rest.first rest.len result }
    ensures fits { rest.first + result < 2 ^ 64 }
{
    let row = &table.lines()[line];
    let place = rest.first - row.start;
    let left = (row.len - place).min(rest.len);
    row.target.cut(place, left)
}

/// The line that has a sector, where the one before it is in this line.
fn line_from<T: Target>(table: &Table<T>, line: usize, sector: u64) -> usize
    requires { IsInOrPast table.now line sector }
    ensures { sector < size_of table.now → line_at table.now sector ≡ Some result }
{
    let row = &table.lines()[line];
    if sector == row.start + row.len {
        line + 1
    } else {
        line
    }
}
