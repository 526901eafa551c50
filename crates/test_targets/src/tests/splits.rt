use super::names::AllRam0;
use lab_sector::{Kind, Span};
use lab_simple::Linear;
use lab_split::{Piece, cut_bio, pieces_cover};
use lab_table::{Table, read_table};
use lab_target::Target;
use std::alloc::Global;
use test_thirds::Thirds;

/// The pieces of a bio on a table of this text; none where it isn't inside.
fn cut<T: Target>(alloc: Global, text: &[u8], kind: Kind, span: Span) -> Option<Vec<Piece>> {
    let table: Table<T> = read_table(alloc, text, &AllRam0).ok()?;
    pieces_on(alloc, &table, kind, span)
}

/// The pieces of a bio on a table; none where it isn't inside.
fn pieces_on<T: Target>(
    alloc: Global,
    table: &Table<T>,
    kind: Kind,
    span: Span,
) -> Option<Vec<Piece>> {
    if table.fits(kind, span) {
        cut_bio(alloc, table, kind, span).ok()
    } else {
        None
    }
}

/// Whether a bio on a table of this text has just these pieces.
fn is_cut<T: Target>(alloc: Global, text: &[u8], kind: Kind, span: Span, pieces: &[Piece]) -> bool {
    matches!(cut::<T>(alloc, text, kind, span), Some(cut) if cut.as_slice() == pieces)
}

/// A piece of these sectors of a line.
fn piece(line: usize, first: u64, len: u64) -> Piece {
    let span = Span { first, len };
    Piece { line, span }
}

/// The table of two lines of four sectors on two disks.
const TWO_DISKS: &[u8] = b"0 4 linear /dev/ram0 0\n4 4 linear /dev/ram1 0\n";

#[test]
fn a_bio_over_a_lines_end_is_cut_there(rt: HostRuntime) {
    let span = Span { first: 3, len: 2 };
    let pieces = [piece(0, 3, 1), piece(1, 4, 1)];
    assert!(rt; is_cut::<Linear>(rt.alloc(), TWO_DISKS, Kind::Write, span, &pieces));
}

#[test]
fn a_bio_in_one_line_is_one_piece(rt: HostRuntime) {
    let span = Span { first: 4, len: 4 };
    let pieces = [piece(1, 4, 4)];
    assert!(rt; is_cut::<Linear>(rt.alloc(), TWO_DISKS, Kind::Trim, span, &pieces));
    let outside = Span { first: 7, len: 2 };
    assert!(rt; cut::<Linear>(rt.alloc(), TWO_DISKS, Kind::Read, outside).is_none());
}

#[test]
fn a_flush_has_an_empty_piece_for_each_line(rt: HostRuntime) {
    let span = Span { first: 0, len: 0 };
    let pieces = [piece(0, 0, 0), piece(1, 0, 0)];
    assert!(rt; is_cut::<Linear>(rt.alloc(), TWO_DISKS, Kind::Flush, span, &pieces));
}

#[test]
fn a_bio_is_cut_where_the_targets_blocks_end(rt: HostRuntime) {
    let text = b"0 16 thirds /dev/ram0 0\n";
    let span = Span { first: 1, len: 6 };
    let pieces = [piece(0, 1, 2), piece(0, 3, 3), piece(0, 6, 1)];
    assert!(rt; is_cut::<Thirds>(rt.alloc(), text, Kind::Read, span, &pieces));
    pieces_cover::<Thirds>();
}

#[test]
fn blocks_are_counted_from_their_lines_first_sector(rt: HostRuntime) {
    let text = b"0 4 thirds /dev/ram0 0\n4 4 thirds /dev/ram0 0\n";
    let span = Span { first: 2, len: 6 };
    let pieces = [
        piece(0, 2, 1),
        piece(0, 3, 1),
        piece(1, 4, 3),
        piece(1, 7, 1),
    ];
    assert!(rt; is_cut::<Thirds>(rt.alloc(), text, Kind::Read, span, &pieces));
}
