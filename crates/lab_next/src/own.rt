ghost use Rattle.std.specs.Prelude.{◌≡◌, IfOk, map, option_copied};
ghost use Rattle.lab_next.specs.Own.{handed_on, own_of, own_parts, parts_by, parts_on, table_of};

use crate::bios::bio_of;
use crate::pieces::unmade;
use crate::wanting::is_wanting;
use lab_bios::Bio;
use lab_model::{Piece, TableLine};
use lab_sector::{DevNo, Kind, NoMemory};
use lab_split::cut_bio;
use lab_state::State;
use lab_table::Table;
use lab_target::Target;
use std::alloc::Global;

/// Some sectors of a bio that a line of its device's table answered itself.
#[derive(Clone, Copy, Debug, PartialEq, Eq)]
pub struct Own {
    /// The line, counted from 0.
    pub line: usize,
    /// The first of the sectors, counted from the bio's first.
    pub first: u64,
    /// How many they are.
    pub count: u64,
    /// Whether the line has a reference for bios of this kind, so that it hands others on.
    pub hands_on: bool,
}

/// Which sectors of the bio of this number the lines of its device's table answered themselves, in the state after they
/// judged it, where so many bios had been made before: its pieces for which no bio was made, in order.
pub fn own_parts<T: Target>(
    alloc: Global,
    state: &State<T>,
    made: u64,
    number: u64,
) -> Result<Vec<Own>, NoMemory>
    ensures own { IfOk result (λ parts. parts.items ≡ own_parts T.meaning state.now made number) }
{
    match bio_of(state, number) {
        Some(bio) => parts_by(alloc, state, made, number, bio),
        None => Ok(Vec::new(alloc)),
    }
}

/// Those of this bio. It is cut only where no bio was made for some sector of it.
fn parts_by<T: Target>(
    alloc: Global,
    state: &State<T>,
    made: u64,
    number: u64,
    bio: &Bio,
) -> Result<Vec<Own>, NoMemory>
    ensures { IfOk result (λ parts.
        parts.items ≡ parts_by T.meaning state.now made number bio.now) }
{
    if !is_wanting(state, made, bio) {
        return Ok(Vec::new(alloc));
    }
    match table_of(state, bio.device) {
        Some(table) => parts_on(alloc, state, made, number, bio, table),
        None => Ok(Vec::new(alloc)),
    }
}

/// The live table of a mapped device, if there is one.
fn table_of<T: Target>(state: &State<T>, device: DevNo) -> Option<&Table<T>>
    ensures { option_copied result ≡ table_of state.now device }
{
    match device {
        DevNo::Ram(_) => None,
        DevNo::Dm(device) => state.traffic.live(device),
    }
}

/// Those of this bio, where its device has this table and its sectors fit it.
fn parts_on<T: Target>(
    alloc: Global,
    state: &State<T>,
    made: u64,
    number: u64,
    bio: &Bio,
    table: &Table<T>,
) -> Result<Vec<Own>, NoMemory>
    ensures { IfOk result (λ parts.
        parts.items ≡ parts_on T.meaning state.now made number bio.now table.now) }
{
    if !table.fits(bio.kind, bio.span) {
        return Ok(Vec::new(alloc));
    }
    let pieces = cut_bio(alloc, table, bio.kind, bio.span)?;
    let unmade = unmade(alloc, state, made, number, &pieces)?;
    own_of_each(alloc, bio, table.lines(), &unmade)
}

/// These pieces of a bio as its lines' own.
fn own_of_each<T: Target>(
    alloc: Global,
    bio: &Bio,
    lines: &[TableLine<T>],
    pieces: &[Piece],
) -> Result<Vec<Own>, NoMemory>
    ensures { IfOk result (λ out. out.items ≡ map (own_of T.meaning bio.now lines.now) pieces.now) }
{
    let mut out = Vec::with_capacity(alloc, pieces.len())?;
    for piece in pieces {
        out.push(own_of(bio, lines, *piece))?;
    }
    Ok(out)
}

/// A piece of a bio as its line's own.
fn own_of<T: Target>(bio: &Bio, lines: &[TableLine<T>], piece: Piece) -> Own
    ensures { result ≡ own_of T.meaning bio.now lines.now piece }
{
    Own {
        line: piece.line,
        first: piece.span.first.saturating_sub(bio.span.first),
        count: piece.span.len,
        hands_on: handed_on(bio.kind, lines.get(piece.line)),
    }
}

/// Whether a line has a reference for bios of this kind.
fn handed_on<T: Target>(kind: Kind, line: Option<&TableLine<T>>) -> bool
    ensures { result ≡ handed_on T.meaning kind (option_copied line.entry) }
{
    match line {
        Some(line) => line.target.reference(kind).is_some(),
        None => false,
    }
}
