ghost use Rattle.std.specs.Prelude.{◌≡◌, ◌++◌, IfOk, OnOk, None, Some, if◌then◌else◌, is_some, length, option_map};
ghost use Rattle.lab_next.specs.declared.writer.Writer.{Writer};
ghost use Rattle.lab_watch.specs.Grids.{writer_from, writers_in};
ghost use Rattle.lab_findings.specs.Settled.{all_newer, claims_over, issued_after, newer, newer_if};
ghost use Rattle.lab_watch.specs.Grids.{side_by_side};

use crate::deed::{Deed, Deeds};
use lab_next::{Origin, Writer};
use lab_sector::{NoMemory, Span};
use lab_watch::{Grid, Row, Run};
use std::alloc::Global;

/// The newest at each of some sectors of a device, from the first on, once the bio of a number is answered: it itself,
/// where it has these claims and none was issued after it, else what stood there.
pub(crate) fn all_newer(
    alloc: Global,
    deeds: &Deeds,
    newest: &Grid,
    number: u64,
    device: u64,
    first: u64,
    claims: &Row,
) -> Result<Row, NoMemory>
    ensures { IfOk result (λ row. row ≡ all_newer deeds.now number claims.now
        (writers_in newest.now device first (length claims.now))) }
{
    let mut row = Row::new(alloc);
    let mut place = first;
    for run in claims.runs() {
        let others = newest.part(alloc, device, place, run.count)?;
        push_newer(&mut row, deeds, number, run.writer, &others)?;
        place = place.checked_add(run.count).ok_or(NoMemory)?;
    }
    Ok(row)
}

/// The newest at these sectors of a device once an operation is answered that claims all of them.
pub(crate) fn newer_row(
    alloc: Global,
    deeds: &Deeds,
    newest: &Grid,
    number: u64,
    origin: Origin,
    device: u64,
    span: Span,
) -> Result<Row, NoMemory>
    ensures { IfOk result (λ row. row ≡ all_newer deeds.now number
        (side_by_side span.len (Some (record { origin = origin; sector = 0 })))
        (writers_in newest.now device span.first span.len)) }
{
    let others = newest.part(alloc, device, span.first, span.len)?;
    let mut row = Row::new(alloc);
    let writer = Writer { origin, sector: 0 };
    push_newer(&mut row, deeds, number, Some(writer), &others)?;
    Ok(row)
}

/// The sectors that an operation claims: all but those that are void. There is no memory for more than a number counts.
pub(crate) fn claims_over(alloc: Global, origin: Origin, voids: &Row) -> Result<Row, NoMemory>
    ensures { IfOk result (λ row. row
        ≡ claims_over (record { origin = origin; sector = 0 }) voids.now) }
{
    let mut row = Row::new(alloc);
    let mut sector: u128 = 0;
    for run in voids.runs() {
        let claim = claim_over(Writer { origin, sector }, run.writer);
        row.push(run.count, claim)?;
        sector += u128::from(run.count);
    }
    Ok(row)
}

/// The claim of an operation to a sector of it: none, where it is void.
fn claim_over(writer: Writer, void: Option<Writer>) -> Option<Writer>
    ensures { result ≡ (if is_some void then None else Some writer) }
{
    match void {
        Some(_) => None,
        None => Some(writer),
    }
}

/// Adds the newest at some sectors that are claimed side by side, from this one on, or not at all.
fn push_newer(
    row: &mut Row,
    deeds: &Deeds,
    number: u64,
    claim: Option<Writer>,
    others: &Row,
) -> Result<(), NoMemory>
    ensures { OnOk result (row.new ≡ row.old
        ++ all_newer deeds.now number (side_by_side (length others.now) claim) others.now) }
{
    let mut claim = claim;
    for run in others.runs() {
        row.push(run.count, newer_if(deeds, number, claim, run.writer))?;
        claim = behind(claim, run.count)?;
    }
    Ok(())
}

/// The sector that comes so far behind one.
pub(crate) fn behind(claim: Option<Writer>, count: u64) -> Result<Option<Writer>, NoMemory>
    ensures { IfOk result (λ next. next ≡ option_map (λ writer. writer_from writer count) claim) }
{
    let Some(writer) = claim else {
        return Ok(None);
    };
    let sector = writer
        .sector
        .checked_add(u128::from(count))
        .ok_or(NoMemory)?;
    Ok(Some(Writer { sector, ..writer }))
}

/// The newest at a sector: an operation, where it claims the sector and none was issued after it, else what stood there.
fn newer_if(
    deeds: &Deeds,
    number: u64,
    claim: Option<Writer>,
    other: Option<Writer>,
) -> Option<Writer>
    ensures { result ≡ newer_if deeds.now number claim other }
{
    match claim {
        Some(writer) => Some(newer(deeds, number, writer, other)),
        None => other,
    }
}

/// Which of two operations was issued last: this one, by the bio of this number, or what stood there.
fn newer(deeds: &Deeds, number: u64, writer: Writer, other: Option<Writer>) -> Writer
    ensures { result ≡ newer deeds.now number writer other }
{
    match other {
        Some(other) if issued_after(number, deeds.get(other.origin)) => other,
        _ => writer,
    }
}

/// Whether an operation that is known so was issued after the bio of this number was made.
fn issued_after(number: u64, deed: Option<Deed>) -> bool
    ensures { result ≡ issued_after number deed }
{
    match deed {
        Some(deed) => number < deed.bio,
        None => false,
    }
}
