ghost use Rattle.std.specs.Prelude.{◌≡◌, ◌++◌, ◌/◌, [], IfOk, OnOk, option_copied, true};
ghost use Rattle.lab_model.specs.Sectors.{marked};
ghost use Rattle.lab_trace.specs.Written.{asked_of, byte_text, bytes_text, change_text, changes_text, written_text};
ghost use Rattle.lab_trace.specs.Written.{changes_at_both, changes_at};

use lab_bios::{Bio, Parent, Written};
use lab_disk::Sector;
use lab_sector::{NoMemory, Span};
use lab_target::{Mark, Marks};
use lab_text::push_numbered;
use std::alloc::Global;

/// Appends the bytes that a bio writes, counted from its first, that are others than the bio asks for that it was made
/// for.
pub fn push_written(text: &mut Vec<u8>, bio: Option<&Bio>, child: &Bio) -> Result<(), NoMemory>
    ensures text { OnOk result (text.new.items
        ≡ text.old.items ++ written_text (option_copied bio.entry) child.now) }
{
    let alloc = *text.allocator();
    let asked = asked_of(alloc, bio, &child.parent)?;
    if same_fill(&asked, child) {
        return Ok(());
    }
    match child.marks_on(&asked) {
        Some(marks) => push_marked(text, &asked, child, marks),
        None => push_changes(text, &asked.sectors(alloc)?, &child.sectors(alloc)?),
    }
}

/// Whether both are of one byte that no mark has changed.
fn same_fill(asked: &Written, child: &Bio) -> bool
    ensures { result ≡ true → changes_text 0 asked.now child.now.sectors ≡ [] }
{
    match (asked.fill(), child.fill()) {
        (Some(before), Some(after)) => before == after,
        _ => false,
    }
}

/// Appends the bytes that a bio writes that are others than were asked for, where it writes these with these marks: only
/// the sectors of the marks are looked at.
fn push_marked(
    text: &mut Vec<u8>,
    asked: &Written,
    child: &Bio,
    marks: Marks,
) -> Result<(), NoMemory>
    requires { child.now.sectors ≡ marked marks asked.now }
    ensures { OnOk result (text.new.items
        ≡ text.old.items ++ changes_text 0 asked.now child.now.sectors) }
{
    match (marks.fixed, marks.random) {
        (None, None) => Ok(()),
        (Some(mark), None) | (None, Some(mark)) => push_at(text, asked, child, sector_of(mark)),
        (Some(fixed), Some(random)) => {
            push_both(text, asked, child, sector_of(fixed), sector_of(random))
        }
    }
}

/// Appends the bytes of two sectors, which may be the same, that are others than were asked for.
fn push_both(
    text: &mut Vec<u8>,
    asked: &Written,
    child: &Bio,
    one: u64,
    other: u64,
) -> Result<(), NoMemory>
    ensures { OnOk result (text.new.items
        ≡ text.old.items ++ changes_at_both one other asked.now child.now.sectors) }
{
    if one == other {
        return push_at(text, asked, child, one);
    }
    push_at(text, asked, child, one.min(other))?;
    push_at(text, asked, child, one.max(other))
}

/// Appends the bytes of the sector at a place that are others than were asked for.
fn push_at(text: &mut Vec<u8>, asked: &Written, child: &Bio, place: u64) -> Result<(), NoMemory>
    ensures { OnOk result (text.new.items
        ≡ text.old.items ++ changes_at place asked.now child.now.sectors) }
{
    let alloc = *text.allocator();
    let span = Span {
        first: place,
        len: 1,
    };
    let before = asked.part(alloc, span)?.sectors(alloc)?;
    let after = child.part(alloc, span)?.sectors(alloc)?;
    let first = place.checked_mul(512).ok_or(NoMemory)?;
    match (before.first(), after.first()) {
        (Some(before), Some(after)) => push_sector(text, first, before, after),
        _ => Ok(()),
    }
}

/// The sector that a mark's byte is in.
fn sector_of(mark: Mark) -> u64
    ensures { result ≡ mark.place / 512 }
{
    mark.place / 512
}

/// What a bio asks to be written by one that is made for a piece of it.
fn asked_of(alloc: Global, bio: Option<&Bio>, parent: &Parent) -> Result<Written, NoMemory>
    ensures { IfOk result
        (λ out. out ≡ asked_of (option_copied bio.entry) parent.now) }
{
    let (Some(bio), Parent::FromBio(_, piece)) = (bio, parent) else {
        return Ok(Written::none(alloc));
    };
    let first = piece.span.first.saturating_sub(bio.span.first);
    let len = piece.span.len;
    bio.part(alloc, Span { first, len })
}

/// Appends the bytes of sectors that are others than before. Memory doesn't hold more than a number counts.
fn push_changes(text: &mut Vec<u8>, before: &[Sector], after: &[Sector]) -> Result<(), NoMemory>
    ensures { OnOk result (text.new.items ≡ text.old.items ++ changes_text 0 before.now after.now) }
{
    for place in 0..before.len() {
        let Some(sector) = after.get(place) else {
            return Ok(());
        };
        let first = (place as u64).checked_mul(512).ok_or(NoMemory)?;
        push_sector(text, first, &before[place], sector)?;
    }
    Ok(())
}

/// Appends the bytes of a sector, the first of which is at this place, that are others than before.
fn push_sector(
    text: &mut Vec<u8>,
    first: u64,
    before: &Sector,
    after: &Sector,
) -> Result<(), NoMemory>
    ensures { OnOk result (text.new.items ≡ text.old.items ++ bytes_text first before.now after.now) }
{
    if are_alike(before, after) {
        return Ok(());
    }
    for at in 0..before.len() {
        let place = first.checked_add(at as u64).ok_or(NoMemory)?;
        push_change(text, place, before.byte(at), after.byte(at))?;
    }
    Ok(())
}

/// Whether two sectors are kept as the same byte, so that no byte of theirs differs.
fn are_alike(before: &Sector, after: &Sector) -> bool
    ensures { result ≡ true → before.now ≡ after.now }
{
    match (before.fill(), after.fill()) {
        (Some(before), Some(after)) => before == after,
        _ => false,
    }
}

/// Appends a byte at this place, where it is another than before.
fn push_change(text: &mut Vec<u8>, place: u64, before: u8, after: u8) -> Result<(), NoMemory>
    ensures { OnOk result (text.new.items ≡ text.old.items ++ change_text place before after) }
{
    if before == after {
        Ok(())
    } else {
        push_byte(text, place, after)
    }
}

/// Appends `!BYTE=VALUE`: a byte that is changed, and what it becomes.
pub fn push_byte(text: &mut Vec<u8>, place: u64, value: u8) -> Result<(), NoMemory>
    ensures text { OnOk result (text.new.items ≡ text.old.items ++ byte_text place value) }
{
    push_numbered(text, b"!", place)?;
    push_numbered(text, b"=", u64::from(value))
}
