use crate::overlap::offer_from;
use lab_advice::{Remedy, Spot};
use lab_guess::{from_end, from_start, length_to_end, start_wanted, with_word};
use lab_outline::{Outline, Row, Spotted, plain};
use lab_refusal::Rule;
use lab_row_remedies::filled_gap::{goes_on, is_in_place, offer_filled};
use lab_row_remedies::inclusive::inclusive_remedy;
use lab_row_remedies::row_order::{doubled_remedy, why_misordered};
use lab_row_remedies::table_reason::by_rule;
use lab_rule_remedies::row_below;
use lab_sector::NoMemory;
use std::alloc::Global;

/// The remedy of a line that doesn't start where the one before it ends: from there on, or else the one before by its
/// length, where its second word is its end; none that is written where the table's lines stand in another order.
pub(crate) fn gap_remedy(
    alloc: Global,
    bytes: &[u8],
    outline: &Outline<'_>,
    spotted: Spotted<'_>,
) -> Result<Remedy, NoMemory> {
    if let Some(remedy) = doubled_remedy(alloc, outline, spotted)? {
        return Ok(remedy);
    }
    let start = start_wanted(bytes, spotted.number);
    if let Some(why) = why_misordered(alloc, outline, spotted, start)? {
        return Ok(Remedy::of(alloc, why));
    }
    if let Some(remedy) = inclusive_remedy(alloc, outline, spotted)? {
        return Ok(remedy);
    }
    let Some(above) = ended_above(outline, spotted) else {
        return moved_or_longer(alloc, bytes, outline, spotted, start);
    };
    let why =
        "the second word of a table's line is its LENGTH and not its end, and the line above reads as START END: each \
               line starts where the one before it ends";
    let mut remedy = Remedy::told(alloc, why)?;
    if let Some(shorter) = from_end(alloc, above.line)? {
        remedy.offer(0, Spot::On(above.number), shorter)?;
    }
    remedy.offer(
        0,
        Spot::On(spotted.number),
        from_start(alloc, spotted.line, start)?,
    )?;
    Ok(remedy)
}

/// The remedy by this line from where the one above ends, by the one above up to where this one starts, or by a line
/// between the two.
fn moved_or_longer(
    alloc: Global,
    bytes: &[u8],
    outline: &Outline<'_>,
    spotted: Spotted<'_>,
    wanted: u64,
) -> Result<Remedy, NoMemory> {
    let above = row_above(outline, spotted);
    let is_gap = wanted < plain(spotted.word(0)).unwrap_or(0);
    let stays = is_gap && is_in_place(above, spotted);
    let why = match lost_above(alloc, outline, spotted)? {
        Some(why) if !stays => return Ok(Remedy::of(alloc, why)),
        Some(why) => why,
        None => why_apart(alloc, outline, spotted, wanted)?,
    };
    let mut remedy = Remedy::of(alloc, why);
    if !stays {
        offer_from(alloc, bytes, &mut remedy, outline, spotted, wanted)?;
    }
    let rank = if is_gap && goes_on(above, spotted) {
        1
    } else {
        0
    };
    if let Some(above) = above {
        offer_longer(alloc, &mut remedy, rank, above, spotted)?;
    }
    if is_gap && (stays || above.is_some()) {
        offer_filled(alloc, &mut remedy, rank, above, spotted, wanted)?;
    }
    Ok(remedy)
}

/// Offers the line above up to where this one starts.
fn offer_longer(
    alloc: Global,
    remedy: &mut Remedy,
    rank: u64,
    above: Spotted<'_>,
    spotted: Spotted<'_>,
) -> Result<(), NoMemory> {
    let start = plain(above.word(0)).unwrap_or(0);
    let length = plain(spotted.word(0)).unwrap_or(0).saturating_sub(start);
    if length == 0 {
        return Ok(());
    }
    let length = format!(in alloc; "{length}")?;
    let longer = with_word(alloc, above.line, 1, length.as_str())?;
    remedy.offer(rank, Spot::On(above.number), longer)
}

/// Why a line doesn't start where the one above ends; that one may be lost between the two, where there is room for it.
fn why_apart(
    alloc: Global,
    outline: &Outline<'_>,
    spotted: Spotted<'_>,
    end: u64,
) -> Result<String, NoMemory> {
    let (rule, start) = (by_rule(Rule::Gap), plain(spotted.word(0)).unwrap_or(0));
    let above = row_above(outline, spotted);
    if start <= end || above.is_none() && !is_in_place(above, spotted) {
        return Ok(String::from_str(alloc, rule)?);
    }
    Ok(format!(in alloc; "the line of the sectors from {end} up to {start} may be lost; {rule}")?)
}

/// What is told of a line that starts behind the end of the one above, where the line below starts where it ends: the line
/// between the two is lost.
fn lost_above(
    alloc: Global,
    outline: &Outline<'_>,
    spotted: Spotted<'_>,
) -> Result<Option<String>, NoMemory> {
    let end = row_above(outline, spotted).map(end_of).unwrap_or(0);
    let (start, number) = (plain(spotted.word(0)).unwrap_or(0), spotted.number);
    let fits_below = row_below(outline, number).is_some_and(|it| plain(it.spotted.word(0))
        == Some(end_of(spotted)));
    if start <= end || !fits_below {
        return Ok(None);
    }
    let (rule, length) = (by_rule(Rule::Gap), start.saturating_sub(end));
    Ok(Some(format!(in alloc;
        "{rule}; no line has the sectors from {end} up to {start}, and the line below fits this one, so a line seems to be \
         lost before line {number}: one that begins with `{end} {length}`"
    )?))
}

/// The sector past the last one of a table's line.
fn end_of(line: Spotted<'_>) -> u64 {
    let start = plain(line.word(0)).unwrap_or(0);
    start.saturating_add(plain(line.word(1)).unwrap_or(0))
}

/// The table's line above this one, where its second word is this one's start.
fn ended_above<'a>(outline: &Outline<'a>, spotted: Spotted<'_>) -> Option<Spotted<'a>> {
    row_above(outline, spotted).filter(|it| it.word(1) == spotted.word(0)
        && length_to_end(it.line).is_some())
}

/// The table's line above this one.
fn row_above<'a>(outline: &Outline<'a>, spotted: Spotted<'_>) -> Option<Spotted<'a>> {
    let mut above: Option<Row<'a>> = None;
    for row in &outline.rows {
        if row.spotted.number == spotted.number {
            let own = above.filter(|it| it.table == row.table)?;
            return Some(own.spotted);
        }
        above = Some(*row);
    }
    None
}
