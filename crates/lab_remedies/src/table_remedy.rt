use crate::gap_remedy::gap_remedy;
use crate::lengths::{extent_meant, length_meant};
use lab_advice::{Remedy, Spot};
use lab_guess::{
    device_moved, devices_exchanged, is_type, mended_table_line, type_moved, with_chances,
    with_count_first, with_device_parted, with_features, with_groups, with_joined_units,
    with_offset, with_offsets, with_range, with_range_joined, with_type, with_values, with_word,
    without_labels,
};
use lab_outline::{Outline, Spotted};
use lab_refusal::Rule;
use lab_row_remedies::as_flakey::offer_as_flakey;
use lab_row_remedies::endless::offer_always;
use lab_row_remedies::lacking_device::or_device;
use lab_row_remedies::lost_number::lost_number;
use lab_row_remedies::no_feature::no_feature;
use lab_row_remedies::numbers::with_digits;
use lab_row_remedies::offsets::{offset_unknown, offset_wanted};
use lab_row_remedies::row_slips::slip_remedy;
use lab_row_remedies::several_counts::offer_counts;
use lab_row_remedies::table_reason::{by_rule, table_numbers, why_refused};
use lab_sector::NoMemory;
use lab_text_remedies::foreign_line::offer_one_of_two;
use std::alloc::Global;

/// The remedy of a table that can't be read.
pub(crate) fn table_remedy(
    alloc: Global,
    bytes: &[u8],
    outline: &Outline<'_>,
    rule: Rule,
    spotted: Option<Spotted<'_>>,
) -> Result<Remedy, NoMemory> {
    let Some(spotted) = spotted else {
        return Remedy::told(alloc, by_rule(Rule::Empty));
    };
    if matches!(rule, Rule::Gap) {
        return gap_remedy(alloc, bytes, outline, spotted);
    }
    if let Some(remedy) = no_feature(alloc, rule, spotted)? {
        return Ok(remedy);
    }
    if let Some(remedy) = slip_remedy(alloc, outline, spotted)? {
        return Ok(remedy);
    }
    let offset = offset_wanted(outline, spotted);
    if let Some(remedy) = offset_unknown(alloc, offset, spotted)? {
        return Ok(remedy);
    }
    if let Some(remedy) = lost_number(alloc, spotted, offset)? {
        return Ok(remedy);
    }
    let remedy = Remedy::of(alloc, why_refused(alloc, rule, spotted)?);
    let mut remedy = or_device(alloc, remedy, outline, spotted)?;
    offer_one_of_two(alloc, &mut remedy, spotted)?;
    offer_counts(alloc, &mut remedy, spotted)?;
    offer_as_flakey(alloc, &mut remedy, spotted)?;
    offer_always(alloc, &mut remedy, spotted)?;
    let remedy = or_mended(alloc, remedy, spotted, offset)?;
    or_moved(alloc, bytes, outline, remedy, spotted)
}

/// The remedy with the line that has what its type wants, and this offset where it lacks one.
fn or_mended(
    alloc: Global,
    remedy: Remedy,
    spotted: Spotted<'_>,
    offset: Option<u64>,
) -> Result<Remedy, NoMemory> {
    let spot = Spot::On(spotted.number);
    let joined = with_joined_units(alloc, spotted.line)?;
    let named = match without_labels(alloc, joined.as_str())? {
        Some(line) => line,
        None => with_joined_units(alloc, spotted.line)?,
    };
    let mut remedy = remedy
        .or_if(spot, with_device_parted(alloc, spotted.line)?)?
        .or_if(spot, with_type_parted(alloc, spotted)?)?;
    offer_ranges(alloc, &mut remedy, spotted)?;
    let mut remedy = remedy
        .or_if(spot, with_chances(alloc, joined.as_str())?)?
        .or_if(spot, with_values(alloc, joined.as_str())?)?
        .or_if(spot, mended_table_line(alloc, joined.as_str(), offset)?)?;
    let offset = offset.unwrap_or(0);
    if let Some(line) = with_offset(alloc, spotted.line, offset)? {
        remedy.offer(0, spot, line)?;
    }
    remedy
        .or_if(
            spot,
            with_digits(alloc, spotted.line, table_numbers(spotted.word(2)))?,
        )?
        .or_if(spot, of_feature(alloc, spotted)?)?
        .or_if(spot, in_order(alloc, spotted)?)?
        .or_if(spot, with_features(alloc, spotted.line)?)?
        .or_if(spot, with_offsets(alloc, spotted.line, offset)?)?
        .or_if(spot, with_groups(alloc, named.as_str())?)?
        .or_if(spot, with_count_first(alloc, spotted.line)?)?
        .or_if(spot, with_features(alloc, named.as_str())?)
}

/// The remedy with the line that has the words which it lacks, or its words in another order.
fn or_moved(
    alloc: Global,
    bytes: &[u8],
    outline: &Outline<'_>,
    remedy: Remedy,
    spotted: Spotted<'_>,
) -> Result<Remedy, NoMemory> {
    let spot = Spot::On(spotted.number);
    let joined = with_joined_units(alloc, spotted.line)?;
    let offset = offset_wanted(outline, spotted);
    let mut remedy = remedy
        .or_if(spot, length_meant(alloc, outline, spotted)?)?
        .or_if(spot, extent_meant(alloc, bytes, outline, spotted)?)?
        .or_if(spot, with_type(alloc, spotted.line)?)?
        .or_if(spot, type_moved(alloc, spotted.line, offset)?)?;
    let rank = remedy.mends.len() as u64;
    if let Some(line) = devices_exchanged(alloc, spotted.line)? {
        remedy.offer(rank, spot, line)?;
    }
    if let Some(line) = device_moved(alloc, joined.as_str(), offset)? {
        remedy.offer(rank, spot, line)?;
    }
    Ok(remedy)
}

/// Offers a line whose start and end stand as a range, with the end in it or not.
fn offer_ranges(alloc: Global, remedy: &mut Remedy, spotted: Spotted<'_>) -> Result<(), NoMemory> {
    let line = with_range_joined(alloc, spotted.line)?;
    for more in 0..2u64 {
        if let Some(line) = with_range(alloc, line.as_str(), 0, more)? {
            remedy.offer(0, Spot::On(spotted.number), line)?;
        }
    }
    Ok(())
}

/// A line of three words with its type before its length, in the right order.
fn in_order(alloc: Global, spotted: Spotted<'_>) -> Result<Option<String>, NoMemory> {
    if !matches!(spotted.word(1), "zero" | "error") || !spotted.word(3).is_empty() {
        return Ok(None);
    }
    let (start, kind, length) = (spotted.word(0), spotted.word(1), spotted.word(2));
    Ok(Some(format!(in alloc; "{start} {length} {kind}")?))
}

/// A line of flakey whose feature stands in the place of the type, with both in their places.
fn of_feature(alloc: Global, spotted: Spotted<'_>) -> Result<Option<String>, NoMemory> {
    let feature = spotted.word(2);
    let is_alone = matches!(feature, "error_reads" | "drop_writes" | "error_writes");
    if !is_alone || spotted.line.split_whitespace().count() != 7 {
        return Ok(None);
    }
    let (start, length, device) = (spotted.word(0), spotted.word(1), spotted.word(3));
    let (offset, up, down) = (spotted.word(4), spotted.word(5), spotted.word(6));
    Ok(Some(format!(in alloc;
        "{start} {length} flakey {device} {offset} {up} {down} 1 {feature}"
    )?))
}

/// A line whose type stands right behind its length, with a blank between.
fn with_type_parted(alloc: Global, spotted: Spotted<'_>) -> Result<Option<String>, NoMemory> {
    let word = spotted.word(1);
    let kind = word.trim_start_matches(|c: char| c.is_ascii_digit());
    let length = word.strip_suffix(kind).unwrap_or("");
    if !is_type(kind) || length.is_empty() {
        return Ok(None);
    }
    let parted = format!(in alloc; "{length} {kind}")?;
    Ok(Some(with_word(alloc, spotted.line, 1, parted.as_str())?))
}
