use lab_advice::{Remedy, Spot};
use lab_outline::{Spotted, plain};
use lab_sector::NoMemory;
use std::alloc::Global;

/// The remedy of a range past the end of its device, which has so many bytes, with the ranges more that fit: the one
/// up to LENGTH, where this seems to be an end, the one up to the device's end, and the last one of this LENGTH, where another
/// line is proposed.
pub(crate) fn or_within(
    alloc: Global,
    mut remedy: Remedy,
    spotted: Spotted<'_>,
    bytes: u64,
) -> Result<Remedy, NoMemory> {
    let (file, action) = (spotted.word(0), spotted.word(1));
    let offset = plain(spotted.word(2)).unwrap_or(0);
    let length = plain(spotted.word(3)).unwrap_or(0);
    let spot = Spot::On(spotted.number);
    if offset < length && length <= bytes {
        remedy
            .why
            .push_str("; the last number is a LENGTH, not an end")?;
        let up_to = length.saturating_sub(offset);
        let line = format!(in alloc; "{file} {action} {offset} {up_to}")?;
        remedy.offer(0, spot, line)?;
    }
    let rest = bytes.saturating_sub(offset);
    if 0 < rest && rest < length {
        let line = format!(in alloc; "{file} {action} {offset} {rest}")?;
        remedy.offer(0, spot, line)?;
    }
    match bytes.checked_sub(length) {
        Some(last) if !remedy.mends.is_empty() => {
            let line = format!(in alloc; "{file} {action} {last} {length}")?;
            remedy.offer(0, spot, line)?;
            Ok(remedy)
        }
        _ => Ok(remedy),
    }
}
