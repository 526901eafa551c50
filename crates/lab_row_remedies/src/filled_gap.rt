use lab_advice::{Remedy, Spot};
use lab_guess::is_device;
use lab_outline::{Spotted, plain};
use lab_sector::NoMemory;
use std::alloc::Global;

/// Where a line's device stands, counted from 0.
const DEVICE_AT: usize = 3;

/// Where its offset stands.
const OFFSET_AT: usize = 4;

/// Whether a line starts where its offset says: at this number itself, or as far behind the start of the line above, on
/// the same device, as its offset is behind that one's.
pub fn is_in_place(above: Option<Spotted<'_>>, spotted: Spotted<'_>) -> bool {
    let start = plain(spotted.word(0));
    let is_own = is_device(spotted.word(DEVICE_AT)) && plain(spotted.word(OFFSET_AT)) == start;
    is_own && start.is_some() || above.is_some_and(|it| is_on(it, spotted))
}

/// Whether two lines lie on one device as far from one another as in their table.
fn is_on(above: Spotted<'_>, spotted: Spotted<'_>) -> bool {
    let moved = behind(above, spotted, 0);
    is_same(above, spotted) && moved.is_some() && moved == behind(above, spotted, OFFSET_AT)
}

/// Whether two lines are of one device.
fn is_same(above: Spotted<'_>, spotted: Spotted<'_>) -> bool {
    let device = spotted.word(DEVICE_AT);
    is_device(device) && above.word(DEVICE_AT) == device
}

/// By how much the number at this place of a line is greater than the one of the line above.
fn behind(above: Spotted<'_>, spotted: Spotted<'_>, place: usize) -> Option<u64> {
    plain(spotted.word(place))?.checked_sub(plain(above.word(place))?)
}

/// Whether a line goes on on its device where the line above ends there.
pub fn goes_on(above: Option<Spotted<'_>>, spotted: Spotted<'_>) -> bool {
    let length = above.and_then(|it| plain(it.word(1)));
    let moved = above.and_then(|it| behind(it, spotted, OFFSET_AT));
    length.is_some() && moved == length && above.is_some_and(|it| is_same(it, spotted))
}

/// Offers the line of the sectors from this one up to where a line starts: of the same device, where the offsets show it,
/// and one of errors.
pub fn offer_filled(
    alloc: Global,
    remedy: &mut Remedy,
    rank: u64,
    above: Option<Spotted<'_>>,
    spotted: Spotted<'_>,
    end: u64,
) -> Result<(), NoMemory> {
    let spot = Spot::Before(spotted.number);
    let lost = plain(spotted.word(0)).unwrap_or(0).saturating_sub(end);
    let is_shown = match above {
        Some(above) => is_on(above, spotted),
        None => is_in_place(None, spotted),
    };
    let offset = plain(spotted.word(OFFSET_AT)).and_then(|it| it.checked_sub(lost));
    if let Some(offset) = offset.filter(|_| is_shown) {
        let device = spotted.word(DEVICE_AT);
        let line = format!(in alloc; "{end} {lost} linear {device} {offset}")?;
        remedy.offer(rank, spot, line)?;
    }
    remedy.offer(rank, spot, format!(in alloc; "{end} {lost} error")?)
}
