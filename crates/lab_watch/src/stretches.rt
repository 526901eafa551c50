ghost use Rattle.std.specs.Prelude.{◌≡◌, ℕ, ◌+◌, ◌-◌, ◌<◌, ◌≤◌, ◌^◌, cond, None, Some};
ghost use Rattle.std.specs.Prelude.{IfOk, IfSome, OnOk};
ghost use Rattle.std.specs.Ordering.{nat_cmp};
ghost use Rattle.std.specs.BTreeMap.{IsOrdered};
ghost use Rattle.lab_watch.specs.Grids.{writer_from};
ghost use Rattle.lab_watch.specs.Stretches.{cut, first_from, in_front, sector_is_within, seen};
ghost use Rattle.lab_watch.specs.Stretches.{taken, trimmed};

use crate::stretch::Stretch;
use lab_next::Writer;
use lab_sector::NoMemory;
use std::collections::BTreeMap;

/// The first end at or behind a place, with its stretch.
pub(crate) fn first_from(
    stretches: &BTreeMap<u128, Stretch>,
    place: u128,
) -> Option<(u128, Stretch)>
    ensures first { result ≡ first_from stretches.now.entries place }
    ensures from { IfSome result (λ entry. place ≤ entry.0) }
    ensures ordered { IsOrdered nat_cmp stretches.now }
{
    let (end, stretch) = stretches.range(place..).next()?;
    Some((*end, *stretch))
}

/// What reaches over a place, as far as it lies in front of it, and the first that ends behind it.
fn around(
    stretches: &BTreeMap<u128, Stretch>,
    place: u128,
) -> (Option<Stretch>, Option<(u128, Stretch)>)
    ensures front { result.0 ≡ in_front (first_from stretches.now.entries place) place }
    ensures first { result.1 ≡ first_from stretches.now.entries (place + 1) }
    ensures ordered { IsOrdered nat_cmp stretches.now }
{
    let mut from = stretches.range(place..);
    let Some((end, stretch)) = from.next() else {
        return (None, None);
    };
    if *end > place {
        return (stretch.without_last(*end - place), Some((*end, *stretch)));
    }
    match from.next() {
        Some((end, stretch)) => (None, Some((*end, *stretch))),
        None => (None, None),
    }
}

/// Ends at a place what reaches over it, and gives the first that ends behind it.
fn cut(
    stretches: &mut BTreeMap<u128, Stretch>,
    place: u128,
) -> Result<Option<(u128, Stretch)>, NoMemory>
    ensures cut { OnOk result (stretches.new.entries ≡ cut stretches.old.entries place) }
    ensures first { IfOk result (λ first. first ≡ first_from stretches.new.entries (place + 1)) }
    ensures was_ordered { IsOrdered nat_cmp stretches.old }
    ensures ordered { OnOk result (IsOrdered nat_cmp stretches.new) }
{
    let (front, first) = around(stretches, place);
    if let Some(front) = front {
        stretches.insert(place, front)?;
    }
    Ok(first)
}

/// Takes away what ends behind one place and in front of the other, and gives the first that is
/// left behind the one.
fn take(
    stretches: &mut BTreeMap<u128, Stretch>,
    place: u128,
    last: u128,
    first: Option<(u128, Stretch)>,
) -> Option<(u128, Stretch)>
    requires within { place < 2 ^ 127 }
    requires first { first ≡ first_from stretches.old.entries (place + 1) }
    requires ordered { IsOrdered nat_cmp stretches.old }
    ensures taken { stretches.new.entries ≡ taken stretches.old.entries (place + 1) last }
    ensures first { result ≡ first_from stretches.new.entries (place + 1) }
    ensures ordered { IsOrdered nat_cmp stretches.new }
{
    let mut next = first;
    while let Some((end, _stretch)) = next {
        if end >= last {
            return next;
        }
        stretches.remove(&end);
        next = first_from(stretches, place + 1);
    }
    None
}

/// Keeps of what reaches over a place only what lies behind it, where the first that ends there or
/// behind it is known.
fn trim(
    stretches: &mut BTreeMap<u128, Stretch>,
    place: u128,
    first: Option<(u128, Stretch)>,
) -> Result<(), NoMemory>
    requires first { first ≡ first_from stretches.old.entries place }
    requires ordered { IsOrdered nat_cmp stretches.old }
    ensures { OnOk result (stretches.new.entries ≡ trimmed stretches.old.entries place) }
{
    let Some((end, stretch)) = first else {
        return Ok(());
    };
    let count = end - place;
    if count < stretch.count {
        stretches.insert(end, Stretch { count, ..stretch })?;
    }
    Ok(())
}

/// Puts an operation's sectors, from this one on, at the places from the first up to the end.
pub(crate) fn lay(
    stretches: &mut BTreeMap<u128, Stretch>,
    place: u128,
    end: u128,
    writer: Writer,
) -> Result<(), NoMemory>
    requires some { place < end }
    requires fits { end ≤ 2 ^ 127 }
    ensures { OnOk result ((other : ℕ) → seen stretches.new.entries other
        ≡ cond (sector_is_within place (end - place) other)
        (Some (writer_from writer (other - place)))
        (seen stretches.old.entries other)) }
{
    let count = end - place;
    let Some(last) = writer.sector.checked_add(count) else {
        return Err(NoMemory);
    };
    let stretch = Stretch {
        count,
        origin: writer.origin,
        end: last,
    };
    let first = cut(stretches, place)?;
    take(stretches, place, end, first);
    stretches.insert(end, stretch)?;
    Ok(())
}

/// Takes the writers away from the first place up to the end.
pub(crate) fn clear_between(
    stretches: &mut BTreeMap<u128, Stretch>,
    place: u128,
    end: u128,
) -> Result<(), NoMemory>
    requires some { place < end }
    requires fits { end ≤ 2 ^ 127 }
    ensures { OnOk result ((other : ℕ) → seen stretches.new.entries other
        ≡ cond (sector_is_within place (end - place) other) None
        (seen stretches.old.entries other)) }
{
    if stretches.is_empty() {
        return Ok(());
    }
    let first = cut(stretches, place)?;
    let behind = take(stretches, place, end + 1, first);
    trim(stretches, end, behind)
}
