use lab_advice::Place;
use lab_outline::Spotted;
use std::str::from_utf8;

/// The place's line as a text, where it is one.
pub(crate) fn spotted_at(place: Place<'_>) -> Option<Spotted<'_>> {
    Some(Spotted {
        number: place.number,
        line: from_utf8(place.line).ok()?,
    })
}
