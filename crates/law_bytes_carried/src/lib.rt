//! What an operation carries where all lines on its way pass each piece as it is: each of its
//! sectors is served once, at its route, with these bytes.
#![tactic(auto)]

ghost use Rattle.law_bytes_carried.specs.Carried.{AcceptedCarriesItsBytes, CarriesItsBytes};

use lab_target::Target;

/// Each sector of an operation is served once, at its route; a write puts its own bytes there, a
/// trim zero bytes, and a read gives its log the bytes that are there then. So it is in each fine
/// scenario, and in each accepted one.
pub fn carries_its_bytes<T: Target>()
    ensures fine { CarriesItsBytes T.meaning }
    ensures accepted { AcceptedCarriesItsBytes T.meaning }
{}
