ghost use Rattle.std.specs.Prelude.{◌≡◌};
ghost use Rattle.lab_model.specs.LogEffect.{fill_of};
ghost use Rattle.lab_findings.specs.Changes.{byte_by, byte_of, is_changed};

use crate::deed::{Deed, Deeds};
use lab_disk::Sector;
use lab_next::{Origin, Writer};

/// Whether a byte of a sector is another one than this.
pub(crate) fn is_changed(byte: u8, sector: &Sector) -> bool
    ensures { result ≡ is_changed byte sector.now }
{
    match sector.fill() {
        Some(own) => own != byte,
        None => has_other(byte, sector),
    }
}

/// Whether a byte of a sector is another one than this, byte by byte.
fn has_other(byte: u8, sector: &Sector) -> bool
    ensures { result ≡ is_changed byte sector.now }
{
    for place in 0..sector.len() {
        if sector.byte(place) != byte {
            return true;
        }
    }
    false
}

/// The byte that was written to a sector: none but zero where nobody wrote.
pub(crate) fn byte_of(deeds: &Deeds, writer: Option<Writer>) -> u8
    ensures { result ≡ byte_of deeds.now writer }
{
    match writer {
        Some(writer) => byte_by(writer.origin, deeds.get(writer.origin)),
        None => 0,
    }
}

/// The byte that an operation which is known so has written.
fn byte_by(origin: Origin, deed: Option<Deed>) -> u8
    ensures { result ≡ byte_by origin deed }
{
    match deed {
        Some(deed) if deed.trims => 0,
        _ => fill_of(origin),
    }
}

/// The byte of a write: each log and line has one of its own.
pub(crate) fn fill_of(origin: Origin) -> u8
    ensures { result ≡ fill_of origin.log origin.line }
{
    ((16 * u64::from(origin.log) + origin.line % 256) % 256) as u8
}
