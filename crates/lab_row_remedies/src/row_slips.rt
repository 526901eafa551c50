use crate::as_flakey::foreign_remedy;
use crate::bio_flags::bio_flags;
use crate::continued::continued;
use crate::corrupted::corrupted_remedy;
use crate::delay_seconds::delay_seconds;
use crate::dust_blocks::dust_blocks;
use crate::early_features::early_features;
use crate::endless::endless_remedy;
use crate::flakey_error::flakey_error;
use crate::late_type::late_type;
use crate::status_line::status_remedy;
use crate::two_devices::two_devices;
use lab_advice::Remedy;
use lab_guess::two_rows;
use lab_outline::{Outline, Spotted};
use lab_sector::NoMemory;
use std::alloc::Global;

/// The remedy of a table's line with a slip of its own, if it has one: two lines on one, words of another type or tool, or
/// words that a line of its type hasn't.
pub fn slip_remedy(
    alloc: Global,
    outline: &Outline<'_>,
    spotted: Spotted<'_>,
) -> Result<Option<Remedy>, NoMemory> {
    if let Some([first, rest]) = two_rows(alloc, spotted.line)? {
        return Ok(Some(of_two_rows(alloc, first, rest)?));
    }
    if let Some(remedy) = foreign_remedy(alloc, spotted)? {
        return Ok(Some(remedy));
    }
    if let Some(remedy) = continued(alloc, outline, spotted)? {
        return Ok(Some(remedy));
    }
    if let Some(remedy) = status_remedy(alloc, spotted)? {
        return Ok(Some(remedy));
    }
    if let Some(remedy) = late_type(alloc, spotted)? {
        return Ok(Some(remedy));
    }
    if let Some(remedy) = delay_seconds(alloc, spotted)? {
        return Ok(Some(remedy));
    }
    if let Some(remedy) = two_devices(alloc, outline, spotted)? {
        return Ok(Some(remedy));
    }
    if let Some(remedy) = dust_blocks(alloc, outline, spotted)? {
        return Ok(Some(remedy));
    }
    flakey_slip(alloc, spotted)
}

/// The remedy of a flakey line with a slip of its own, if it has one.
fn flakey_slip(alloc: Global, spotted: Spotted<'_>) -> Result<Option<Remedy>, NoMemory> {
    if let Some(remedy) = flakey_error(alloc, spotted)? {
        return Ok(Some(remedy));
    }
    if let Some(remedy) = corrupted_remedy(alloc, spotted)? {
        return Ok(Some(remedy));
    }
    if let Some(remedy) = bio_flags(alloc, spotted)? {
        return Ok(Some(remedy));
    }
    if let Some(remedy) = early_features(alloc, spotted)? {
        return Ok(Some(remedy));
    }
    endless_remedy(alloc, spotted)
}

/// What is told of two lines of a table that stand on one.
fn of_two_rows(alloc: Global, first: String, rest: String) -> Result<Remedy, NoMemory> {
    let why = format!(in alloc;
        "a table has each of its lines on a line of its own: write `{first}` here, and `{rest}` on a line below it"
    )?;
    Ok(Remedy::of(alloc, why))
}
