ghost use Rattle.std.specs.Prelude.{◌≡◌, ℕ, ◌<◌, OnOk, Some, length};
ghost use Rattle.std.specs.Option.{option_flatten};
ghost use Rattle.lab_model.specs.Lists.{numbered};
ghost use Rattle.lab_state.specs.Entered.{IsKnown, IsKnownAt, KeepsKnown, known_of};

use lab_bios::{Bio, Bios, Stage};
use lab_sector::{DevNo, NoMemory};

/// What is known of a bio: the mapped device that it enters, counted from 1; 0 where it enters none or one past 254.
fn known(bio: &Bio) -> u8
    ensures { IsKnown (Some bio.now) result }
{
    match (bio.device, &bio.stage) {
        (DevNo::Dm(device), Stage::Entering) if device < 255 => device as u8 + 1,
        _ => 0,
    }
}

/// What is known of the bio of this number; 0 where none lives.
fn known_at(bios: &Bios, number: u64) -> u8
    ensures { IsKnown (option_flatten (numbered bios.now.items number)) result }
{
    match bios.get(number) {
        Some(bio) => known(bio),
        None => 0,
    }
}

/// There is a byte for the number of this place from now on, and as much is known of each bio as before.
fn make_byte(entered: &mut Vec<u8>, place: usize) -> Result<(), NoMemory>
    ensures there { OnOk result (place < length entered.new.items) }
    ensures same { (number : ℕ)
        → known_of entered.new.items number ≡ known_of entered.old.items number }
{
    if place < entered.len() {
        return Ok(());
    }
    let Some(len) = place.checked_add(1) else {
        return Err(NoMemory);
    };
    entered.resize(len, 0)?;
    Ok(())
}

/// What the bio of this number enters is known from now on, if it enters any.
pub(crate) fn tell(bios: &Bios, entered: &mut Vec<u8>, number: u64) -> Result<(), NoMemory>
    ensures here { OnOk result (IsKnownAt bios.now.items entered.new.items number) }
    ensures others { OnOk result (KeepsKnown entered.old.items entered.new.items number) }
{
    make_byte(entered, number as usize)?;
    entered[number as usize] = known_at(bios, number);
    Ok(())
}

/// What the bio of this number enters isn't known any more.
#[inline(always)]
pub(crate) fn forget(entered: &mut Vec<u8>, number: u64)
    ensures here { known_of entered.new.items number ≡ 0 }
    ensures others { KeepsKnown entered.old.items entered.new.items number }
{
    if (number as usize) < entered.len() {
        entered[number as usize] = 0;
    }
}
