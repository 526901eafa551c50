ghost use Rattle.std.specs.Prelude.{IfOk};
ghost use Rattle.lab_watch.specs.Stretches.{IsRoom};

use lab_sector::NoMemory;

/// How many sectors a disk or a bio has room for: a first sector has 64 bits, and so has a count.
pub(crate) const WIDTH: u128 = 1 << 65;

/// How many disks or bios have room: more than memory ever holds.
pub(crate) const NUMBERS: u64 = 1 << 62;

/// The place of the first of so many sectors, and the one behind the last. It is refused past the
/// room that there is, which nothing in memory comes to.
pub(crate) fn places(number: u64, first: u128, count: u64) -> Result<(u128, u128), NoMemory>
    ensures { IfOk result (IsRoom number first count) }
{
    if number >= NUMBERS || first > WIDTH || first + u128::from(count) > WIDTH {
        return Err(NoMemory);
    }
    let place = u128::from(number) * WIDTH + first;
    Ok((place, place + u128::from(count)))
}
