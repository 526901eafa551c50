ghost use Rattle.lab_index.specs.Rows.{AreCounted, entry};
ghost use Rattle.std.specs.Prelude.{◌≡◌, ℕ, ◌+◌, ◌*◌, ◌<◌, ◌≤◌, ◌++◌, ◌∷◌, [], IsOk, OnOk};
ghost use Rattle.std.specs.Prelude.{length, vec_capacity, vec_len};

use lab_sector::NoMemory;

/// The place of the item of this number, counted from 1; 0 where there is none.
#[inline(always)]
pub fn place_of(places: &[u32], number: u64) -> usize
    ensures { result ≡ entry places.now number }
{
    if number == 0 || number > places.len() as u64 {
        return 0;
    }
    places[number as usize - 1] as usize
}

/// The next number, after those with these places, gets a place: the count of its 64 numbers is
/// one more.
#[inline(always)]
pub fn count_next(left: &mut Vec<u8>, places: &[u32])
    requires counted { AreCounted places.now left.old.items }
    requires room { length places.now < 64 * vec_capacity left.old }
    ensures counted { (place : ℕ) → 0 < place
        → AreCounted (places.now ++ place ∷ []) left.new.items }
    ensures capacity { vec_capacity left.new ≡ vec_capacity left.old }
{
    let group = places.len() / 64;
    if group == left.len() {
        left.push_reserved(1);
    } else {
        left[group] += 1;
    }
}

/// A row of fewer elements than this grows by as many as it has, and keeps its memory: to make and give back little
/// again and again would take longer than it is worth.
const FEW: usize = 16_384;

/// Makes room for so many elements more. A long row grows by a quarter, so that it holds little beyond what it needs.
pub fn make_room<U>(row: &mut Vec<U>, count: usize) -> Result<(), NoMemory>
    ensures items { row.new.items ≡ row.old.items }
    ensures len { vec_len row.new ≡ vec_len row.old }
    ensures kept { vec_capacity row.old ≤ vec_capacity row.new }
    ensures room { OnOk result (vec_len row.new + count ≤ vec_capacity row.new) }
    ensures succeeds { vec_len row.old + count ≤ vec_capacity row.old → IsOk result }
{
    if row.len() < FEW || count <= row.capacity() - row.len() {
        row.reserve(count)?;
    } else {
        row.reserve_exact(count.max(row.len() / 4))?;
    }
    Ok(())
}

/// Gives memory back where too much is held for so many elements.
pub fn give_back<U>(row: &mut Vec<U>, wanted: usize)
    ensures items { row.new.items ≡ row.old.items }
    ensures len { vec_len row.new ≡ vec_len row.old }
    ensures room { wanted ≤ vec_capacity row.old → wanted ≤ vec_capacity row.new }
{
    if row.capacity() > FEW && wanted < row.capacity() / 4 * 3 {
        row.shrink_to(wanted + wanted / 8);
    }
}
