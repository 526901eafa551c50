use lab_index::Numbered;
use lab_sector::NoMemory;
use std::alloc::Global;
use std::mem::replace;
use std::test::Fail;

/// Ten items, each ten times its number.
fn ten(alloc: Global) -> Result<Numbered<u64>, NoMemory> {
    let mut items = Numbered::new(alloc);
    for number in 1..11 {
        put(&mut items, number * 10)?;
    }
    Ok(items)
}

/// The next number gets the item.
fn put(items: &mut Numbered<u64>, item: u64) -> Result<(), NoMemory> {
    items.reserve(1)?;
    items.push_in_room(item);
    Ok(())
}

/// Whether just these are the items of these numbers.
fn have(items: &Numbered<u64>, cases: &[(u64, Option<u64>)]) -> bool {
    for (number, wanted) in cases {
        if items.get(*number).copied() != *wanted {
            return false;
        }
    }
    true
}

/// The ten items by their numbers, and numbers of none.
const TEN: &[(u64, Option<u64>)] = &[
    (1, Some(10)),
    (2, Some(20)),
    (3, Some(30)),
    (4, Some(40)),
    (5, Some(50)),
    (6, Some(60)),
    (7, Some(70)),
    (8, Some(80)),
    (9, Some(90)),
    (10, Some(100)),
    (0, None),
    (11, None),
    (u64::MAX, None),
];

#[test]
fn an_item_is_found_by_its_number_and_no_other(rt: HostRuntime) -> Result<(), Fail> {
    let items = ten(rt.alloc())?;
    assert!(rt; items.made() == 10 && have(&items, TEN));
    Ok(())
}

/// Removes an item, and gives what stood there.
fn removed(items: &mut Numbered<u64>, number: u64) -> Option<u64> {
    let item = items.get(number).copied();
    items.remove(number);
    item
}

/// Whether removing numbers, one after another, gives these items.
fn give(items: &mut Numbered<u64>, cases: &[(u64, Option<u64>)]) -> bool {
    for (number, wanted) in cases {
        if removed(items, *number) != *wanted {
            return false;
        }
    }
    true
}

/// Whether one of the ten items is removed once, and the next item has a number of its own.
fn is_gone(items: &mut Numbered<u64>) -> Result<bool, NoMemory> {
    let is_given = give(items, &[(4, Some(40)), (4, None), (0, None), (11, None)]);
    put(items, 7)?;
    let others = [(4, None), (5, Some(50)), (11, Some(7))];
    Ok(is_given && items.made() == 11 && have(items, &others))
}

#[test]
fn an_item_that_is_removed_is_gone_and_its_number_is_not_used_again(
    rt: HostRuntime,
) -> Result<(), Fail> {
    let mut items = ten(rt.alloc())?;
    assert!(rt; is_gone(&mut items)?);
    Ok(())
}

/// Writes an item over another, where there is one, and gives that one.
fn overwritten(items: &mut Numbered<u64>, number: u64, item: u64) -> Option<u64> {
    if items.get(number).is_some() {
        return Some(replace(items.get_mut(number), item));
    }
    None
}

/// The ten items once 3 stands in the place of 20, and 101 in that of 100.
const CHANGED: &[(u64, Option<u64>)] = &[
    (1, Some(10)),
    (2, Some(3)),
    (3, Some(30)),
    (9, Some(90)),
    (10, Some(101)),
];

/// Whether an item in the place of another has its number, and the others stay.
fn are_changed(items: &mut Numbered<u64>) -> bool {
    let was = [overwritten(items, 2, 3), overwritten(items, 10, 101)];
    was == [Some(20), Some(100)] && items.made() == 10 && have(items, CHANGED)
}

#[test]
fn an_item_in_the_place_of_another_has_its_number(rt: HostRuntime) -> Result<(), Fail> {
    let mut items = ten(rt.alloc())?;
    assert!(rt; are_changed(&mut items));
    Ok(())
}

/// Puts a hundred thousand items, each one less than its number where there were none.
fn put_many(items: &mut Numbered<u64>) -> Result<(), NoMemory> {
    for item in 0..100_000 {
        put(items, item)?;
    }
    Ok(())
}

/// Whether removing the first 99,999 of them gives each.
fn give_many(items: &mut Numbered<u64>) -> bool {
    for number in 1..100_000 {
        if removed(items, number) != Some(number - 1) {
            return false;
        }
    }
    true
}

/// Whether the last of them stays, and the next item has the next number.
fn last_stays(items: &mut Numbered<u64>) -> Result<bool, NoMemory> {
    put_many(items)?;
    let are_given = give_many(items);
    put(items, 5)?;
    let left = [(99_999, None), (100_000, Some(99_999)), (100_001, Some(5))];
    Ok(are_given && have(items, &left) && removed(items, 100_000) == Some(99_999))
}

// After the first 99,999 are gone one page is left, and the next numbers are found as before.
#[test]
fn of_a_hundred_thousand_items_all_but_the_last_go(rt: HostRuntime) -> Result<(), Fail> {
    let mut items = Numbered::new(rt.alloc());
    assert!(rt; last_stays(&mut items)?);
    Ok(())
}
