// A set of numbers with ranks: nothing, a few numbers, and a third of a million.
use lab_index::NumberSet;
use lab_sector::NoMemory;
use std::alloc::Global;
use std::test::Fail;

/// The set of these numbers, below 200.
fn set_of(alloc: Global, numbers: &[u64]) -> Result<NumberSet, NoMemory> {
    let mut set = NumberSet::new(alloc);
    set.reserve(200)?;
    for n in numbers {
        if *n < set.reach() {
            set.insert(*n);
        }
    }
    Ok(set)
}

/// Whether a set has so many members, and these are at their ranks.
fn ranks_are(set: &NumberSet, count: u64, ranks: &[(u64, Option<u64>)]) -> bool {
    for (rank, wanted) in ranks {
        if set.nth(*rank) != *wanted {
            return false;
        }
    }
    set.count() == count
}

/// Whether a set has no member, and none can be taken out.
fn has_no_member(set: &mut NumberSet) -> bool {
    ranks_are(set, 0, &[(0, None)]) && set.first().is_none() && !set.contains(0) && !set.remove(0)
}

#[test]
fn the_empty_set_has_no_member(rt: HostRuntime) -> Result<(), Fail> {
    let mut none = set_of(rt.alloc(), &[])?;
    assert!(rt; has_no_member(&mut none));
    Ok(())
}

/// Six numbers by their ranks.
const SIX: &[(u64, Option<u64>)] = &[
    (0, Some(0)),
    (1, Some(63)),
    (2, Some(64)),
    (3, Some(127)),
    (4, Some(128)),
    (5, Some(199)),
    (6, None),
];

/// Whether a set has the six numbers in rising order.
fn has_six(set: &NumberSet) -> bool {
    set.first() == Some(0) && ranks_are(set, 6, SIX)
}

#[test]
fn a_few_numbers_come_in_rising_order(rt: HostRuntime) -> Result<(), Fail> {
    let few = set_of(rt.alloc(), &[199, 64, 0, 63, 127, 64, 128])?;
    assert!(rt; has_six(&few));
    Ok(())
}

/// Whether 64 is taken out of the four numbers once.
fn loses_one(set: &mut NumberSet) -> bool {
    set.remove(64) && !set.remove(64) && !set.contains(64) && ranks_are(set, 3, &[(2, Some(127))])
}

#[test]
fn a_number_is_taken_out_once(rt: HostRuntime) -> Result<(), Fail> {
    let mut few = set_of(rt.alloc(), &[0, 63, 64, 127])?;
    assert!(rt; loses_one(&mut few));
    Ok(())
}

/// Takes 64 out of a set and puts 65 and 0 in, word after word and back.
fn exchange(set: &mut NumberSet) {
    let is_wide = set.reach() > 65;
    let mut marks = set.open();
    if is_wide {
        marks.put(64, false);
        marks.put(0, true);
        marks.put(65, true);
    }
    *set = marks.close();
}

#[test]
fn many_marks_are_changed_at_once(rt: HostRuntime) -> Result<(), Fail> {
    let mut few = set_of(rt.alloc(), &[63, 64, 127])?;
    exchange(&mut few);
    assert!(rt;
        ranks_are(
            &few,
            4,
            &[(0, Some(0)), (1, Some(63)), (2, Some(65)), (3, Some(127))]
        )
    );
    Ok(())
}

/// Whether a set of two numbers has both after it reaches farther.
fn keeps_both(set: &mut NumberSet) -> Result<bool, NoMemory> {
    set.reserve(100000)?;
    Ok(set.contains(128) && ranks_are(set, 2, &[(1, Some(199))]))
}

#[test]
fn a_farther_reach_keeps_the_members(rt: HostRuntime) -> Result<(), Fail> {
    let mut few = set_of(rt.alloc(), &[128, 199])?;
    assert!(rt; keeps_both(&mut few)?);
    Ok(())
}

/// Every third number below a million: 3 * k stands at place k.
fn thirds(alloc: Global) -> Result<NumberSet, NoMemory> {
    let mut thirds = NumberSet::new(alloc);
    thirds.reserve(1000000)?;
    for k in 0..333334 {
        if 3 * k < thirds.reach() {
            thirds.insert(3 * k);
        }
    }
    Ok(thirds)
}

/// Some of them by their ranks.
const THIRDS: &[(u64, Option<u64>)] = &[
    (0, Some(0)),
    (1, Some(3)),
    (21, Some(63)),
    (22, Some(66)),
    (4095, Some(12285)),
    (65536, Some(196608)),
    (200000, Some(600000)),
    (333333, Some(999999)),
    (333334, None),
];

#[test]
fn a_third_of_a_million_has_its_ranks(rt: HostRuntime) -> Result<(), Fail> {
    let thirds = thirds(rt.alloc())?;
    assert!(rt; ranks_are(&thirds, 333334, THIRDS));
    Ok(())
}

/// Whether every sixth number below a million is taken out of a set.
fn loses_sixths(set: &mut NumberSet) -> bool {
    for k in 0..166667 {
        if !set.remove(6 * k) {
            return false;
        }
    }
    true
}

/// Some of what is left by their ranks: 6 * k + 3 stands at place k.
const LEFT: &[(u64, Option<u64>)] = &[
    (0, Some(3)),
    (1, Some(9)),
    (21, Some(129)),
    (22, Some(135)),
    (4095, Some(24573)),
    (65536, Some(393219)),
    (100000, Some(600003)),
    (166666, Some(999999)),
    (166667, None),
];

/// Whether the other half of the thirds is left once every sixth number is taken out.
fn keeps_the_rest(set: &mut NumberSet) -> bool {
    loses_sixths(set) && set.first() == Some(3) && ranks_are(set, 166667, LEFT)
}

#[test]
fn a_sixth_of_a_million_is_left(rt: HostRuntime) -> Result<(), Fail> {
    let mut thirds = thirds(rt.alloc())?;
    assert!(rt; keeps_the_rest(&mut thirds));
    Ok(())
}
