use lab_index::Groups;
use lab_sector::NoMemory;
use std::alloc::Global;
use std::test::Fail;

/// Two groups: 9 and 4 in the first, 4 and 7 in the second.
fn two_groups(alloc: Global) -> Result<Groups, NoMemory> {
    let mut groups = Groups::new(alloc);
    groups.open(2)?;
    for (group, number) in [(0, 9), (0, 4), (1, 4), (1, 7)] {
        if group < groups.count() {
            groups.insert(group, number)?;
        }
    }
    Ok(groups)
}

/// Whether the numbers of each group come in order, and none of another.
fn comes_in_order(groups: &Groups) -> bool {
    groups.count() == 2
        && groups.next(0, 0) == Some(4)
        && groups.next(0, 5) == Some(9)
        && groups.next(0, 10).is_none()
        && groups.next(1, 5) == Some(7)
        && groups.next(2, 0).is_none()
}

#[test]
fn the_numbers_of_a_group_rise(rt: HostRuntime) -> Result<(), Fail> {
    let groups = two_groups(rt.alloc())?;
    assert!(rt; comes_in_order(&groups));
    Ok(())
}

/// Whether a number that is taken out of one group stays in the other, until the groups are closed.
fn leaves_one(groups: &mut Groups) -> bool {
    groups.remove(0, 4);
    let left = groups.next(0, 0) == Some(9) && groups.next(1, 0) == Some(4);
    groups.close();
    left && groups.count() == 0 && groups.next(1, 0).is_none()
}

#[test]
fn a_number_leaves_one_group(rt: HostRuntime) -> Result<(), Fail> {
    let mut groups = two_groups(rt.alloc())?;
    assert!(rt; leaves_one(&mut groups));
    Ok(())
}
