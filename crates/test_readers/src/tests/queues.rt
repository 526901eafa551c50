use lab_queue::{DelayQueue, MomentQueue};
use lab_sector::NoMemory;
use std::alloc::Global;
use std::test::Fail;

/// Three held bios: 7 and 3 by device 1 until 5000 microseconds, 5 by device 0 until 9000.
fn three_held(alloc: Global) -> Result<DelayQueue, NoMemory> {
    let mut queue = DelayQueue::new(alloc);
    for (number, due, holder) in [(7, 5000, 1), (3, 5000, 1), (5, 9000, 0)] {
        queue.take(number);
        queue.reserve(1)?;
        queue.hold(number, due, holder);
    }
    Ok(queue)
}

/// Whether a queue holds nothing.
fn has_nothing_due(queue: &mut DelayQueue) -> bool {
    queue.first_due().is_none()
        && queue.next_after(0).is_none()
        && queue.least_due(u64::MAX).is_none()
        && !queue.take(7)
}

#[test]
fn an_empty_queue_has_nothing_due(rt: HostRuntime) {
    let mut queue = DelayQueue::new(rt.alloc());
    assert!(rt; has_nothing_due(&mut queue));
}

/// Whether the three held bios come due in order, the lower number first where two are due at once.
fn lower_is_first(queue: &mut DelayQueue) -> bool {
    queue.least_due(4999).is_none()
        && queue.least_due(5000) == Some(3)
        && queue.next_after(4999) == Some(5000)
        && queue.next_after(5000) == Some(9000)
        && queue.first_due() == Some(5000)
        && queue.take(3)
        && queue.least_due(5000) == Some(7)
        && queue.next_after(9000).is_none()
}

#[test]
fn of_equal_moments_the_lower_number_is_first(rt: HostRuntime) -> Result<(), Fail> {
    let mut queue = three_held(rt.alloc())?;
    assert!(rt; lower_is_first(&mut queue));
    Ok(())
}

/// Whether a device holds just these bios.
fn holds(alloc: Global, queue: &DelayQueue, device: u32, wanted: &[u64]) -> Result<bool, NoMemory> {
    let held = queue.of_device(alloc, device)?;
    Ok(held.as_slice() == wanted)
}

/// Whether the two bios of a device rise by number.
fn two_rise(alloc: Global) -> Result<bool, NoMemory> {
    let queue = three_held(alloc)?;
    holds(alloc, &queue, 1, &[3, 7])
}

#[test]
fn the_bios_that_a_device_holds_rise_by_number(rt: HostRuntime) -> Result<(), Fail> {
    assert!(rt; two_rise(rt.alloc())?);
    Ok(())
}

/// Three bios without a holder: 7 and 3 until 5000 microseconds, 5 until 9000.
fn three_moments(alloc: Global) -> Result<MomentQueue, NoMemory> {
    let mut queue = MomentQueue::new(alloc);
    queue.reserve(3)?;
    queue.hold(7, 5000);
    queue.hold(3, 5000);
    queue.hold(5, 9000);
    Ok(queue)
}

/// Takes out the bio that is due first by a moment, if one is, and tells its number.
fn taken(queue: &mut MomentQueue, now: u64) -> Option<u64> {
    let first = queue.least_due(now)?;
    queue.take(first.number, first.moment);
    Some(first.number)
}

/// Whether the three come due in order, the lower number first where two are due at once, and then none does.
fn come_in_order(queue: &mut MomentQueue) -> bool {
    taken(queue, 4999).is_none()
        && taken(queue, 5000) == Some(3)
        && taken(queue, 9000) == Some(7)
        && queue.first_due() == Some(9000)
        && taken(queue, 8999).is_none()
        && taken(queue, 9000) == Some(5)
        && queue.first_due().is_none()
}

#[test]
fn bios_come_due_by_moment_and_then_by_number(rt: HostRuntime) -> Result<(), Fail> {
    let mut queue = three_moments(rt.alloc())?;
    assert!(rt; queue.first_due() == Some(5000));
    assert!(rt; come_in_order(&mut queue));
    Ok(())
}
