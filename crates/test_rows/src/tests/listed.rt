//! What may come next, by its rank, beside a plain look at each event that there is.

use super::laboratory::{fires, is_done, lab_of, may_come};
use super::threads::THREE_LOGS;
use lab_any::AnyTarget;
use lab_core::{Event, Lab};
use lab_target::Target;
use std::alloc::Global;

/// A disk with a bad block, read and written.
const BAD_BLOCK: &[u8] = b"\
== table t
0 8 dust /dev/ram0 0 1024
== script
ram 0 8
create m t
message m 0 addbadblock 0
message m 0 addbadblock 0
message m 0 enable
replay
wait
message m 0 countbadblocks
status m
== log a
fio version 2 iolog
/dev/mapper/m add
/dev/mapper/m open
/dev/mapper/m read 512 1024
/dev/mapper/m write 0 512
/dev/mapper/m read 0 1024
";

/// A write that is held, while its device is suspended and resumed.
const HELD: &[u8] = b"\
== table t
0 4 delay /dev/ram0 0 1000
4 4 delay /dev/ram0 0 1000
== script
ram 0 8
create m t
replay
status m
suspend m
status m
resume m
== log a
fio version 2 iolog
/dev/mapper/m add
/dev/mapper/m open
/dev/mapper/m write 2048 512
";

/// A read with a random byte.
const RANDOM_BYTE: &[u8] = b"\
== table t
0 8 flakey /dev/ram0 0 0 1 2 random_read_corrupt 1000000000
== script
ram 0 8
create m t
table m
replay
== log a
fio version 2 iolog
/dev/mapper/m add
/dev/mapper/m open
/dev/mapper/m read 0 512
";

/// No run here makes more bios.
const BIOS: u64 = 32;

/// Whether an event that may come has the next rank of those that may, which is then counted.
fn has_rank<T: Target>(lab: &Lab<T>, event: Event, rank: &mut u64) -> bool {
    if !may_come(lab, event) {
        return true;
    }
    let has = lab.nth_enabled(*rank) == Some(event);
    *rank = rank.saturating_add(1);
    has
}

/// Whether the events of the bio of this number have the next ranks.
fn has_ranks<T: Target>(lab: &Lab<T>, number: u64, rank: &mut u64) -> bool {
    has_rank(lab, Event::Map(number), rank)
        && has_rank(lab, Event::Serve(number), rank)
        && has_rank(lab, Event::Release(number), rank)
        && has_rank(lab, Event::Finish(number), rank)
}

/// Whether the events of the script and of three logs have the next ranks.
fn front_has_ranks<T: Target>(lab: &Lab<T>, rank: &mut u64) -> bool {
    has_rank(lab, Event::Control, rank)
        && has_rank(lab, Event::Line(1), rank)
        && has_rank(lab, Event::Line(2), rank)
        && has_rank(lab, Event::Line(3), rank)
}

/// Whether just the events that may come have ranks, in the written order.
fn is_listed<T: Target>(lab: &Lab<T>) -> bool {
    let mut rank = 0;
    let mut well = front_has_ranks(lab, &mut rank);
    for number in 1..BIOS {
        well = well && has_ranks(lab, number, &mut rank);
    }
    well && has_rank(lab, Event::Clock, &mut rank) && lab.count_enabled() == rank
}

/// Where a run stands.
enum Stand {
    /// It goes on.
    Runs,
    /// All is done.
    Done,
    /// What may come isn't listed, or an event could not be fired.
    Wrong,
}

/// Fires an event that may come, picked by a word, and says whether there was one.
fn fires_one<T: Target>(alloc: Global, lab: &mut Lab<T>, word: u64) -> bool {
    let number = word.checked_rem(lab.count_enabled()).unwrap_or(0);
    match lab.nth_enabled(number) {
        Some(event) => fires(alloc, lab, event),
        None => false,
    }
}

/// Looks at what may come, and fires one of it where not all is done.
fn goes_on<T: Target>(alloc: Global, lab: &mut Lab<T>, word: u64) -> Stand {
    if !is_listed(lab) {
        return Stand::Wrong;
    }
    if is_done(lab) {
        return Stand::Done;
    }
    if fires_one(alloc, lab, word) {
        Stand::Runs
    } else {
        Stand::Wrong
    }
}

/// Whether a run by the words of a seed ends, and what may come is listed after each event.
fn ends_listed<T: Target>(alloc: Global, lab: &mut Lab<T>, seed: u64) -> bool {
    let mut word = seed;
    for _event in 0..200 {
        word = word.wrapping_mul(0x5851_f42d_4c95_7f2d).wrapping_add(1);
        match goes_on(alloc, lab, word >> 33) {
            Stand::Runs => {}
            Stand::Done => return true,
            Stand::Wrong => return false,
        }
    }
    false
}

/// Whether the run of a laboratory by the words of a seed is listed.
fn lab_is_listed<T: Target>(alloc: Global, lab: Lab<T>, seed: u64) -> bool {
    let mut lab = lab;
    let listed = ends_listed(alloc, &mut lab, seed);
    lab.discard();
    listed
}

/// Whether the run of a bundle by the words of a seed is listed.
fn run_is_listed(alloc: Global, bundle: &[u8], seed: u64) -> bool {
    match lab_of::<AnyTarget>(alloc, bundle) {
        Some(lab) => lab_is_listed(alloc, lab, seed),
        None => false,
    }
}

/// Whether the runs by 64 seeds are listed.
fn runs_are_listed(alloc: Global, bundle: &[u8]) -> bool {
    for seed in 0..64 {
        if !run_is_listed(alloc, bundle, seed) {
            return false;
        }
    }
    true
}

#[test]
fn what_may_come_is_listed_by_rank(rt: HostRuntime) {
    assert!(rt; runs_are_listed(rt.alloc(), BAD_BLOCK));
    assert!(rt; runs_are_listed(rt.alloc(), HELD));
    assert!(rt; runs_are_listed(rt.alloc(), THREE_LOGS));
    assert!(rt; runs_are_listed(rt.alloc(), RANDOM_BYTE));
}
