//! Runs that are refused memory once, and go on from where they stand. `tests/memory.sh` refuses each request of these
//! tests in turn, the starts of threads too; the second try of a call is never refused then.

ghost use Rattle.std.specs.Prelude.{◌≡◌, [], IfSome};

use super::laboratory::{drives, is_done, lab_of, reports};
use super::threads::THREE_LOGS;
use lab_any::AnyTarget;
use lab_core::Lab;
use lab_runner::{Open, run_threads};
use lab_simple::Linear;
use lab_target::Target;
use std::alloc::Global;
use std::sync::Wait;
use std::thread::Threads;

/// A write over two pages of a disk, and a read of both.
const TWO_PAGES: &[u8] = b"\
== table t
0 128 linear /dev/ram0 0
== script
ram 0 128
create m t
replay
== log a
fio version 2 iolog
/dev/mapper/m add
/dev/mapper/m open
/dev/mapper/m write 32256 1024
/dev/mapper/m read 32256 1024
";

/// What its run reports.
const TWO_PAGES_REPORT: &[u8] = b"\
accepted budget=12
log a
4 write ok
5 read 1024x14
done steps=12 clock=0 now=0
";

/// The laboratory of a bundle, at the second try where the first is refused memory.
fn lab_in_two<T: Target>(alloc: Global, bundle: &[u8]) -> Option<Lab<T>>
    ensures { IfSome result (λ lab. lab.history ≡ []) }
{
    match lab_of(alloc, bundle) {
        Some(lab) => Some(lab),
        None => lab_of(alloc, bundle),
    }
}

/// Whether a laboratory is driven to its end, at the second try where the first is refused memory.
fn ends_in_two<T: Target>(alloc: Global, lab: &mut Lab<T>) -> bool {
    drives(alloc, lab) || drives(alloc, lab)
}

/// Whether a run reports this, at the second try where the first is refused memory.
fn reports_in_two<T: Target>(alloc: Global, lab: &Lab<T>, wanted: &[u8]) -> bool {
    reports(alloc, lab, wanted) || reports(alloc, lab, wanted)
}

/// Whether a run by threads is done, or hands back a laboratory that can be driven to its end.
fn ends_by_threads<R: Threads + Wait + Sync>(rt: &R, alloc: Global, lab: Lab<AnyTarget>) -> bool
    requires { lab.history ≡ [] }
{
    match run_threads(rt, alloc, lab, &Open) {
        Ok(run) => ends_done(run.lab),
        Err(fault) => ends_driven(alloc, fault.lab),
    }
}

/// Whether a laboratory is done. It is let go by a call, as the ones below are, since an owner
/// whose scope ends with one is dear to prove.
fn ends_done<T: Target>(lab: Lab<T>) -> bool {
    let done = is_done(&lab);
    lab.discard();
    done
}

/// Whether a laboratory can be driven to its end.
fn ends_driven<T: Target>(alloc: Global, lab: Lab<T>) -> bool {
    let mut lab = lab;
    let driven = is_driven(alloc, &mut lab);
    lab.discard();
    driven
}

/// Whether a laboratory is driven to its end, and done then.
fn is_driven<T: Target>(alloc: Global, lab: &mut Lab<T>) -> bool {
    ends_in_two(alloc, lab) && is_done(lab)
}

/// Whether the run of three logs by threads ends, though it is refused memory once.
fn three_logs_end<R: Threads + Wait + Sync>(rt: &R, alloc: Global) -> bool {
    match lab_in_two(alloc, THREE_LOGS) {
        Some(lab) => ends_by_threads(rt, alloc, lab),
        None => false,
    }
}

#[test]
fn a_run_by_threads_ends_after_a_refusal(rt: HostRuntime) {
    assert!(rt; three_logs_end(&rt, rt.alloc()));
}

/// Whether a laboratory is driven to its end and reports this, though it is refused memory once.
fn goes_on<T: Target>(alloc: Global, lab: Lab<T>, wanted: &[u8]) -> bool {
    let mut lab = lab;
    let goes = ends_in_two(alloc, &mut lab) && reports_in_two(alloc, &lab, wanted);
    lab.discard();
    goes
}

/// Whether the run over two pages ends and reports what it has to, though it is refused memory once.
fn two_pages_go_on(alloc: Global) -> bool {
    match lab_in_two::<Linear>(alloc, TWO_PAGES) {
        Some(lab) => goes_on(alloc, lab, TWO_PAGES_REPORT),
        None => false,
    }
}

#[test]
fn a_run_goes_on_after_a_refusal(rt: HostRuntime) {
    assert!(rt; two_pages_go_on(rt.alloc()));
}
