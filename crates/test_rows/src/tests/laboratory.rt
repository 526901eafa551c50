//! Runs of the laboratory, event by event.

ghost use Rattle.std.specs.Prelude.{◌≡◌, [], IfSome};

use lab_core::{Action, Answer, AuditFault, Event, Lab, Outcome, Who};
use lab_simple::Linear;
use lab_target::Target;
use lab_text::{Bundle, push_runs, read_bundle};
use lab_verify::{Accepted, verify};
use std::alloc::Global;
use test_thirds::Thirds;

/// A write and a read of the first sector of a linear device.
const ONE_LOG: &[u8] = b"\
== table t
0 8 linear /dev/ram0 0
== script
ram 0 8
create m t
replay
== log a
fio version 2 iolog
/dev/mapper/m add
/dev/mapper/m open
/dev/mapper/m write 0 512
/dev/mapper/m read 0 512
/dev/mapper/m close
";

/// Its events in the written order.
const ONE_LOG_EVENTS: [Event; 13] = [
    Event::Control,
    Event::Control,
    Event::Line(1),
    Event::Line(1),
    Event::Line(1),
    Event::Map(1),
    Event::Serve(2),
    Event::Finish(1),
    Event::Line(1),
    Event::Map(3),
    Event::Serve(4),
    Event::Finish(3),
    Event::Line(1),
];

/// What its run reports.
const ONE_LOG_REPORT: &[u8] = b"\
accepted budget=13
log a
4 write ok
5 read 512x14
done steps=13 clock=0 now=0
";

/// A write of the sectors 2 to 5 of a device with blocks of three, and a read of them.
const BLOCKS: &[u8] = b"\
== table t
0 8 thirds /dev/ram0 0
== script
ram 0 8
create m t
replay
== log a
fio version 2 iolog
/dev/mapper/m add
/dev/mapper/m open
/dev/mapper/m write 1024 2048
/dev/mapper/m read 1024 2048
";

/// Its events in the written order: each bio has two pieces.
const BLOCKS_EVENTS: [Event; 14] = [
    Event::Control,
    Event::Control,
    Event::Line(1),
    Event::Line(1),
    Event::Line(1),
    Event::Map(1),
    Event::Serve(2),
    Event::Serve(3),
    Event::Finish(1),
    Event::Line(1),
    Event::Map(4),
    Event::Serve(5),
    Event::Serve(6),
    Event::Finish(4),
];

/// The laboratory of a bundle before its first event.
pub(super) fn lab_of<T: Target>(alloc: Global, bundle: &[u8]) -> Option<Lab<T>>
    ensures { IfSome result (λ lab. lab.history ≡ []) }
{
    begun(alloc, accepted_of(alloc, bundle)?)
}

/// The laboratory of an accepted scenario before its first event.
fn begun<T: Target>(alloc: Global, accepted: Accepted<T>) -> Option<Lab<T>>
    ensures { IfSome result (λ lab. lab.history ≡ []) }
{
    Lab::new(alloc, accepted).ok()
}

/// A bundle's accepted scenario. Nothing is ensured of it, nor of the calls below: what asks them is proved without
/// what is known of a run.
fn accepted_of<T: Target>(alloc: Global, bundle: &[u8]) -> Option<Accepted<T>> {
    let bundle = read_bundle(alloc, bundle).ok()?;
    verified(alloc, &bundle)
}

/// The accepted scenario of the parts of a bundle.
fn verified<T: Target>(alloc: Global, bundle: &Bundle<'_>) -> Option<Accepted<T>> {
    verify(alloc, bundle).ok()
}

/// Whether a laboratory could be driven to its end.
pub(super) fn drives<T: Target>(alloc: Global, lab: &mut Lab<T>) -> bool {
    lab.drive(alloc).is_ok()
}

/// Whether a laboratory could be run to its end by the words of a seed.
fn simulates<T: Target>(alloc: Global, lab: &mut Lab<T>, seed: u64) -> bool {
    lab.simulate(alloc, seed).is_ok()
}

/// Whether an event may come and could be fired.
pub(super) fn fires<T: Target>(alloc: Global, lab: &mut Lab<T>, event: Event) -> bool {
    lab.is_enabled(event) && lab.fire(alloc, event).is_ok()
}

/// Whether an event may come.
pub(super) fn may_come<T: Target>(lab: &Lab<T>, event: Event) -> bool {
    lab.is_enabled(event)
}

/// Whether nothing is left of this one.
fn is_over<T: Target>(lab: &Lab<T>, who: Who) -> bool {
    lab.is_over(who)
}

/// Whether all is done.
pub(super) fn is_done<T: Target>(lab: &Lab<T>) -> bool {
    lab.is_done()
}

/// Whether this event is the only one that may come next.
fn may_come_alone<T: Target>(lab: &Lab<T>, event: Event) -> bool {
    lab.count_enabled() == 1 && lab.nth_enabled(0) == Some(event) && lab.is_enabled(event)
}

/// Whether a script's command is the first event that may come, and the logs have not started.
fn begins_by_its_script<T: Target>(lab: &Lab<T>) -> bool {
    lab.next_event() == Some(Event::Control)
        && lab.next_for(Who::Control) == Some(Event::Control)
        && lab.next_for(Who::Log(1)).is_none()
}

/// Whether nothing is over and nothing answered.
fn is_fresh<T: Target>(lab: &Lab<T>) -> bool {
    !is_over(lab, Who::Control) && !may_come(lab, Event::Line(1)) && lab.answers(1).is_empty()
}

/// Whether all is done after these events.
fn ends_by<T: Target>(lab: &Lab<T>, events: &[Event]) -> bool {
    is_done(lab)
        && is_over(lab, Who::Log(1))
        && lab.next_event().is_none()
        && lab.nth_enabled(0).is_none()
        && lab.history() == events
}

/// Whether the laboratory tells so many events, so many of the clock's, this moment and this budget.
fn counts<T: Target>(lab: &Lab<T>, steps: u64, ticks: u64, now: u64, budget: u64) -> bool {
    lab.steps() == steps && lab.clock_steps() == ticks && lab.now() == now && lab.budget() == budget
}

/// Whether a complete run reports this.
pub(super) fn reports<T: Target>(alloc: Global, lab: &Lab<T>, wanted: &[u8]) -> bool {
    lab.is_done() && matches!(lab.report(alloc), Ok(report) if report.as_slice() == wanted)
}

/// What a laboratory does, and what is looked at then.
#[derive(Clone, Copy)]
enum Course {
    /// It is looked at before its first event, and driven to its end: `ONE_LOG`.
    InOrder,
    /// It is driven to its end, and its answers are looked at: `BLOCKS`.
    InPieces,
    /// It is run to its end by the words of this seed: `ONE_LOG`.
    BySeed(u64),
    /// The first event of its script is fired: `ONE_LOG`.
    ByOne,
}

/// Whether the laboratory of a bundle goes a course as it has to.
fn goes<T: Target>(alloc: Global, bundle: &[u8], course: Course) -> bool {
    match lab_of::<T>(alloc, bundle) {
        Some(lab) => lab_goes(alloc, lab, course),
        None => false,
    }
}

/// Whether a laboratory goes a course as it has to. It is let go by a call, since an owner whose
/// scope ends with one is dear to prove.
fn lab_goes<T: Target>(alloc: Global, lab: Lab<T>, course: Course) -> bool {
    let mut lab = lab;
    let goes = goes_so(alloc, &mut lab, course);
    lab.discard();
    goes
}

/// Whether a borrowed laboratory goes a course as it has to.
fn goes_so<T: Target>(alloc: Global, lab: &mut Lab<T>, course: Course) -> bool {
    match course {
        Course::InOrder => goes_in_order(alloc, lab),
        Course::InPieces => goes_in_pieces(alloc, lab),
        Course::BySeed(seed) => simulates(alloc, lab, seed) && ends_by(lab, &ONE_LOG_EVENTS),
        Course::ByOne => goes_by_one(alloc, lab),
    }
}

/// Whether the laboratory of a write and a read begins and ends as it has to.
fn goes_in_order<T: Target>(alloc: Global, lab: &mut Lab<T>) -> bool {
    begins(lab) && drives(alloc, lab) && ends(alloc, lab)
}

/// Whether it stands before its script's first command.
fn begins<T: Target>(lab: &Lab<T>) -> bool {
    is_fresh(lab) && begins_by_its_script(lab) && may_come_alone(lab, Event::Control)
}

/// Whether it has ended by its events in the written order, with its counts and its report.
fn ends<T: Target>(alloc: Global, lab: &Lab<T>) -> bool {
    ends_by(lab, &ONE_LOG_EVENTS)
        && counts(lab, 13, 0, 0, 13)
        && reports(alloc, lab, ONE_LOG_REPORT)
}

/// Whether the laboratory of a device with blocks ends by its events, and its answers are fine.
fn goes_in_pieces<T: Target>(alloc: Global, lab: &mut Lab<T>) -> bool {
    drives(alloc, lab)
        && ends_by(lab, &BLOCKS_EVENTS)
        && are_fine(alloc, lab.answers(1), b"2048x14")
}

/// Whether the first event of the script of a laboratory is fired, and is all that has come.
fn goes_by_one<T: Target>(alloc: Global, lab: &mut Lab<T>) -> bool {
    fires(alloc, lab, Event::Control)
        && lab.history() == [Event::Control].as_slice()
        && counts(lab, 1, 0, 0, 13)
}

/// The fault of an audit of these events on a bundle.
fn fault_of<T: Target>(alloc: Global, bundle: &[u8], events: &[Event]) -> Option<AuditFault> {
    audited(alloc, accepted_of::<T>(alloc, bundle)?, events)
}

/// The fault of an audit of these events on an accepted scenario.
fn audited<T: Target>(
    alloc: Global,
    accepted: Accepted<T>,
    events: &[Event],
) -> Option<AuditFault> {
    Lab::audit(alloc, accepted, events).err()
}

/// Whether an audit of a whole run has no fault, and those of a run without its first event and of one without its last
/// tell the event.
fn faults_are_told(alloc: Global) -> bool {
    fault_of::<Linear>(alloc, ONE_LOG, &ONE_LOG_EVENTS).is_none()
        && fault_of::<Linear>(alloc, ONE_LOG, &ONE_LOG_EVENTS[1..])
            == Some(AuditFault::NotEnabled(2))
        && fault_of::<Linear>(alloc, ONE_LOG, &ONE_LOG_EVENTS[..12])
            == Some(AuditFault::Unfinished(13))
}

/// Whether these are the answers to a write and to a read of runs with this text.
fn are_fine(alloc: Global, answers: &[Answer], runs_text: &[u8]) -> bool {
    let [write, read] = answers else {
        return false;
    };
    let Outcome::Runs(runs) = &read.outcome else {
        return false;
    };
    let mut text = Vec::new(alloc);
    matches!(write.outcome, Outcome::Fine)
        && write.action == Action::Write
        && read.action == Action::Read
        && push_runs(&mut text, runs).is_ok()
        && text.as_slice() == runs_text
}

#[test]
fn a_driven_run_has_the_events_of_the_written_order(rt: HostRuntime) {
    assert!(rt; goes::<Linear>(rt.alloc(), ONE_LOG, Course::InOrder));
}

#[test]
fn a_bio_is_cut_at_the_blocks_of_its_target(rt: HostRuntime) {
    assert!(rt; goes::<Thirds>(rt.alloc(), BLOCKS, Course::InPieces));
}

#[test]
fn an_audit_tells_the_first_event_that_may_not_come(rt: HostRuntime) {
    assert!(rt; faults_are_told(rt.alloc()));
}

#[test]
fn a_seed_picks_the_only_event_that_may_come(rt: HostRuntime) {
    assert!(rt; goes::<Linear>(rt.alloc(), ONE_LOG, Course::BySeed(7)));
}

#[test]
fn one_event_is_fired(rt: HostRuntime) {
    assert!(rt; goes::<Linear>(rt.alloc(), ONE_LOG, Course::ByOne));
}
