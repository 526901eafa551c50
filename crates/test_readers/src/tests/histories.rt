use lab_history::{push_history, read_history};
use lab_model::Event;
use std::alloc::Global;
use std::test::Fail;

/// A history that is written freely, with an event of each kind and the greatest numbers.
const WRITTEN: &[u8] = b"\
# a run

 \t
control
\tline  0001\x20
#clock
map 0
serve 00000000000000000007
finish 3
line 4294967295
release 18446744073709551615
clock";

/// Its events as they are printed.
const PRINTED: &[u8] = b"\
control
line 1
map 0
serve 7
finish 3
line 4294967295
release 18446744073709551615
clock
";

/// These events.
const EVENTS: [Event; 8] = [
    Event::Control,
    Event::Line(1),
    Event::Map(0),
    Event::Serve(7),
    Event::Finish(3),
    Event::Line(4_294_967_295),
    Event::Release(18_446_744_073_709_551_615),
    Event::Clock,
];

/// Whether a text has these events.
fn has_events(alloc: Global, text: &[u8], wanted: &[Event]) -> Result<bool, Fail> {
    let events = read_history(alloc, text)?;
    Ok(events.as_slice() == wanted)
}

/// Whether events are printed so behind a heading.
fn prints(alloc: Global, events: &[Event], wanted: &[u8]) -> Result<bool, Fail> {
    let mut text = b"== history\n".to_vec(alloc)?;
    push_history(&mut text, events)?;
    Ok(text.strip_prefix(b"== history\n") == Some(wanted))
}

/// Whether a history that is written freely, a printed one and an empty one have their events.
fn have_events(alloc: Global) -> Result<bool, Fail> {
    Ok(
        has_events(alloc, WRITTEN, &EVENTS)?
            && has_events(alloc, PRINTED, &EVENTS)?
            && has_events(alloc, b"", &[])?,
    )
}

#[test]
fn a_history_is_read(rt: HostRuntime) -> Result<(), Fail> {
    assert!(rt; have_events(rt.alloc())?);
    Ok(())
}

#[test]
fn a_history_is_printed(rt: HostRuntime) -> Result<(), Fail> {
    assert!(rt; prints(rt.alloc(), &EVENTS, PRINTED)? && prints(rt.alloc(), &[], b"")?);
    Ok(())
}
