//! Who wrote what a read of a disk is answered.

use lab_model::{Action, Event};
use lab_next::{Origin, Writer, origin_of, writer_of};
use lab_sector::{DevNo, NoMemory, Span};
use lab_simple::Linear;
use lab_state::{Bio, Logs, MarkPlaces, MarkValues, Parent, Stage, State, Traffic, Written};
use lab_watch::{Kept, Row, Run, Writers};
use std::alloc::Global;

/// A request of the first log's line for the first sectors of a disk.
fn request(alloc: Global, line: u64, action: Action, count: u64) -> Bio {
    Bio {
        kind: action.kind(),
        device: DevNo::Ram(0),
        values: MarkValues::none(),
        parent: Parent::FromLog(1, line, action),
        written: Written::none(alloc),
        stage: Stage::Entering,
        span: Span {
            first: 0,
            len: count,
        },
        places: MarkPlaces::none(),
    }
}

/// Makes a write of one sector, on line 4, and a read of two, on line 5.
fn push_two(alloc: Global, traffic: &mut Traffic<Linear>) -> Result<(), NoMemory> {
    traffic.push(request(alloc, 4, Action::Write, 1))?;
    traffic.push(request(alloc, 5, Action::Read, 2))
}

/// A state that has started, without a disk, a device or a log.
fn started(alloc: Global) -> State<Linear> {
    State {
        traffic: Traffic::new(alloc),
        disks: Vec::new(alloc),
        logs: Logs::new(alloc),
        started: true,
        done: 0,
        moment: 0,
        replies: Vec::new(alloc),
    }
}

/// All is kept.
const ALL: Kept = Kept {
    reads: true,
    drops: true,
};

/// Hears of an event, and settles what it answers.
fn pass(
    alloc: Global,
    writers: &mut Writers,
    state: &State<Linear>,
    event: Event,
) -> Result<(), NoMemory> {
    writers.hear(alloc, state, event)?;
    writers.settle(state, event)
}

/// Who wrote what the read is answered, once the disk has served the write and then the read.
fn told_of_the_read(alloc: Global, state: &State<Linear>) -> Result<Row, NoMemory> {
    let mut writers = Writers::new(alloc, ALL);
    pass(alloc, &mut writers, state, Event::Serve(1))?;
    writers.hear(alloc, state, Event::Serve(2))?;
    writers.told(alloc, state, Event::Serve(2))
}

/// The write, as where a bio comes from.
const WRITE: Origin = Origin { log: 1, line: 4 };

/// The first sector of the write.
const FIRST: Writer = Writer {
    origin: WRITE,
    sector: 0,
};

/// One sector that this one wrote.
fn one(writer: Option<Writer>) -> Run {
    Run { count: 1, writer }
}

/// Whether the read is told that the write's first sector stands in its first one, and nobody's in its second one.
fn read_is_told(alloc: Global, state: &State<Linear>) -> bool {
    matches!(told_of_the_read(alloc, state), Ok(told)
        if told.runs() == [one(Some(FIRST)), one(None)].as_slice())
}

/// Whether the two requests can be made in a state, and the write tells who it is, and the read who wrote its sectors.
fn tell(alloc: Global, state: &mut State<Linear>) -> bool {
    push_two(alloc, &mut state.traffic).is_ok()
        && origin_of(state, 1) == Some(WRITE)
        && writer_of(state, 1) == Some(FIRST)
        && read_is_told(alloc, state)
}

/// Whether two requests tell who wrote what. The state is let go by a call, since an owner whose
/// scope ends with one is dear to prove.
fn two_tell(alloc: Global) -> bool {
    let mut state = started(alloc);
    let well = tell(alloc, &mut state);
    drop(state);
    well
}

// The first sector was written by line 4, the second one by nobody.
#[test]
fn a_read_tells_who_wrote_its_sectors(rt: HostRuntime) {
    assert!(rt; two_tell(rt.alloc()));
}
