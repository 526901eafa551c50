use lab_model::Action;
use lab_sector::{DevNo, Kind, NoMemory, Span};
use lab_simple::Linear;
use lab_state::{Bio, MarkPlaces, MarkValues, Parent, Stage, Traffic, Written};
use std::alloc::Global;
use std::test::Fail;

/// A read of the first sector of a disk, of the first log, that enters it.
fn read(alloc: Global) -> Bio {
    Bio {
        kind: Kind::Read,
        device: DevNo::Ram(0),
        values: MarkValues::none(),
        parent: Parent::FromLog(1, 1, Action::Read),
        written: Written::none(alloc),
        stage: Stage::Entering,
        span: Span { first: 0, len: 1 },
        places: MarkPlaces::none(),
    }
}

/// Two bios are made.
fn push_two(alloc: Global, traffic: &mut Traffic<Linear>) -> Result<(), NoMemory> {
    traffic.push(read(alloc))?;
    traffic.push(read(alloc))
}

/// Whether the first of two bios can be answered, and only the second one lives then.
fn answers_one(traffic: &mut Traffic<Linear>) -> bool {
    traffic.end(1).is_some()
        && traffic.count_living() == 1
        && traffic.get(1).is_none()
        && traffic.get(2).is_some()
}

/// Whether two bios can be made and the first one answered.
fn answers_one_of_two(alloc: Global, traffic: &mut Traffic<Linear>) -> Result<bool, NoMemory> {
    push_two(alloc, traffic)?;
    Ok(answers_one(traffic))
}

/// Whether the first of two bios is gone once it is answered. The requests are let go by a call,
/// since an owner whose scope ends with them is dear to prove.
fn is_gone(alloc: Global) -> Result<bool, NoMemory> {
    let mut traffic = Traffic::new(alloc);
    let gone = answers_one_of_two(alloc, &mut traffic);
    drop(traffic);
    gone
}

// Two bios are made, and the first is answered.
#[test]
fn an_answered_number_is_not_used_again(rt: HostRuntime) -> Result<(), Fail> {
    assert!(rt; is_gone(rt.alloc())?);
    Ok(())
}
